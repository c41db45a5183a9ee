// What the mirrors of variables would save: for each element that is reached by a variable, or by a sum of it and a
// number, the instructions of its address, and for each time that the variable changes as many are spent. Each counts 8
// to the number of loops around it.

ghost use Rattle.std.specs.Prelude.{◌≡◌, map, slice_index, IfOk};
ghost use Rattle.codegen.specs.Below.{straight_block, straight_tree, term_tree};
ghost use Rattle.codegen.specs.private.MirrorUses.{changed_by, changed_by_all, followed, kind_for, mirror_kind};
ghost use Rattle.codegen.specs.private.MirrorUses.{mirror_weight, reached, reached_by};
ghost use Rattle.codegen.specs.private.MirrorUses.{reached_by_all, reached_in, reached_in_terms, reached_of};
ghost use Rattle.codegen.specs.private.MirrorUses.{uses_of};
ghost use Rattle.expression_code.specs.TermCode.{kind_at};

use branch_removal::{StraightCode, StraightStatement, count_use, weight_inside};
use inline::{FlatVariable, Term};
use language::Kind;
use std::alloc::{AllocError, Global};
use std::marker::Model;

/// Elements of so many bytes, of arrays of these variables.
#[derive(Clone, Copy)]
struct Elements<'d> {
    declared: &'d [FlatVariable],
    bytes: u16,
}

/// The variable that an index follows.
fn followed(index: &Term) -> Option<u32>
    ensures { result ≡ followed (term_tree index.now) }
{
    match index {
        Term::Variable(variable) => Some(*variable),
        Term::Binary(_, _, _, left, right) => match (&**left, &**right) {
            (Term::Variable(variable), Term::Number(_, _)) => Some(*variable),
            _ => None,
        },
        _ => None,
    }
}

/// The kind of an array's elements.
fn kind_at(declared: &[FlatVariable], array: u32) -> Kind
    ensures { result ≡ kind_at declared.now array }
{
    match declared.get(array as usize) {
        Some(variable) => variable.word.kind,
        None => Kind::Uint32,
    }
}

/// Counts an access to an element of an array.
fn count_access(counts: &mut [u64], elements: Elements<'_>, weight: u64, array: u32, index: &Term)
    ensures { counts.new
        ≡ reached elements.entry.declared.now elements.entry.bytes weight array (term_tree index.now) counts.old }
{
    if kind_at(elements.declared, array).element_bytes() != elements.bytes {
        return;
    }
    if let Some(variable) = followed(index) {
        count_use(counts, weight, variable);
    }
}

/// Counts the accesses in an expression.
fn count_in(counts: &mut [u64], elements: Elements<'_>, weight: u64, term: &Term)
    ensures { counts.new
        ≡ reached_in elements.entry.declared.now elements.entry.bytes weight (term_tree term.now) counts.old }
{
    match term {
        Term::Number(_, _) | Term::Truth(_) | Term::Variable(_) => {}
        Term::Prefix(_, _, operand) | Term::Rotate(_, operand, _) | Term::Convert(_, operand) => {
            count_in(counts, elements, weight, operand);
        }
        Term::Binary(_, _, _, left, right) => {
            count_in(counts, elements, weight, left);
            count_in(counts, elements, weight, right);
        }
        Term::Select(condition, accepted, otherwise) => {
            count_in(counts, elements, weight, condition);
            count_in(counts, elements, weight, accepted);
            count_in(counts, elements, weight, otherwise);
        }
        Term::Element(_, array, _, index) => {
            count_access(counts, elements, weight, *array, index);
            count_in(counts, elements, weight, index);
        }
    }
}

/// Counts the accesses in expressions.
fn count_in_terms(counts: &mut [u64], elements: Elements<'_>, weight: u64, terms: &[Term])
    ensures { counts.new ≡ reached_in_terms elements.entry.declared.now elements.entry.bytes weight
        (map term_tree terms.now) counts.old }
{
    for term in terms {
        count_in(counts, elements, weight, term);
    }
}

/// Counts the accesses of a statement.
#[cycle(accesses)]
fn count_by(counts: &mut [u64], elements: Elements<'_>, weight: u64, statement: &StraightStatement)
    ensures { counts.new
        ≡ reached_by elements.entry.declared.now elements.entry.bytes weight (straight_tree statement.now) counts.old }
{
    match statement {
        StraightStatement::Set(_, _, value) | StraightStatement::Take(_, _, value) => {
            count_in(counts, elements, weight, value);
        }
        StraightStatement::Array(_, _, values) => count_in_terms(counts, elements, weight, values),
        StraightStatement::Put(_, _, array, _, index, value) => {
            count_access(counts, elements, weight, *array, index);
            count_in(counts, elements, weight, index);
            count_in(counts, elements, weight, value);
        }
        StraightStatement::Branch(condition, accepted, otherwise) => {
            count_in(counts, elements, weight, condition);
            count_by_all(counts, elements, weight, accepted);
            count_by_all(counts, elements, weight, otherwise);
        }
        StraightStatement::Repeat(_, low, high, body) => {
            count_in(counts, elements, weight, low);
            count_in(counts, elements, weight, high);
            count_by_all(counts, elements, weight_inside(weight), body);
        }
    }
}

/// Counts the accesses of statements.
#[cycle(accesses)]
fn count_by_all(
    counts: &mut [u64],
    elements: Elements<'_>,
    weight: u64,
    statements: &[StraightStatement],
)
    ensures { counts.new ≡ reached_by_all elements.entry.declared.now elements.entry.bytes weight
        (straight_block statements.now) counts.old }
{
    for statement in statements {
        count_by(counts, elements, weight, statement);
    }
}

/// Counts the changes that a statement makes of variables.
#[cycle(changes)]
fn count_changes(counts: &mut [u64], weight: u64, statement: &StraightStatement)
    ensures { counts.new ≡ changed_by weight (straight_tree statement.now) counts.old }
{
    match statement {
        StraightStatement::Set(_, variable, _) => count_use(counts, weight, *variable),
        StraightStatement::Array(_, _, _)
        | StraightStatement::Put(_, _, _, _, _, _)
        | StraightStatement::Take(_, _, _) => {}
        StraightStatement::Branch(_, accepted, otherwise) => {
            count_all_changes(counts, weight, accepted);
            count_all_changes(counts, weight, otherwise);
        }
        StraightStatement::Repeat(counter, _, _, body) => {
            let inside = weight_inside(weight);
            count_use(counts, weight, *counter);
            count_use(counts, inside, *counter);
            count_all_changes(counts, inside, body);
        }
    }
}

/// Counts the changes that statements make of variables.
#[cycle(changes)]
fn count_all_changes(counts: &mut [u64], weight: u64, statements: &[StraightStatement])
    ensures { counts.new ≡ changed_by_all weight (straight_block statements.now) counts.old }
{
    for statement in statements {
        count_changes(counts, weight, statement);
    }
}

/// How often elements of so many bytes are reached by each variable.
fn reached_of(
    alloc: Global,
    straight: &StraightCode<'_>,
    bytes: u16,
) -> Result<Vec<u64>, AllocError>
    ensures { IfOk result (λ counts. counts.items ≡ reached_of straight.now bytes) }
{
    let declared = straight.declared();
    let mut counts = vec![in alloc; 0; declared.len()]?;
    let elements = Elements { declared, bytes };
    count_by_all(counts.as_mut_slice(), elements, 1, straight.body());
    Ok(counts)
}

/// Of each variable, by its number, how often it reaches elements of one, of two and of four bytes, and how often it
/// changes.
#[derive(Drop)]
pub struct MirrorUses {
    ones: Vec<u64>,
    twos: Vec<u64>,
    fours: Vec<u64>,
    changes: Vec<u64>,
}

impl Model for MirrorUses {
    ghost use Rattle.codegen.specs.private.MirrorUses.{Uses};

    ghost Value = { Uses };

    ghost view = { λ uses. record {
      ones = uses.ones.items;
      twos = uses.twos.items;
      fours = uses.fours.items;
      changes = uses.changes.items;
    } };
}

/// A count of a variable.
fn count_of(counts: &[u64], variable: usize) -> u64
    ensures { result ≡ slice_index counts.now variable }
{
    counts.get(variable).copied().unwrap_or(0)
}

/// For which elements a mirror is, by how often those of one, two and four bytes are reached.
fn kind_for(one: u64, two: u64, four: u64) -> Kind
    ensures { result ≡ kind_for one two four }
{
    if one <= four && two <= four {
        Kind::Uint32
    } else if one <= two {
        Kind::Uint16
    } else {
        Kind::Uint8
    }
}

impl MirrorUses {
    /// Those of a program.
    pub fn of(alloc: Global, straight: &StraightCode<'_>) -> Result<Self, AllocError>
        ensures { IfOk result (λ uses. uses ≡ uses_of straight.now) }
    {
        let mut changes = vec![in alloc; 0; straight.declared().len()]?;
        count_all_changes(changes.as_mut_slice(), 1, straight.body());
        Ok(MirrorUses {
            ones: reached_of(alloc, straight, 1)?,
            twos: reached_of(alloc, straight, 2)?,
            fours: reached_of(alloc, straight, 4)?,
            changes,
        })
    }

    /// For which elements the mirror of a variable is.
    pub fn kind(&self, variable: usize) -> Kind
        ensures { result ≡ mirror_kind self.now variable }
    {
        let one = count_of(self.ones.as_slice(), variable);
        let two = count_of(self.twos.as_slice(), variable);
        let four = count_of(self.fours.as_slice(), variable);
        kind_for(one, two, four)
    }

    /// The instructions that the mirror of a variable would save.
    pub fn saved(&self, variable: usize) -> u64
        ensures { result ≡ mirror_weight self.now variable }
    {
        let changes = count_of(self.changes.as_slice(), variable);
        match self.kind(variable) {
            Kind::Uint32 => {
                let four = count_of(self.fours.as_slice(), variable);
                four.saturating_sub(changes).saturating_mul(2)
            }
            Kind::Uint16 => {
                let two = count_of(self.twos.as_slice(), variable);
                two.saturating_sub(changes).saturating_mul(2)
            }
            Kind::Boolean | Kind::Uint8 => {
                let one = count_of(self.ones.as_slice(), variable);
                one.saturating_sub(changes)
            }
        }
    }
}
