// How much a program uses each number that no instruction holds: each use counts 8 to the number of loops around it.

ghost use Rattle.std.specs.Prelude.{◌≡◌, map, IfOk, OnOk};
ghost use Rattle.variable_room.specs.Below.{straight_block, straight_tree, term_tree};
ghost use Rattle.variable_room.specs.number_words.private.Uses as definitions;
ghost use Rattle.variable_room.specs.number_words.private.Uses.{counted, counted_by, counted_by_all, counted_in};
ghost use Rattle.variable_room.specs.number_words.private.Uses.{counted_in_terms, heavier, is_long, same_number};
ghost use Rattle.variable_room.specs.number_words.private.Uses.{uses_of};

use branch_removal::{StraightCode, StraightStatement, weight_inside};
use inline::Term;
use language::Kind;
use std::alloc::{AllocError, Global};

/// How many different numbers are counted, the first ones.
const MOST_COUNTED: usize = 256;

/// The least word that 12 bits do not hold in two's complement.
const LEAST_LONG: u32 = 2048;

/// The least of the words behind it that they hold, which are less than 0.
const LEAST_NEGATIVE: u32 = 0xffff_f800;

/// A number of a kind.
#[derive(Clone, Copy)]
pub struct TypedNumber {
    pub value: u32,
    pub kind: Kind,
}

/// A number, and how much it is used.
#[derive(Clone, Copy)]
pub struct NumberUse {
    pub number: TypedNumber,
    pub weight: u64,
}

/// Whether no instruction holds a number.
fn is_long(value: u32) -> bool
    ensures { result ≡ is_long value }
{
    LEAST_LONG <= value && value < LEAST_NEGATIVE
}

/// Whether two numbers are the same one, of the same kind.
pub fn same_number(one: TypedNumber, other: TypedNumber) -> bool
    ensures { result ≡ same_number one other }
{
    one.value == other.value && one.kind.is_same(other.kind)
}

/// Where a number stands among those that are counted; behind the last of them where it is none.
fn place_of(uses: &[NumberUse], number: TypedNumber) -> usize
    ensures { result ≡ definitions.place_of uses.now number }
{
    for (place, each) in uses.iter().enumerate() {
        if same_number(each.number, number) {
            return place;
        }
    }
    uses.len()
}

/// A number is used more by so much.
fn add_weight(uses: &mut Vec<NumberUse>, place: usize, weight: u64)
    ensures { uses.new.items ≡ heavier place weight uses.old.items }
{
    if let Some(each) = uses.get_mut(place) {
        each.weight = each.weight.saturating_add(weight);
    }
}

/// Counts a use of a number that no instruction holds.
fn count(uses: &mut Vec<NumberUse>, weight: u64, number: TypedNumber) -> Result<(), AllocError>
    ensures { OnOk result (uses.new.items ≡ counted weight number uses.old.items) }
{
    let place = place_of(uses.as_slice(), number);
    if place < uses.len() {
        add_weight(uses, place, weight);
    } else if is_long(number.value) && uses.len() < MOST_COUNTED {
        uses.push(NumberUse { number, weight })?;
    }
    Ok(())
}

/// Counts the uses in an expression.
fn count_in(uses: &mut Vec<NumberUse>, weight: u64, term: &Term) -> Result<(), AllocError>
    ensures { OnOk result (uses.new.items ≡ counted_in weight (term_tree term.now) uses.old.items) }
{
    match term {
        Term::Number(value, kind) => {
            let number = TypedNumber {
                value: *value,
                kind: *kind,
            };
            count(uses, weight, number)
        }
        Term::Truth(_) | Term::Variable(_) => Ok(()),
        Term::Prefix(_, _, operand)
        | Term::Rotate(_, operand, _)
        | Term::Convert(_, operand)
        | Term::Element(_, _, _, operand) => count_in(uses, weight, operand),
        Term::Binary(_, _, _, left, right) => {
            count_in(uses, weight, left)?;
            count_in(uses, weight, right)
        }
        Term::Select(condition, accepted, otherwise) => {
            count_in(uses, weight, condition)?;
            count_in(uses, weight, accepted)?;
            count_in(uses, weight, otherwise)
        }
    }
}

/// Counts the uses in expressions.
fn count_in_terms(uses: &mut Vec<NumberUse>, weight: u64, terms: &[Term]) -> Result<(), AllocError>
    ensures { OnOk result (uses.new.items ≡ counted_in_terms weight (map term_tree terms.now) uses.old.items) }
{
    for term in terms {
        count_in(uses, weight, term)?;
    }
    Ok(())
}

/// Counts the uses in a statement.
#[cycle(counts)]
fn count_by(
    uses: &mut Vec<NumberUse>,
    weight: u64,
    statement: &StraightStatement,
) -> Result<(), AllocError>
    ensures { OnOk result (uses.new.items ≡ counted_by weight (straight_tree statement.now) uses.old.items) }
{
    match statement {
        StraightStatement::Set(_, _, value) | StraightStatement::Take(_, _, value) => {
            count_in(uses, weight, value)
        }
        StraightStatement::Array(_, _, values) => count_in_terms(uses, weight, values),
        StraightStatement::Put(_, _, _, _, index, value) => {
            count_in(uses, weight, index)?;
            count_in(uses, weight, value)
        }
        StraightStatement::Branch(condition, accepted, otherwise) => {
            count_in(uses, weight, condition)?;
            count_by_all(uses, weight, accepted)?;
            count_by_all(uses, weight, otherwise)
        }
        StraightStatement::Repeat(_, low, high, body) => {
            count_in(uses, weight, low)?;
            count_in(uses, weight, high)?;
            let inside = weight_inside(weight);
            count_by_all(uses, inside, body)
        }
    }
}

/// Counts the uses in statements.
#[cycle(counts)]
fn count_by_all(
    uses: &mut Vec<NumberUse>,
    weight: u64,
    statements: &[StraightStatement],
) -> Result<(), AllocError>
    ensures { OnOk result (uses.new.items ≡ counted_by_all weight (straight_block statements.now) uses.old.items) }
{
    for statement in statements {
        count_by(uses, weight, statement)?;
    }
    Ok(())
}

/// How much a program's body and result use each number.
pub fn number_uses(alloc: Global, straight: &StraightCode<'_>) -> Result<Vec<NumberUse>, AllocError>
    ensures { IfOk result (λ uses. uses.items ≡ uses_of straight.now) }
{
    let mut uses = Vec::new(alloc);
    count_by_all(&mut uses, 1, straight.body())?;
    if let Some(value) = straight.value() {
        count_in(&mut uses, 1, value)?;
    }
    Ok(uses)
}
