// Needed variables: straight code whose frame has no room for variables that nothing names, as arrays are that became
// words, and words that share the variable of another. It may stand in the place of the code that it is made of: the
// outcome is the same, and what is public stays public. Stands on `inline` and `branch_removal`.

ghost use Rattle.std.specs.Prelude.{◌≡◌, map, slice_get, unwrap_or, false, IfErr, IfOk};
ghost use Rattle.variable_room.specs.Below.{IsReplaced, IsStraight, IsWantOfMemory, straight_block, straight_tree};
ghost use Rattle.variable_room.specs.Below.{term_tree};
ghost use Rattle.variable_room.specs.needed_variables.Exact.{fitted_of, needed_of};
ghost use Rattle.variable_room.specs.needed_variables.private.Named.{kept_where, named_by, named_by_all, named_in};
ghost use Rattle.variable_room.specs.needed_variables.private.Named.{named_in_terms, named_of, needed_from, with_name};

use crate::set_first::{known_parameters, program_sets_first};
use branch_removal::{StraightCode, StraightStatement};
use inline::{FlatVariable, Term};
use language::Refusal;
use std::alloc::{AllocError, Global};

/// A variable is named.
fn note(named: &mut [bool], variable: u32)
    ensures { named.new ≡ with_name variable named.old }
{
    let place = variable as usize;
    if place < named.len() {
        named[place] = true;
    }
}

/// What an expression names is named.
fn note_in(named: &mut [bool], term: &Term)
    ensures { named.new ≡ named_in (term_tree term.now) named.old }
{
    match term {
        Term::Number(_, _) | Term::Truth(_) => {}
        Term::Variable(variable) => note(named, *variable),
        Term::Prefix(_, _, operand) | Term::Rotate(_, operand, _) | Term::Convert(_, operand) => {
            note_in(named, operand);
        }
        Term::Binary(_, _, _, left, right) => {
            note_in(named, left);
            note_in(named, right);
        }
        Term::Select(condition, accepted, otherwise) => {
            note_in(named, condition);
            note_in(named, accepted);
            note_in(named, otherwise);
        }
        Term::Element(_, array, _, index) => {
            note(named, *array);
            note_in(named, index);
        }
    }
}

/// So is what expressions name.
fn note_in_terms(named: &mut [bool], terms: &[Term])
    ensures { named.new ≡ named_in_terms (map term_tree terms.now) named.old }
{
    for term in terms {
        note_in(named, term);
    }
}

/// So is what a statement names.
#[cycle(naming)]
fn note_by(named: &mut [bool], statement: &StraightStatement)
    ensures { named.new ≡ named_by (straight_tree statement.now) named.old }
{
    match statement {
        StraightStatement::Set(_, variable, value) => {
            note(named, *variable);
            note_in(named, value);
        }
        StraightStatement::Array(array, _, values) => {
            note(named, *array);
            note_in_terms(named, values);
        }
        StraightStatement::Put(_, _, array, _, index, value) => {
            note(named, *array);
            note_in(named, index);
            note_in(named, value);
        }
        StraightStatement::Take(_, _, condition) => note_in(named, condition),
        StraightStatement::Branch(condition, accepted, otherwise) => {
            note_in(named, condition);
            note_by_all(named, accepted);
            note_by_all(named, otherwise);
        }
        StraightStatement::Repeat(counter, low, high, body) => {
            note(named, *counter);
            note_in(named, low);
            note_in(named, high);
            note_by_all(named, body);
        }
    }
}

/// So is what statements name.
#[cycle(naming)]
fn note_by_all(named: &mut [bool], statements: &[StraightStatement])
    ensures { named.new ≡ named_by_all (straight_block statements.now) named.old }
{
    for statement in statements {
        note_by(named, statement);
    }
}

/// Which variables a program names: the parameters, and those of its body and its result.
fn named_variables(alloc: Global, straight: &StraightCode<'_>) -> Result<Vec<bool>, AllocError>
    ensures { IfOk result (λ named. named.items ≡ named_of straight.now) }
{
    let mut named = known_parameters(alloc, straight)?;
    note_by_all(named.as_mut_slice(), straight.body());
    if let Some(value) = straight.value() {
        note_in(named.as_mut_slice(), value);
    }
    Ok(named)
}

/// Whether the variable of a number is named.
fn is_named(named: &[bool], number: usize) -> bool
    ensures { result ≡ unwrap_or (slice_get named.now number) false }
{
    named.get(number).copied().unwrap_or(false)
}

/// A variable as it is where it is named, and else without elements: then it takes no words.
fn kept_where(named: bool, variable: FlatVariable) -> FlatVariable
    ensures { result ≡ kept_where named variable }
{
    if named {
        variable
    } else {
        FlatVariable {
            elements: Some(0),
            ..variable
        }
    }
}

/// The variables, of which those that are not named have no elements.
fn only_named(
    alloc: Global,
    declared: &[FlatVariable],
    named: &[bool],
) -> Result<Vec<FlatVariable>, AllocError>
    ensures { IfOk result (λ needed. needed.items ≡ needed_from named.now 0 declared.now) }
{
    let mut needed = Vec::new(alloc);
    for (number, variable) in declared.iter().enumerate() {
        needed.push(kept_where(is_named(named, number), *variable))?;
    }
    Ok(needed)
}

/// The variables of straight code, each at its number: where it sets each variable before it reads it, those that it
/// does not name have no elements. The program alone decides them. Running out of memory alone refuses it.
pub fn needed_variables(
    alloc: Global,
    straight: &StraightCode<'_>,
) -> Result<Vec<FlatVariable>, Refusal>
    ensures exact { IfOk result (λ needed. needed.items ≡ needed_of straight.now) }
    ensures memory { IfErr result (λ refusal. IsWantOfMemory refusal.rule refusal.place) }
{
    if !program_sets_first(alloc, straight)? {
        return Ok(straight.declared().to_vec(alloc)?);
    }
    let named = named_variables(alloc, straight)?;
    Ok(only_named(alloc, straight.declared(), named.as_slice())?)
}

/// Straight code is well typed, and within the limits on size.
fn straight_code_is_kept(straight: &StraightCode<'_>)
    ensures { IsStraight straight.now }
{
    straight.body();
}

/// The same code with the variables that it needs. It may stand in the place of the code that it is made of, which
/// alone decides it.
pub fn with_needed<'g, 'f>(
    straight: StraightCode<'f>,
    needed: &'g [FlatVariable],
) -> StraightCode<'g>
where
    'f: 'g,
    requires { needed.now ≡ needed_of straight }
    ensures replaced { IsReplaced straight.entry result }
    ensures exact { result ≡ fitted_of straight.entry }
{
    straight_code_is_kept(&straight);
    let fitted = straight.redeclared(needed);
    straight_code_is_kept(&fitted);
    fitted
}
