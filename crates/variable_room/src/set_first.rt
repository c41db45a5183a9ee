// Whether straight code sets each variable but its parameters before it reads it. Then what its other variables hold
// where it begins makes no difference. Stands on `inline` and `branch_removal`.

ghost use Rattle.std.specs.Prelude.{◌≡◌, ◌&&◌, true, map, IfOk, OnOk};
ghost use Rattle.std.specs.Option.{option_map};
ghost use Rattle.variable_room.specs.Below.{straight_block, straight_tree, term_tree};
ghost use Rattle.variable_room.specs.set_first.Order.{all_read_known, all_set_first, is_known, known_after};
ghost use Rattle.variable_room.specs.set_first.Order.{known_behind, known_parameters, may_keep, program_sets_first};
ghost use Rattle.variable_room.specs.set_first.Order.{reads_any_known, reads_known, sets_first, with_known};
ghost use Rattle.variable_room.specs.set_first.Starts.{OnlyParametersMatter};

use branch_removal::{StraightCode, StraightStatement};
use inline::Term;
use std::alloc::{AllocError, Global};

/// Whether a variable was set.
fn is_known(known: &[bool], variable: u32) -> bool
    ensures { result ≡ is_known known.now variable }
{
    match known.get(variable as usize) {
        Some(known) => *known,
        None => false,
    }
}

/// A variable was set too.
fn note(known: &mut Vec<bool>, variable: u32)
    ensures { known.new.items ≡ with_known known.old.items variable }
{
    if let Some(known) = known.get_mut(variable as usize) {
        *known = true;
    }
}

/// Whether an expression reads only what was set.
fn reads_known(known: &[bool], term: &Term) -> bool
    ensures { result ≡ reads_known known.now (term_tree term.now) }
{
    match term {
        Term::Number(_, _) | Term::Truth(_) => true,
        Term::Variable(variable) => is_known(known, *variable),
        Term::Prefix(_, _, operand) | Term::Rotate(_, operand, _) | Term::Convert(_, operand) => {
            reads_known(known, operand)
        }
        Term::Binary(_, _, _, left, right) => reads_known(known, left) && reads_known(known, right),
        Term::Select(condition, accepted, otherwise) => {
            reads_known(known, condition)
                && reads_known(known, accepted)
                && reads_known(known, otherwise)
        }
        Term::Element(_, array, _, index) => is_known(known, *array) && reads_known(known, index),
    }
}

/// Whether expressions do.
fn all_read_known(known: &[bool], terms: &[Term]) -> bool
    ensures { result ≡ all_read_known known.now (map term_tree terms.now) }
{
    for term in terms {
        if !reads_known(known, term) {
            return false;
        }
    }
    true
}

/// Whether an expression does, where there is one.
fn reads_any_known(known: &[bool], term: Option<&Term>) -> bool
    ensures { result ≡ reads_any_known known.now (option_map (λ term. term_tree term.now) term.entry) }
{
    match term {
        Some(term) => reads_known(known, term),
        None => true,
    }
}

/// Whether a variable that is set within a control value may keep what it holds.
fn may_keep(known: &[bool], within: Option<u32>, variable: u32) -> bool
    ensures { result ≡ may_keep known.now within variable }
{
    match within {
        Some(_) => is_known(known, variable),
        None => true,
    }
}

/// What was set once a statement has run.
fn note_set_by(known: &mut Vec<bool>, statement: &StraightStatement)
    ensures { known.new.items ≡ known_after known.old.items (straight_tree statement.now) }
{
    match statement {
        StraightStatement::Set(_, variable, _) | StraightStatement::Array(variable, _, _) => {
            note(known, *variable);
        }
        StraightStatement::Put(_, _, _, _, _, _)
        | StraightStatement::Take(_, _, _)
        | StraightStatement::Branch(_, _, _)
        | StraightStatement::Repeat(_, _, _, _) => {}
    }
}

/// Whether all three hold.
pub(crate) fn all_three(one: bool, two: bool, three: bool) -> bool
    ensures { result ≡ (one && two && three) }
{
    one && two && three
}

/// Whether a statement reads only what was set before.
#[cycle(order)]
fn sets_first(
    alloc: Global,
    known: &[bool],
    statement: &StraightStatement,
) -> Result<bool, AllocError>
    ensures { IfOk result (λ first. first ≡ sets_first known.now (straight_tree statement.now)) }
{
    match statement {
        StraightStatement::Set(within, variable, value) => {
            Ok(may_keep(known, *within, *variable) && reads_known(known, value))
        }
        StraightStatement::Array(_, _, values) => Ok(all_read_known(known, values)),
        StraightStatement::Put(_, _, array, _, index, value) => {
            Ok(is_known(known, *array) && reads_known(known, index) && reads_known(known, value))
        }
        StraightStatement::Take(_, _, condition) => Ok(reads_known(known, condition)),
        StraightStatement::Branch(condition, accepted, otherwise) => {
            let chosen = reads_known(known, condition);
            let mut inside = Vec::from_slice(alloc, known)?;
            let one = all_set_first(alloc, &mut inside, accepted)?;
            let mut inside = Vec::from_slice(alloc, known)?;
            let other = all_set_first(alloc, &mut inside, otherwise)?;
            Ok(all_three(chosen, one, other))
        }
        StraightStatement::Repeat(counter, low, high, body) => {
            let from = reads_known(known, low);
            let to = reads_known(known, high);
            let mut inside = Vec::from_slice(alloc, known)?;
            note(&mut inside, *counter);
            let each = all_set_first(alloc, &mut inside, body)?;
            Ok(all_three(from, to, each))
        }
    }
}

/// Whether some statements do.
#[cycle(order)]
fn all_set_first(
    alloc: Global,
    known: &mut Vec<bool>,
    body: &[StraightStatement],
) -> Result<bool, AllocError>
    ensures first { IfOk result (λ first. first ≡ all_set_first known.old.items (straight_block body.now)) }
    ensures known { IfOk result (λ first. first ≡ true
        → known.new.items ≡ known_behind known.old.items (straight_block body.now)) }
{
    for statement in body {
        if !sets_first(alloc, known.as_slice(), statement)? {
            return Ok(false);
        }
        note_set_by(known, statement);
    }
    Ok(true)
}

/// Of a program's variables the parameters were set.
pub(crate) fn known_parameters(
    alloc: Global,
    straight: &StraightCode<'_>,
) -> Result<Vec<bool>, AllocError>
    ensures { IfOk result (λ known. known.items ≡ known_parameters straight.now) }
{
    let parameters = straight.parameters().len();
    let others = straight.declared().len().saturating_sub(parameters);
    let mut known = vec![in alloc; true; parameters]?;
    let unknown = vec![in alloc; false; others]?;
    known.extend_from_slice(unknown.as_slice())?;
    Ok(known)
}

/// Whether straight code sets each variable but its parameters before it reads it.
pub fn program_sets_first(alloc: Global, straight: &StraightCode<'_>) -> Result<bool, AllocError>
    ensures { IfOk result (λ first. first ≡ program_sets_first straight.now) }
{
    let mut known = known_parameters(alloc, straight)?;
    if !all_set_first(alloc, &mut known, straight.body())? {
        return Ok(false);
    }
    Ok(reads_any_known(known.as_slice(), straight.value()))
}

/// What straight code computes that sets each variable before it reads it, and the path that it takes, do not depend on
/// what its variables hold where it begins, but for the parameters.
pub fn only_parameters_matter()
    ensures { OnlyParametersMatter }
{}
