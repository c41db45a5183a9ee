// Statements, calls and bodies. Each evaluates its nodes in the order of the text; `earlier` are the procedures that
// may be called, and `room` is how many more bodies may be opened.

ghost use Rattle.std.specs.Prelude.{◌≡◌, ◌≤◌, ◌<◌, map, Some, None, OnOk, IfOk, IfErr};
ghost use Rattle.std.specs.Option.{option_map};
ghost use Rattle.source_eval.specs.Below.{array_run, block_tree, body_run, branch_run, call_run, call_tree, counting};
ghost use Rattle.source_eval.specs.Below.{element_run, expr_tree, loop_run, made_array, procedure_tree, return_run};
ghost use Rattle.source_eval.specs.Below.{return_tree, right_run, right_tree, run, run_all, set_run, statement_tree};
ghost use Rattle.source_eval.specs.Below.{word_given};
ghost use Rattle.source_eval.specs.Metering.{EndedWithin, Stopped, known_of, returned};
ghost use Rattle.source_eval.specs.Views.{held, value_of, word_of};
ghost use Rattle.source_eval.specs.declared.fault.EvalFault.TheVariants.{Memory};

use crate::EvalFault;
use crate::calls::{begun, copy_out};
use crate::expressions::{passed, value, values};
use crate::running::RunningBody;
use crate::spending::spend;
use crate::values::{Value, Word};
use crate::variables::Variables;
use language::{
    ArrayDeclaration, Call, Counter, ElementAssignment, Expr, Kind, Name, Procedure, Return,
    RightSide, Statement, is_true, procedure_named,
};
use std::alloc::Global;

/// A declared array: of its first values, or of zeros.
fn array_of(alloc: Global, kind: Kind, length: u16, words: &[Word]) -> Result<Value, EvalFault>
    ensures ok { IfOk result (λ value. value_of value ≡ made_array kind length (map word_of words.now)) }
    ensures memory { IfErr result (λ fault. fault ≡ Memory) }
{
    if words.is_empty() {
        let zeros = vec![in alloc; 0; usize::from(length)]?;
        return Ok(Value::Array(kind, zeros));
    }
    let numbers: Vec<u32> = words.iter().map(|word| word.value).collect(alloc)?;
    Ok(Value::Array(kind, numbers))
}

/// A declaration of an array.
#[tactic(auto, using(crate::proofs::RunLemmas::value_opens, crate::proofs::RunLemmas::values_open, crate::proofs::RunLemmas::passed_open), unfolding(language::specs::Evaluation::tick, language::specs::Evaluation::andthen, language::specs::Evaluation::inside))]
fn declare_array<'a>(
    running: &mut RunningBody<'a>,
    declaration: &'a ArrayDeclaration,
) -> Result<(), EvalFault>
    ensures ok { OnOk result (EndedWithin
        (array_run (held running.old.variables) declaration.now.name declaration.now.kind declaration.now.length
        (option_map (λ values. map expr_tree values.items) declaration.now.values))
        running.old.left 0 (held running.new.variables) running.new.left) }
    ensures err { IfErr result (λ fault. Stopped
        (array_run (held running.old.variables) declaration.now.name declaration.now.kind declaration.now.length
        (option_map (λ values. map expr_tree values.items) declaration.now.values))
        running.old.left 0 fault) }
{
    spend(&mut running.left)?;
    let words = match &declaration.values {
        Some(exprs) => values(running.alloc, &running.variables, &mut running.left, exprs)?,
        None => Vec::new(running.alloc),
    };
    let array = array_of(running.alloc, declaration.kind, declaration.length, &words)?;
    running.variables.set(&declaration.name, array)
}

/// A call.
#[cycle(statement)]
fn call<'a>(
    earlier: &'a [Procedure],
    room: u32,
    running: &mut RunningBody<'a>,
    call: &'a Call,
) -> Result<Option<Word>, EvalFault>
    ensures ok { IfOk result (λ w. EndedWithin
        (call_run (known_of earlier.now call.now.name) (held running.old.variables) (call_tree call.now))
        running.old.left room (returned w (held running.new.variables)) running.new.left) }
    ensures err { IfErr result (λ fault. Stopped
        (call_run (known_of earlier.now call.now.name) (held running.old.variables) (call_tree call.now))
        running.old.left room fault) }
{
    spend(&mut running.left)?;
    let Some((before, callee)) = procedure_named(earlier, &call.name) else {
        return Ok(None);
    };
    let alloc = running.alloc;
    let caller = &running.variables;
    let parameters = callee.parameters.as_slice();
    let arguments = call.arguments.as_slice();
    let words = passed(alloc, caller, &mut running.left, parameters, arguments)?;
    let Some(room) = room.checked_sub(1) else {
        return Err(EvalFault::Budget);
    };
    let variables = begun(alloc, caller, parameters, arguments, words.as_slice())?;
    let (word, inner) = run_body(alloc, before, room, &mut running.left, variables, callee)?;
    copy_out(&mut running.variables, &inner, parameters, arguments)?;
    Ok(word)
}

/// The end of a body: its `return`, where it has one.
#[tactic(auto, using(crate::proofs::RunLemmas::value_opens, crate::proofs::RunLemmas::values_open, crate::proofs::RunLemmas::passed_open), unfolding(language::specs::Evaluation::tick, language::specs::Evaluation::andthen, language::specs::Evaluation::inside))]
fn end(
    variables: &Variables<'_>,
    left: &mut u64,
    end: &Option<Return>,
) -> Result<Option<Word>, EvalFault>
    ensures ok { IfOk result (λ w. EndedWithin
        (return_run (held variables.now) (option_map return_tree end.now))
        left.old 0 (returned w (held variables.now)) left.new) }
    ensures err { IfErr result (λ fault. Stopped
        (return_run (held variables.now) (option_map return_tree end.now))
        left.old 0 fault) }
{
    match end {
        Some(end) => {
            spend(left)?;
            let word = value(variables, left, &end.value)?;
            Ok(Some(word))
        }
        None => Ok(None),
    }
}

/// A procedure's body and its `return`.
#[tactic(auto, using(crate::proofs::RunLemmas::value_opens, crate::proofs::RunLemmas::return_opens), unfolding(language::specs::Evaluation::tick, language::specs::Evaluation::andthen))]
#[cycle(statement)]
fn body<'a>(
    earlier: &'a [Procedure],
    room: u32,
    running: &mut RunningBody<'a>,
    procedure: &'a Procedure,
) -> Result<Option<Word>, EvalFault>
    ensures ok { IfOk result (λ w. EndedWithin
        (body_run (known_of earlier.now) (procedure_tree procedure.now) (held running.old.variables))
        running.old.left room (returned w (held running.new.variables)) running.new.left) }
    ensures err { IfErr result (λ fault. Stopped
        (body_run (known_of earlier.now) (procedure_tree procedure.now) (held running.old.variables))
        running.old.left room fault) }
{
    block(earlier, room, running, &procedure.body)?;
    end(&running.variables, &mut running.left, &procedure.returned)
}

/// A body that runs in variables of its own: what it returns, and what they hold at its end.
#[cycle(statement)]
pub fn run_body<'a>(
    alloc: Global,
    earlier: &'a [Procedure],
    room: u32,
    left: &mut u64,
    variables: Variables<'a>,
    procedure: &'a Procedure,
) -> Result<(Option<Word>, Variables<'a>), EvalFault>
    ensures ok { IfOk result (λ end. EndedWithin
        (body_run (known_of earlier.now) (procedure_tree procedure.now) (held variables.entry))
        left.old room (returned end.0 (held end.1)) left.new) }
    ensures err { IfErr result (λ fault. Stopped
        (body_run (known_of earlier.now) (procedure_tree procedure.now) (held variables.entry))
        left.old room fault) }
{
    let mut running = RunningBody {
        alloc,
        left: *left,
        variables,
    };
    let word = body(earlier, room, &mut running, procedure)?;
    *left = running.left;
    Ok((word, running.variables))
}

/// A right side.
#[tactic(auto, using(crate::proofs::RunLemmas::value_opens, crate::proofs::RunLemmas::return_opens), unfolding(language::specs::Evaluation::tick, language::specs::Evaluation::andthen))]
#[cycle(statement)]
fn right<'a>(
    earlier: &'a [Procedure],
    room: u32,
    running: &mut RunningBody<'a>,
    right: &'a RightSide,
) -> Result<Option<Word>, EvalFault>
    ensures ok { IfOk result (λ w. EndedWithin
        (right_run (known_of earlier.now) (held running.old.variables) (right_tree right.now))
        running.old.left room (returned w (held running.new.variables)) running.new.left) }
    ensures err { IfErr result (λ fault. Stopped
        (right_run (known_of earlier.now) (held running.old.variables) (right_tree right.now))
        running.old.left room fault) }
{
    match right {
        RightSide::Call(it) => call(earlier, room, running, it),
        RightSide::Value(expr) => {
            let word = value(&running.variables, &mut running.left, expr)?;
            Ok(Some(word))
        }
    }
}

/// The word that a right side gave.
fn given(word: Option<Word>) -> Word
    ensures { word_of result ≡ word_given (option_map word_of word) }
{
    match word {
        Some(word) => word,
        None => Word {
            kind: Kind::Boolean,
            value: 0,
        },
    }
}

/// A declaration of a word, or an assignment to a name.
#[tactic(auto, using(crate::proofs::RunLemmas::value_opens, crate::proofs::RunLemmas::return_opens), unfolding(language::specs::Evaluation::tick, language::specs::Evaluation::andthen))]
#[cycle(statement)]
fn set<'a>(
    earlier: &'a [Procedure],
    room: u32,
    running: &mut RunningBody<'a>,
    name: &'a Name,
    source: &'a RightSide,
) -> Result<(), EvalFault>
    ensures ok { OnOk result (EndedWithin
        (set_run (known_of earlier.now) (held running.old.variables) name.now (right_tree source.now))
        running.old.left room (held running.new.variables) running.new.left) }
    ensures err { IfErr result (λ fault. Stopped
        (set_run (known_of earlier.now) (held running.old.variables) name.now (right_tree source.now))
        running.old.left room fault) }
{
    spend(&mut running.left)?;
    let word = right(earlier, room, running, source)?;
    running.variables.set(name, Value::Single(given(word)))
}

/// An assignment to an element, whose index is tested before the right side.
#[tactic(auto, using(crate::proofs::RunLemmas::value_opens, crate::proofs::RunLemmas::return_opens), unfolding(language::specs::Evaluation::tick, language::specs::Evaluation::andthen))]
#[cycle(statement)]
fn set_element<'a>(
    earlier: &'a [Procedure],
    room: u32,
    running: &mut RunningBody<'a>,
    assignment: &'a ElementAssignment,
) -> Result<(), EvalFault>
    ensures ok { OnOk result (EndedWithin
        (element_run (known_of earlier.now) (held running.old.variables) assignment.now.bracket
        assignment.now.name (expr_tree assignment.now.index) (right_tree assignment.now.value))
        running.old.left room (held running.new.variables) running.new.left) }
    ensures err { IfErr result (λ fault. Stopped
        (element_run (known_of earlier.now) (held running.old.variables) assignment.now.bracket
        assignment.now.name (expr_tree assignment.now.index) (right_tree assignment.now.value))
        running.old.left room fault) }
{
    spend(&mut running.left)?;
    spend(&mut running.left)?;
    let index = value(&running.variables, &mut running.left, &assignment.index)?;
    running
        .variables
        .element(assignment.bracket, &assignment.name, index.value)?;
    let word = right(earlier, room, running, &assignment.value)?;
    running
        .variables
        .set_element(&assignment.name, index.value, given(word));
    Ok(())
}

/// The one block where a condition is true, else the other.
#[tactic(auto, using(crate::proofs::RunLemmas::value_opens, crate::proofs::RunLemmas::return_opens), unfolding(language::specs::Evaluation::tick, language::specs::Evaluation::andthen))]
#[cycle(statement)]
fn branch<'a>(
    earlier: &'a [Procedure],
    room: u32,
    running: &mut RunningBody<'a>,
    condition: &Expr,
    accepted: &'a [Statement],
    otherwise: &'a [Statement],
) -> Result<(), EvalFault>
    ensures ok { OnOk result (EndedWithin
        (branch_run (held running.old.variables) (expr_tree condition.now)
        (run_all (known_of earlier.now) (held running.old.variables) (block_tree accepted.now))
        (run_all (known_of earlier.now) (held running.old.variables) (block_tree otherwise.now)))
        running.old.left room (held running.new.variables) running.new.left) }
    ensures err { IfErr result (λ fault. Stopped
        (branch_run (held running.old.variables) (expr_tree condition.now)
        (run_all (known_of earlier.now) (held running.old.variables) (block_tree accepted.now))
        (run_all (known_of earlier.now) (held running.old.variables) (block_tree otherwise.now)))
        running.old.left room fault) }
{
    spend(&mut running.left)?;
    let condition = value(&running.variables, &mut running.left, condition)?;
    if is_true(condition.value) {
        block(earlier, room, running, accepted)
    } else {
        block(earlier, room, running, otherwise)
    }
}

/// The iterations of a loop from one number to another, each bound evaluated once.
#[cycle(statement)]
fn repeat<'a>(
    earlier: &'a [Procedure],
    room: u32,
    running: &mut RunningBody<'a>,
    counter: &'a Counter,
    low: &Expr,
    high: &Expr,
    body: &'a [Statement],
) -> Result<(), EvalFault>
    ensures ok { OnOk result (EndedWithin
        (loop_run (held running.old.variables) (expr_tree low.now) (expr_tree high.now)
        (λ i t. run_all (known_of earlier.now) (counting t counter.now.name i) (block_tree body.now)))
        running.old.left room (held running.new.variables) running.new.left) }
    ensures err { IfErr result (λ fault. Stopped
        (loop_run (held running.old.variables) (expr_tree low.now) (expr_tree high.now)
        (λ i t. run_all (known_of earlier.now) (counting t counter.now.name i) (block_tree body.now)))
        running.old.left room fault) }
{
    spend(&mut running.left)?;
    let first = value(&running.variables, &mut running.left, low)?;
    let last = value(&running.variables, &mut running.left, high)?;
    for number in first.value..last.value {
        spend(&mut running.left)?;
        let counted = Word {
            kind: Kind::Uint32,
            value: number,
        };
        running
            .variables
            .set(&counter.name, Value::Single(counted))?;
        block(earlier, room, running, body)?;
    }
    Ok(())
}

/// A statement.
#[tactic(auto, using(crate::proofs::RunLemmas::array_opens), unfolding(language::specs::Evaluation::tick, language::specs::Evaluation::andthen))]
#[cycle(statement)]
fn statement<'a>(
    earlier: &'a [Procedure],
    room: u32,
    running: &mut RunningBody<'a>,
    statement: &'a Statement,
) -> Result<(), EvalFault>
    ensures ok { OnOk result (EndedWithin
        (run (known_of earlier.now) (held running.old.variables) (statement_tree statement.now))
        running.old.left room (held running.new.variables) running.new.left) }
    ensures err { IfErr result (λ fault. Stopped
        (run (known_of earlier.now) (held running.old.variables) (statement_tree statement.now))
        running.old.left room fault) }
{
    match statement {
        Statement::Declare(it) => set(earlier, room, running, &it.name, &it.value),
        Statement::DeclareArray(it) => declare_array(running, it),
        Statement::Assign(it) => set(earlier, room, running, &it.name, &it.value),
        Statement::AssignElement(it) => set_element(earlier, room, running, it),
        Statement::Call(it) => {
            call(earlier, room, running, it)?;
            Ok(())
        }
        Statement::If(_, condition, accepted, otherwise) => branch(
            earlier, room, running, condition, accepted, otherwise,
        ),
        Statement::For(_, counter, low, high, body) => repeat(
            earlier, room, running, counter, low, high, body,
        ),
    }
}

/// Statements in their order.
#[cycle(statement)]
fn block<'a>(
    earlier: &'a [Procedure],
    room: u32,
    running: &mut RunningBody<'a>,
    block: &'a [Statement],
) -> Result<(), EvalFault>
    ensures ok { OnOk result (EndedWithin
        (run_all (known_of earlier.now) (held running.old.variables) (block_tree block.now))
        running.old.left room (held running.new.variables) running.new.left) }
    ensures err { IfErr result (λ fault. Stopped
        (run_all (known_of earlier.now) (held running.old.variables) (block_tree block.now))
        running.old.left room fault) }
{
    for one in block {
        statement(earlier, room, running, one)?;
    }
    Ok(())
}
