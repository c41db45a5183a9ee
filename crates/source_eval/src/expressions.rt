// The values of expressions.

ghost use Rattle.std.specs.Prelude.{◌+◌, map, IfOk, IfErr};
ghost use Rattle.source_eval.specs.Below.{binary as binary_tree, expr_tree, parameter_tree, passed};
ghost use Rattle.source_eval.specs.Below.{select as select_tree, value, values, word_arguments};
ghost use Rattle.source_eval.specs.Metering.{EndedWithin, Stopped};
ghost use Rattle.source_eval.specs.Views.{held, word_of};

use crate::EvalFault;
use crate::operators::{binary, convert, prefix, rotate, select};
use crate::spending::spend;
use crate::values::Word;
use crate::variables::Variables;
use language::{BinaryOperator, Expr, Form, Kind, Parameter, Place};
use std::alloc::Global;

/// The value of an operator between two operands, once its own node is counted.
#[tactic(auto, unfolding(language::specs::Evaluation::tick, language::specs::Evaluation::andthen))]
#[cycle(value)]
fn binary_value(
    variables: &Variables<'_>,
    left: &mut u64,
    place: Place,
    operator: BinaryOperator,
    one: &Expr,
    other: &Expr,
) -> Result<Word, EvalFault>
    ensures ok { IfOk result (λ w. EndedWithin
        (value (held variables.now) (binary_tree place operator (expr_tree one.now) (expr_tree other.now)))
        (left.old + 1) 0 (word_of w) left.new) }
    ensures err { IfErr result (λ fault. Stopped
        (value (held variables.now) (binary_tree place operator (expr_tree one.now) (expr_tree other.now)))
        (left.old + 1) 0 fault) }
{
    let one = value(variables, left, one)?;
    let other = value(variables, left, other)?;
    binary(place, operator, one, other)
}

/// The value of a choice, once its own node is counted.
#[tactic(auto, unfolding(language::specs::Evaluation::tick, language::specs::Evaluation::andthen))]
#[cycle(value)]
fn select_value(
    variables: &Variables<'_>,
    left: &mut u64,
    place: Place,
    condition: &Expr,
    accepted: &Expr,
    otherwise: &Expr,
) -> Result<Word, EvalFault>
    ensures ok { IfOk result (λ w. EndedWithin
        (value (held variables.now)
        (select_tree place (expr_tree condition.now) (expr_tree accepted.now) (expr_tree otherwise.now)))
        (left.old + 1) 0 (word_of w) left.new) }
    ensures err { IfErr result (λ fault. Stopped
        (value (held variables.now)
        (select_tree place (expr_tree condition.now) (expr_tree accepted.now) (expr_tree otherwise.now)))
        (left.old + 1) 0 fault) }
{
    let condition = value(variables, left, condition)?;
    let accepted = value(variables, left, accepted)?;
    let otherwise = value(variables, left, otherwise)?;
    Ok(select(condition, accepted, otherwise))
}

/// The value of an expression.
#[tactic(auto, unfolding(language::specs::Evaluation::tick, language::specs::Evaluation::andthen))]
#[cycle(value)]
pub fn value(variables: &Variables<'_>, left: &mut u64, expr: &Expr) -> Result<Word, EvalFault>
    ensures ok { IfOk result (λ w.
        EndedWithin (value (held variables.now) (expr_tree expr.now)) left.old 0 (word_of w) left.new) }
    ensures err { IfErr result (λ fault. Stopped (value (held variables.now) (expr_tree expr.now)) left.old 0 fault) }
{
    spend(left)?;
    match expr {
        Expr::Number(_, number, kind) => Ok(Word {
            kind: *kind,
            value: *number,
        }),
        Expr::Truth(_, truth) => Ok(Word {
            kind: Kind::Boolean,
            value: word::from_bool(*truth),
        }),
        Expr::Name(_, name) => Ok(variables.word(name)),
        Expr::Prefix(_, operator, operand) => {
            let operand = value(variables, left, operand)?;
            Ok(prefix(*operator, operand))
        }
        Expr::Binary(place, operator, one, other) => {
            binary_value(variables, left, *place, *operator, one, other)
        }
        Expr::Rotate(_, operand, amount) => {
            let operand = value(variables, left, operand)?;
            Ok(rotate(operand, *amount))
        }
        Expr::Convert(_, kind, operand) => {
            let operand = value(variables, left, operand)?;
            Ok(convert(*kind, operand))
        }
        Expr::Select(place, condition, accepted, otherwise) => {
            select_value(variables, left, *place, condition, accepted, otherwise)
        }
        Expr::Element(place, _, name, index) => {
            let index = value(variables, left, index)?;
            variables.element(*place, name, index.value)
        }
    }
}

/// The values of expressions, from left to right.
pub fn values(
    alloc: Global,
    variables: &Variables<'_>,
    left: &mut u64,
    exprs: &[Expr],
) -> Result<Vec<Word>, EvalFault>
    ensures ok { IfOk result (λ words. EndedWithin (values (held variables.now) (map expr_tree exprs.now)) left.old 0
        (map word_of words.items) left.new) }
    ensures err { IfErr result (λ fault.
        Stopped (values (held variables.now) (map expr_tree exprs.now)) left.old 0 fault) }
{
    let mut words = Vec::new(alloc);
    for expr in exprs {
        words.push(value(variables, left, expr)?)?;
    }
    Ok(words)
}

/// The values of a call's word arguments, from left to right.
pub fn passed(
    alloc: Global,
    variables: &Variables<'_>,
    left: &mut u64,
    parameters: &[Parameter],
    arguments: &[Expr],
) -> Result<Vec<Word>, EvalFault>
    ensures ok { IfOk result (λ words. EndedWithin (passed (held variables.now)
        (word_arguments (map parameter_tree parameters.now) (map expr_tree arguments.now))) left.old 0
        (map word_of words.items) left.new) }
    ensures err { IfErr result (λ fault. Stopped (passed (held variables.now)
        (word_arguments (map parameter_tree parameters.now) (map expr_tree arguments.now))) left.old 0 fault) }
{
    let mut words = Vec::new(alloc);
    for (index, parameter) in parameters.iter().enumerate() {
        if arguments.len() <= index {
            return Ok(words);
        }
        let argument = &arguments[index];
        match parameter.form {
            Form::FixedArray | Form::MutableArray => continue,
            Form::SingleWord => {}
        }
        spend(left)?;
        words.push(value(variables, left, argument)?)?;
    }
    Ok(words)
}
