// How many nodes expressions have. A count stops at the greatest number.

ghost use Rattle.std.specs.Prelude.{◌≡◌, map};
ghost use Rattle.inline.specs.Below.{counted, expr_tree, nodes_in, nodes_in_all, nodes_passed, parameter_tree};
ghost use Rattle.inline.specs.Below.{word_arguments};

use language::{Expr, Form, Parameter};

/// How many nodes an expression has.
pub fn nodes_in(expr: &Expr) -> u64
    ensures { result ≡ counted (nodes_in (expr_tree expr.now)) }
{
    let below = match expr {
        Expr::Number(_, _, _) | Expr::Truth(_, _) | Expr::Name(_, _) => 0,
        Expr::Prefix(_, _, operand) | Expr::Rotate(_, operand, _) | Expr::Convert(_, _, operand) =>
            { nodes_in(operand) }
        Expr::Element(_, _, _, index) => nodes_in(index),
        Expr::Binary(_, _, left, right) => nodes_in(left).saturating_add(nodes_in(right)),
        Expr::Select(_, condition, accepted, otherwise) => nodes_in(condition)
            .saturating_add(nodes_in(accepted))
            .saturating_add(nodes_in(otherwise)),
    };
    below.saturating_add(1)
}

/// How many nodes the first values of an array have.
pub fn nodes_in_all(values: &[Expr]) -> u64
    ensures { result ≡ counted (nodes_in_all (map expr_tree values.now)) }
{
    let mut sum = 0u64;
    for value in values {
        sum = sum.saturating_add(nodes_in(value));
    }
    sum
}

/// How many nodes arguments cost: a word is put into a parameter, an array stays where it is.
pub fn nodes_passed(parameters: &[Parameter], arguments: &[Expr]) -> u64
    ensures { result ≡ counted
        (nodes_passed (word_arguments (map parameter_tree parameters.now) (map expr_tree arguments.now))) }
{
    let mut sum = 0u64;
    for (index, parameter) in parameters.iter().enumerate() {
        let Some(argument) = arguments.get(index) else {
            return sum;
        };
        if matches!(parameter.form, Form::SingleWord) {
            sum = sum.saturating_add(nodes_in(argument)).saturating_add(1);
        }
    }
    sum
}
