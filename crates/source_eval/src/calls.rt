// What a call hands to a procedure's body, and takes back.

ghost use Rattle.std.specs.Prelude.{◌≡◌, map, IfOk, IfErr, OnOk};
ghost use Rattle.std.specs.Option.{option_map};
ghost use Rattle.source_eval.specs.Below.{argument_held, array_named, begun, copied_out, empty, expr_tree, gone_back};
ghost use Rattle.source_eval.specs.Below.{parameter_tree, words_left};
ghost use Rattle.source_eval.specs.Views.{held, value_of, word_of};
ghost use Rattle.source_eval.specs.declared.fault.EvalFault.TheVariants.{Memory};

use crate::EvalFault;
use crate::values::{Value, Word};
use crate::variables::Variables;
use language::{Expr, Form, Parameter};
use std::alloc::Global;

/// A copy of the array that an argument names.
fn array_named(variables: &Variables<'_>, argument: &Expr) -> Result<Option<Value>, EvalFault>
    ensures ok { IfOk result (λ value.
        option_map value_of value ≡ array_named (held variables.now) (expr_tree argument.now)) }
    ensures memory { IfErr result (λ fault. fault ≡ Memory) }
{
    match argument {
        Expr::Name(_, name) => variables.copy(name),
        Expr::Number(_, _, _)
        | Expr::Truth(_, _)
        | Expr::Prefix(_, _, _)
        | Expr::Binary(_, _, _, _)
        | Expr::Rotate(_, _, _)
        | Expr::Convert(_, _, _)
        | Expr::Select(_, _, _, _)
        | Expr::Element(_, _, _, _) => Ok(None),
    }
}

/// What a parameter holds: the next word, or a copy of the array that the argument names.
fn argument_held(
    variables: &Variables<'_>,
    form: Form,
    argument: &Expr,
    words: &[Word],
) -> Result<Option<Value>, EvalFault>
    ensures ok { IfOk result (λ value. option_map value_of value
        ≡ argument_held (held variables.now) form (expr_tree argument.now) (map word_of words.now)) }
    ensures memory { IfErr result (λ fault. fault ≡ Memory) }
{
    match (form, words) {
        (Form::SingleWord, []) => Ok(None),
        (Form::SingleWord, [word, ..]) => Ok(Some(Value::Single(*word))),
        (Form::FixedArray | Form::MutableArray, _) => array_named(variables, argument),
    }
}

/// The words for the parameters after one of this form.
fn words_left(form: Form, words: &[Word]) -> &[Word]
    ensures { map word_of result.now ≡ words_left form (map word_of words.now) }
{
    match (form, words) {
        (Form::SingleWord, [_, rest @ ..]) => rest,
        (Form::SingleWord, []) | (Form::FixedArray | Form::MutableArray, _) => words,
    }
}

/// Gives the names of a called body, which hold nothing, what they hold at first.
fn begin<'a>(
    inner: &mut Variables<'a>,
    caller: &Variables<'a>,
    parameters: &'a [Parameter],
    arguments: &[Expr],
    words: &[Word],
) -> Result<(), EvalFault>
    requires { held inner.old ≡ empty }
    ensures ok { OnOk result (held inner.new ≡ begun (held caller.now) (map parameter_tree parameters.now)
        (map expr_tree arguments.now) (map word_of words.now)) }
    ensures memory { IfErr result (λ fault. fault ≡ Memory) }
{
    let mut left = words;
    for (index, parameter) in parameters.iter().enumerate() {
        let Some(argument) = arguments.get(index) else {
            return Ok(());
        };
        if let Some(value) = argument_held(caller, parameter.form, argument, left)? {
            inner.set_first(&parameter.name, value)?;
        }
        left = words_left(parameter.form, left);
    }
    Ok(())
}

/// What the names of a called body hold at first: the words that were evaluated, and copies of arrays.
pub fn begun<'a>(
    alloc: Global,
    caller: &Variables<'a>,
    parameters: &'a [Parameter],
    arguments: &[Expr],
    words: &[Word],
) -> Result<Variables<'a>, EvalFault>
    ensures ok { IfOk result (λ inner. held inner
        ≡ begun (held caller.now) (map parameter_tree parameters.now) (map expr_tree arguments.now)
        (map word_of words.now)) }
    ensures memory { IfErr result (λ fault. fault ≡ Memory) }
{
    let mut inner = Variables::new(alloc);
    begin(&mut inner, caller, parameters, arguments, words)?;
    Ok(inner)
}

/// Copies a `mut` array back to the name that was given.
fn give_back<'a>(
    caller: &mut Variables<'a>,
    inner: &Variables<'a>,
    parameter: &Parameter,
    argument: &'a Expr,
) -> Result<(), EvalFault>
    ensures ok { OnOk result (held caller.new
        ≡ gone_back parameter.now.form (held caller.old) (held inner.now) (expr_tree argument.now) parameter.now.name) }
    ensures memory { IfErr result (λ fault. fault ≡ Memory) }
{
    if let (Form::MutableArray, Expr::Name(_, name)) = (parameter.form, argument) {
        if let Some(value) = inner.copy(&parameter.name)? {
            caller.set(name, value)?;
        }
    }
    Ok(())
}

/// Copies the `mut` arrays of a body that has ended back to the names that were given.
pub fn copy_out<'a>(
    caller: &mut Variables<'a>,
    inner: &Variables<'a>,
    parameters: &[Parameter],
    arguments: &'a [Expr],
) -> Result<(), EvalFault>
    ensures ok { OnOk result (held caller.new
        ≡ copied_out (held caller.old) (held inner.now) (map parameter_tree parameters.now)
        (map expr_tree arguments.now)) }
    ensures memory { IfErr result (λ fault. fault ≡ Memory) }
{
    for (index, parameter) in parameters.iter().enumerate() {
        let Some(argument) = arguments.get(index) else {
            return Ok(());
        };
        give_back(caller, inner, parameter, argument)?;
    }
    Ok(())
}
