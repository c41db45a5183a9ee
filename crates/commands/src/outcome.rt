// Outcomes as text.

ghost use Rattle.std.specs.Prelude.{◌≡◌, ◌++◌, IfOk, OnOk};
ghost use Rattle.std.specs.String.{string_bytes};
ghost use Rattle.commands.specs.OutcomeText.{numbers_text, array_line, array_lines, outcome_text};

use language::{Form, Numbers, Outcome, Param};
use std::alloc::{AllocError, Global};
use std::fmt::Write;

/// An outcome as lines: `return N` where there is a result, then for each `mut` array, in parameter
/// order, `array K v1,v2,..` with its parameter's number from 0.
pub fn text_of(alloc: Global, params: &[Param], outcome: &Outcome) -> Result<String, AllocError>
    ensures { IfOk result (λ text. string_bytes text ≡ outcome_text params.now outcome.now) }
{
    let mut text = String::new(alloc);
    if let Some(word) = outcome.returned() {
        writeln!(text, "return {word}")?;
    }
    push_arrays(&mut text, params, outcome.arrays())?;
    Ok(text)
}

/// Puts the lines of the `mut` arrays of parameters at the end.
fn push_arrays(text: &mut String, params: &[Param], arrays: &[Numbers]) -> Result<(), AllocError>
    ensures { OnOk result (string_bytes text.new ≡ string_bytes text.old ++ array_lines 0 params.now arrays.now) }
{
    let mut left = arrays;
    for (number, param) in params.iter().enumerate() {
        if param.form == Form::MutableArray {
            if let Some((words, rest)) = left.split_first() {
                push_array(text, number, words.as_slice())?;
                left = rest;
            }
        }
    }
    Ok(())
}

/// Puts the line of an array at the end.
fn push_array(text: &mut String, number: usize, words: &[u32]) -> Result<(), AllocError>
    ensures { OnOk result (string_bytes text.new ≡ string_bytes text.old ++ array_line number words.now) }
{
    write!(text, "array {number} ")?;
    push_numbers(text, words)?;
    text.push_str("\n")
}

/// Puts numbers at the end, with commas between them.
fn push_numbers(text: &mut String, numbers: &[u32]) -> Result<(), AllocError>
    ensures { OnOk result (string_bytes text.new ≡ string_bytes text.old ++ numbers_text numbers.now) }
{
    if let Some((number, later)) = numbers.split_first() {
        write!(text, "{number}")?;
        for further in later {
            write!(text, ",{further}")?;
        }
    }
    Ok(())
}
