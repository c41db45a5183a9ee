// What a violation's own evidence says.

ghost use Rattle.std.specs.Prelude.{◌≡◌, IfOk};
ghost use Rattle.std.specs.String.{string_bytes};
ghost use Rattle.explanations.specs.refusal_details.WhyLines.{argument_line, control_lines, ending, fixed_line};
ghost use Rattle.explanations.specs.refusal_details.WhyLines.{missing_line, nearest_line, returned_line, secret_line};
ghost use Rattle.explanations.specs.refusal_details.WhyLines.{shared_line};
ghost use Rattle.explanations.specs.refusal_details.WhyLines.{value_line, why_lines};

use crate::refusal_details::number_lines::{
    amount_line, divisor_line, index_line, literal_line, number_line,
};
use crate::refusal_details::size_lines::excess_line;
use crate::refusal_details::source_names::name_at;
use crate::refusal_details::type_lines::{two_line, type_lines, type_text};
use language::{
    ArgumentCounts, ComparedTypes, Literal, Place, SecretControl, SharedArray, ValueCounts,
    ValueType, Why, WordType,
};
use std::alloc::{AllocError, Global};

/// What a violation's own evidence says: lines, each with its end, or nothing. Names are read in the source at their
/// places.
pub fn why_lines(alloc: Global, source: &str, why: Why) -> Result<String, AllocError>
    ensures { IfOk result (λ lines. string_bytes lines ≡ why_lines source.now why) }
{
    match why {
        Why::Plain => Ok(String::new(alloc)),
        Why::Types(types, number) => width_lines(alloc, source, types, number),
        Why::Shapes(part, other) => two_line(alloc, true, source, part, other),
        Why::Number(number) => number_line(alloc, number),
        Why::Amount(amount) => amount_line(alloc, amount),
        Why::ArgumentCounts(counts) => argument_line(alloc, source, counts),
        Why::Nearest(place) => nearest_line(alloc, source, place),
        Why::Fixed(place) => fixed_line(alloc, source, place),
        Why::Returned(given) => returned_line(alloc, given),
        Why::Missing(result) => missing_line(alloc, result),
        Why::Shared(shared) => shared_line(alloc, source, shared),
        Why::ValueCounts(counts) => value_line(alloc, counts),
        Why::Leak(types, name) => leak_lines(alloc, source, types, name),
        Why::Secret(name) => secret_line(alloc, source, name),
        Why::Control(control) => control_lines(alloc, source, control),
        Why::Index(range) => index_line(alloc, range),
        Why::Divisor(divisor) => divisor_line(alloc, divisor),
        Why::TooMuch(excess) => excess_line(alloc, excess),
    }
}

/// Types that do not go together, and how a number is written in the width that is wanted.
fn width_lines(
    alloc: Global,
    source: &str,
    types: ComparedTypes,
    number: Option<Literal>,
) -> Result<String, AllocError>
    ensures { IfOk result (λ lines. string_bytes lines ≡ why_lines source.now (Why.Types types number)) }
{
    let types = type_lines(alloc, false, source, types)?;
    let number = literal_line(alloc, number)?;
    format!(in alloc; "{types}{number}")
}

/// The types of something secret and of something public, and the first secret name.
fn leak_lines(
    alloc: Global,
    source: &str,
    types: ComparedTypes,
    name: Option<Place>,
) -> Result<String, AllocError>
    ensures { IfOk result (λ lines. string_bytes lines ≡ why_lines source.now (Why.Leak types name)) }
{
    let types = type_lines(alloc, true, source, types)?;
    let secret = secret_line(alloc, source, name)?;
    format!(in alloc; "{types}{secret}")
}

/// The first secret name, where there is one.
fn secret_line(alloc: Global, source: &str, name: Option<Place>) -> Result<String, AllocError>
    ensures { IfOk result (λ line. string_bytes line ≡ secret_line source.now name) }
{
    match name {
        Some(place) => {
            let name = name_at(source, place);
            format!(in alloc; "  `{name}` is secret, declared at {place}\n")
        }
        None => Ok(String::new(alloc)),
    }
}

/// In which `if` control is secret, and the first secret name in its condition.
fn control_lines(alloc: Global, source: &str, control: SecretControl) -> Result<String, AllocError>
    ensures { IfOk result (λ lines. string_bytes lines ≡ control_lines source.now control) }
{
    let place = control.place;
    let secret = secret_line(alloc, source, control.name)?;
    format!(in alloc; "  control is secret in the `if` at {place}\n{secret}")
}

/// How many arguments a call has, and how many its procedure takes.
fn argument_line(alloc: Global, source: &str, counts: ArgumentCounts) -> Result<String, AllocError>
    ensures { IfOk result (λ line. string_bytes line ≡ argument_line source.now counts) }
{
    let given = counts.given;
    let ending = ending(given);
    let place = counts.procedure;
    let name = name_at(source, place);
    let taken = counts.taken;
    format!(in alloc;
        "  the call has {given} argument{ending}, and `{name}`, declared at {place}, takes {taken}\n"
    )
}

/// The nearest of the variables in scope, and where it is declared.
fn nearest_line(alloc: Global, source: &str, place: Place) -> Result<String, AllocError>
    ensures { IfOk result (λ line. string_bytes line ≡ nearest_line source.now place) }
{
    let name = name_at(source, place);
    format!(in alloc; "  the nearest name in scope is `{name}`, declared at {place}\n")
}

/// What is not `mut`, and where it is declared.
fn fixed_line(alloc: Global, source: &str, place: Place) -> Result<String, AllocError>
    ensures { IfOk result (λ line. string_bytes line ≡ fixed_line source.now place) }
{
    let name = name_at(source, place);
    format!(in alloc; "  `{name}` is not `mut`, declared at {place}\n")
}

/// What is returned where nothing is.
fn returned_line(alloc: Global, given: ValueType) -> Result<String, AllocError>
    ensures { IfOk result (λ line. string_bytes line ≡ returned_line given) }
{
    let given = type_text(alloc, true, given)?;
    format!(in alloc; "  the value is {given}, the procedure is void\n")
}

/// What is not returned.
fn missing_line(alloc: Global, missing: WordType) -> Result<String, AllocError>
    ensures { IfOk result (λ line. string_bytes line ≡ missing_line missing) }
{
    let wanted = type_text(alloc, true, ValueType::Word(missing))?;
    format!(in alloc; "  the result is {wanted}, and there is no `return`\n")
}

/// For which two parameters an array is passed.
fn shared_line(alloc: Global, source: &str, shared: SharedArray) -> Result<String, AllocError>
    ensures { IfOk result (λ line. string_bytes line ≡ shared_line source.now shared) }
{
    let array = name_at(source, shared.array);
    let one = name_at(source, shared.one);
    let other = name_at(source, shared.other);
    format!(in alloc; "  `{array}` is passed for the parameters `{one}` and `{other}`\n")
}

/// How many elements an array has, and how many values its list.
fn value_line(alloc: Global, counts: ValueCounts) -> Result<String, AllocError>
    ensures { IfOk result (λ line. string_bytes line ≡ value_line counts) }
{
    let length = counts.length;
    let values = counts.values;
    let ending = ending(values);
    format!(in alloc; "  the array's length is {length}, and its list has {values} value{ending}\n")
}

/// The end of a word for so many.
fn ending(count: usize) -> &'static str
    ensures { result.now ≡ ending count }
{
    if count == 1 { "" } else { "s" }
}
