ghost use Rattle.std.specs.Prelude.{◌≡◌};
ghost use Rattle.labels.specs.Below.{control_why, either_literal, literal_as, number_as, operand_literal, typed_part};
ghost use Rattle.labels.specs.Below.{unknown_why, whole_literal};

use language::scopes::{Scope, nearest_place};
use language::{
    Kind, Label, Literal, Name, Operation, Part, SecretControl, Typed, TypedPart, ValueType, Why,
};

/// A part that has a type.
pub fn typed_part(part: Part, value: ValueType) -> TypedPart
    ensures { result ≡ typed_part part value }
{
    TypedPart { part, value }
}

/// How a number is written in the width that is wanted, where it fits it.
fn number_as(wanted: ValueType, value: u32) -> Option<Literal>
    ensures { result ≡ number_as wanted value }
{
    let kind = wanted.kind();
    if wanted.is_numeric() && kind.includes(value) {
        Some(Literal { value, kind })
    } else {
        None
    }
}

/// The same of what may be a number.
pub fn literal_as(wanted: ValueType, literal: Option<u32>) -> Option<Literal>
    ensures { result ≡ literal_as wanted literal }
{
    match literal {
        Some(value) => number_as(wanted, value),
        None => None,
    }
}

/// One of two parts that is a number, in the width of the other.
pub fn either_literal(one: Typed, other: Typed) -> Option<Literal>
    ensures { result ≡ either_literal one other }
{
    literal_as(other.value, one.literal).or(literal_as(one.value, other.literal))
}

/// A number as a `uint32`.
pub fn whole_literal(typed: Typed) -> Option<Literal>
    ensures { result ≡ whole_literal typed }
{
    literal_as(ValueType::word(Kind::Uint32, Label::Public), typed.literal)
}

/// An operand that is a number, in the width that the operation wants.
pub fn operand_literal(operation: Operation, left: Typed, right: Typed) -> Option<Literal>
    ensures { result ≡ operand_literal operation left right }
{
    match operation {
        Operation::Arithmetic => either_literal(left, right),
        Operation::Multiplication => either_literal(left, right),
        Operation::Division => either_literal(left, right),
        Operation::Shift => whole_literal(right),
        Operation::Equality => either_literal(left, right),
        Operation::Order => either_literal(left, right),
        Operation::Logic => None,
    }
}

/// Why a name is unknown: the nearest of the variables in scope, where one is near.
pub fn unknown_why(names: &Scope<'_>, text: &Name) -> Why
    ensures { result ≡ unknown_why names.now text.now }
{
    match nearest_place(names, text.as_str()) {
        Some(place) => Why::Nearest(place),
        None => Why::Plain,
    }
}

/// Why control is secret.
pub fn control_why(control: Option<SecretControl>) -> Why
    ensures { result ≡ control_why control }
{
    match control {
        Some(control) => Why::Control(control),
        None => Why::Plain,
    }
}
