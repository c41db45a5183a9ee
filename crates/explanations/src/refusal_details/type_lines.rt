// The types that a rule compares.

ghost use Rattle.std.specs.Prelude.{◌≡◌, IfOk};
ghost use Rattle.std.specs.String.{string_bytes};
ghost use Rattle.explanations.specs.refusal_details.TypeLines.{choice_lines, kind_text, label_text, name_at, one_line};
ghost use Rattle.explanations.specs.refusal_details.TypeLines.{part_word, two_line, type_lines, type_text, typed_text};

use crate::refusal_details::source_names::name_at;
use language::{ComparedTypes, Kind, Label, Part, TypedPart, ValueType};
use std::alloc::{AllocError, Global};

/// How a kind is written.
pub fn kind_text(kind: Kind) -> &'static str
    ensures { result.now ≡ kind_text kind }
{
    match kind {
        Kind::Boolean => "bool",
        Kind::Uint8 => "uint8",
        Kind::Uint16 => "uint16",
        Kind::Uint32 => "uint32",
    }
}

/// A label and a blank, or nothing where labels are not shown.
fn label_text(labelled: bool, label: Label) -> &'static str
    ensures { result.now ≡ label_text labelled label }
{
    match (labelled, label) {
        (false, _) => "",
        (true, Label::Public) => "public ",
        (true, Label::Secret) => "secret ",
    }
}

/// A type, with its label or without.
pub fn type_text(alloc: Global, labelled: bool, value: ValueType) -> Result<String, AllocError>
    ensures { IfOk result (λ text. string_bytes text ≡ type_text labelled value) }
{
    match value {
        ValueType::Word(word) => {
            let label = label_text(labelled, word.label);
            let kind = kind_text(word.kind);
            format!(in alloc; "{label}{kind}")
        }
        ValueType::Array(array) => {
            let label = label_text(labelled, array.element.label);
            let kind = kind_text(array.element.kind);
            let length = array.length;
            format!(in alloc; "{label}{kind}[{length}]")
        }
        ValueType::Nothing => String::from_str(alloc, "void"),
    }
}

/// What a part is called; of a parameter, without its name.
fn part_word(part: Part) -> &'static str
    ensures { result.now ≡ part_word part }
{
    match part {
        Part::Operand => "operand",
        Part::LeftOperand => "left operand",
        Part::RightOperand => "right operand",
        Part::Condition => "condition",
        Part::FirstBound => "first bound",
        Part::SecondBound => "second bound",
        Part::Index => "index",
        Part::Variable => "variable",
        Part::Element => "element",
        Part::Result => "result",
        Part::Value => "value",
        Part::Argument => "argument",
        Part::Parameter(_) => "parameter",
    }
}

/// A part's type.
fn typed_text(
    alloc: Global,
    labelled: bool,
    source: &str,
    typed: TypedPart,
) -> Result<String, AllocError>
    ensures { IfOk result (λ text. string_bytes text ≡ typed_text labelled source.now typed) }
{
    let value = type_text(alloc, labelled, typed.value)?;
    match typed.part {
        Part::Parameter(place) => {
            let name = name_at(source, place);
            format!(in alloc; "the parameter `{name}` is {value}")
        }
        part => {
            let name = part_word(part);
            format!(in alloc; "the {name} is {value}")
        }
    }
}

/// The type of one part.
fn one_line(
    alloc: Global,
    labelled: bool,
    source: &str,
    typed: TypedPart,
) -> Result<String, AllocError>
    ensures { IfOk result (λ line. string_bytes line ≡ one_line labelled source.now typed) }
{
    let typed = typed_text(alloc, labelled, source, typed)?;
    format!(in alloc; "  {typed}\n")
}

/// The types of two parts.
pub fn two_line(
    alloc: Global,
    labelled: bool,
    source: &str,
    typed: TypedPart,
    other: TypedPart,
) -> Result<String, AllocError>
    ensures { IfOk result (λ line. string_bytes line ≡ two_line labelled source.now typed other) }
{
    let typed = typed_text(alloc, labelled, source, typed)?;
    let other = typed_text(alloc, labelled, source, other)?;
    format!(in alloc; "  {typed}, {other}\n")
}

/// The types of a choice: of its condition, and of what it chooses between.
fn choice_lines(
    alloc: Global,
    labelled: bool,
    condition: ValueType,
    accepted: ValueType,
    otherwise: ValueType,
) -> Result<String, AllocError>
    ensures { IfOk result (λ lines. string_bytes lines ≡ choice_lines labelled condition accepted otherwise) }
{
    let first = type_text(alloc, labelled, condition)?;
    let second = type_text(alloc, labelled, accepted)?;
    let third = type_text(alloc, labelled, otherwise)?;
    format!(in alloc;
        "  the first operand is {first}\n  the second operand is {second}, the third operand is {third}\n"
    )
}

/// Types that a rule compares, with their labels or without.
pub fn type_lines(
    alloc: Global,
    labelled: bool,
    source: &str,
    types: ComparedTypes,
) -> Result<String, AllocError>
    ensures { IfOk result (λ lines. string_bytes lines ≡ type_lines labelled source.now types) }
{
    match types {
        ComparedTypes::One(typed) => one_line(alloc, labelled, source, typed),
        ComparedTypes::Two(typed, other) => two_line(alloc, labelled, source, typed, other),
        ComparedTypes::Choice(condition, accepted, otherwise) => {
            choice_lines(alloc, labelled, condition, accepted, otherwise)
        }
    }
}
