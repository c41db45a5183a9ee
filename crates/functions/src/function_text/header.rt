// The C header of a function.

ghost use Rattle.std.specs.Prelude.{◌≡◌, ◌++◌, map, OnOk, IfOk};
ghost use Rattle.std.specs.String.{string_bytes};
ghost use Rattle.functions.specs.function_text.Functions.{named, parts_of};
ghost use Rattle.functions.specs.function_text.Names.{guard_name, stack_name};
ghost use Rattle.functions.specs.function_text.HeaderText.{type_text, label_text, const_text, length_text};
ghost use Rattle.functions.specs.function_text.HeaderText.{parameter_text, later_text, parameters_text, result_text};
ghost use Rattle.functions.specs.function_text.HeaderText.{premise_lines, shown_operations, promise_lines};
ghost use Rattle.functions.specs.function_text.HeaderText.{comment_lines};
ghost use Rattle.functions.specs.function_text.HeaderText.{guard_lines, include_lines, stack_line, prototype_lines};
ghost use Rattle.functions.specs.function_text.HeaderText.{header_text};

use crate::function_code::room_of;
use crate::function_text::assembler::profile_text;
use crate::function_text::function::{Function, NamedParam};
use crate::function_text::lines::push_number;
use expression_code::image_fields::ResultSlot;
use language::{Form, Kind, Label, Param, Profile};
use std::alloc::{AllocError, Global};
use std::fmt::Write;

/// The C type of a kind of word.
fn type_text(kind: Kind) -> &'static str
    ensures { result.now ≡ type_text kind }
{
    match kind {
        Kind::Boolean => "bool",
        Kind::Uint8 => "uint8_t",
        Kind::Uint16 => "uint16_t",
        Kind::Uint32 => "uint32_t",
    }
}

/// A label as a comment.
fn label_text(label: Label) -> &'static str
    ensures { result.now ≡ label_text label }
{
    match label {
        Label::Public => "/* public */",
        Label::Secret => "/* secret */",
    }
}

/// What stands before the type of an array that is not changed.
fn const_text(form: Form) -> &'static str
    ensures { result.now ≡ const_text form }
{
    match form {
        Form::FixedArray => "const ",
        Form::SingleWord | Form::MutableArray => "",
    }
}

/// How many elements an array has, at the end of a text.
fn push_length(text: &mut String, param: Param) -> Result<(), AllocError>
    ensures { OnOk result (string_bytes text.new ≡ string_bytes text.old ++ length_text param.form param.length) }
{
    let length = param.length;
    match param.form {
        Form::SingleWord => Ok(()),
        Form::FixedArray | Form::MutableArray => {
            write!(text, "[{length}]")?;
            Ok(())
        }
    }
}

/// A parameter, at the end of a text.
fn push_parameter(text: &mut String, parameter: &NamedParam) -> Result<(), AllocError>
    ensures { OnOk result (string_bytes text.new ≡ string_bytes text.old ++ parameter_text (named parameter.now)) }
{
    let param = parameter.param;
    text.push_str(const_text(param.form))?;
    text.push_str(type_text(param.kind))?;
    text.push_str(" ")?;
    text.push_str(parameter.name.as_str())?;
    push_length(text, param)?;
    text.push_str(" ")?;
    text.push_str(label_text(param.label))
}

/// Parameters behind another one, at the end of a text.
fn push_later(text: &mut String, later: &[NamedParam]) -> Result<(), AllocError>
    ensures { OnOk result (string_bytes text.new ≡ string_bytes text.old ++ later_text (map named later.now)) }
{
    for parameter in later {
        text.push_str(",\n    ")?;
        push_parameter(text, parameter)?;
    }
    Ok(())
}

/// Parameters, a line each, at the end of a text.
fn push_parameters(text: &mut String, parameters: &[NamedParam]) -> Result<(), AllocError>
    ensures { OnOk result (string_bytes text.new
        ≡ string_bytes text.old ++ parameters_text (map named parameters.now)) }
{
    match parameters.split_first() {
        None => text.push_str("void"),
        Some((first, later)) => {
            push_parameter(text, first)?;
            push_later(text, later)
        }
    }
}

/// The type of a result, at the end of a text.
fn push_result(text: &mut String, returned: Option<ResultSlot>) -> Result<(), AllocError>
    ensures { OnOk result (string_bytes text.new ≡ string_bytes text.old ++ result_text returned) }
{
    match returned {
        None => text.push_str("void"),
        Some(slot) => {
            text.push_str(type_text(slot.kind))?;
            text.push_str(" ")?;
            text.push_str(label_text(slot.label))
        }
    }
}

/// What is premised of a caller, at the end of a text.
fn push_premise(text: &mut String, name: &str) -> Result<(), AllocError>
    ensures { OnOk result (string_bytes text.new ≡ string_bytes text.old ++ premise_lines name.now) }
{
    text.push_str("/* ")?;
    text.push_str(name)?;
    text.push_str(": made by factc 1.0.0 function.\n")?;
    text.push_str(
        "   Arrays are aligned by their elements, lie outside the stack below the caller, and no two that are not \
         const overlap.\n",
    )
}

/// The operations whose operands an observer sees.
fn shown_operations(profile: Profile) -> &'static str
    ensures { result.now ≡ shown_operations profile }
{
    match profile {
        Profile::P1 => "divisions",
        Profile::P2 => "divisions and multiplications",
    }
}

/// What is promised to an observer of a profile, and that it says nothing of time, at the end of a text.
fn push_promise(text: &mut String, profile: Profile) -> Result<(), AllocError>
    ensures { OnOk result (string_bytes text.new ≡ string_bytes text.old ++ promise_lines profile) }
{
    text.push_str("   For an observer of profile ")?;
    text.push_str(profile_text(profile))?;
    text.push_str(
        ": neither the instructions that it executes, nor the addresses of its loads and stores,\n   nor the \
         operands of its ",
    )?;
    text.push_str(shown_operations(profile))?;
    text.push_str(" depend on secret arguments. Nothing is proved of time. */\n")
}

/// What is premised and what is promised, at the end of a text.
fn push_comment(text: &mut String, function: &Function) -> Result<(), AllocError>
    ensures { OnOk result (string_bytes text.new ≡ string_bytes text.old ++ comment_lines (parts_of function.now)) }
{
    push_premise(text, function.name.as_str())?;
    push_promise(text, function.image.profile())
}

/// The macro that keeps the header from being read twice, at the end of a text.
fn push_guard_name(text: &mut String, name: &str) -> Result<(), AllocError>
    ensures { OnOk result (string_bytes text.new ≡ string_bytes text.old ++ guard_name name.now) }
{
    text.push_str("FACT_")?;
    text.push_str(name)?;
    text.push_str("_H")
}

/// The macro of the bytes of stack, at the end of a text.
fn push_stack_name(text: &mut String, name: &str) -> Result<(), AllocError>
    ensures { OnOk result (string_bytes text.new ≡ string_bytes text.old ++ stack_name name.now) }
{
    text.push_str(name)?;
    text.push_str("_STACK_BYTES")
}

/// That it is not read twice, at the end of a text.
fn push_guard(text: &mut String, name: &str) -> Result<(), AllocError>
    ensures { OnOk result (string_bytes text.new ≡ string_bytes text.old ++ guard_lines name.now) }
{
    text.push_str("#ifndef ")?;
    push_guard_name(text, name)?;
    text.push_str("\n#define ")?;
    push_guard_name(text, name)?;
    text.push_str("\n")
}

/// The headers of C that it needs, at the end of a text.
fn push_includes(text: &mut String) -> Result<(), AllocError>
    ensures { OnOk result (string_bytes text.new ≡ string_bytes text.old ++ include_lines) }
{
    text.push_str("#include <stdbool.h>\n#include <stdint.h>\n")
}

/// The macro of how many bytes of stack a call of a function takes, at the end of a text.
fn push_stack(text: &mut String, name: &str, bytes: u32) -> Result<(), AllocError>
    ensures { OnOk result (string_bytes text.new ≡ string_bytes text.old ++ stack_line name.now bytes) }
{
    text.push_str("#define ")?;
    push_stack_name(text, name)?;
    text.push_str(" ")?;
    push_number(text, u64::from(bytes))?;
    text.push_str("\n")
}

/// The prototype, at the end of a text.
fn push_prototype(text: &mut String, function: &Function) -> Result<(), AllocError>
    ensures { OnOk result (string_bytes text.new ≡ string_bytes text.old ++ prototype_lines (parts_of function.now)) }
{
    text.push_str("#ifdef __cplusplus\nextern \"C\" {\n#endif\n")?;
    push_result(text, function.image.returned())?;
    text.push_str(" ")?;
    text.push_str(function.name.as_str())?;
    text.push_str("(\n    ")?;
    push_parameters(text, function.parameters.as_slice())?;
    text.push_str(");\n#ifdef __cplusplus\n}\n#endif\n#endif\n")
}

/// The C header of a function: its prototype with the names of the source, the bytes of stack that a call takes, and
/// what it needs of its caller. It is refused only when out of memory.
pub fn header_text(alloc: Global, function: &Function) -> Result<String, AllocError>
    ensures { IfOk result (λ text. string_bytes text ≡ header_text (parts_of function.now)) }
{
    let name = function.name.as_str();
    let mut text = String::new(alloc);
    push_comment(&mut text, function)?;
    push_guard(&mut text, name)?;
    push_includes(&mut text)?;
    push_stack(&mut text, name, room_of(&function.image))?;
    push_prototype(&mut text, function)?;
    Ok(text)
}
