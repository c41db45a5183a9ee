// Lines of a function's text for an assembler, each put at the end of a text.

ghost use Rattle.std.specs.Prelude.{◌≡◌, ◌++◌, OnOk, codes};
ghost use Rattle.std.specs.Fmt.{decimal};
ghost use Rattle.std.specs.String.{string_bytes};
ghost use Rattle.functions.specs.function_text.AssemblerText.{title_line, frame_line};
ghost use Rattle.functions.specs.function_text.AssemblerText.{argument_title, section_title, kept_line, restored_line};
ghost use Rattle.functions.specs.Below.{copier_of};
ghost use Rattle.functions.specs.function_code.Above.{IsAbove};
ghost use Rattle.functions.specs.function_text.AssemblerText.{change_lines, code_line, end_line, instruction_lines};
ghost use Rattle.functions.specs.function_text.AssemblerText.{kept_lines, start_lines, written_text};

use crate::function_code::{Around, above_frame, room_of, section_code};
use crate::function_text::notation::{Notation, push_code_line, push_onward_line};
use expression_code::image_fields::ImageFields;
use language::Form;
use linked_calls::Section;
use rv_code::Instr;
use std::alloc::{AllocError, Global};
use std::fmt::Write;

/// A number in decimal.
pub fn push_number(text: &mut String, number: u64) -> Result<(), AllocError>
    ensures { OnOk result (string_bytes text.new ≡ string_bytes text.old ++ decimal number) }
{
    write!(text, "{number}")?;
    Ok(())
}

/// Where the caller's x2 is, from a register on.
pub fn push_frame(text: &mut String, register: u32, distance: u32) -> Result<(), AllocError>
    ensures { OnOk result (string_bytes text.new ≡ string_bytes text.old ++ frame_line register distance) }
{
    text.push_str("    .cfi_def_cfa ")?;
    push_number(text, u64::from(register))?;
    text.push_str(", ")?;
    push_number(text, u64::from(distance))?;
    text.push_str("\n")
}

/// How far the caller's x2 is above x2.
fn push_offset(text: &mut String, distance: u32) -> Result<(), AllocError>
    ensures { OnOk result (string_bytes text.new
        ≡ string_bytes text.old ++ (codes "    .cfi_def_cfa_offset " ++ decimal distance ++ codes "\n")) }
{
    text.push_str("    .cfi_def_cfa_offset ")?;
    push_number(text, u64::from(distance))?;
    text.push_str("\n")
}

/// What the form of an argument is called.
fn argument_title(form: Form) -> &'static str
    ensures { result.now ≡ argument_title form }
{
    match form {
        Form::SingleWord => ": a word",
        Form::FixedArray | Form::MutableArray => ": an array",
    }
}

/// What the section of an argument is for.
fn push_argument(text: &mut String, index: u16, form: Form) -> Result<(), AllocError>
    ensures { OnOk result (string_bytes text.new
        ≡ string_bytes text.old ++ (codes "parameter " ++ decimal index ++ argument_title form)) }
{
    let what = argument_title(form);
    write!(text, "parameter {index}{what}")?;
    Ok(())
}

/// What the section of an array is for that goes back.
fn push_array(text: &mut String, index: u16) -> Result<(), AllocError>
    ensures { OnOk result (string_bytes text.new
        ≡ string_bytes text.old ++ (codes "parameter " ++ decimal index ++ codes ": the array, back")) }
{
    write!(text, "parameter {index}: the array, back")?;
    Ok(())
}

/// What the section of a word is for that has to be zero.
fn push_blank_word(text: &mut String, offset: u32) -> Result<(), AllocError>
    ensures { OnOk result (string_bytes text.new
        ≡ string_bytes text.old ++ (codes "the frame's word at " ++ decimal offset ++ codes ", zeroed")) }
{
    write!(text, "the frame's word at {offset}, zeroed")?;
    Ok(())
}

/// What a section is for.
fn push_section_title(text: &mut String, section: Section) -> Result<(), AllocError>
    ensures { OnOk result (string_bytes text.new ≡ string_bytes text.old ++ section_title section) }
{
    match section {
        Section::RoomAboveFrame => text.push_str("room above the frame"),
        Section::SavedRegisters => text.push_str("the caller's registers"),
        Section::ArgumentRegisters => text.push_str("arguments that are needed behind the body"),
        Section::FrameBase => text.push_str("the frame's base"),
        Section::ClearedFrame => text.push_str("the frame, zeroed downward"),
        Section::LoweredStack => text.push_str("the frame's base"),
        Section::BlankWord(offset) => push_blank_word(text, offset),
        Section::ArgumentIn(index, slot) => push_argument(text, index, slot.param.form),
        Section::ResultOut => text.push_str("the result"),
        Section::ArrayOut(index, _) => push_array(text, index),
        Section::FrameTop => text.push_str("above the frame"),
        Section::RestoredRegisters => text.push_str("the caller's registers"),
        Section::CallersStack => text.push_str("the caller's x2"),
        Section::WipedRoom => text.push_str("all the room, wiped upward"),
        Section::ClearedRegisters => text.push_str("temporaries, wiped"),
        Section::Return => text.push_str("back"),
        Section::Copier(_) => text.push_str("from x5 to x6 up to x7, and back"),
        Section::SharedTail => text.push_str("on to the tail that functions share"),
    }
}

/// The title of a section.
pub fn push_title(text: &mut String, section: Section) -> Result<(), AllocError>
    ensures { OnOk result (string_bytes text.new ≡ string_bytes text.old ++ title_line (section_title section)) }
{
    text.push_str("    # ")?;
    push_section_title(text, section)?;
    text.push_str("\n")
}

/// Where a register of the caller is kept, below the caller's x2.
fn push_kept(text: &mut String, image: &ImageFields, instruction: &Instr) -> Result<(), AllocError>
    ensures { OnOk result (string_bytes text.new ≡ string_bytes text.old ++ kept_line image.now instruction.now) }
{
    match *instruction {
        Instr::Store(_, register, _, offset) => {
            let register = register.number();
            let below = above_frame(image).saturating_sub(u32::from(offset.field()));
            writeln!(text, "    .cfi_offset {register}, -{below}")?;
            Ok(())
        }
        _ => Ok(()),
    }
}

/// Where all registers of the caller are kept that these instructions store.
fn push_kept_lines(text: &mut String, image: &ImageFields, code: &[Instr]) -> Result<(), AllocError>
    ensures { OnOk result (string_bytes text.new ≡ string_bytes text.old ++ kept_lines image.now code.now) }
{
    for instruction in code {
        push_kept(text, image, instruction)?;
    }
    Ok(())
}

/// That the register of a number is the caller's again.
fn push_back(text: &mut String, register: u8) -> Result<(), AllocError>
    ensures { OnOk result (string_bytes text.new
        ≡ string_bytes text.old ++ (codes "    .cfi_restore " ++ decimal register ++ codes "\n")) }
{
    text.push_str("    .cfi_restore ")?;
    push_number(text, u64::from(register))?;
    text.push_str("\n")
}

/// That a register is the caller's again, where the instruction loads one.
fn push_restored(text: &mut String, instruction: &Instr) -> Result<(), AllocError>
    ensures { OnOk result (string_bytes text.new ≡ string_bytes text.old ++ restored_line instruction.now) }
{
    match *instruction {
        Instr::Load(_, register, _, _) => push_back(text, register.number()),
        _ => Ok(()),
    }
}

/// What changes for a debugger by an instruction of a section.
fn push_change(
    text: &mut String,
    image: &ImageFields,
    section: Section,
    instruction: &Instr,
) -> Result<(), AllocError>
    ensures { OnOk result (string_bytes text.new
        ≡ string_bytes text.old ++ change_lines image.now section instruction.now) }
{
    match section {
        Section::SavedRegisters => push_kept(text, image, instruction),
        Section::RestoredRegisters => push_restored(text, instruction),
        _ => Ok(()),
    }
}

/// What is written for an instruction of a section at a position, as a line.
fn push_written(
    text: &mut String,
    notation: Notation,
    name: &str,
    image: &ImageFields,
    section: Section,
    at: u32,
    instruction: &Instr,
) -> Result<(), AllocError>
    ensures { OnOk result (string_bytes text.new ≡ string_bytes text.old
        ++ code_line notation name.now at (written_text notation name.now image.now section at instruction.now)) }
{
    match section {
        Section::SharedTail => push_onward_line(text, notation, name, at, room_of(image)),
        _ => push_code_line(text, notation, name, at, instruction),
    }
}

/// An instruction of a section at a position, and what changes by it.
pub fn push_instruction(
    text: &mut String,
    notation: Notation,
    name: &str,
    image: &ImageFields,
    section: Section,
    at: u32,
    instruction: &Instr,
) -> Result<(), AllocError>
    ensures { OnOk result (string_bytes text.new ≡ string_bytes text.old
        ++ instruction_lines notation name.now image.now section at instruction.now) }
{
    push_written(text, notation, name, image, section, at, instruction)?;
    push_change(text, image, section, instruction)
}

/// What is so for a debugger where a section begins: the copier is run between entering and leaving.
pub fn push_start(
    alloc: Global,
    text: &mut String,
    image: &ImageFields,
    around: Around,
    section: Section,
) -> Result<(), AllocError>
    requires above { IsAbove image.now around.above }
    requires copier { around.copier ≡ copier_of image.now around.pace }
    ensures { OnOk result (string_bytes text.new ≡ string_bytes text.old ++ start_lines image.now section) }
{
    match section {
        Section::Copier(_) => {
            push_frame(text, 2, room_of(image))?;
            let kept = section_code(alloc, image, around, 0, Section::SavedRegisters)?;
            push_kept_lines(text, image, kept.as_slice())
        }
        _ => Ok(()),
    }
}

/// What has changed for a debugger at the end of a section.
pub fn push_end(text: &mut String, image: &ImageFields, section: Section) -> Result<(), AllocError>
    ensures { OnOk result (string_bytes text.new ≡ string_bytes text.old ++ end_line image.now section) }
{
    match section {
        Section::RoomAboveFrame => push_offset(text, above_frame(image)),
        Section::FrameBase => push_frame(text, 5, room_of(image)),
        Section::ClearedFrame | Section::LoweredStack => push_frame(text, 2, room_of(image)),
        Section::CallersStack => push_frame(text, 5, 0),
        Section::WipedRoom => push_frame(text, 2, 0),
        _ => Ok(()),
    }
}
