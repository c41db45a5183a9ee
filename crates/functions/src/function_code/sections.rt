// The sections of a function's code: one list of them is what its words, its text and its steps are made of.

ghost use Rattle.std.specs.Prelude.{◌≡◌, ◌≤◌, ◌+◌, ◌%◌, ◌^◌, ◌++◌, ◌∷◌, [], List, length, map, OnOk, IfOk};
ghost use Rattle.std.specs.Option.{option_map};
ghost use Rattle.functions.specs.Below.{argument_sections, array_section, array_sections, enter_sections};
ghost use Rattle.functions.specs.Below.{first_argument, frame_sections, kept_of, leave_sections, loads_code, needed_of};
ghost use Rattle.functions.specs.Below.{code_of, copier_of, copier_sections, Fields, last_sections, own_tail_sections};
ghost use Rattle.functions.specs.Below.{section_code, stores_code};
ghost use Rattle.functions.specs.function_code.Above.{IsAbove};
ghost use Rattle.functions.specs.Below.{argument_section, is_open, is_skipped};
ghost use Rattle.compilation.specs.Needs.{needs_as};
ghost use Rattle.linked_calls.specs.declared.section.Section.{Section};
ghost use Rattle.linked_calls.specs.declared.section.Section.TheVariants.{BlankWord, ClearedFrame, FrameBase};
ghost use Rattle.linked_calls.specs.declared.section.Section.TheVariants.{LoweredStack};

use crate::function_code::blank::{are_few, blank_word, lowered_stack};
use crate::function_code::copier::copier;
use crate::function_code::entering::{argument, frame_base, room_above};
use crate::function_code::kept::kept;
use crate::function_code::leaving::{array, callers_stack, frame_top, go_back, go_on, result};
use crate::function_code::pieces::{clear_registers, loads, stores, wrapped};
use crate::function_code::registers;
use crate::function_code::room::{Around, first_argument, frame_room, needed_count, room_of};
use crate::function_code::zeroing::{cleared_frame, wiped_room};
use expression_code::image_fields::{ImageFields, Slot};
use hepurita::FrameNeeds;
use language::{Form, Kind, Param};
use linked_calls::{Pace, Round, Section};
use rv_code::{Instr, Reg};
use std::alloc::{AllocError, Global};

/// Whether any numbers of its kind may stand in the slot of a parameter: of an array of numbers that may be changed.
fn is_open(param: Param) -> bool
    ensures { result ≡ is_open param.form param.kind }
{
    match (param.form, param.kind) {
        (Form::SingleWord | Form::FixedArray, _) | (Form::MutableArray, Kind::Boolean) => false,
        (Form::MutableArray, Kind::Uint8 | Kind::Uint16 | Kind::Uint32) => true,
    }
}

/// Whether an argument is not copied in.
fn is_skipped(spared: &[bool], index: u16, slot: Slot) -> bool
    ensures { result ≡ is_skipped spared.now index slot }
{
    spared.get(index as usize).copied().unwrap_or(false) && is_open(slot.param)
}

/// Puts the section of an argument at the end, where it has to stand in its slot.
fn push_argument(
    sections: &mut Vec<Section>,
    spared: &[bool],
    index: u16,
    slot: Slot,
) -> Result<(), AllocError>
    ensures { OnOk result (sections.new.items ≡ sections.old.items ++ argument_section spared.now index slot) }
{
    if is_skipped(spared, index, slot) {
        return Ok(());
    }
    sections.push(Section::ArgumentIn(index, slot))?;
    Ok(())
}

/// Puts those of arguments at the end.
fn push_arguments(
    sections: &mut Vec<Section>,
    spared: &[bool],
    slots: &[Slot],
) -> Result<(), AllocError>
    requires { length slots.now ≤ 8192 }
    ensures { OnOk result (sections.new.items ≡ sections.old.items ++ argument_sections spared.now 0 slots.now) }
{
    let mut index = 0;
    for slot in slots {
        push_argument(sections, spared, index, *slot)?;
        index += 1;
    }
    Ok(())
}

/// Puts the section of an array at the end, where it goes back.
fn push_array(sections: &mut Vec<Section>, index: u16, slot: Slot) -> Result<(), AllocError>
    ensures { OnOk result (sections.new.items ≡ sections.old.items ++ array_section index slot slot.param.form) }
{
    match slot.param.form {
        Form::SingleWord | Form::FixedArray => Ok(()),
        Form::MutableArray => {
            sections.push(Section::ArrayOut(index, slot))?;
            Ok(())
        }
    }
}

/// Puts those of arrays that go back at the end.
fn push_arrays(sections: &mut Vec<Section>, slots: &[Slot]) -> Result<(), AllocError>
    requires { length slots.now ≤ 8192 }
    ensures { OnOk result (sections.new.items ≡ sections.old.items ++ array_sections 0 slots.now) }
{
    let mut index = 0;
    for slot in slots {
        push_array(sections, index, *slot)?;
        index += 1;
    }
    Ok(())
}

/// Puts those of a frame that is zeroed whole at the end.
fn push_cleared(sections: &mut Vec<Section>) -> Result<(), AllocError>
    ensures { OnOk result (sections.new.items ≡ sections.old.items ++ FrameBase ∷ ClearedFrame ∷ []) }
{
    sections.push(Section::FrameBase)?;
    sections.push(Section::ClearedFrame)?;
    Ok(())
}

/// Puts those of a frame of which some words are zeroed at the end.
fn push_blank(sections: &mut Vec<Section>, offsets: &[u32]) -> Result<(), AllocError>
    ensures { OnOk result (sections.new.items ≡ sections.old.items ++ LoweredStack ∷ map BlankWord offsets.now) }
{
    sections.push(Section::LoweredStack)?;
    for offset in offsets {
        sections.push(Section::BlankWord(*offset))?;
    }
    Ok(())
}

/// Puts those of a frame that has room at the end.
fn push_frame(
    sections: &mut Vec<Section>,
    pace: Pace,
    room: u32,
    blank: Option<&[u32]>,
) -> Result<(), AllocError>
    ensures { OnOk result (sections.new.items
        ≡ sections.old.items ++ frame_sections pace room (option_map (λ offsets. offsets.now) blank.entry)) }
{
    if room == 0 {
        return Ok(());
    }
    match blank {
        Some(offsets) if are_few(pace, room, offsets) => push_blank(sections, offsets),
        Some(_) | None => push_cleared(sections),
    }
}

/// The sections before the body.
pub fn enter_sections(
    alloc: Global,
    image: &ImageFields,
    needs: &FrameNeeds,
    pace: Pace,
) -> Result<Vec<Section>, AllocError>
    ensures { IfOk result (λ sections. sections.items ≡ enter_sections image.now (needs_as needs.now) pace) }
{
    let mut sections = Vec::new(alloc);
    sections.push(Section::RoomAboveFrame)?;
    sections.push(Section::SavedRegisters)?;
    sections.push(Section::ArgumentRegisters)?;
    push_frame(&mut sections, pace, frame_room(image), needs.blank_words())?;
    push_arguments(&mut sections, needs.spared.as_slice(), image.slots())?;
    Ok(sections)
}

/// Puts those of a tail of the function's own at the end.
fn push_own_tail(sections: &mut Vec<Section>, pace: Pace) -> Result<(), AllocError>
    ensures { OnOk result (sections.new.items ≡ sections.old.items ++ own_tail_sections pace) }
{
    match pace {
        Pace::Fast => {
            sections.push(Section::WipedRoom)?;
            sections.push(Section::ClearedRegisters)?;
            sections.push(Section::Return)?;
            Ok(())
        }
        Pace::Small => Ok(()),
    }
}

/// The sections behind the body.
pub fn leave_sections(
    alloc: Global,
    image: &ImageFields,
    pace: Pace,
) -> Result<Vec<Section>, AllocError>
    ensures { IfOk result (λ sections. sections.items ≡ leave_sections image.now pace) }
{
    let mut sections = Vec::new(alloc);
    sections.push(Section::ResultOut)?;
    push_arrays(&mut sections, image.slots())?;
    sections.push(Section::FrameTop)?;
    sections.push(Section::RestoredRegisters)?;
    sections.push(Section::CallersStack)?;
    push_own_tail(&mut sections, pace)?;
    Ok(sections)
}

/// The caller's registers that are kept, above the frame.
fn saved_registers(
    alloc: Global,
    code: &mut Vec<Instr>,
    image: &ImageFields,
) -> Result<(), AllocError>
    ensures { OnOk result (code.new.items ≡ code.old.items ++ stores_code 2 0 (kept_of image.now)) }
{
    let kept = kept(alloc, image)?;
    stores(code, Reg::X2, 0, kept.as_slice())
}

/// And back.
fn restored_registers(
    alloc: Global,
    code: &mut Vec<Instr>,
    image: &ImageFields,
) -> Result<(), AllocError>
    ensures { OnOk result (code.new.items ≡ code.old.items ++ loads_code 5 0 (kept_of image.now)) }
{
    let kept = kept(alloc, image)?;
    loads(code, Reg::X5, 0, kept.as_slice())
}

/// Those of a0 to a7 that are needed behind the body, above those.
fn argument_registers(
    code: &mut Vec<Instr>,
    image: &ImageFields,
    above: u32,
) -> Result<(), AllocError>
    requires { IsAbove image.now above }
    ensures { OnOk result (code.new.items
        ≡ code.old.items ++ stores_code 2 (first_argument image.now) (needed_of image.now)) }
{
    let arguments = registers::arguments();
    let needed = needed_count(image) as usize;
    stores(
        code,
        Reg::X2,
        first_argument(image, above),
        &arguments[..needed],
    )
}

/// Puts the instructions of a section of an image's function at the end.
fn push_code(
    alloc: Global,
    code: &mut Vec<Instr>,
    image: &ImageFields,
    around: Around,
    behind: u32,
    section: Section,
) -> Result<(), AllocError>
    requires above { IsAbove image.now around.above }
    requires copier { around.copier ≡ copier_of image.now around.pace }
    ensures { OnOk result (code.new.items ≡ code.old.items ++ section_code image.now around.pace behind section) }
{
    match section {
        Section::RoomAboveFrame => room_above(code, image, around.above),
        Section::SavedRegisters => saved_registers(alloc, code, image),
        Section::ArgumentRegisters => argument_registers(code, image, around.above),
        Section::FrameBase => frame_base(code, frame_room(image)),
        Section::ClearedFrame => cleared_frame(alloc, code),
        Section::LoweredStack => lowered_stack(code, frame_room(image)),
        Section::BlankWord(offset) => blank_word(code, offset),
        Section::ArgumentIn(index, slot) => {
            argument(alloc, code, image, around, behind, index, slot)
        }
        Section::ResultOut => result(code, image.returned()),
        Section::ArrayOut(index, slot) => array(alloc, code, image, around, behind, index, slot),
        Section::FrameTop => frame_top(code, frame_room(image)),
        Section::RestoredRegisters => restored_registers(alloc, code, image),
        Section::CallersStack => callers_stack(code, image, around.above),
        Section::WipedRoom => wiped_room(alloc, code, room_of(image)),
        Section::ClearedRegisters => clear_registers(code, &registers::scratch()),
        Section::Return => go_back(code),
        Section::Copier(round) => copier(alloc, code, round),
        Section::SharedTail => go_on(code),
    }
}

/// The instructions of a section of an image's function, which stands so many instructions before the copier.
pub fn section_code(
    alloc: Global,
    image: &ImageFields,
    around: Around,
    behind: u32,
    section: Section,
) -> Result<Vec<Instr>, AllocError>
    requires above { IsAbove image.now around.above }
    requires copier { around.copier ≡ copier_of image.now around.pace }
    ensures { IfOk result (λ code. code.items ≡ section_code image.now around.pace behind section) }
{
    let mut code = Vec::new(alloc);
    push_code(alloc, &mut code, image, around, behind, section)?;
    Ok(code)
}

/// How many instructions a section has, wherever the copier stands, as far as addresses go.
fn section_length(
    alloc: Global,
    image: &ImageFields,
    around: Around,
    section: Section,
) -> Result<u32, AllocError>
    requires above { IsAbove image.now around.above }
    requires copier { around.copier ≡ copier_of image.now around.pace }
    ensures { IfOk result (λ count. count ≡ length (section_code image.now around.pace 0 section) % 2 ^ 32) }
{
    let code = section_code(alloc, image, around, 0, section)?;
    Ok(wrapped(code.len()))
}

/// The instructions of a section, where it and those behind it have so many and the last stands so many before the
/// copier.
pub fn next_code(
    alloc: Global,
    image: &ImageFields,
    around: Around,
    behind: u32,
    left: u32,
    section: Section,
) -> Result<Vec<Instr>, AllocError>
    requires above { IsAbove image.now around.above }
    requires copier { around.copier ≡ copier_of image.now around.pace }
    ensures { IfOk result (λ code. (rest : List Section)
        → left ≡ length (code_of image.now around.pace 0 (section ∷ rest)) % 2 ^ 32
        → code.items ≡ section_code image.now around.pace
        (length (code_of image.now around.pace behind rest) + behind) section) }
{
    let own = section_length(alloc, image, around, section)?;
    let rest = left.wrapping_sub(own);
    let code = section_code(alloc, image, around, rest.wrapping_add(behind), section)?;
    Ok(code)
}

/// How many all of these have.
pub fn sections_length(
    alloc: Global,
    image: &ImageFields,
    around: Around,
    sections: &[Section],
) -> Result<u32, AllocError>
    requires above { IsAbove image.now around.above }
    requires copier { around.copier ≡ copier_of image.now around.pace }
    ensures { IfOk result (λ count. count ≡ length (code_of image.now around.pace 0 sections.now) % 2 ^ 32) }
{
    let mut count: u32 = 0;
    for section in sections {
        count = count.wrapping_add(section_length(alloc, image, around, *section)?);
    }
    Ok(count)
}

/// Puts that of the copier at the end, where a function has one.
fn push_copier(sections: &mut Vec<Section>, copier: Option<Round>) -> Result<(), AllocError>
    ensures { OnOk result (sections.new.items ≡ sections.old.items ++ copier_sections copier) }
{
    match copier {
        None => Ok(()),
        Some(round) => {
            sections.push(Section::Copier(round))?;
            Ok(())
        }
    }
}

/// The last: the copier, where the function has one, or on to the shared tail.
pub fn last_sections(alloc: Global, around: Around) -> Result<Vec<Section>, AllocError>
    ensures { IfOk result (λ sections. (image : Fields) → around.copier ≡ copier_of image around.pace
        → sections.items ≡ last_sections image around.pace) }
{
    let mut sections = Vec::new(alloc);
    match around.pace {
        Pace::Fast => push_copier(&mut sections, around.copier)?,
        Pace::Small => sections.push(Section::SharedTail)?,
    }
    Ok(sections)
}
