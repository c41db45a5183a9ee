// The text of a function for an assembler.

ghost use Rattle.std.specs.Prelude.{◌≡◌, ℕ, ◌++◌, List, [], codes, OnOk, IfOk};
ghost use Rattle.std.specs.String.{string_bytes};
ghost use Rattle.functions.specs.Below.{body_words, code_of, copier_of, wipe_code};
ghost use Rattle.functions.specs.function_text.AssemblerText.{ListsWords, IsAssemblerText, behind, behind_lines};
ghost use Rattle.functions.specs.function_text.AssemblerText.{body_start, code_lines, section_lines, sections_lines};
ghost use Rattle.functions.specs.function_text.AssemblerText.{profile_text, shared_text, sizes_text, title_line};
ghost use Rattle.functions.specs.function_text.AssemblerText.{first_line, place_lines, symbol_lines, head_lines};
ghost use Rattle.functions.specs.function_text.AssemblerText.{entry_lines, shared_lines, shared_part_lines};
ghost use Rattle.functions.specs.function_text.AssemblerText.{shared_place_lines, shared_wiping_lines, size_lines};
ghost use Rattle.functions.specs.function_text.AssemblerText.{tail_lines};
ghost use Rattle.functions.specs.function_text.Functions.{parts_of};
ghost use Rattle.functions.specs.function_code.Above.{IsAbove};

use crate::function_code::{
    Around, around_body, body, enter_sections, from_body, function_words, last_sections,
    leave_sections, next_code, room_of, sections_length, wiped_room, wrapped,
};
use crate::function_text::function::Function;
use crate::function_text::lines::{
    push_end, push_frame, push_instruction, push_number, push_start, push_title,
};
use crate::function_text::notation::{Notation, next_position, push_word};
use expression_code::image_fields::ImageFields;
use language::Profile;
use linked_calls::{Pace, Section};
use rv_code::Instr;
use std::alloc::{AllocError, Global};

/// The symbol of the tail that functions share, which no source gives.
const TAIL_NAME: &str = "factc.tail.1";

/// The bytes of a block of the stack.
const BLOCK: u32 = 16;

/// The number of a profile.
pub(crate) fn profile_text(profile: Profile) -> &'static str
    ensures { result.now ≡ profile_text profile }
{
    match profile {
        Profile::P1 => "1",
        Profile::P2 => "2",
    }
}

/// The instructions of a section from a position on, at the end of a text; and the position behind them.
fn push_code(
    text: &mut String,
    notation: Notation,
    name: &str,
    image: &ImageFields,
    section: Section,
    start: u32,
    code: &[Instr],
) -> Result<u32, AllocError>
    ensures written { OnOk result (string_bytes text.new ≡ string_bytes text.old
        ++ code_lines notation name.now image.now section start code.now) }
    ensures ends { IfOk result (λ end. end ≡ behind start code.now) }
{
    let mut at = start;
    for instruction in code {
        push_instruction(text, notation, name, image, section, at, instruction)?;
        at = next_position(at);
    }
    Ok(at)
}

/// A section from a position on, with this code, at the end of a text; and the position behind it.
fn push_section(
    alloc: Global,
    text: &mut String,
    notation: Notation,
    name: &str,
    image: &ImageFields,
    around: Around,
    section: Section,
    start: u32,
    code: &[Instr],
) -> Result<u32, AllocError>
    requires above { IsAbove image.now around.above }
    requires copier { around.copier ≡ copier_of image.now around.pace }
    ensures written { OnOk result (string_bytes text.new ≡ string_bytes text.old
        ++ section_lines notation name.now image.now section start code.now) }
    ensures ends { IfOk result (λ end. end ≡ behind start code.now) }
{
    push_title(text, section)?;
    push_start(alloc, text, image, around, section)?;
    let end = push_code(text, notation, name, image, section, start, code)?;
    push_end(text, image, section)?;
    Ok(end)
}

/// Sections of what has this name from a position on, of which the last stands so many instructions before the copier,
/// at the end of a text; and the position behind them.
fn push_sections(
    alloc: Global,
    text: &mut String,
    notation: Notation,
    name: &str,
    function: &Function,
    distance: u32,
    start: u32,
    sections: &[Section],
) -> Result<u32, AllocError>
    ensures written { OnOk result (string_bytes text.new ≡ string_bytes text.old
        ++ sections_lines notation name.now (parts_of function.now) distance start sections.now) }
    ensures ends { IfOk result (λ end.
        end ≡ behind start (code_of function.now.image function.now.pace distance sections.now)) }
{
    let image = &function.image;
    let around = around_body(image, function.pace);
    let mut left = sections_length(alloc, image, around, sections)?;
    let mut at = start;
    for section in sections {
        let code = next_code(alloc, image, around, distance, left, *section)?;
        left = left.wrapping_sub(wrapped(code.len()));
        at = push_section(
            alloc,
            text,
            notation,
            name,
            image,
            around,
            *section,
            at,
            code.as_slice(),
        )?;
    }
    Ok(at)
}

/// Words from a position on, at the end of a text that is theirs; and the position behind them.
fn push_words(
    lines: &mut String,
    function: &Function,
    notation: Notation,
    start: u32,
    words: &[u32],
) -> Result<u32, AllocError>
    requires { string_bytes lines.old ≡ [] }
    ensures written { OnOk result (ListsWords notation function.now.name start words.now (string_bytes lines.new)) }
    ensures ends { IfOk result (λ end. end ≡ behind start words.now) }
{
    let name = function.name.as_str();
    let mut at = start;
    for &word in words {
        push_word(lines, notation, name, at, word)?;
        at = next_position(at);
    }
    Ok(at)
}

/// How many words are shared, at the end of a text.
fn push_shared_words(text: &mut String, pace: Pace) -> Result<(), AllocError>
    ensures { OnOk result (string_bytes text.new ≡ string_bytes text.old ++ shared_text pace) }
{
    match pace {
        Pace::Fast => Ok(()),
        Pace::Small => text.push_str(" and 21 shared"),
    }
}

/// How large the function is, and for which observer, at the end of a text.
fn push_sizes(alloc: Global, text: &mut String, function: &Function) -> Result<(), AllocError>
    ensures { OnOk result (string_bytes text.new ≡ string_bytes text.old ++ sizes_text (parts_of function.now)) }
{
    let words = function_words(alloc, &function.image, &function.needs, function.pace)?;
    push_number(text, words.len() as u64)?;
    text.push_str(" words")?;
    push_shared_words(text, function.pace)?;
    text.push_str(", ")?;
    push_number(text, u64::from(room_of(&function.image)))?;
    text.push_str(" bytes of stack, profile ")?;
    text.push_str(profile_text(function.image.profile()))
}

/// What the function is, at the end of a text.
fn push_first(alloc: Global, text: &mut String, function: &Function) -> Result<(), AllocError>
    ensures { OnOk result (string_bytes text.new ≡ string_bytes text.old ++ first_line (parts_of function.now)) }
{
    text.push_str("# ")?;
    text.push_str(function.name.as_str())?;
    text.push_str(": made by factc 1.0.0 function; ")?;
    push_sizes(alloc, text, function)?;
    text.push_str("\n")
}

/// How its words stand, at the end of a text.
fn push_place(text: &mut String, function: &Function) -> Result<(), AllocError>
    ensures { OnOk result (string_bytes text.new ≡ string_bytes text.old ++ place_lines (parts_of function.now)) }
{
    text.push_str(
        "    .option push\n    .option norvc\n    .option norelax\n    .cfi_sections .debug_frame\n    .section .text.",
    )?;
    text.push_str(function.name.as_str())?;
    text.push_str(", \"ax\", @progbits\n    .p2align 2\n")
}

/// Its symbol, at the end of a text.
fn push_symbol(text: &mut String, function: &Function) -> Result<(), AllocError>
    ensures { OnOk result (string_bytes text.new ≡ string_bytes text.old ++ symbol_lines (parts_of function.now)) }
{
    let name = function.name.as_str();
    text.push_str("    .globl ")?;
    text.push_str(name)?;
    text.push_str("\n    .type ")?;
    text.push_str(name)?;
    text.push_str(", @function\n")?;
    text.push_str(name)?;
    text.push_str(":\n    .cfi_startproc\n")
}

/// What stands before the words, at the end of a text.
fn push_head(alloc: Global, text: &mut String, function: &Function) -> Result<(), AllocError>
    ensures { OnOk result (string_bytes text.new ≡ string_bytes text.old ++ head_lines (parts_of function.now)) }
{
    push_first(alloc, text, function)?;
    push_place(text, function)?;
    push_symbol(text, function)
}

/// Where a symbol ends, at the end of a text.
fn push_size(text: &mut String, name: &str) -> Result<(), AllocError>
    ensures { OnOk result (string_bytes text.new ≡ string_bytes text.old ++ size_lines name.now) }
{
    text.push_str("    .cfi_endproc\n    .size ")?;
    text.push_str(name)?;
    text.push_str(", . - ")?;
    text.push_str(name)?;
    text.push_str("\n")
}

/// How the shared tail stands, at the end of a text.
fn push_shared_place(text: &mut String) -> Result<(), AllocError>
    ensures { OnOk result (string_bytes text.new ≡ string_bytes text.old ++ shared_place_lines) }
{
    text.push_str(
        "    .section .text.factc.tail.1, \"axG\", @progbits, factc.tail.1, comdat\n    .p2align 2\n",
    )?;
    text.push_str(
        "    .globl factc.tail.1\n    .hidden factc.tail.1\n    .type factc.tail.1, @function\n",
    )?;
    text.push_str("factc.tail.1:\n    .cfi_startproc\n")?;
    push_frame(text, 5, 0)
}

/// The section of the shared tail that wipes a room, at the end of a text; and the position behind it.
fn push_wiping(
    alloc: Global,
    text: &mut String,
    function: &Function,
    notation: Notation,
) -> Result<u32, AllocError>
    ensures written { OnOk result (string_bytes text.new
        ≡ string_bytes text.old ++ shared_wiping_lines notation (parts_of function.now)) }
    ensures ends { IfOk result (λ end. end ≡ behind 0 (wipe_code 16)) }
{
    let image = &function.image;
    let around = around_body(image, function.pace);
    let mut wiping = Vec::new(alloc);
    wiped_room(alloc, &mut wiping, BLOCK)?;
    push_section(
        alloc,
        text,
        notation,
        TAIL_NAME,
        image,
        around,
        Section::WipedRoom,
        0,
        wiping.as_slice(),
    )
}

/// The tail that functions share, at the end of a text.
fn push_shared(
    alloc: Global,
    text: &mut String,
    function: &Function,
    notation: Notation,
) -> Result<(), AllocError>
    ensures { OnOk result (string_bytes text.new
        ≡ string_bytes text.old ++ shared_lines notation (parts_of function.now)) }
{
    push_shared_place(text)?;
    let wiped = push_wiping(alloc, text, function, notation)?;
    let rest = [Section::ClearedRegisters, Section::Return];
    push_sections(alloc, text, notation, TAIL_NAME, function, 0, wiped, &rest)?;
    push_size(text, TAIL_NAME)
}

/// The same where the function goes on to it.
fn push_shared_part(
    alloc: Global,
    text: &mut String,
    function: &Function,
    notation: Notation,
) -> Result<(), AllocError>
    ensures { OnOk result (string_bytes text.new ≡ string_bytes text.old
        ++ shared_part_lines notation (parts_of function.now) function.now.pace) }
{
    match function.pace {
        Pace::Fast => Ok(()),
        Pace::Small => push_shared(alloc, text, function, notation),
    }
}

/// What stands behind the words, at the end of a text.
fn push_tail(
    alloc: Global,
    text: &mut String,
    function: &Function,
    notation: Notation,
) -> Result<(), AllocError>
    ensures { OnOk result (string_bytes text.new
        ≡ string_bytes text.old ++ tail_lines notation (parts_of function.now)) }
{
    push_size(text, function.name.as_str())?;
    push_shared_part(alloc, text, function, notation)?;
    text.push_str("    .option pop\n")
}

/// The sections before the body, at the end of a text; and where the body begins.
fn push_entry(
    alloc: Global,
    text: &mut String,
    function: &Function,
    notation: Notation,
) -> Result<u32, AllocError>
    ensures written { OnOk result (string_bytes text.new
        ≡ string_bytes text.old ++ entry_lines notation (parts_of function.now)) }
    ensures ends { IfOk result (λ end. end ≡ body_start (parts_of function.now)) }
{
    let image = &function.image;
    let around = around_body(image, function.pace);
    let sections = enter_sections(alloc, image, &function.needs, function.pace)?;
    let leave = leave_sections(alloc, image, function.pace)?;
    let distance = from_body(alloc, image, around, leave.as_slice())?;
    let name = function.name.as_str();
    let end = push_sections(
        alloc,
        text,
        notation,
        name,
        function,
        distance,
        0,
        sections.as_slice(),
    )?;
    Ok(end)
}

/// The body from a position on, at the end of a text; and the position behind it.
fn push_body(
    alloc: Global,
    text: &mut String,
    function: &Function,
    notation: Notation,
    start: u32,
) -> Result<u32, AllocError>
    ensures written { OnOk result ((lines : List ℕ)
        × ListsWords notation function.now.name start (body_words function.now.image.words) lines
        × (string_bytes text.new ≡ string_bytes text.old ++ (title_line (codes "the body") ++ lines))) }
    ensures ends { IfOk result (λ end. end ≡ behind start (body_words function.now.image.words)) }
{
    let mut lines = String::new(alloc);
    let end = push_words(&mut lines, function, notation, start, body(&function.image))?;
    text.push_str("    # the body\n")?;
    text.push_str(lines.as_str())?;
    Ok(end)
}

/// The sections behind the body, from a position on, at the end of a text.
fn push_exit(
    alloc: Global,
    text: &mut String,
    function: &Function,
    notation: Notation,
    start: u32,
) -> Result<(), AllocError>
    ensures { OnOk result (string_bytes text.new ≡ string_bytes text.old
        ++ behind_lines notation (parts_of function.now) start) }
{
    let image = &function.image;
    let name = function.name.as_str();
    let leave = leave_sections(alloc, image, function.pace)?;
    let leaving = leave.as_slice();
    let end = push_sections(alloc, text, notation, name, function, 0, start, leaving)?;
    let last = last_sections(alloc, around_body(image, function.pace))?;
    push_sections(
        alloc,
        text,
        notation,
        name,
        function,
        0,
        end,
        last.as_slice(),
    )?;
    Ok(())
}

/// The text of a function for a GNU or LLVM assembler: its words as numbers or as instructions, with the function's
/// symbol, and what a debugger has to know at each word. It is refused only when out of memory.
pub fn assembler_text(
    alloc: Global,
    function: &Function,
    notation: Notation,
) -> Result<String, AllocError>
    ensures { IfOk result (λ text. IsAssemblerText notation (parts_of function.now) (string_bytes text)) }
{
    let mut text = String::new(alloc);
    push_head(alloc, &mut text, function)?;
    let body_start = push_entry(alloc, &mut text, function, notation)?;
    let exit_start = push_body(alloc, &mut text, function, notation, body_start)?;
    push_exit(alloc, &mut text, function, notation, exit_start)?;
    push_tail(alloc, &mut text, function, notation)?;
    Ok(text)
}
