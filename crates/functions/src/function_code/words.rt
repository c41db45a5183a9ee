// The words of a function.

ghost use Rattle.std.specs.Prelude.{◌≡◌, ◌+◌, ◌%◌, ◌^◌, ◌++◌, length, map, OnOk, IfOk};
ghost use Rattle.functions.specs.Below.{body_words, code_of, copier_of, function_words, word_of};
ghost use Rattle.functions.specs.function_code.Above.{IsAbove};
ghost use Rattle.compilation.specs.Needs.{needs_as};

use crate::function_code::pieces::wrapped;
use crate::function_code::room::{Around, around_body};
use crate::function_code::sections::{
    enter_sections, last_sections, leave_sections, next_code, sections_length,
};
use expression_code::image_fields::ImageFields;
use hepurita::FrameNeeds;
use linked_calls::{Pace, Section};
use rv_code::{Instr, encode};
use std::alloc::{AllocError, Global};

/// Puts the words of instructions at the end.
fn push_words(words: &mut Vec<u32>, code: &[Instr]) -> Result<(), AllocError>
    ensures { OnOk result (words.new.items ≡ words.old.items ++ map word_of code.now) }
{
    for instruction in code {
        words.push(encode(*instruction))?;
    }
    Ok(())
}

/// Puts the words of sections at the end, of which the last stands so many instructions before the copier.
fn push_sections(
    alloc: Global,
    words: &mut Vec<u32>,
    image: &ImageFields,
    around: Around,
    behind: u32,
    sections: &[Section],
) -> Result<(), AllocError>
    requires above { IsAbove image.now around.above }
    requires copier { around.copier ≡ copier_of image.now around.pace }
    ensures { OnOk result (words.new.items
        ≡ words.old.items ++ map word_of (code_of image.now around.pace behind sections.now)) }
{
    let mut left = sections_length(alloc, image, around, sections)?;
    for section in sections {
        let code = next_code(alloc, image, around, behind, left, *section)?;
        left = left.wrapping_sub(wrapped(code.len()));
        push_words(words, code.as_slice())?;
    }
    Ok(())
}

/// The words of an image but the last, which is ECALL in one that is compiled: the function's body.
pub fn body(image: &ImageFields) -> &[u32]
    ensures { result.now ≡ body_words image.now.words }
{
    match image.words() {
        [] => &[],
        [body @ .., _] => body,
    }
}

/// How many words there are from the body on up to the last section, as far as addresses go.
pub fn from_body(
    alloc: Global,
    image: &ImageFields,
    around: Around,
    leave: &[Section],
) -> Result<u32, AllocError>
    requires above { IsAbove image.now around.above }
    requires copier { around.copier ≡ copier_of image.now around.pace }
    ensures { IfOk result (λ count. count
        ≡ (length (body_words image.now.words) + length (code_of image.now around.pace 0 leave.now)) % 2 ^ 32) }
{
    let count = sections_length(alloc, image, around, leave)?;
    Ok(count.wrapping_add(wrapped(body(image).len())))
}

/// The words of the function of an image, whose body needs this of its frame, at a pace; where it goes on to the tail
/// that functions share, that is no bytes ahead. They are refused only when out of memory.
pub fn function_words(
    alloc: Global,
    image: &ImageFields,
    needs: &FrameNeeds,
    pace: Pace,
) -> Result<Vec<u32>, AllocError>
    ensures { IfOk result (λ words.
        words.items ≡ function_words image.now (needs_as needs.now) pace 0) }
{
    let around = around_body(image, pace);
    let enter = enter_sections(alloc, image, needs, pace)?;
    let leave = leave_sections(alloc, image, pace)?;
    let last = last_sections(alloc, around)?;
    let behind = from_body(alloc, image, around, leave.as_slice())?;
    let mut words = Vec::new(alloc);
    push_sections(alloc, &mut words, image, around, behind, enter.as_slice())?;
    words.extend_from_slice(body(image))?;
    push_sections(alloc, &mut words, image, around, 0, leave.as_slice())?;
    push_sections(alloc, &mut words, image, around, 0, last.as_slice())?;
    Ok(words)
}
