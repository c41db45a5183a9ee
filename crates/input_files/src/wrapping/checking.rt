// Which rule code, frame and steps break first.

ghost use Rattle.std.specs.Prelude.{◌≡◌, length};
ghost use Rattle.input_files.specs.Below.{is_frame_size, is_step_limit};
ghost use Rattle.input_files.specs.wrapping.Wrapped.{is_code_length, broken_rule};

use crate::wrapping::asked::Asked;
use crate::wrapping::fault::CodeRule;
use expression_code::image_fields::{MOST_FRAME_BYTES, MOST_STEPS, MOST_WORDS};

/// The bytes of a code word, and of a word of the frame.
pub(crate) const WORD_BYTES: usize = 4;

/// Whether code of so many bytes is whole words, as many as an image may have.
fn is_code_length(bytes: usize) -> bool
    ensures { result ≡ is_code_length bytes }
{
    bytes % WORD_BYTES == 0 && 1 <= bytes / WORD_BYTES && bytes / WORD_BYTES <= MOST_WORDS as usize
}

/// Whether an image may have a frame of so many bytes, where its slots end at `low`.
fn is_frame_size(low: u64, bytes: u64) -> bool
    ensures { result ≡ is_frame_size low bytes }
{
    bytes % 4 == 0 && bytes <= u64::from(MOST_FRAME_BYTES) && low <= bytes
}

/// Whether a run may take so many steps.
fn is_step_limit(steps: u64) -> bool
    ensures { result ≡ is_step_limit steps }
{
    1 <= steps && steps <= MOST_STEPS
}

/// The first rule that code, frame or steps break, where the slots end at `low`.
pub(crate) fn broken_rule(low: u64, code: &[u8], asked: Asked) -> Option<CodeRule>
    ensures { result ≡ broken_rule low (length code.now) asked }
{
    if !is_code_length(code.len()) {
        return Some(CodeRule::Length);
    }
    if !is_frame_size(low, asked.frame_bytes) {
        return Some(CodeRule::Frame);
    }
    if !is_step_limit(asked.max_steps) {
        return Some(CodeRule::Steps);
    }
    None
}
