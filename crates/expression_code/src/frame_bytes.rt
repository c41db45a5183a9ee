// Bytes of the frame that an expression joins to a word, which is one load where they fill it.

ghost use Rattle.std.specs.Prelude.{◌≡◌, length, Some, true};
ghost use Rattle.expression_code.specs.FrameBytes.{moved_up, follow, with_next, joined_bytes, operated_bytes};
ghost use Rattle.expression_code.specs.FrameBytes.{frame_bytes, joined_word};
ghost use Rattle.expression_code.specs.TermCode.{IsAmong};
ghost use Rattle.expression_code.specs.Below.{term_tree};

use crate::layout::{Layout, WORD_BYTES};
use crate::numbers::number;
use inline::Term;
use language::{BinaryOperator, Kind};
use word::Width;

/// So many bytes that follow each other in the frame from an offset on, of which the first is in this place of a word,
/// counted from the word's lowest byte.
#[derive(Clone, Copy)]
pub struct FrameBytes {
    pub offset: u32,
    pub count: u32,
    pub place: u32,
}

/// Bytes moved up by so many bits, where these are whole bytes and leave them all in the word.
fn moved_up(bytes: FrameBytes, amount: u32) -> Option<FrameBytes>
    ensures { result ≡ moved_up bytes (Some amount) }
{
    let place = u64::from(bytes.place) + u64::from(amount / 8);
    if amount % 8 == 0 && place + u64::from(bytes.count) <= u64::from(WORD_BYTES) {
        Some(FrameBytes {
            offset: bytes.offset,
            count: bytes.count,
            place: place as u32,
        })
    } else {
        None
    }
}

/// Whether bytes follow lower ones both in the frame and in the word.
fn follow(low: FrameBytes, high: FrameBytes) -> bool
    ensures { result ≡ follow low high }
{
    let count = u64::from(low.count);
    u64::from(low.offset) + count == u64::from(high.offset)
        && u64::from(low.place) + count == u64::from(high.place)
        && u64::from(high.place) + u64::from(high.count) <= u64::from(WORD_BYTES)
}

/// Bytes of which either follow the others.
fn joined(left: FrameBytes, right: FrameBytes) -> Option<FrameBytes>
    ensures { result ≡ joined_bytes left (Some right) }
{
    if follow(left, right) {
        Some(with_next(left, right))
    } else if follow(right, left) {
        Some(with_next(right, left))
    } else {
        None
    }
}

/// Lower bytes and those that follow them.
fn with_next(low: FrameBytes, high: FrameBytes) -> FrameBytes
    requires { follow low high ≡ true }
    ensures { result ≡ with_next low high }
{
    FrameBytes {
        offset: low.offset,
        count: low.count + high.count,
        place: low.place,
    }
}

/// The bytes that an operator makes of those of its left operand, of the right one's or the number that this is.
fn operated(
    left: FrameBytes,
    operator: BinaryOperator,
    width: Width,
    right: Option<FrameBytes>,
    amount: Option<u32>,
) -> Option<FrameBytes>
    ensures { result ≡ operated_bytes (Some left) operator width right amount }
{
    match (operator, width) {
        (BinaryOperator::BitOr, _) => joined(left, right?),
        (BinaryOperator::ShiftLeft, Width::W32) => moved_up(left, amount?),
        _ => None,
    }
}

/// The bytes that an expression is.
fn frame_bytes(layout: &Layout<'_>, term: &Term) -> Option<FrameBytes>
    requires { IsAmong (length layout.now.declared) (term_tree term.now) }
    ensures { result ≡ frame_bytes layout.now.declared layout.now.allocation (term_tree term.now) }
{
    match term {
        Term::Element(_, array, _, index) => {
            let offset = layout.near_element(*array, index)?;
            Some(FrameBytes {
                offset,
                count: u32::from(layout.kind(*array).element_bytes()),
                place: 0,
            })
        }
        Term::Convert(Kind::Uint32, operand) => frame_bytes(layout, operand),
        Term::Binary(_, operator, width, left, right) => {
            let bytes = frame_bytes(layout, left)?;
            operated(
                bytes,
                *operator,
                *width,
                frame_bytes(layout, right),
                number(right),
            )
        }
        Term::Number(_, _)
        | Term::Truth(_)
        | Term::Variable(_)
        | Term::Prefix(_, _, _)
        | Term::Rotate(_, _, _)
        | Term::Convert(_, _)
        | Term::Select(_, _, _) => None,
    }
}

/// The offset of the word that an operator makes of its operands, where that lies in the frame.
pub fn joined_word(
    layout: &Layout<'_>,
    operator: BinaryOperator,
    width: Width,
    left: &Term,
    right: &Term,
) -> Option<u32>
    requires left { IsAmong (length layout.now.declared) (term_tree left.now) }
    requires right { IsAmong (length layout.now.declared) (term_tree right.now) }
    ensures { result ≡ joined_word layout.now.declared layout.now.allocation operator width
        (term_tree left.now) (term_tree right.now) }
{
    let bytes = frame_bytes(layout, left)?;
    let bytes = operated(
        bytes,
        operator,
        width,
        frame_bytes(layout, right),
        number(right),
    )?;
    if bytes.count == WORD_BYTES && bytes.offset % WORD_BYTES == 0 {
        Some(bytes.offset)
    } else {
        None
    }
}
