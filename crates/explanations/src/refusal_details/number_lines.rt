// A number that is too large, written in another width, or one of an interval.

ghost use Rattle.std.specs.Prelude.{◌≡◌, IfOk};
ghost use Rattle.std.specs.String.{string_bytes};
ghost use Rattle.explanations.specs.refusal_details.WhyLines.{amount_line, divisor_line, greatest, index_line};
ghost use Rattle.explanations.specs.refusal_details.WhyLines.{interval_text, literal_line, number_line, suffix};

use crate::refusal_details::type_lines::kind_text;
use language::{IndexRange, Interval, Kind, Literal};
use std::alloc::{AllocError, Global};

/// The suffix of a number of a kind; a bool has none.
fn suffix(kind: Kind) -> &'static str
    ensures { result.now ≡ suffix kind }
{
    match kind {
        Kind::Boolean => "",
        Kind::Uint8 => "u8",
        Kind::Uint16 => "u16",
        Kind::Uint32 => "u32",
    }
}

/// How a number is written in the width that is wanted, where there is one.
pub fn literal_line(alloc: Global, number: Option<Literal>) -> Result<String, AllocError>
    ensures { IfOk result (λ line. string_bytes line ≡ literal_line number) }
{
    match number {
        Some(number) => {
            let value = number.value;
            let suffix = suffix(number.kind);
            format!(in alloc; "  write `{value}{suffix}`\n")
        }
        None => Ok(String::new(alloc)),
    }
}

/// The greatest number of a kind.
fn greatest(kind: Kind) -> u32
    ensures { result ≡ greatest kind }
{
    match kind {
        Kind::Boolean => 1,
        Kind::Uint8 => u8::MAX.into(),
        Kind::Uint16 => u16::MAX.into(),
        Kind::Uint32 => u32::MAX,
    }
}

/// A number, and the greatest of its kind.
pub fn number_line(alloc: Global, number: Literal) -> Result<String, AllocError>
    ensures { IfOk result (λ line. string_bytes line ≡ number_line number) }
{
    let value = number.value;
    let kind = kind_text(number.kind);
    let most = greatest(number.kind);
    format!(in alloc; "  the number is {value}, and the greatest {kind} is {most}\n")
}

/// By how much something is rotated, and by how much it may be.
pub fn amount_line(alloc: Global, amount: Literal) -> Result<String, AllocError>
    ensures { IfOk result (λ line. string_bytes line ≡ amount_line amount) }
{
    let value = amount.value;
    let kind = kind_text(amount.kind);
    let most = amount.kind.bits() - 1;
    format!(in alloc; "  the amount is {value}, and for a {kind} it is from 1 to {most}\n")
}

/// Which numbers an index may be, and the length of its array.
pub fn index_line(alloc: Global, range: IndexRange) -> Result<String, AllocError>
    ensures { IfOk result (λ line. string_bytes line ≡ index_line range) }
{
    let index = interval_text(alloc, range.index)?;
    let length = range.length;
    format!(in alloc; "  the index is {index}, and the array's length is {length}\n")
}

/// Which numbers a divisor may be.
pub fn divisor_line(alloc: Global, divisor: Interval) -> Result<String, AllocError>
    ensures { IfOk result (λ line. string_bytes line ≡ divisor_line divisor) }
{
    let divisor = interval_text(alloc, divisor)?;
    format!(in alloc; "  the divisor is {divisor}\n")
}

/// `LOW to HIGH`, or the one number that both are.
fn interval_text(alloc: Global, interval: Interval) -> Result<String, AllocError>
    ensures { IfOk result (λ text. string_bytes text ≡ interval_text interval) }
{
    let Interval { low, high } = interval;
    if low == high {
        format!(in alloc; "{low}")
    } else {
        format!(in alloc; "{low} to {high}")
    }
}
