// What operators make of intervals.

ghost use Rattle.std.specs.Prelude.{◌≡◌, min};
ghost use Rattle.intervals.specs.Intervals.{between, converted_interval, fitting, full, full_of, hull};
ghost use Rattle.intervals.specs.Intervals.{operated_interval, prefix_interval, shifted_interval};
ghost use Rattle.intervals.specs.Below.{Divide, Remainder, Subtract};

use crate::Interval;
use language::{BinaryOperator, Kind, PrefixOperator};
use word::Width;

/// A bool is 0 or 1.
pub const EITHER_TRUTH: Interval = Interval { low: 0, high: 1 };

/// All numbers of a width.
pub fn full(width: Width) -> Interval
    ensures { result ≡ full width }
{
    let high = match width {
        Width::W8 => 0xFF,
        Width::W16 => 0xFFFF,
        Width::W32 => u32::MAX,
    };
    Interval { low: 0, high }
}

/// All words of a kind.
pub fn full_of(kind: Kind) -> Interval
    ensures { result ≡ full_of kind }
{
    let high = match kind {
        Kind::Boolean => 1,
        Kind::Uint8 => 0xFF,
        Kind::Uint16 => 0xFFFF,
        Kind::Uint32 => u32::MAX,
    };
    Interval { low: 0, high }
}

/// The numbers from one to another, where they fit the width.
fn fitting(width: Width, low: u64, high: u64) -> Interval
    ensures { result ≡ fitting width low high }
{
    let all = full(width);
    let greatest = u64::from(all.high);
    if low <= greatest && high <= greatest {
        Interval {
            low: low as u32,
            high: high as u32,
        }
    } else {
        all
    }
}

/// `a & b` is no greater than either.
fn masked(a: Interval, b: Interval) -> Interval
    ensures { result ≡ between 0 (min a.high b.high) }
{
    Interval {
        low: 0,
        high: a.high.min(b.high),
    }
}

/// `a >> b`, where b is one number; else it is no greater than a.
fn shifted_right(a: Interval, b: Interval) -> Interval
    ensures { result ≡ shifted_interval a b }
{
    if b.low == b.high {
        let amount = b.low % 32;
        Interval {
            low: a.low >> amount,
            high: a.high >> amount,
        }
    } else {
        Interval {
            low: 0,
            high: a.high,
        }
    }
}

/// `a - b`, where it never wraps.
fn difference(width: Width, a: Interval, b: Interval) -> Interval
    ensures { result ≡ operated_interval Subtract width a b }
{
    if b.high <= a.low {
        Interval {
            low: a.low - b.high,
            high: a.high.saturating_sub(b.low),
        }
    } else {
        full(width)
    }
}

/// `a / b`, where b is never 0.
fn quotient(width: Width, a: Interval, b: Interval) -> Interval
    ensures { result ≡ operated_interval Divide width a b }
{
    if 1 <= b.low && 1 <= b.high {
        Interval {
            low: a.low / b.high,
            high: a.high / b.low,
        }
    } else {
        full(width)
    }
}

/// `a % b`, where b is never 0: it is below b, and no greater than a.
fn remainder(width: Width, a: Interval, b: Interval) -> Interval
    ensures { result ≡ operated_interval Remainder width a b }
{
    if 1 <= b.low {
        Interval {
            low: 0,
            high: a.high.min(b.high.saturating_sub(1)),
        }
    } else {
        full(width)
    }
}

/// What an operator makes of two intervals, the left one of this width.
pub fn operated_interval(
    operator: BinaryOperator,
    width: Width,
    a: Interval,
    b: Interval,
) -> Interval
    ensures { result ≡ operated_interval operator width a b }
{
    match operator {
        BinaryOperator::LogicalOr
        | BinaryOperator::LogicalAnd
        | BinaryOperator::Equal
        | BinaryOperator::Unequal
        | BinaryOperator::Less
        | BinaryOperator::LessOrEqual
        | BinaryOperator::Greater
        | BinaryOperator::GreaterOrEqual => EITHER_TRUTH,
        BinaryOperator::BitAnd => masked(a, b),
        BinaryOperator::ShiftRight => shifted_right(a, b),
        BinaryOperator::Add => {
            let low = u64::from(a.low) + u64::from(b.low);
            let high = u64::from(a.high) + u64::from(b.high);
            fitting(width, low, high)
        }
        BinaryOperator::Subtract => difference(width, a, b),
        BinaryOperator::Multiply => {
            let low = u64::from(a.low) * u64::from(b.low);
            let high = u64::from(a.high) * u64::from(b.high);
            fitting(width, low, high)
        }
        BinaryOperator::Divide => quotient(width, a, b),
        BinaryOperator::Remainder => remainder(width, a, b),
        _ => full(width),
    }
}

/// What a sign before an operand of this width makes of anything.
pub fn prefix_interval(operator: PrefixOperator, width: Width) -> Interval
    ensures { result ≡ prefix_interval operator width }
{
    match operator {
        PrefixOperator::Not => EITHER_TRUTH,
        PrefixOperator::Complement => full(width),
        PrefixOperator::Negate => full(width),
    }
}

/// A number of another kind: unchanged where all of it fits.
pub fn converted_interval(kind: Kind, interval: Interval) -> Interval
    ensures { result ≡ converted_interval kind interval }
{
    let all = full_of(kind);
    if interval.high <= all.high {
        interval
    } else {
        all
    }
}

/// The least interval around two.
pub fn hull(a: Interval, b: Interval) -> Interval
    ensures { result ≡ hull a b }
{
    Interval {
        low: a.low.min(b.low),
        high: a.high.max(b.high),
    }
}
