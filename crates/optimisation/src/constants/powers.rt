// Powers of two, by which a product, a quotient or a remainder is a shift or a mask.

ghost use Rattle.std.specs.Prelude.{◌≡◌};
ghost use Rattle.optimisation.specs.constants.private.Powers as powers;

use crate::constants::known::Constant;
use language::{BinaryOperator, Kind};

/// An operator, and the number on its right.
#[derive(Clone, Copy)]
pub struct OperatorStep {
    pub operator: BinaryOperator,
    pub number: Constant,
}

/// Which power of two a number is, where it is one.
fn exponent_of(number: u32) -> Option<u32>
    ensures { result ≡ powers.exponent_of number }
{
    let exponent = number.trailing_zeros();
    if exponent < 32 && u64::from(number) == 1_u64 << exponent {
        Some(exponent)
    } else {
        None
    }
}

/// What makes the same as an operator with a power of two on its right, this its exponent.
fn step_by(operator: BinaryOperator, power: Constant, exponent: u32) -> Option<OperatorStep>
    ensures { result ≡ powers.step_by operator power exponent }
{
    let amount = Constant {
        value: exponent,
        kind: Kind::Uint32,
    };
    match operator {
        BinaryOperator::Multiply => Some(OperatorStep {
            operator: BinaryOperator::ShiftLeft,
            number: amount,
        }),
        BinaryOperator::Divide => Some(OperatorStep {
            operator: BinaryOperator::ShiftRight,
            number: amount,
        }),
        BinaryOperator::Remainder => Some(OperatorStep {
            operator: BinaryOperator::BitAnd,
            number: Constant {
                value: power.value.saturating_sub(1),
                kind: power.kind,
            },
        }),
        _ => None,
    }
}

/// What makes the same as an operator with this on its right, where that is a power of two.
pub fn step_of(operator: BinaryOperator, right: Option<Constant>) -> Option<OperatorStep>
    ensures { result ≡ powers.step_of operator right }
{
    let power = right?;
    let exponent = exponent_of(power.value)?;
    step_by(operator, power, exponent)
}

/// What makes the same as an operator with this on its left: only a product's operands may be swapped.
pub fn swapped_step(operator: BinaryOperator, left: Option<Constant>) -> Option<OperatorStep>
    ensures { result ≡ powers.swapped_step operator left }
{
    if matches!(operator, BinaryOperator::Multiply) {
        step_of(operator, left)
    } else {
        None
    }
}
