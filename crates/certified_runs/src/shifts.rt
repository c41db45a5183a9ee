// Whether an observer sees the amounts of shifts, as on cores that shift bit by bit.

ghost use Rattle.std.specs.Prelude.{◌≡◌};
ghost use Rattle.certified_runs.specs.Amounts.{is_shift, decides_amount};

use rv_code::RegisterOperation;

/// Whether an observer sees by how much a register is shifted. An immediate amount is part of the code, which is
/// known anyhow.
#[derive(Clone, Copy)]
pub enum Shifts {
    /// Shifts take as long whatever their amounts are.
    Hidden,
    /// The amount of each shift by a register shows, as on cores that shift bit by bit.
    Seen,
}

// Whether an operation of two registers shifts the one by the other.
#[inline(always)]
fn is_shift(operation: RegisterOperation) -> bool
    ensures { result ≡ is_shift operation }
{
    match operation {
        RegisterOperation::Sll | RegisterOperation::Srl | RegisterOperation::Sra => true,
        _ => false,
    }
}

/// Whether the amount that an operation shifts by, if it shifts, is known as far as the observer sees it.
#[inline(always)]
pub(crate) fn decides_amount(shifts: Shifts, operation: RegisterOperation, known: bool) -> bool
    ensures { result ≡ decides_amount shifts operation known }
{
    match shifts {
        Shifts::Hidden => true,
        Shifts::Seen => !is_shift(operation) || known,
    }
}
