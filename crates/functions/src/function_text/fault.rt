// Why a source has no function for C, and how that is printed.

ghost use Rattle.std.specs.Prelude.{◌≡◌};
ghost use Rattle.functions.specs.declared.function_text.fault.FunctionFault.TheVariants.{Text};
ghost use Rattle.functions.specs.Below.{IsWantOfMemory};

use language::{Place, Refusal};
use std::alloc::AllocError;
use std::error::Error;
use std::fmt;

/// Why a source has no function for C.
#[derive(Clone, Copy, Debug)]
pub enum FunctionFault<R = Refusal> {
    /// The source is refused, or a growth was.
    Text(R),
    /// The source is accepted, and the name of its export, which stands here, cannot be that of a function for C.
    Name(Place),
}

impl From<Refusal> for FunctionFault<Refusal> {
    ghost from_gives = { λ refusal fault. fault ≡ Text refusal };

    fn from(refusal: Refusal) -> Self {
        FunctionFault::Text(refusal)
    }
}

impl From<AllocError> for FunctionFault<Refusal> {
    ghost use Rattle.functions.specs.function_text.Functions.{IsUnlessMemory};

    ghost from_gives = { λ _ fault. IsUnlessMemory fault (λ _. ⊥) };

    fn from(_: AllocError) -> Self {
        FunctionFault::Text(Refusal::memory())
    }
}

/// `L2 at 3:12: public assigned under secret control`, `F1 at 1:22: name`, or `M1: memory`.
impl fmt::Display for FunctionFault<Refusal> {
    ghost use Rattle.std.specs.Prelude.{Some};
    ghost use Rattle.functions.specs.function_text.FaultText.{fault_text};

    ghost output = { λ fault. Some (fault_text fault) };

    fn fmt<W: fmt::Write>(&self, f: &mut fmt::Formatter<W>) -> fmt::Result {
        match *self {
            FunctionFault::Text(refusal) => write!(f, "{refusal}"),
            FunctionFault::Name(place) => write!(f, "F1 at {place}: name"),
        }
    }
}

impl Error for FunctionFault<Refusal> {}
