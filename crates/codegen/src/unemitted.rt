ghost use Rattle.std.specs.Prelude.{◌≡◌};
ghost use Rattle.codegen.specs.declared.unemitted.Unemitted.TheVariants.{Memory};

use std::alloc::AllocError;

/// Why instructions are not emitted.
#[derive(Clone, Copy, Debug)]
pub enum Unemitted {
    /// A growth was refused.
    Memory,
    /// A jump would have to go farther than its offset says.
    TooFar,
}

impl From<AllocError> for Unemitted {
    ghost from_gives = { λ _ error. error ≡ Memory };

    fn from(_: AllocError) -> Self {
        Unemitted::Memory
    }
}
