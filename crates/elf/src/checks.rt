// What has to hold of a file.

ghost use Rattle.std.specs.Prelude.{◌≡◌, ◌<◌, ◌^◌, [], ◌∷◌};
ghost use Rattle.elf.specs.Checks.{Passes, check, is_inside};

use crate::fault::{Broken, ElfRule};

/// Wants it to hold; where it does not, the rule is broken at this byte.
pub(crate) fn require(rule: ElfRule, at: usize, holds: bool) -> Result<(), Broken>
    ensures { Passes result (check rule at holds ∷ []) }
{
    if holds {
        Ok(())
    } else {
        Err(Broken { rule, at })
    }
}

/// Whether so many bytes from a place on are in the file.
pub(crate) fn is_inside(bytes: &[u8], place: usize, size: usize) -> bool
    requires place { place < 2 ^ 62 }
    requires size { size < 2 ^ 62 }
    ensures { result ≡ is_inside place size bytes.now }
{
    place + size <= bytes.len()
}
