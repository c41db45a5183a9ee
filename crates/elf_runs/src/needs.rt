// What has to hold of a request.

ghost use Rattle.std.specs.Prelude.{[], ◌∷◌};
ghost use Rattle.elf_runs.specs.Needs.{Meets, need};

use crate::fault::{Part, Unmet};
use elf::ElfRule;

/// Wants it to hold; where it does not, this part breaks the rule.
pub(crate) fn require(rule: ElfRule, part: Part, holds: bool) -> Result<(), Unmet>
    ensures { Meets result (need rule part holds ∷ []) }
{
    if holds {
        Ok(())
    } else {
        Err(Unmet { rule, part })
    }
}
