// What words ask of a run of a function, and why that is refused.

ghost use Rattle.std.specs.Prelude.{◌≡◌, Option, IfOk, IfErr};
ghost use Rattle.commands.specs.Below.{AsksFor, first_unmet, spelling, Unmet};
ghost use Rattle.commands.specs.FunctionRunRefusals.{IsStartFault, RefusesWords};

use crate::fault::Fault;
use elf::ElfFault;
use elf_reports::{AskedWords, part_word, read_asked};
use elf_runs::{Asked, StartFault};
use std::alloc::{AllocError, Global};

/// What the words ask.
pub fn asked_of<'a>(alloc: Global, words: &AskedWords<'_>) -> Result<Asked, Fault<'a>>
    ensures asked { IfOk result (AsksFor words.now) }
    ensures refused { IfErr result (RefusesWords words.now (first_unmet (spelling words.now))) }
{
    match read_asked(alloc, words) {
        Ok(asked) => Ok(asked),
        Err(fault) => Err(fault_of_start(alloc, words, fault)?),
    }
}

/// Why a run does not begin, with the word by which what is asked breaks a rule.
pub fn fault_of_start<'a>(
    alloc: Global,
    words: &AskedWords<'_>,
    fault: StartFault,
) -> Result<Fault<'a>, AllocError>
    ensures { (first : Option Unmet) → IsStartFault first fault
        → IfOk result (RefusesWords words.now first) }
{
    match fault {
        StartFault::Refused(unmet) => {
            let word = part_word(alloc, words, unmet.part)?;
            Ok(Fault::Unmet {
                rule: unmet.rule,
                word,
            })
        }
        StartFault::Memory => Ok(Fault::Elf(ElfFault::Memory)),
    }
}
