// What holds of each request that is met, and what a certificate of a function promises.

ghost use Rattle.std.specs.Prelude.{◌≡◌, ◌≢◌, ℕ, ◌+◌, ◌++◌, ◌∷◌, [], List, length, None, Result, Ok, Err, true};
ghost use Rattle.std.specs.List.{list_all};
ghost use Rattle.elf_memory.specs.Arguments.{stack_begin};
ghost use Rattle.elf_runs.specs.Below.{AreApart, entries_of, Entry, Executable, Observation, program_counter};
ghost use Rattle.elf_runs.specs.Certified.{CertifiedFunction};
ghost use Rattle.elf_runs.specs.Needs.{ends_by, first_unmet, needs};
ghost use Rattle.elf_runs.specs.Promised.{AllBegin, AllShiftBy, AllShow};
ghost use Rattle.elf_memory.specs.declared.asked.Asked.{Asked};
ghost use Rattle.elf_runs.specs.declared.certifying.FunctionCertificate.{FunctionCertificate};
ghost use Rattle.elf_runs.specs.declared.fault.StartFault.{StartFault};
ghost use Rattle.elf_runs.specs.declared.options.RunOptions.{RunOptions};

use crate::certifying::FunctionCertificate;
use crate::fault::StartFault;
use crate::options::RunOptions;
use certified_runs::Shifts;
use elf_memory::FunctionStop;

/// Each segment ends where the stack begins, or before: so none has an address in common with the stack, and in none
/// lies the address that the function returns to.
pub fn segments_end_below_the_stack()
    ensures { (program : Executable) (asked : Asked) → first_unmet (needs program asked) ≡ None
        → list_all (ends_by (stack_begin asked.stack)) program.segments ≡ true }
{}

/// What a certificate of a function promises. Where it says that all is the same, there is one list, with so many
/// entries, that every run shows which begins in a state that agrees with what is known, and each stops so; where that
/// is by coming back, it stands at the address that was in ra, at which no code is, since segments lie apart, as those
/// of every program that was read do. Where shifts are seen, there is one list of amounts by which each of them shifts
/// registers. Where it says that an entry may differ, all of them agree on the entries before it, of which the last is
/// the program counter of the step that may differ. Runs that a recorder cuts short are no such runs.
pub fn certificates_of_functions_hold()
    ensures same { (program : Executable) (asked : Asked) (options : RunOptions) (stop : FunctionStop) (entries : ℕ)
        → AreApart [] program.segments
        → CertifiedFunction program asked options (Ok (FunctionCertificate.Same stop entries))
        → (seen : List Observation)
        × (length (entries_of seen) ≡ entries)
        × AllShow program asked options seen stop }
    ensures amounts { (program : Executable) (asked : Asked) (options : RunOptions) (stop : FunctionStop) (entries : ℕ)
        → CertifiedFunction program asked options (Ok (FunctionCertificate.Same stop entries))
        → options.shifts ≡ Shifts.Seen
        → (amounts : List ℕ) × AllShiftBy program asked options amounts }
    ensures may_differ { (program : Executable) (asked : Asked) (options : RunOptions) (entry pc : ℕ)
        → CertifiedFunction program asked options (Ok (FunctionCertificate.MayDiffer entry pc))
        → (before : List Entry)
        × (length before + 1 ≡ entry)
        × AllBegin program asked options (before ++ program_counter pc ∷ []) }
{}

/// Two calls of `certify_function` on one request answer the same, where neither runs out of memory.
pub fn function_certificates_agree()
    ensures { (program : Executable) (asked : Asked) (options : RunOptions)
        (a b : Result FunctionCertificate StartFault)
        → CertifiedFunction program asked options a
        → CertifiedFunction program asked options b
        → a ≢ Err StartFault.Memory
        → b ≢ Err StartFault.Memory
        → a ≡ b }
{}
