// What stands where a program's code has an instruction.

ghost use Rattle.std.specs.Prelude.{◌≢◌, ℕ, None};
ghost use Rattle.elf_reports.specs.Below.{Asked, Executable, Instr, machine_program, Profile, StandsAt};
ghost use Rattle.elf_reports.specs.Encodings.{encoding_at};

/// Where an instruction of a program stands a word or a halfword begins, whoever observes its runs.
pub fn something_begins_at_each_instruction()
    ensures { (program : Executable) (asked : Asked) (profile : Profile) (pc : ℕ) (i : Instr)
        → StandsAt (machine_program program asked profile) pc i
        → encoding_at program pc ≢ None }
{}
