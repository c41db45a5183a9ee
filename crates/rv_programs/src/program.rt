// What a program is to the machine.

ghost use Rattle.std.specs.Prelude.{◌≡◌};
ghost use Rattle.rv_programs.specs.Below.{byte_count, code_of};
ghost use Rattle.rv_programs.specs.Code.{ProgramCode};
ghost use Rattle.rv_programs.specs.Fetching.{IsFetched};
ghost use Rattle.rv_programs.specs.Programs.{MachineProgram, may_store};

use rv_code::Instr;
use rv_machine::{CodeRegion, CodeWord, InstructionForm, Size};

/// What stands at an address of a program.
#[derive(Clone, Copy)]
pub enum Fetched<'a> {
    /// No instruction begins there: the address is no multiple of what those of its code are.
    Misaligned,
    /// No code stands there, or no more than the low half of an instruction.
    Nothing,
    /// Code that is no instruction.
    Unknown,
    /// This instruction, of this form.
    Instruction(&'a Instr, InstructionForm),
}

/// Code in one place or in several, and data of which some may only be read.
pub trait Program {
    // The code at each address, and the bytes that may be stored to.
    ghost program: { Self → MachineProgram };

    /// What stands at this address.
    fn fetch(&self, pc: u32) -> Fetched<'_>
        ensures { IsFetched ((program self.now).code pc) pc result };

    /// Whether each of these bytes may be stored to. It says nothing of whether they are data.
    fn may_store(&self, a: u32, n: Size) -> bool
        ensures { result ≡ may_store (program self.now).writable (byte_count n) a };
}

/// The code of an image, all of whose data may be stored to.
impl Program for CodeRegion {
    ghost use Rattle.rv_programs.specs.Below.{code_of};
    ghost use Rattle.rv_programs.specs.Programs.{image_program};

    ghost program = { λ code. image_program (code_of code) };

    #[inline(always)]
    fn fetch(&self, pc: u32) -> Fetched<'_> {
        fetch_word(self, pc)
    }

    #[inline(always)]
    fn may_store(&self, _a: u32, _n: Size) -> bool {
        true
    }
}

/// What stands at this address of words.
#[inline(always)]
pub(crate) fn fetch_word(code: &CodeRegion, pc: u32) -> Fetched<'_>
    ensures { IsFetched (ProgramCode.words (code_of code.now)) pc result }
{
    if pc % 4 != 0 {
        return Fetched::Misaligned;
    }
    match code.fetch(pc) {
        Some(CodeWord::Instruction(instr)) => {
            Fetched::Instruction(instr, InstructionForm::word(code.profile()))
        }
        Some(CodeWord::Other(_)) => Fetched::Unknown,
        None => Fetched::Nothing,
    }
}
