// A file of harts, read in pieces.

ghost use Rattle.std.specs.Prelude.{◌≡◌, ◌++◌, ◌∷◌, [], List, ℕ, OnOk, IfErr, IfOk};
ghost use Rattle.input_files.specs.harts_file.private.Reading.{HasRead, IsTaken};

use crate::harts_file::fault::PlanFault;
use crate::harts_file::taken_lines::TakenLines;
use std::alloc::Global;

/// What has been read of a file: its lines were taken as they ended, and what has come of the next one is kept.
#[derive(Debug, Drop)]
pub struct PlanFile {
    pub taken: TakenLines,
    pub line: Vec<u8>,
}

impl PlanFile {
    /// Nothing has been read.
    pub fn new(alloc: Global) -> Self
        ensures { HasRead result [] }
    {
        PlanFile {
            taken: TakenLines::new(alloc),
            line: Vec::new(alloc),
        }
    }

    /// Takes a byte more.
    fn take_byte(&mut self, alloc: Global, byte: u8) -> Result<(), PlanFault>
        ensures more { OnOk result ((text : List ℕ) → HasRead self.old text → HasRead self.new (text ++ byte ∷ [])) }
        ensures memory { IfErr result (λ fault. fault ≡ PlanFault.Memory) }
    {
        if byte == b'\n' {
            self.taken.take(alloc, self.line.as_slice())?;
            self.line.clear();
        } else {
            self.line.push(byte)?;
        }
        Ok(())
    }

    /// Takes the next piece of the file.
    pub fn take_piece(&mut self, alloc: Global, piece: &[u8]) -> Result<(), PlanFault>
        ensures more { OnOk result ((text : List ℕ) → HasRead self.old text → HasRead self.new (text ++ piece.now)) }
        ensures memory { IfErr result (λ fault. fault ≡ PlanFault.Memory) }
    {
        'bytes: for byte in piece {
            self.take_byte(alloc, *byte)?;
        }
        Ok(())
    }

    /// All lines of the file, where this was all of it. The last one may lack its end.
    pub fn end(self, alloc: Global) -> Result<TakenLines, PlanFault>
        ensures taken { IfOk result (λ taken. (text : List ℕ) → HasRead self text → IsTaken taken text) }
        ensures memory { IfErr result (λ fault. fault ≡ PlanFault.Memory) }
    {
        let PlanFile { mut taken, line } = self;
        if !line.is_empty() {
            taken.take(alloc, line.as_slice())?;
        }
        Ok(taken)
    }
}
