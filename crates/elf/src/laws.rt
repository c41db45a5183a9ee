// What holds of each program that is read.

ghost use Rattle.std.specs.Prelude.{◌≡◌, ℕ, List, [], None};
ghost use Rattle.elf.specs.Layout.{AreApart};
ghost use Rattle.elf.specs.Reading.{fault_of, program_of};

/// The segments overlap nowhere, and lie in the address space; the file has no more bytes of each than the memory.
pub fn segments_lie_apart()
    ensures { (file : List ℕ) → fault_of file ≡ None → AreApart [] (program_of file).segments }
{}
