// Words of which some bits are not known.

ghost use Rattle.std.specs.Prelude.{◌≡◌};
ghost use Rattle.elf_memory.specs.Word.{anything, known};

/// A word, and a mask that has its bits that are not known. What these are in the word means nothing.
#[derive(Clone, Copy)]
pub struct Word {
    pub value: u32,
    pub unknown: u32,
}

impl Word {
    /// One of which each bit is known.
    pub fn known(value: u32) -> Word
        ensures { result ≡ known value }
    {
        Word { value, unknown: 0 }
    }

    /// One of which no bit is known.
    pub fn anything() -> Word
        ensures { result ≡ anything }
    {
        Word {
            value: 0,
            unknown: u32::MAX,
        }
    }
}
