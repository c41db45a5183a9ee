// What a memory is to the machine.

ghost use Rattle.std.specs.Prelude.{◌≡◌, ℕ, ◌+◌, ◌^◌, ◌<◌, ◌≤◌, Option, false, is_some, IsSome, IfSome, IsTrue};
ghost use Rattle.rv_machine.specs.Sizes.{byte_count, size_of};
ghost use Rattle.rv_machine.specs.Bytes.{number_at, with_number};

use word::Width;

/// How many bytes a load or a store takes: 1, 2 or 4.
#[derive(Clone, Copy, Debug, PartialEq, Eq)]
pub enum Size {
    Byte,
    Half,
    Word,
}

impl Size {
    /// That of words of this width.
    #[inline(always)]
    pub(crate) fn of(width: Width) -> Self
        ensures { result ≡ size_of width }
    {
        match width {
            Width::W8 => Size::Byte,
            Width::W16 => Size::Half,
            Width::W32 => Size::Word,
        }
    }

    /// The number of bytes.
    pub fn bytes(self) -> u32
        ensures { result ≡ byte_count self }
    {
        match self {
            Size::Byte => 1,
            Size::Half => 2,
            Size::Word => 4,
        }
    }
}

/// Bytes at some of the addresses below 2^32, which are its data. Which addresses are data never
/// changes.
pub trait Memory {
    // The byte at an address, `None` where that is no data.
    ghost bytes: { Self → ℕ → Option ℕ };

    /// The number that these bytes are, the first the lowest; `None` where one of them is no data.
    fn load(&self, a: u32, n: Size) -> Option<u32>
        ensures number { result ≡ number_at (bytes self.now) (byte_count n) a }
        ensures fits { IfSome result (λ v. v < 256 ^ byte_count n) }
        ensures within { IsSome result → a + byte_count n ≤ 2 ^ 32 };

    /// Makes these bytes the low ones of `v`, and changes no other; answers false, and changes
    /// nothing, where one of them is no data.
    fn store(&mut self, a: u32, n: Size, v: u32) -> bool
        ensures answer { result ≡ is_some (number_at (bytes self.old) (byte_count n) a) }
        ensures stored { IsTrue result → bytes self.new ≡ with_number (bytes self.old) (byte_count n) a v }
        ensures unchanged { result ≡ false → bytes self.new ≡ bytes self.old };
}
