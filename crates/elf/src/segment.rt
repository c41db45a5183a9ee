// Segments: what the memory holds at the start.

ghost use Rattle.std.specs.Prelude.{◌≡◌};
ghost use Rattle.elf.specs.Segments.{access_of};

use std::marker::Model;

/// What may be done with the bytes of a segment.
#[derive(Clone, Copy, Debug, PartialEq, Eq)]
pub struct Access {
    pub readable: bool,
    pub writable: bool,
    pub executable: bool,
}

impl Access {
    /// What the flags of a program header say.
    pub(crate) fn of(flags: u32) -> Access
        ensures { result ≡ access_of flags }
    {
        Access {
            readable: flags / 4 % 2 == 1,
            writable: flags / 2 % 2 == 1,
            executable: flags % 2 == 1,
        }
    }
}

/// A range of memory, with the bytes that it holds at the start.
#[derive(Debug, Drop)]
pub struct Segment<'a> {
    address: u32,
    bytes: &'a [u8],
    size: u32,
    access: Access,
}

impl<'a> Model for Segment<'a> {
    ghost use Rattle.elf.specs.Segments.{LoadedSegment};

    ghost Value = { LoadedSegment };

    ghost view = { λ s. record { address = s.address; bytes = s.bytes.now; size = s.size; access = s.access } };
}

impl<'a> Segment<'a> {
    ghost use Rattle.std.specs.Prelude.{◌+◌};
    ghost use Rattle.std.specs.List.{list_all};
    ghost use Rattle.elf.specs.Segments.{LoadedSegment, lies_apart};

    /// The segment of these.
    pub(crate) fn new(address: u32, bytes: &'a [u8], size: u32, access: Access) -> Segment<'a>
        ensures address { result.address ≡ address }
        ensures bytes { result.bytes ≡ bytes.now }
        ensures size { result.size ≡ size }
        ensures access { result.access ≡ access }
    {
        Segment {
            address,
            bytes,
            size,
            access,
        }
    }

    /// Its first address.
    pub fn address(&self) -> u32
        ensures { result ≡ self.now.address }
    {
        self.address
    }

    /// The bytes that the file has of it. Those behind them are 0.
    pub fn bytes(&self) -> &'a [u8]
        ensures { result.now ≡ self.now.bytes }
    {
        self.bytes
    }

    /// How many bytes it has in memory.
    pub fn size(&self) -> u32
        ensures { result ≡ self.now.size }
    {
        self.size
    }

    /// The first address behind it.
    pub(crate) fn end(&self) -> u64
        ensures { result ≡ self.now.address + self.now.size }
    {
        u64::from(self.address) + u64::from(self.size)
    }

    /// Whether it and the other have no address in common.
    pub(crate) fn lies_apart(&self, other: &Segment<'_>) -> bool
        ensures { result ≡ lies_apart self.now other.now }
    {
        self.end() <= u64::from(other.address) || other.end() <= u64::from(self.address)
    }

    /// Whether it has no address in common with one of the others.
    pub(crate) fn lies_apart_from(&self, others: &[Segment<'_>]) -> bool
        ensures { result ≡ list_all (lies_apart self.now) others.now }
    {
        others.iter().all(|other| self.lies_apart(other))
    }

    /// What may be done with them.
    pub fn access(&self) -> Access
        ensures { result ≡ self.now.access }
    {
        self.access
    }
}
