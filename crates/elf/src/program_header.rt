// Program headers: what each says, and what is checked of it.

ghost use Rattle.std.specs.Prelude.{◌≡◌, ◌+◌, ◌<◌, ◌≤◌, ◌^◌, [], ◌∷◌, ◌++◌, None, IfOk, IfErr, OnOk};
ghost use Rattle.elf.specs.Checks.{IsTold, Passes, first_broken};
ghost use Rattle.elf.specs.Segments.{checks_at, is_load, load_checks, memory_of, other_checks};
ghost use Rattle.elf.specs.Segments.{program_header_at, segment_of, segments_in};

use crate::checks::{is_inside, require};
use crate::fault::{Broken, ElfFault, ElfRule};
use crate::numbers::{part, word_at};
use crate::segment::{Access, Segment};

/// PT_LOAD, PT_DYNAMIC and PT_INTERP.
const LOAD: u32 = 1;

const DYNAMIC: u32 = 2;

const INTERPRETER: u32 = 3;

/// The most bytes of memory that the segments have together.
const MOST_MEMORY: u64 = 1 << 24;

/// The most segments that there may be.
const MOST_SEGMENTS: usize = 64;

/// A program header.
#[derive(Clone, Copy)]
pub struct ProgramHeader {
    pub place: usize,
    pub kind: u32,
    pub offset: u32,
    pub address: u32,
    pub file_size: u32,
    pub memory_size: u32,
    pub flags: u32,
}

impl ProgramHeader {
    /// The one at a place.
    #[tactic(auto, unfolding(crate::specs::Segments::program_header_at))]
    pub(crate) fn at(bytes: &[u8], place: usize) -> ProgramHeader
        requires { place < 2 ^ 40 }
        ensures header { result ≡ program_header_at place bytes.now }
        ensures place { result.place ≡ place }
    {
        ProgramHeader {
            place,
            kind: word_at(bytes, place),
            offset: word_at(bytes, place + 4),
            address: word_at(bytes, place + 8),
            file_size: word_at(bytes, place + 16),
            memory_size: word_at(bytes, place + 20),
            flags: word_at(bytes, place + 24),
        }
    }

    /// Whether it says what the memory holds.
    pub(crate) fn is_load(&self) -> bool
        ensures { result ≡ is_load self.now }
    {
        self.kind == LOAD
    }

    /// Checks a header that says nothing of the memory.
    fn check_other(&self) -> Result<(), Broken>
        ensures { Passes result (other_checks self.now) }
    {
        let is_dynamic = self.kind == DYNAMIC || self.kind == INTERPRETER;
        require(ElfRule::NotProgram, self.place, !is_dynamic)
    }

    /// The segment that it describes, where those before have so many bytes of memory together.
    fn load<'a>(
        &self,
        bytes: &'a [u8],
        before: &[Segment<'a>],
        taken: u32,
    ) -> Result<Segment<'a>, Broken>
        requires place { self.now.place < 2 ^ 40 }
        requires taken { taken ≡ memory_of before.now }
        ensures checks { Passes result (load_checks bytes.now before.now self.now) }
        ensures segment { IfOk result (λ segment. segment ≡ segment_of bytes.now self.now) }
        ensures size { IfOk result (λ segment. taken + segment.size ≤ 2 ^ 24) }
    {
        let offset = self.offset as usize;
        let size = self.file_size as usize;
        let place = self.place;
        require(ElfRule::Ranges, place, before.len() < MOST_SEGMENTS)?;
        require(
            ElfRule::Truncated,
            place + 4,
            is_inside(bytes, offset, size),
        )?;
        let segment = Segment::new(
            self.address,
            part(bytes, offset, size),
            self.memory_size,
            Access::of(self.flags),
        );
        require(ElfRule::Ranges, place + 8, segment.lies_apart_from(before))?;
        require(ElfRule::Ranges, place + 8, segment.end() <= 1 << 32)?;
        require(
            ElfRule::NotProgram,
            place + 16,
            self.file_size <= self.memory_size,
        )?;
        let together = u64::from(taken) + u64::from(self.memory_size);
        require(ElfRule::Ranges, place + 20, together <= MOST_MEMORY)?;
        Ok(segment)
    }

    /// Puts the segment that it describes behind those before, if it describes one. Gives how many bytes of memory they
    /// have together, which was `taken` before.
    pub(crate) fn put<'a>(
        &self,
        bytes: &'a [u8],
        segments: &mut Vec<Segment<'a>>,
        taken: u32,
    ) -> Result<u32, ElfFault>
        requires place { self.now.place < 2 ^ 40 }
        requires taken { taken ≡ memory_of segments.old.items }
        ensures passed { IfOk result (λ _. first_broken (checks_at bytes.now segments.old.items self.now) ≡ None) }
        ensures fault { IfErr result (λ fault. IsTold fault (checks_at bytes.now segments.old.items self.now)) }
        ensures segments { OnOk result (segments.new.items
            ≡ segments.old.items ++ segments_in bytes.now (self.now ∷ [])) }
        ensures taken { IfOk result (λ taken. taken ≡ memory_of segments.new.items) }
    {
        if !self.is_load() {
            self.check_other()?;
            return Ok(taken);
        }
        let segment = self.load(bytes, segments, taken)?;
        let size = segment.size();
        segments.push(segment)?;
        Ok(taken + size)
    }
}
