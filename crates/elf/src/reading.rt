// From the bytes of a file to a program.

ghost use Rattle.std.specs.Prelude.{◌≡◌, None, IfOk, IfErr};
ghost use Rattle.elf.specs.Checks.{IsTold, first_broken};
ghost use Rattle.elf.specs.Reading.{IsUnlessMemory, reading};
ghost use Rattle.elf.specs.Segments.{segment_checks, segments_of};

use crate::fault::ElfFault;
use crate::header::{
    check_header, entry_of, is_compressed, program_header_count, program_headers_place,
};
use crate::program::Program;
use crate::program_header::ProgramHeader;
use crate::section::read_table;
use crate::segment::Segment;
use std::alloc::Global;

/// The segments of a file.
fn segments_of(alloc: Global, bytes: &[u8]) -> Result<Vec<Segment<'_>>, ElfFault>
    ensures passed { IfOk result (λ _. first_broken (segment_checks bytes.now) ≡ None) }
    ensures segments { IfOk result (λ segments. segments.items ≡ segments_of bytes.now) }
    ensures fault { IfErr result (λ fault. IsTold fault (segment_checks bytes.now)) }
{
    let start = program_headers_place(bytes) as usize;
    let count = program_header_count(bytes);
    let mut segments = Vec::new(alloc);
    let mut taken = 0;
    'headers: for k in 0..count {
        let header = ProgramHeader::at(bytes, start + 32 * usize::from(k));
        taken = header.put(bytes, &mut segments, taken)?;
    }
    Ok(segments)
}

/// The program that the bytes of a file spell. Else it names the first check that does not hold, by the place of the
/// field that it is about.
pub fn read(alloc: Global, bytes: &[u8]) -> Result<Program<'_>, ElfFault>
    ensures { IsUnlessMemory result (reading bytes.now) }
{
    check_header(bytes)?;
    let segments = segments_of(alloc, bytes)?;
    let table = read_table(bytes)?;
    Ok(Program::new(entry_of(bytes), is_compressed(bytes), segments, table))
}
