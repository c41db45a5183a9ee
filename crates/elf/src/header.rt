// The file header: its fields in order, and what each may be. What it has to be is its row in `specs/Header.antt`.

ghost use Rattle.std.specs.Prelude.{◌≡◌};
ghost use Rattle.elf.specs.Checks.{Passes};
ghost use Rattle.elf.specs.Header.{bytes_of, entry_of, field_checks, header_checks, is_allowed, is_compressed, row};
ghost use Rattle.elf.specs.Header.{program_header_count, program_headers_place};
ghost use Rattle.elf.specs.Header.{section_header_count, section_headers_place};
ghost use Rattle.elf.specs.Numbers.{number_at};

use crate::checks::{is_inside, require};
use crate::fault::{Broken, ElfRule};
use crate::numbers::{byte_at, half_at, word_at};
use word::Width;

/// A field of the file header.
#[derive(Clone, Copy)]
pub enum Field {
    Magic,
    Class,
    Data,
    IdentVersion,
    FileType,
    Machine,
    Version,
    Entry,
    ProgramHeaders,
    SectionHeaders,
    Flags,
    ProgramHeaderSize,
    ProgramHeaderCount,
    SectionHeaderSize,
    SectionHeaderCount,
}

/// Where a field stands, how wide it is, and which rule it breaks where it is not allowed.
#[derive(Clone, Copy)]
pub struct Row {
    pub place: u8,
    pub width: Width,
    pub rule: ElfRule,
}

impl Row {
    /// A row for a field that another program, or none, may have.
    const fn at(place: u8, width: Width) -> Row
        ensures place { result.place ≡ place }
        ensures width { result.width ≡ width }
        ensures rule { result.rule ≡ ElfRule.NotProgram }
    {
        Row {
            place,
            width,
            rule: ElfRule::NotProgram,
        }
    }
}

/// The fields in their order.
const FIELDS: [Field; 15] = [
    Field::Magic,
    Field::Class,
    Field::Data,
    Field::IdentVersion,
    Field::FileType,
    Field::Machine,
    Field::Version,
    Field::Entry,
    Field::ProgramHeaders,
    Field::SectionHeaders,
    Field::Flags,
    Field::ProgramHeaderSize,
    Field::ProgramHeaderCount,
    Field::SectionHeaderSize,
    Field::SectionHeaderCount,
];

/// The bytes `ELF` behind a byte 7f, as a number.
const MAGIC: u32 = 0x464c_457f;

/// EM_RISCV.
const MACHINE: u32 = 243;

impl Field {
    /// Its row.
    fn row(self) -> Row
        ensures { result ≡ row self }
    {
        match self {
            Field::Magic => Row::at(0, Width::W32),
            Field::Class => Row::at(4, Width::W8),
            Field::Data => Row::at(5, Width::W8),
            Field::IdentVersion => Row::at(6, Width::W8),
            Field::FileType => Row::at(16, Width::W16),
            Field::Machine => Row::at(18, Width::W16),
            Field::Version => Row::at(20, Width::W32),
            Field::Entry => Row::at(24, Width::W32),
            Field::ProgramHeaders => Row {
                place: 28,
                width: Width::W32,
                rule: ElfRule::Truncated,
            },
            Field::SectionHeaders => Row {
                place: 32,
                width: Width::W32,
                rule: ElfRule::Truncated,
            },
            Field::Flags => Row::at(36, Width::W32),
            Field::ProgramHeaderSize => Row::at(42, Width::W16),
            Field::ProgramHeaderCount => Row::at(44, Width::W16),
            Field::SectionHeaderSize => Row::at(46, Width::W16),
            Field::SectionHeaderCount => Row::at(48, Width::W16),
        }
    }

    /// Whether it may have this value in the file.
    fn allows(self, bytes: &[u8], n: u32) -> bool
        ensures { result ≡ is_allowed self bytes.now n }
    {
        match self {
            Field::Magic => n == MAGIC,
            Field::Class | Field::Data | Field::IdentVersion | Field::Version => n == 1,
            Field::FileType => n == 2,
            Field::Machine => n == MACHINE,
            Field::ProgramHeaders => {
                u64::from(n) + 32 * u64::from(program_header_count(bytes)) <= bytes.len() as u64
            }
            Field::SectionHeaders => {
                u64::from(n) + 40 * u64::from(section_header_count(bytes)) <= bytes.len() as u64
            }
            Field::Flags => n / 2 % 8 == 0,
            Field::ProgramHeaderSize => program_header_count(bytes) == 0 || n == 32,
            Field::SectionHeaderSize => section_header_count(bytes) == 0 || n == 40,
            Field::Entry | Field::ProgramHeaderCount | Field::SectionHeaderCount => true,
        }
    }

    /// Checks that it is in the file, and has a value that it may have.
    fn check(self, bytes: &[u8]) -> Result<(), Broken>
        ensures { Passes result (field_checks bytes.now self) }
    {
        let row = self.row();
        let place = usize::from(row.place);
        require(
            ElfRule::Truncated,
            place,
            is_inside(bytes, place, size_of_field(row.width)),
        )?;
        require(
            row.rule,
            place,
            self.allows(bytes, value_at(bytes, place, row.width)),
        )
    }
}

/// How many bytes a field of a width has.
fn size_of_field(width: Width) -> usize
    ensures { result ≡ bytes_of width }
{
    match width {
        Width::W8 => 1,
        Width::W16 => 2,
        Width::W32 => 4,
    }
}

/// The number of this width at a place.
fn value_at(bytes: &[u8], place: usize, width: Width) -> u32
    ensures { result ≡ number_at (bytes_of width) place bytes.now }
{
    match width {
        Width::W8 => u32::from(byte_at(bytes, place)),
        Width::W16 => u32::from(half_at(bytes, place)),
        Width::W32 => word_at(bytes, place),
    }
}

/// How many program headers there are.
pub(crate) fn program_header_count(bytes: &[u8]) -> u16
    ensures { result ≡ program_header_count bytes.now }
{
    half_at(bytes, 44)
}

/// Where they begin.
pub(crate) fn program_headers_place(bytes: &[u8]) -> u32
    ensures { result ≡ program_headers_place bytes.now }
{
    word_at(bytes, 28)
}

/// How many section headers there are.
pub(crate) fn section_header_count(bytes: &[u8]) -> u16
    ensures { result ≡ section_header_count bytes.now }
{
    half_at(bytes, 48)
}

/// Where they begin.
pub(crate) fn section_headers_place(bytes: &[u8]) -> u32
    ensures { result ≡ section_headers_place bytes.now }
{
    word_at(bytes, 32)
}

/// Where the run begins.
pub(crate) fn entry_of(bytes: &[u8]) -> u32
    ensures { result ≡ entry_of bytes.now }
{
    word_at(bytes, 24)
}

/// Whether the code may have instructions of 16 bits.
pub(crate) fn is_compressed(bytes: &[u8]) -> bool
    ensures { result ≡ is_compressed bytes.now }
{
    word_at(bytes, 36) % 2 == 1
}

/// Checks each field of the file header.
pub(crate) fn check_header(bytes: &[u8]) -> Result<(), Broken>
    ensures { Passes result (header_checks bytes.now) }
{
    'fields: for field in FIELDS {
        field.check(bytes)?;
    }
    Ok(())
}
