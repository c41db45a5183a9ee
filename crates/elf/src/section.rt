// Sections: the symbol table, and the strings that it names.

ghost use Rattle.std.specs.Prelude.{◌≡◌, ◌<◌, ◌^◌, ◌∷◌, [], IfOk, IfSome};
ghost use Rattle.elf.specs.Checks.{Passes};
ghost use Rattle.elf.specs.Symbols.{bytes_check, is_table, section_at, section_bytes, string_bytes_of, symbol_checks};
ghost use Rattle.elf.specs.Symbols.{table_bytes, table_of};

use crate::checks::{is_inside, require};
use crate::fault::{Broken, ElfRule};
use crate::header::{section_header_count, section_headers_place};
use crate::numbers::{part, word_at};

/// SHT_SYMTAB.
const SYMBOL_TABLE: u32 = 2;

/// How many bytes a symbol has.
const SYMBOL_BYTES: u32 = 16;

/// A section header.
#[derive(Clone, Copy)]
pub struct Section {
    pub place: usize,
    pub kind: u32,
    pub offset: u32,
    pub size: u32,
    pub link: u32,
    pub entry_size: u32,
}

impl Section {
    /// The one at a place.
    #[tactic(auto, unfolding(crate::specs::Symbols::section_at))]
    fn at(bytes: &[u8], place: usize) -> Section
        requires { place < 2 ^ 40 }
        ensures section { result ≡ section_at place bytes.now }
        ensures place { result.place ≡ place }
    {
        Section {
            place,
            kind: word_at(bytes, place + 4),
            offset: word_at(bytes, place + 16),
            size: word_at(bytes, place + 20),
            link: word_at(bytes, place + 24),
            entry_size: word_at(bytes, place + 36),
        }
    }

    /// Whether it has symbols.
    fn is_table(&self) -> bool
        ensures { result ≡ is_table self.now }
    {
        self.kind == SYMBOL_TABLE
    }

    /// Its bytes.
    fn bytes<'a>(&self, bytes: &'a [u8]) -> Result<&'a [u8], Broken>
        requires { self.now.place < 2 ^ 40 }
        ensures check { Passes result (bytes_check bytes.now self.now ∷ []) }
        ensures bytes { IfOk result (λ part. part.now ≡ section_bytes bytes.now self.now) }
    {
        let offset = self.offset as usize;
        let size = self.size as usize;
        require(
            ElfRule::Truncated,
            self.place + 16,
            is_inside(bytes, offset, size),
        )?;
        Ok(part(bytes, offset, size))
    }
}

/// The first section that has symbols.
#[tactic(auto, using(crate::proofs::Walks::section_past, crate::proofs::Walks::section_here, crate::proofs::Walks::sections_done), unfolding(crate::specs::Symbols::table_of))]
fn table_of(bytes: &[u8]) -> Option<Section>
    ensures first { result ≡ table_of bytes.now }
    ensures near { IfSome result (λ table. table.place < 2 ^ 40) }
{
    let start = section_headers_place(bytes) as usize;
    let count = section_header_count(bytes);
    'sections: for k in 0..count {
        let section = Section::at(bytes, start + 40 * usize::from(k));
        if section.is_table() {
            return Some(section);
        }
    }
    None
}

/// The bytes of the symbol table, and those of its strings.
#[derive(Drop)]
pub(crate) struct Table<'a> {
    pub symbols: &'a [u8],
    pub strings: &'a [u8],
}

/// The symbol table of the file. Where there is none, it is empty.
#[tactic(auto, unfolding(crate::specs::Symbols::symbol_checks))]
pub(crate) fn read_table(bytes: &[u8]) -> Result<Table<'_>, Broken>
    ensures checks { Passes result (symbol_checks bytes.now) }
    ensures symbols { IfOk result (λ table. table.symbols.now ≡ table_bytes bytes.now (table_of bytes.now)) }
    ensures strings { IfOk result (λ table. table.strings.now ≡ string_bytes_of bytes.now (table_of bytes.now)) }
{
    let Some(table) = table_of(bytes) else {
        return Ok(Table {
            symbols: &[],
            strings: &[],
        });
    };
    let symbols = table.bytes(bytes)?;
    let count = u32::from(section_header_count(bytes));
    require(ElfRule::NotProgram, table.place + 24, table.link < count)?;
    require(
        ElfRule::NotProgram,
        table.place + 36,
        table.entry_size == SYMBOL_BYTES,
    )?;
    let place = section_headers_place(bytes) as usize + 40 * table.link as usize;
    let strings = Section::at(bytes, place).bytes(bytes)?;
    Ok(Table { symbols, strings })
}
