// A program, and what its symbols name.

ghost use Rattle.std.specs.Prelude.{◌≡◌, []};
ghost use Rattle.elf.specs.Layout.{AreApart};

use crate::lookup::{Wanted, covering, preferred};
use crate::names::first_name;
use crate::numbers::rest_at;
use crate::section::Table;
use crate::segment::Segment;
use crate::symbol::{Object, Position};
use std::marker::Model;

/// A program, as it was read.
#[derive(Drop)]
pub struct Program<'a> {
    entry: u32,
    compressed: bool,
    segments: Vec<Segment<'a>>,
    symbols: &'a [u8],
    strings: &'a [u8],
}

impl<'a> Model for Program<'a> {
    ghost use Rattle.std.specs.Prelude.{[]};
    ghost use Rattle.elf.specs.Layout.{AreApart};
    ghost use Rattle.elf.specs.Reading.{Executable};
    ghost use Rattle.elf.specs.Symbols.{symbols_of};

    ghost Value = { Executable };

    ghost view = { λ p. record {
      entry = p.entry;
      compressed = p.compressed;
      segments = p.segments.items;
      symbols = symbols_of p.symbols.now;
      strings = p.strings.now;
    } };

    ghost invariant = { λ p. AreApart [] p.segments.items };
}

impl<'a> Program<'a> {
    ghost use Rattle.std.specs.Prelude.{find};
    ghost use Rattle.elf.specs.Lookup.{address_named, covers, function_at, function_named, object_at, object_named};
    ghost use Rattle.elf.specs.Lookup.{place_in, position_of};
    ghost use Rattle.elf.specs.Symbols.{symbols_of};

    /// The program of these.
    pub(crate) fn new(
        entry: u32,
        compressed: bool,
        segments: Vec<Segment<'a>>,
        table: Table<'a>,
    ) -> Program<'a>
        requires { AreApart [] segments.items }
        ensures entry { result.entry ≡ entry }
        ensures compressed { result.compressed ≡ compressed }
        ensures segments { result.segments ≡ segments.entry.items }
        ensures symbols { result.symbols ≡ symbols_of table.entry.symbols.now }
        ensures strings { result.strings ≡ table.entry.strings.now }
    {
        Program {
            entry,
            compressed,
            segments,
            symbols: table.symbols,
            strings: table.strings,
        }
    }

    /// Its segments, in the order of the file. No two have an address in common.
    pub fn segments(&self) -> &[Segment<'a>]
        ensures segments { result.now ≡ self.now.segments }
        ensures apart { AreApart [] result.now }
    {
        &self.segments
    }

    /// Where it begins.
    pub fn entry(&self) -> u32
        ensures { result ≡ self.now.entry }
    {
        self.entry
    }

    /// Whether its code may have instructions of 16 bits.
    pub fn compressed(&self) -> bool
        ensures { result ≡ self.now.compressed }
    {
        self.compressed
    }

    /// The address of the function of this name: of those that are not local the first, else the first.
    pub fn function(&self, name: &[u8]) -> Option<u32>
        ensures { result ≡ function_named self.now name.now }
    {
        let symbol = preferred(self.symbols, self.strings, Wanted::Function, name)?;
        Some(symbol.value)
    }

    /// The address that this is a name of, whatever lies there: of those that are not local the first, else the first.
    pub fn address(&self, name: &[u8]) -> Option<u32>
        ensures { result ≡ address_named self.now name.now }
    {
        let symbol = preferred(self.symbols, self.strings, Wanted::Address, name)?;
        Some(symbol.value)
    }

    /// The object of this name that has a size: of those that are not local the first, else the first.
    pub fn object(&self, name: &[u8]) -> Option<Object>
        ensures { result ≡ object_named self.now name.now }
    {
        let symbol = preferred(self.symbols, self.strings, Wanted::Object, name)?;
        Some(Object {
            address: symbol.value,
            size: symbol.size,
        })
    }

    /// The first function that an address lies in, and how far behind its beginning.
    pub fn function_at(&self, address: u32) -> Option<Position<'a>>
        ensures { position_of result ≡ function_at self.now address }
    {
        self.position(Wanted::Function, address)
    }

    /// The first object that an address lies in, and how far behind its beginning.
    pub fn object_at(&self, address: u32) -> Option<Position<'a>>
        ensures { position_of result ≡ object_at self.now address }
    {
        self.position(Wanted::Object, address)
    }

    /// The first symbol of this kind that an address lies in, and how far behind its beginning.
    fn position(&self, wanted: Wanted, address: u32) -> Option<Position<'a>>
        ensures { position_of result
            ≡ place_in self.now.strings address (find (covers wanted address) self.now.symbols) }
    {
        let symbol = covering(self.symbols, wanted, address)?;
        Some(Position {
            name: first_name(rest_at(self.strings, symbol.name as usize)),
            offset: address.saturating_sub(symbol.value),
        })
    }
}
