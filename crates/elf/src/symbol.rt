// Symbols: names of addresses.

ghost use Rattle.std.specs.Prelude.{◌≡◌, ◌<◌, ◌^◌};
ghost use Rattle.elf.specs.Lookup.{is_address, is_function, is_named, is_object, is_shared};
ghost use Rattle.elf.specs.Symbols.{symbol_at};

use crate::names::is_name;
use crate::numbers::{byte_at, half_at, rest_at, word_at};

/// STT_OBJECT and STT_FUNC.
const OBJECT: u8 = 1;

const FUNCTION: u8 = 2;

/// A symbol.
#[derive(Clone, Copy)]
pub struct Symbol {
    pub name: u32,
    pub value: u32,
    pub size: u32,
    pub info: u8,
    pub section: u16,
}

/// Where an object lies in memory.
#[derive(Clone, Copy, Debug, PartialEq, Eq)]
pub struct Object {
    pub address: u32,
    pub size: u32,
}

/// An address by the symbols: the name of what it lies in, and how far behind its beginning.
#[derive(Clone, Copy, Debug)]
pub struct Position<'a> {
    pub name: &'a [u8],
    pub offset: u32,
}

impl Symbol {
    /// The one at a place of a table.
    #[tactic(auto, unfolding(crate::specs::Symbols::symbol_at))]
    pub(crate) fn at(table: &[u8], place: usize) -> Symbol
        requires { place < 2 ^ 63 }
        ensures { result ≡ symbol_at place table.now }
    {
        Symbol {
            name: word_at(table, place),
            value: word_at(table, place + 4),
            size: word_at(table, place + 8),
            info: byte_at(table, place + 12),
            section: half_at(table, place + 14),
        }
    }

    /// Whether it names an address of the program.
    pub(crate) fn is_address(&self) -> bool
        ensures { result ≡ is_address self.now }
    {
        self.section != 0 && self.info % 16 <= FUNCTION
    }

    /// Whether it is a function of the program.
    pub(crate) fn is_function(&self) -> bool
        ensures { result ≡ is_function self.now }
    {
        self.section != 0 && self.info % 16 == FUNCTION
    }

    /// Whether it is an object of the program that has a size.
    pub(crate) fn is_object(&self) -> bool
        ensures { result ≡ is_object self.now }
    {
        self.section != 0 && self.info % 16 == OBJECT && 0 < self.size
    }

    /// Whether other files see it.
    pub(crate) fn is_shared(&self) -> bool
        ensures { result ≡ is_shared self.now }
    {
        self.info / 16 != 0
    }

    /// Whether it has this name.
    pub(crate) fn is_named(&self, strings: &[u8], name: &[u8]) -> bool
        ensures { result ≡ is_named strings.now name.now self.now }
    {
        is_name(rest_at(strings, self.name as usize), name)
    }
}
