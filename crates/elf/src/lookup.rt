// Which symbol of a table is meant.

ghost use Rattle.std.specs.Prelude.{◌≡◌, find};
ghost use Rattle.elf.specs.Lookup.{covers, fits, is_wanted, preferred};
ghost use Rattle.elf.specs.Symbols.{symbols_of};

use crate::symbol::Symbol;

/// How many bytes a symbol has.
pub(crate) const SYMBOL_BYTES: usize = 16;

/// What a look-up by name is after.
#[derive(Clone, Copy)]
pub enum Wanted {
    Address,
    Function,
    Object,
}

impl Wanted {
    /// Whether the symbol is of this kind.
    fn is(self, symbol: &Symbol) -> bool
        ensures { result ≡ is_wanted self symbol.now }
    {
        match self {
            Wanted::Address => symbol.is_address(),
            Wanted::Function => symbol.is_function(),
            Wanted::Object => symbol.is_object(),
        }
    }
}

/// Whether the symbol is of this kind, and has this name.
fn fits(symbol: &Symbol, strings: &[u8], wanted: Wanted, name: &[u8]) -> bool
    ensures { result ≡ fits wanted strings.now name.now symbol.now }
{
    wanted.is(symbol) && symbol.is_named(strings, name)
}

/// Of the symbols of this kind and name the first that is not local, else the first.
pub(crate) fn preferred(table: &[u8], strings: &[u8], wanted: Wanted, name: &[u8]) -> Option<Symbol>
    ensures { result ≡ preferred (fits wanted strings.now name.now) (symbols_of table.now) }
{
    let mut found = None;
    'symbols: for k in 0..table.len() / SYMBOL_BYTES {
        let symbol = Symbol::at(table, SYMBOL_BYTES * k);
        if fits(&symbol, strings, wanted, name) {
            if symbol.is_shared() {
                return Some(symbol);
            }
            found = found.or(Some(symbol));
        }
    }
    found
}

/// Whether the symbol is of this kind, and the address is one of its bytes.
fn covers(symbol: &Symbol, wanted: Wanted, address: u32) -> bool
    ensures { result ≡ covers wanted address symbol.now }
{
    wanted.is(symbol)
        && symbol.value <= address
        && u64::from(address) < u64::from(symbol.value) + u64::from(symbol.size)
}

/// The first symbol of this kind that an address lies in.
#[tactic(auto, using(crate::proofs::Walks::cover_past, crate::proofs::Walks::cover_here, crate::proofs::Walks::covers_done))]
pub(crate) fn covering(table: &[u8], wanted: Wanted, address: u32) -> Option<Symbol>
    ensures { result ≡ find (covers wanted address) (symbols_of table.now) }
{
    'symbols: for k in 0..table.len() / SYMBOL_BYTES {
        let symbol = Symbol::at(table, SYMBOL_BYTES * k);
        if covers(&symbol, wanted, address) {
            return Some(symbol);
        }
    }
    None
}
