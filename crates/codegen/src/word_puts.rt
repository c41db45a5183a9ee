// Words that statements put byte by byte, each of which is one store.

ghost use Rattle.std.specs.Prelude.{◌≡◌, ℕ, ◌≤◌, length, IfSome, Some};
ghost use Rattle.codegen.specs.private.Placed.{HasPlace, HavePlaces, IsPlaced};
ghost use Rattle.codegen.specs.private.WordPuts.{are_a_word, byte_put, is_next, lowest_byte, moved_down, word_put};
ghost use Rattle.codegen.specs.Below.{straight_block, straight_tree, term_tree, variable as variable_tree};

use crate::stored_values::stored_value;
use branch_removal::StraightStatement;
use expression_code::{Layout, WORD_BYTES, number};
use inline::Term;
use language::{BinaryOperator, Kind};
use word::Width;

/// A byte of a variable, by its place from the lowest one on.
#[derive(Clone, Copy)]
pub struct WordByte {
    pub variable: u32,
    pub place: u32,
}

/// Such a byte that is put at an offset of the frame.
#[derive(Clone, Copy)]
pub struct BytePut {
    pub offset: u32,
    pub variable: u32,
    pub place: u32,
}

/// A variable that is put at an offset of the frame.
#[derive(Clone, Copy)]
pub struct WordPut {
    pub offset: u32,
    pub variable: u32,
}

/// The lowest byte of a variable that is shifted to the right by so many bits, where these are whole bytes.
fn moved_down(term: &Term, amount: Option<u32>) -> Option<WordByte>
    ensures { result ≡ moved_down (term_tree term.now) amount }
{
    let (Term::Variable(variable), Some(amount)) = (term, amount) else {
        return None;
    };
    if amount % 8 == 0 && amount < 32 {
        Some(WordByte {
            variable: *variable,
            place: amount / 8,
        })
    } else {
        None
    }
}

/// The byte of a variable that is the lowest one of an expression.
fn lowest_byte(term: &Term) -> Option<WordByte>
    ensures { result ≡ lowest_byte (term_tree term.now) }
{
    match term {
        Term::Variable(variable) => Some(WordByte {
            variable: *variable,
            place: 0,
        }),
        Term::Binary(_, BinaryOperator::ShiftRight, Width::W32, word, amount) => {
            moved_down(word, number(amount))
        }
        _ => None,
    }
}

/// The byte that a statement puts.
#[tactic(auto, using(crate::proofs::WordPlaces::lowest_placed))]
fn byte_put(layout: &Layout<'_>, statement: &StraightStatement) -> Option<BytePut>
    requires { (depth : ℕ) × HasPlace layout.now depth (straight_tree statement.now) }
    ensures byte { result ≡ byte_put layout.now.declared layout.now.allocation (straight_tree statement.now) }
    ensures placed { IfSome result (λ put. IsPlaced layout.now 0 (variable_tree put.variable)) }
{
    let StraightStatement::Put(None, _, array, _, index, value) = statement else {
        return None;
    };
    let Kind::Uint8 = layout.kind(*array) else {
        return None;
    };
    let offset = layout.near_element(*array, index)?;
    let byte = lowest_byte(stored_value(layout, Kind::Uint8, value))?;
    Some(BytePut {
        offset,
        variable: byte.variable,
        place: byte.place,
    })
}

/// Whether a byte is the next one of the same variable, and put behind the other.
fn is_next(low: BytePut, high: BytePut) -> bool
    ensures { result ≡ is_next low high }
{
    u64::from(low.offset) + 1 == u64::from(high.offset)
        && low.variable == high.variable
        && u64::from(low.place) + 1 == u64::from(high.place)
}

/// Whether four bytes that are put are those of a variable, the lowest first, into a word of the frame.
fn are_a_word(a: BytePut, b: BytePut, c: BytePut, d: BytePut) -> bool
    ensures { result ≡ are_a_word a b c d }
{
    a.place == 0 && a.offset % WORD_BYTES == 0 && is_next(a, b) && is_next(b, c) && is_next(c, d)
}

/// The word that the first four of some statements put.
pub fn word_put(layout: &Layout<'_>, statements: &[StraightStatement]) -> Option<WordPut>
    requires { (depth : ℕ) × HavePlaces layout.now depth (straight_block statements.now) }
    ensures word { result ≡ word_put layout.now.declared layout.now.allocation (straight_block statements.now) }
    ensures placed { IfSome result (λ put. IsPlaced layout.now 0 (variable_tree put.variable)) }
    ensures long { IfSome result (λ put. 4 ≤ length statements.now) }
{
    let [a, b, c, d, ..] = statements else {
        return None;
    };
    let a = byte_put(layout, a)?;
    let b = byte_put(layout, b)?;
    let c = byte_put(layout, c)?;
    let d = byte_put(layout, d)?;
    if are_a_word(a, b, c, d) {
        Some(WordPut {
            offset: a.offset,
            variable: a.variable,
        })
    } else {
        None
    }
}
