ghost use Rattle.std.specs.Prelude.{◌≡◌, ◌<◌, ◌≤◌, length, IfOk, IfErr, IsErrAnd, Some, None};
ghost use Rattle.std.specs.List.{All};
ghost use Rattle.tokens.specs.Lexeme.{lexemes};
ghost use Rattle.tokens.specs.Limits.{source_limit};
ghost use Rattle.tokens.specs.Tokens.{Lexes, OneList, IsSliceOf, ending};
ghost use Rattle.tokens.specs.Below.{IsWantOfMemory, origin, Plain};

mod letters;
mod number;
mod piece;
mod position;
mod sign;

use crate::{Place, Refusal, Rule, Token};
use piece::{Piece, split_piece};
use position::place_after;
use std::alloc::Global;

/// A source has at most this many bytes.
pub const SOURCE_LIMIT: usize = 262_144;

/// How a list of tokens ends.
#[derive(Clone, Copy)]
pub enum ListEnd {
    /// At the end of the source, which stands here.
    TextEnd(Place),
    /// At the first bad character or number.
    Fault(Rule, Place),
}

impl ListEnd {
    ghost use Rattle.tokens.specs.Tokens.{refusal_of};

    /// Why no further token stands there, where one has to: the rule, and the place.
    pub fn refusal(self) -> (Rule, Place)
        ensures { result ≡ refusal_of (ending self) }
    {
        match self {
            ListEnd::TextEnd(place) => (Rule::UnexpectedToken, place),
            ListEnd::Fault(rule, place) => (rule, place),
        }
    }
}

/// The tokens of a source, up to its end or to the first bad character or number.
#[derive(Drop)]
pub struct Lexed<'a> {
    pub tokens: Vec<Token<'a>>,
    pub end: ListEnd,
}

/// The tokens that a source spells. Refused are sources that are too long, and all where memory is out.
pub fn lex(alloc: Global, source: &str) -> Result<Lexed<'_>, Refusal>
    ensures tokens { IfOk result (λ l. Lexes source.now (lexemes l.tokens.items) (ending l.end)) }

    // The tokens' texts are cut from the source.
    ensures slices { IfOk result (λ l. All (IsSliceOf source.now) (lexemes l.tokens.items)) }
    ensures too_long { source_limit < length source.now
        → IsErrAnd result (λ r. (r.rule ≡ Rule.TextTooLong) × (r.place ≡ Some origin) × (r.why ≡ Plain)) }
    ensures memory { length source.now ≤ source_limit → IfErr result (λ r. IsWantOfMemory r.rule r.place) }
{
    if source.len() > SOURCE_LIMIT {
        return Err(Refusal::at(Rule::TextTooLong, Place::ORIGIN));
    }
    tokens_of(alloc, source)
}

/// The tokens of a source within the limit.
fn tokens_of(alloc: Global, source: &str) -> Result<Lexed<'_>, Refusal>
    requires { length source.now ≤ source_limit }
    ensures tokens { IfOk result (λ l. Lexes source.now (lexemes l.tokens.items) (ending l.end)) }
    ensures memory { IfErr result (λ r. IsWantOfMemory r.rule r.place) }
{
    let mut tokens = Vec::new(alloc);
    let mut place = Place::ORIGIN;
    let mut rest = source;
    'pieces: while !rest.is_empty() {
        let Some((piece, spelling, others)) = split_piece(rest) else {
            let end = ListEnd::Fault(Rule::UnknownCharacter, place);
            return Ok(Lexed { tokens, end });
        };
        match piece {
            Piece::Space => {}
            Piece::Token(kind) => tokens.push(Token {
                kind,
                place,
                text: spelling,
            })?,
            Piece::BadNumber => {
                let end = ListEnd::Fault(Rule::BadNumber, place);
                return Ok(Lexed { tokens, end });
            }
        }
        place = place_after(place, spelling.as_bytes());
        rest = others;
    }
    let end = ListEnd::TextEnd(place);
    Ok(Lexed { tokens, end })
}

/// A source has one list of tokens, and the list one end.
pub fn one_list_for_a_source()
    ensures { OneList }
{}

/// The constant is the number that the definitions state.
pub fn source_limit_is_as_stated()
    ensures bytes { SOURCE_LIMIT ≡ source_limit }
{}
