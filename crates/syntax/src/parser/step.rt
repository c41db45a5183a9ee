ghost use Rattle.std.specs.Prelude.{◌≡◌, ◌≤◌, ◌<◌, true, IfOk, IfErr, OnOk, OnSome, Some, None, [], ◌∷◌, length, ℕ};
ghost use Rattle.syntax.specs.Grammar.{label_of as label_that, word_of as word_that, amount_of as amount_that};
ghost use Rattle.syntax.specs.Grammar.{length_of as length_that};
ghost use Rattle.tokens.specs.Lexeme.{Lexeme, lexeme};
ghost use Rattle.syntax.specs.private.Machine.{ParserState, one, either, a_label, a_kind, a_length, an_amount};
ghost use Rattle.syntax.specs.private.Machine.{fits as fits_that, sized, step, ending_answer};
ghost use Rattle.syntax.specs.private.ParserViews.{Leads, FaultIs, front, skipped, taken};
ghost use Rattle.tokens.specs.Tokens.{ending};
ghost use Rattle.syntax.specs.Below.{Kind as KindOf, Label as LabelOf};

use super::{ParseFault, Parser};
use crate::{Keyword, Kind, Label, ListEnd, NESTING_LIMIT, Name, Rule, Sign, Token, TokenKind};
use language::MOST_ELEMENTS;

/// The label that a keyword names.
pub fn label_of(kind: TokenKind) -> Option<Label>
    ensures { result ≡ label_that kind }
{
    match kind {
        TokenKind::Keyword(Keyword::Public) => Some(Label::Public),
        TokenKind::Keyword(Keyword::Secret) => Some(Label::Secret),
        _ => None,
    }
}

/// The kind of word that a keyword names.
fn word_of(kind: TokenKind) -> Option<Kind>
    ensures { result ≡ word_that kind }
{
    match kind {
        TokenKind::Keyword(Keyword::Bool) => Some(Kind::Boolean),
        TokenKind::Keyword(Keyword::Uint8) => Some(Kind::Uint8),
        TokenKind::Keyword(Keyword::Uint16) => Some(Kind::Uint16),
        TokenKind::Keyword(Keyword::Uint32) => Some(Kind::Uint32),
        _ => None,
    }
}

/// The number that a token without a suffix writes.
fn amount_of(kind: TokenKind) -> Option<u32>
    ensures { result ≡ amount_that kind }
{
    let TokenKind::Number(value, suffix) = kind else {
        return None;
    };
    match suffix {
        None => Some(value),
        Some(_) => None,
    }
}

/// The length of an array that a token without a suffix writes.
fn length_of(kind: TokenKind) -> Option<u16>
    ensures { result ≡ length_that kind }
{
    let length = amount_of(kind)?;
    if 1 <= length && length <= u32::from(MOST_ELEMENTS) {
        Some(length as u16)
    } else {
        None
    }
}

/// Whether a token of a kind is of the wanted one.
fn fits(wanted: TokenKind, kind: TokenKind) -> bool
    ensures { result ≡ fits_that wanted kind }
{
    wanted == kind
}

/// No program begins with the tokens up to this one.
pub fn unexpected(token: Token<'_>) -> ParseFault
    ensures { result ≡ ParseFault.Refused Rule.UnexpectedToken token.entry.place }
{
    ParseFault::Refused(Rule::UnexpectedToken, token.place)
}

/// Why no token stands next, where the tokens end like this.
fn at_end(end: ListEnd) -> ParseFault
    ensures { FaultIs result (ending_answer (ending end) None) }
{
    let (rule, place) = end.refusal();
    ParseFault::Refused(rule, place)
}

impl<'t> Parser<'t> {
    /// The next token, and those after it.
    pub fn first(&self) -> Result<(Token<'t>, &'t [Token<'t>]), ParseFault>
        ensures found { IfOk result (λ f. self.now.rest.now ≡ f.0 ∷ f.1.now) }
        ensures ended { IfErr result (λ f. (self.now.rest.now ≡ [])
            × FaultIs f (ending_answer (ending self.now.end) None)) }
    {
        match self.rest.split_first() {
            Some((token, rest)) => Ok((*token, rest)),
            None => Err(at_end(self.end)),
        }
    }

    /// Takes the next token, which may stand here.
    pub fn advance(&mut self, token: Token<'t>, rest: &'t [Token<'t>]) -> Result<(), ParseFault>
        requires { self.old.rest.now ≡ token ∷ rest.now }
        ensures leads { (s next : ParserState) → step s (lexeme token.entry) ≡ Some next
            → Leads s (λ _. next) result self.old self.new }
        ensures rest { OnOk result (self.new.rest.now ≡ rest.entry.now) }
    {
        if self.nesting.count_after(token.kind) > NESTING_LIMIT {
            return Err(ParseFault::Refused(Rule::Nesting, token.place));
        }
        self.nesting.take(token.kind)?;
        self.rest = rest;
        Ok(())
    }

    /// Takes a token of this kind, of which no more is asked.
    pub fn pass(&mut self, wanted: TokenKind) -> Result<(), ParseFault>
        ensures leads { (k : Lexeme → ParserState)
            → Leads (one wanted k) (λ _. k (front self.old.rest.now)) result self.old self.new }
        ensures shorter { OnOk result (length self.new.rest.now < length self.old.rest.now) }
    {
        let (token, rest) = self.first()?;
        if !fits(wanted, token.kind) {
            return Err(unexpected(token));
        }
        self.advance(token, rest)
    }

    /// Takes a token of this kind.
    pub fn expect(&mut self, wanted: TokenKind) -> Result<Token<'t>, ParseFault>
        ensures leads { (k : Lexeme → ParserState)
            → Leads (one wanted k) (λ t. k (lexeme t)) result self.old self.new }
        ensures shorter { OnOk result (length self.new.rest.now < length self.old.rest.now) }
    {
        let (token, _) = self.first()?;
        self.pass(wanted)?;
        Ok(token)
    }

    /// Whether the token that stands next is of this kind: then it is taken, and no more is asked of it.
    pub fn skips(&mut self, wanted: TokenKind) -> Result<bool, ParseFault>
        ensures leads { (next : Lexeme → ParserState) (other : ParserState)
            → Leads (either wanted next other) (skipped next other self.old.rest.now) result self.old self.new }
        ensures shorter { IfOk result (λ is. is ≡ true → length self.new.rest.now < length self.old.rest.now) }
        ensures same { OnOk result (length self.new.rest.now ≤ length self.old.rest.now) }
    {
        let Ok((token, rest)) = self.first() else {
            return Ok(false);
        };
        if !fits(wanted, token.kind) {
            return Ok(false);
        }
        self.advance(token, rest)?;
        Ok(true)
    }

    /// Takes the token that stands next, where it is of this kind.
    pub fn takes(&mut self, wanted: TokenKind) -> Result<Option<Token<'t>>, ParseFault>
        ensures leads { (next : Lexeme → ParserState) (other : ParserState)
            → Leads (either wanted next other) (taken next other) result self.old self.new }
        ensures shorter { IfOk result (λ t. OnSome t (length self.new.rest.now < length self.old.rest.now)) }
        ensures same { OnOk result (length self.new.rest.now ≤ length self.old.rest.now) }
    {
        let Ok((token, _)) = self.first() else {
            return Ok(None);
        };
        if self.skips(wanted)? {
            return Ok(Some(token));
        }
        Ok(None)
    }

    /// The name that a token spells.
    pub fn name(&self, token: Token<'t>) -> Result<Name, ParseFault>
        ensures name { IfOk result (λ name. name ≡ token.entry.text.now) }
        ensures memory { IfErr result (λ f. f ≡ ParseFault.Memory) }
    {
        Ok(Name::new(self.alloc, token.text)?)
    }

    pub fn label(&mut self) -> Result<Label, ParseFault>
        ensures leads { (k : LabelOf → ParserState) → Leads (a_label k) k result self.old self.new }
        ensures shorter { OnOk result (length self.new.rest.now < length self.old.rest.now) }
    {
        let (token, rest) = self.first()?;
        let Some(label) = label_of(token.kind) else {
            return Err(unexpected(token));
        };
        self.advance(token, rest)?;
        Ok(label)
    }

    pub fn kind(&mut self) -> Result<Kind, ParseFault>
        ensures leads { (k : KindOf → ParserState) → Leads (a_kind k) k result self.old self.new }
        ensures shorter { OnOk result (length self.new.rest.now < length self.old.rest.now) }
    {
        let (token, rest) = self.first()?;
        let Some(kind) = word_of(token.kind) else {
            return Err(unexpected(token));
        };
        self.advance(token, rest)?;
        Ok(kind)
    }

    /// How far a rotation goes.
    pub fn amount(&mut self) -> Result<u32, ParseFault>
        ensures leads { (k : ℕ → ParserState) → Leads (an_amount k) k result self.old self.new }
        ensures shorter { OnOk result (length self.new.rest.now < length self.old.rest.now) }
    {
        let (token, rest) = self.first()?;
        let Some(amount) = amount_of(token.kind) else {
            return Err(unexpected(token));
        };
        self.advance(token, rest)?;
        Ok(amount)
    }

    /// The length of an array.
    fn bare_length(&mut self) -> Result<u16, ParseFault>
        ensures leads { (k : ℕ → ParserState) → Leads (a_length k) k result self.old self.new }
        ensures shorter { OnOk result (length self.new.rest.now < length self.old.rest.now) }
    {
        let (token, rest) = self.first()?;
        let Some(length) = length_of(token.kind) else {
            return Err(unexpected(token));
        };
        self.advance(token, rest)?;
        Ok(length)
    }

    /// The length of an array, after its opening bracket, and the closing one.
    pub fn length(&mut self) -> Result<u16, ParseFault>
        ensures leads { (k : ℕ → ParserState) → Leads (sized k) k result self.old self.new }
        ensures shorter { OnOk result (length self.new.rest.now < length self.old.rest.now) }
    {
        let length = self.bare_length()?;
        self.expect(TokenKind::Sign(Sign::CloseSquare))?;
        Ok(length)
    }
}
