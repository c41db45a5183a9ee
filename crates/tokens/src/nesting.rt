ghost use Rattle.std.specs.Prelude.{◌≡◌, ◌<◌, ◌≤◌, OnOk};
ghost use Rattle.tokens.specs.Limits.{nesting_limit};
ghost use Rattle.tokens.specs.Nesting.{effect_of as effect_that};

use crate::{Keyword, Sign, TokenKind};
use std::alloc::{AllocError, Global};

/// No token's count is above it.
pub const NESTING_LIMIT: u32 = 64;

/// What a token does to the count.
enum NestingEffect {
    Opens,
    Closes,
    Raises,
    SetsBack,
    Stays,
}

/// How deeply the tokens so far are nested.
#[derive(Drop)]
pub struct Nesting {
    /// The count of the last token.
    count: u32,
    /// The counts just after each open bracket, the innermost last.
    bases: Vec<u8>,
    /// Whether a `}` came last.
    after_block: bool,
    ghost within: { count ≤ nesting_limit },
}

impl Nesting {
    ghost use Rattle.tokens.specs.Nesting.{outside, base_of, count_before, after};
    ghost use Rattle.tokens.specs.Nested.{nest};

    /// Before the first token.
    pub fn new(alloc: Global) -> Self
        ensures { nest result ≡ outside }
    {
        Nesting {
            count: 0,
            bases: Vec::new(alloc),
            after_block: false,
        }
    }

    /// The count just after the innermost open bracket, 0 outside all.
    fn base(&self) -> u32
        ensures value { result ≡ base_of self.now.bases.items }
        ensures small { result < 256 }
    {
        u32::from(self.bases.last().copied().unwrap_or(0))
    }

    /// The count that a token finds.
    fn count_before(&self, kind: TokenKind) -> u32
        ensures value { result ≡ count_before kind (nest self.now) }
        ensures small { result < 256 }
    {
        if self.after_block && kind != TokenKind::Keyword(Keyword::Else) {
            self.base()
        } else {
            self.count
        }
    }

    /// The count of a token that comes next.
    pub fn count_after(&self, kind: TokenKind) -> u32
        ensures { result ≡ (after kind (nest self.now)).count }
    {
        match effect_of(kind) {
            NestingEffect::Opens | NestingEffect::Raises => self.count_before(kind) + 1,
            NestingEffect::Closes => self.base().saturating_sub(1),
            NestingEffect::SetsBack => self.base(),
            NestingEffect::Stays => self.count_before(kind),
        }
    }

    /// Takes in a token that comes next.
    pub fn take(&mut self, kind: TokenKind) -> Result<(), AllocError>
        requires { (after kind (nest self.old)).count ≤ nesting_limit }
        ensures { OnOk result (nest self.new ≡ after kind (nest self.old)) }
    {
        let count = self.count_after(kind);
        match effect_of(kind) {
            NestingEffect::Opens => self.bases.push(count as u8)?,
            NestingEffect::Closes => {
                let _ = self.bases.pop();
            }
            NestingEffect::Raises | NestingEffect::SetsBack | NestingEffect::Stays => {}
        }
        self.count = count;
        self.after_block = kind == TokenKind::Sign(Sign::CloseCurly);
        Ok(())
    }
}

/// Brackets open and close, operator signs and `else` raise, and what ends a part or begins
/// `return` sets back.
fn effect_of(kind: TokenKind) -> NestingEffect
    ensures { result ≡ effect_that kind }
{
    match kind {
        TokenKind::Sign(Sign::OpenRound | Sign::OpenCurly | Sign::OpenSquare) =>
            NestingEffect::Opens,
        TokenKind::Sign(Sign::CloseRound | Sign::CloseCurly | Sign::CloseSquare) =>
            NestingEffect::Closes,
        TokenKind::Sign(Sign::Comma | Sign::Semicolon | Sign::Assign) => NestingEffect::SetsBack,
        TokenKind::Keyword(Keyword::From | Keyword::To | Keyword::Return) =>
            NestingEffect::SetsBack,
        TokenKind::Sign(_) | TokenKind::Keyword(Keyword::Else) => NestingEffect::Raises,
        TokenKind::Keyword(_) | TokenKind::Name | TokenKind::Number(_, _) => NestingEffect::Stays,
    }
}

/// The constant is the number that the definitions state.
pub fn nesting_limit_is_as_stated()
    ensures count { NESTING_LIMIT ≡ nesting_limit }
{}
