// The tokens around a place of a source, by their spelling.

ghost use Rattle.std.specs.Prelude.{◌≡◌, length};
ghost use Rattle.std.specs.List.{filter, fold};
ghost use Rattle.tokens.specs.Lexeme.{lexeme, lexemes};
ghost use Rattle.explanations.specs.habits.Spots.{after_token, count_before, ends_statement, is_before, nowhere};
ghost use Rattle.explanations.specs.habits.Spots.{passed, reached, region_at, spot_around, spot_of};
ghost use Rattle.explanations.specs.habits.Spots.{statement_start};

use syntax::Token;

/// A part of a program.
#[derive(Clone, Copy, PartialEq, Eq)]
pub(crate) enum Region {
    /// Outside procedures.
    Outside,
    /// In the body of one, and not in round brackets.
    Body,
    /// In round brackets.
    Brackets,
}

/// The spellings of the tokens around a place; nothing where there is none.
#[derive(Clone, Copy)]
pub(crate) struct Spot<'a> {
    /// The first token of the statement that the token before it belongs to.
    pub start: &'a str,
    pub second: &'a str,
    pub before: &'a str,
    pub here: &'a str,
    pub next: &'a str,
    pub region: Region,
}

/// Whether a statement ends with a token, or begins after it.
fn ends_statement(text: &str) -> bool
    ensures { result ≡ ends_statement text.now }
{
    text == "" || text == ";" || text == "{" || text == "}"
}

/// How often a token stands before a place.
fn count_before(tokens: &[Token<'_>], at: u32, word: &str) -> usize
    ensures { result ≡ count_before at word.now (lexemes tokens.now) }
{
    tokens
        .iter()
        .filter(|token| token.place.offset < at && token.text == word)
        .count()
}

/// In which part of a program a place is.
fn region_at(tokens: &[Token<'_>], at: u32) -> Region
    ensures { result ≡ region_at at (lexemes tokens.now) }
{
    if count_before(tokens, at, "(") != count_before(tokens, at, ")") {
        Region::Brackets
    } else if count_before(tokens, at, "{") == count_before(tokens, at, "}") {
        Region::Outside
    } else {
        Region::Body
    }
}

impl<'a> Spot<'a> {
    /// What a token adds to what is known of the place, where those before it were looked at.
    fn after_token(self, token: &Token<'a>, at: u32) -> Self
        ensures { spot_of result ≡ after_token at (spot_of self.entry) (lexeme token.now) }
    {
        if token.place.offset < at {
            self.passed(token.text)
        } else {
            self.reached(token.text)
        }
    }

    /// What a token before the place adds.
    fn passed(self, text: &'a str) -> Self
        ensures { spot_of result ≡ passed (spot_of self.entry) text.now }
    {
        let start = if ends_statement(self.before) {
            text
        } else {
            self.start
        };
        Spot {
            start,
            second: self.before,
            before: text,
            ..self
        }
    }

    /// What a token at the place or behind it adds.
    fn reached(self, text: &'a str) -> Self
        ensures { spot_of result ≡ reached (spot_of self.entry) text.now }
    {
        if self.here == "" {
            Spot { here: text, ..self }
        } else if self.next == "" {
            Spot { next: text, ..self }
        } else {
            self
        }
    }

    /// The first token of the statement that the place is in; a statement may begin there.
    pub fn statement_start(&self) -> &'a str
        ensures { result.now ≡ statement_start (spot_of self.now) }
    {
        if ends_statement(self.before) {
            self.here
        } else {
            self.start
        }
    }
}

/// The tokens around the place behind so many bytes.
pub(crate) fn spot_around<'a>(tokens: &[Token<'a>], at: u32) -> Spot<'a>
    ensures { spot_of result ≡ spot_around at (lexemes tokens.now) }
{
    let mut spot = Spot {
        start: "",
        second: "",
        before: "",
        here: "",
        next: "",
        region: region_at(tokens, at),
    };
    for token in tokens {
        spot = spot.after_token(token, at);
    }
    spot
}
