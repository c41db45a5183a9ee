ghost use Rattle.std.specs.Prelude.{◌≡◌, ◌≤◌, ◌<◌, IfOk, IfErr, OnOk, OnSome, length, [], ◌∷◌};
ghost use Rattle.tokens.specs.Lexeme.{Lexeme, lexeme};
ghost use Rattle.syntax.specs.private.Machine.{ParserState, starts_with, statements as statements_state};
ghost use Rattle.syntax.specs.private.Machine.{statement as statement_state, conditioned, counter as counter_state};
ghost use Rattle.syntax.specs.private.Machine.{looped, block as block_state, otherwise as otherwise_state};
ghost use Rattle.syntax.specs.private.Machine.{after_else};
ghost use Rattle.syntax.specs.private.ParserViews.{Leads, after_start};
ghost use Rattle.syntax.specs.Below.{block_tree, BlockTree, statement_tree, StatementTree};

use super::step::label_of;
use super::{ParseFault, Parser};
use crate::{Counter, Keyword, Label, Place, Sign, Statement, Token, TokenKind};

/// How a statement begins.
#[derive(Clone, Copy)]
pub enum Start {
    Declaration(Label),
    Target,
    Conditional,
    Loop,
}

/// A statement of which the first token is taken.
#[derive(Clone, Copy)]
struct BegunStatement<'t> {
    start: Start,
    token: Token<'t>,
}

/// How a statement that begins with such a token begins.
fn starts_with(kind: TokenKind) -> Option<Start>
    ensures { result ≡ starts_with kind }
{
    match kind {
        TokenKind::Name => Some(Start::Target),
        TokenKind::Keyword(Keyword::If) => Some(Start::Conditional),
        TokenKind::Keyword(Keyword::For) => Some(Start::Loop),
        _ => label_of(kind).map(Start::Declaration),
    }
}

impl<'t> Parser<'t> {
    /// A block of one statement.
    fn alone(&self, statement: Statement) -> Result<Vec<Statement>, ParseFault>
        ensures items { IfOk result (λ ss. ss.items ≡ statement ∷ []) }
        ensures memory { IfErr result (λ f. f ≡ ParseFault.Memory) }
    {
        let mut statements = Vec::new(self.alloc);
        statements.push(statement)?;
        Ok(statements)
    }

    /// Statements, up to a token that begins none.
    #[cycle(statement)]
    pub fn statements(&mut self) -> Result<Vec<Statement>, ParseFault>
        ensures leads { (k : BlockTree → ParserState)
            → Leads (statements_state k) (λ ss. k (block_tree ss.items)) result self.old self.new }
        ensures shorter { OnOk result (length self.new.rest.now ≤ length self.old.rest.now) }
    {
        let mut statements = Vec::new(self.alloc);
        while let Some(begun) = self.start()? {
            statements.push(self.statement(begun)?)?;
        }
        Ok(statements)
    }

    /// Takes the token that stands next, where it begins a statement.
    fn start(&mut self) -> Result<Option<BegunStatement<'t>>, ParseFault>
        ensures leads { (k : BlockTree → ParserState)
            → Leads (statements_state k) (after_start k) result self.old self.new }
        ensures shorter { IfOk result (λ b. OnSome b (length self.new.rest.now < length self.old.rest.now)) }
        ensures same { OnOk result (length self.new.rest.now ≤ length self.old.rest.now) }
    {
        let Ok((token, rest)) = self.first() else {
            return Ok(None);
        };
        let Some(start) = starts_with(token.kind) else {
            return Ok(None);
        };
        self.advance(token, rest)?;
        Ok(Some(BegunStatement { start, token }))
    }

    /// A statement, after its first token.
    #[cycle(statement)]
    fn statement(&mut self, begun: BegunStatement<'t>) -> Result<Statement, ParseFault>
        ensures leads { (k : StatementTree → ParserState)
            → Leads (statement_state begun.entry.start (lexeme begun.entry.token) k) (λ s. k (statement_tree s))
            result self.old self.new }
        ensures shorter { OnOk result (length self.new.rest.now ≤ length self.old.rest.now) }
    {
        match begun.start {
            Start::Declaration(label) => self.declared(label),
            Start::Target => self.targeted(begun.token),
            Start::Conditional => self.conditional(begun.token.place),
            Start::Loop => self.counted(begun.token.place),
        }
    }

    /// A conditional, after its keyword.
    #[cycle(statement)]
    fn conditional(&mut self, place: Place) -> Result<Statement, ParseFault>
        ensures leads { (k : StatementTree → ParserState)
            → Leads (conditioned place k) (λ s. k (statement_tree s)) result self.old self.new }
        ensures shorter { OnOk result (length self.new.rest.now ≤ length self.old.rest.now) }
    {
        self.pass(TokenKind::Sign(Sign::OpenRound))?;
        let condition = self.expression_to(TokenKind::Sign(Sign::CloseRound))?;
        let accepted = self.block()?;
        let otherwise = self.otherwise()?;
        Ok(Statement::If(place, condition, accepted, otherwise))
    }

    /// The counter of a loop, after its keyword, and the word before its first number.
    fn counter(&mut self) -> Result<Token<'t>, ParseFault>
        ensures leads { (k : Lexeme → ParserState)
            → Leads (counter_state k) (λ t. k (lexeme t)) result self.old self.new }
        ensures shorter { OnOk result (length self.new.rest.now < length self.old.rest.now) }
    {
        self.pass(TokenKind::Sign(Sign::OpenRound))?;
        self.pass(TokenKind::Keyword(Keyword::Uint32))?;
        let name = self.expect(TokenKind::Name)?;
        self.pass(TokenKind::Keyword(Keyword::From))?;
        Ok(name)
    }

    /// The counter that a token names.
    fn counter_named(&self, token: Token<'t>) -> Result<Counter, ParseFault>
        ensures place { IfOk result (λ counter. counter.place ≡ token.entry.place) }
        ensures name { IfOk result (λ counter. counter.name ≡ token.entry.text.now) }
        ensures memory { IfErr result (λ f. f ≡ ParseFault.Memory) }
    {
        let name = self.name(token)?;
        Ok(Counter {
            place: token.place,
            name,
        })
    }

    /// A loop, after its keyword.
    #[cycle(statement)]
    fn counted(&mut self, place: Place) -> Result<Statement, ParseFault>
        ensures leads { (k : StatementTree → ParserState)
            → Leads (looped place k) (λ s. k (statement_tree s)) result self.old self.new }
        ensures shorter { OnOk result (length self.new.rest.now ≤ length self.old.rest.now) }
    {
        let name = self.counter()?;
        let low = self.expression_to(TokenKind::Keyword(Keyword::To))?;
        let high = self.expression_to(TokenKind::Sign(Sign::CloseRound))?;
        let body = self.block()?;
        let counter = self.counter_named(name)?;
        Ok(Statement::For(place, counter, low, high, body))
    }

    /// Statements in curly brackets.
    #[cycle(statement)]
    fn block(&mut self) -> Result<Vec<Statement>, ParseFault>
        ensures leads { (k : BlockTree → ParserState)
            → Leads (block_state k) (λ ss. k (block_tree ss.items)) result self.old self.new }
        ensures shorter { OnOk result (length self.new.rest.now < length self.old.rest.now) }
    {
        self.pass(TokenKind::Sign(Sign::OpenCurly))?;
        let statements = self.statements()?;
        self.pass(TokenKind::Sign(Sign::CloseCurly))?;
        Ok(statements)
    }

    /// The second arm, where there is one.
    #[cycle(statement)]
    fn otherwise(&mut self) -> Result<Vec<Statement>, ParseFault>
        ensures leads { (k : BlockTree → ParserState)
            → Leads (otherwise_state k) (λ ss. k (block_tree ss.items)) result self.old self.new }
        ensures shorter { OnOk result (length self.new.rest.now ≤ length self.old.rest.now) }
    {
        if self.skips(TokenKind::Keyword(Keyword::Else))? {
            return self.after_else();
        }
        Ok(Vec::new(self.alloc))
    }

    /// What stands after `else`: one more conditional, or a block.
    #[cycle(statement)]
    fn after_else(&mut self) -> Result<Vec<Statement>, ParseFault>
        ensures leads { (k : BlockTree → ParserState)
            → Leads (after_else k) (λ ss. k (block_tree ss.items)) result self.old self.new }
        ensures shorter { OnOk result (length self.new.rest.now ≤ length self.old.rest.now) }
    {
        match self.takes(TokenKind::Keyword(Keyword::If))? {
            Some(word) => {
                let conditional = self.conditional(word.place)?;
                self.alone(conditional)
            }
            None => self.block(),
        }
    }
}
