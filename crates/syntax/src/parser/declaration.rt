ghost use Rattle.std.specs.Prelude.{◌≡◌, ◌≤◌, ◌<◌, List, Option, OnOk, length, map};
ghost use Rattle.std.specs.Option.{option_map};
ghost use Rattle.tokens.specs.Lexeme.{lexeme};
ghost use Rattle.syntax.specs.private.Machine.{ParserState, first_values, declared_array, declared_word, declared_as};
ghost use Rattle.syntax.specs.private.Machine.{declared as declared_state, assigned, element_assigned, called_alone};
ghost use Rattle.syntax.specs.private.Machine.{targeted as targeted_state, unassigned};
ghost use Rattle.syntax.specs.private.ParserViews.{Leads};
ghost use Rattle.syntax.specs.Below.{expr_tree, ExprTree, statement_tree, StatementTree};

use super::{ParseFault, Parser};
use crate::{
    ArrayDeclaration, Assignment, Declaration, ElementAssignment, Expr, Keyword, Kind, Label,
    Place, Sign, Statement, Token, TokenKind,
};

impl<'t> Parser<'t> {
    /// The first values of an array, where they are written.
    fn first_values(&mut self) -> Result<Option<Vec<Expr>>, ParseFault>
        ensures leads { (k : Option (List ExprTree) → ParserState)
            → Leads (first_values k) (λ vs. k (option_map (λ values. map expr_tree values.items) vs))
            result self.old self.new }
        ensures shorter { OnOk result (length self.new.rest.now ≤ length self.old.rest.now) }
    {
        if !self.skips(TokenKind::Sign(Sign::Assign))? {
            return Ok(None);
        }
        self.pass(TokenKind::Sign(Sign::OpenCurly))?;
        let values = self.expressions(TokenKind::Sign(Sign::CloseCurly))?;
        Ok(Some(values))
    }

    /// A declaration of an array, after its type.
    fn declared_array(
        &mut self,
        label: Label,
        mutable: bool,
        kind: Kind,
        words: u16,
    ) -> Result<Statement, ParseFault>
        ensures leads { (k : StatementTree → ParserState)
            → Leads (declared_array label mutable kind words k) (λ s. k (statement_tree s)) result self.old self.new }
        ensures shorter { OnOk result (length self.new.rest.now ≤ length self.old.rest.now) }
    {
        let token = self.expect(TokenKind::Name)?;
        let name = self.name(token)?;
        let values = self.first_values()?;
        self.pass(TokenKind::Sign(Sign::Semicolon))?;
        Ok(Statement::DeclareArray(ArrayDeclaration {
            label,
            mutable,
            kind,
            length: words,
            place: token.place,
            name,
            values,
        }))
    }

    /// A declaration of a word, after its type.
    fn declared_word(
        &mut self,
        label: Label,
        mutable: bool,
        kind: Kind,
    ) -> Result<Statement, ParseFault>
        ensures leads { (k : StatementTree → ParserState)
            → Leads (declared_word label mutable kind k) (λ s. k (statement_tree s)) result self.old self.new }
        ensures shorter { OnOk result (length self.new.rest.now ≤ length self.old.rest.now) }
    {
        let token = self.expect(TokenKind::Name)?;
        let name = self.name(token)?;
        self.pass(TokenKind::Sign(Sign::Assign))?;
        let value = self.right_end()?;
        Ok(Statement::Declare(Declaration {
            label,
            mutable,
            kind,
            place: token.place,
            name,
            value,
        }))
    }

    /// A declaration, after its label and `mut`.
    fn declared_as(&mut self, label: Label, mutable: bool) -> Result<Statement, ParseFault>
        ensures leads { (k : StatementTree → ParserState)
            → Leads (declared_as label mutable k) (λ s. k (statement_tree s)) result self.old self.new }
        ensures shorter { OnOk result (length self.new.rest.now ≤ length self.old.rest.now) }
    {
        let kind = self.kind()?;
        if self.skips(TokenKind::Sign(Sign::OpenSquare))? {
            let length = self.length()?;
            return self.declared_array(label, mutable, kind, length);
        }
        self.declared_word(label, mutable, kind)
    }

    /// A declaration, after its label.
    pub fn declared(&mut self, label: Label) -> Result<Statement, ParseFault>
        ensures leads { (k : StatementTree → ParserState)
            → Leads (declared_state label k) (λ s. k (statement_tree s)) result self.old self.new }
        ensures shorter { OnOk result (length self.new.rest.now ≤ length self.old.rest.now) }
    {
        let mutable = self.skips(TokenKind::Keyword(Keyword::Mut))?;
        self.declared_as(label, mutable)
    }

    /// An assignment, after its name and `=`.
    fn assigned(&mut self, token: Token<'t>, place: Place) -> Result<Statement, ParseFault>
        ensures leads { (k : StatementTree → ParserState)
            → Leads (assigned (lexeme token.entry) place k) (λ s. k (statement_tree s)) result self.old self.new }
        ensures shorter { OnOk result (length self.new.rest.now ≤ length self.old.rest.now) }
    {
        let name = self.name(token)?;
        let value = self.right_end()?;
        Ok(Statement::Assign(Assignment {
            place,
            target: token.place,
            name,
            value,
        }))
    }

    /// An assignment to an element, after its name and `[`.
    fn element_assigned(
        &mut self,
        token: Token<'t>,
        bracket: Place,
    ) -> Result<Statement, ParseFault>
        ensures leads { (k : StatementTree → ParserState)
            → Leads (element_assigned (lexeme token.entry) bracket k) (λ s. k (statement_tree s))
            result self.old self.new }
        ensures shorter { OnOk result (length self.new.rest.now ≤ length self.old.rest.now) }
    {
        let name = self.name(token)?;
        let index = self.expression_to(TokenKind::Sign(Sign::CloseSquare))?;
        let sign = self.expect(TokenKind::Sign(Sign::Assign))?;
        let value = self.right_end()?;
        Ok(Statement::AssignElement(ElementAssignment {
            place: sign.place,
            bracket,
            target: token.place,
            name,
            index,
            value,
        }))
    }

    /// A call as a statement, after its name.
    fn called_alone(&mut self, name: Token<'t>) -> Result<Statement, ParseFault>
        ensures leads { (k : StatementTree → ParserState)
            → Leads (called_alone (lexeme name.entry) k) (λ s. k (statement_tree s)) result self.old self.new }
        ensures shorter { OnOk result (length self.new.rest.now ≤ length self.old.rest.now) }
    {
        self.pass(TokenKind::Sign(Sign::OpenRound))?;
        let call = self.call(name)?;
        self.pass(TokenKind::Sign(Sign::Semicolon))?;
        Ok(Statement::Call(call))
    }

    /// A statement that begins with a name, after the name.
    pub fn targeted(&mut self, name: Token<'t>) -> Result<Statement, ParseFault>
        ensures leads { (k : StatementTree → ParserState)
            → Leads (targeted_state (lexeme name.entry) k) (λ s. k (statement_tree s)) result self.old self.new }
        ensures shorter { OnOk result (length self.new.rest.now ≤ length self.old.rest.now) }
    {
        match self.takes(TokenKind::Sign(Sign::Assign))? {
            Some(sign) => self.assigned(name, sign.place),
            None => self.unassigned(name),
        }
    }

    /// A statement that begins with a name and is no assignment to it, after the name.
    fn unassigned(&mut self, name: Token<'t>) -> Result<Statement, ParseFault>
        ensures leads { (k : StatementTree → ParserState)
            → Leads (unassigned (lexeme name.entry) k) (λ s. k (statement_tree s)) result self.old self.new }
        ensures shorter { OnOk result (length self.new.rest.now ≤ length self.old.rest.now) }
    {
        match self.takes(TokenKind::Sign(Sign::OpenSquare))? {
            Some(opening) => self.element_assigned(name, opening.place),
            None => self.called_alone(name),
        }
    }
}
