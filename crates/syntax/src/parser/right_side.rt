ghost use Rattle.std.specs.Prelude.{◌≡◌, ◌≤◌, ◌<◌, List, OnOk, length, map};
ghost use Rattle.tokens.specs.Lexeme.{lexeme};
ghost use Rattle.syntax.specs.private.Machine.{ParserState, some_exprs, arguments as arguments_state, call_of};
ghost use Rattle.syntax.specs.private.Machine.{right_from, right as right_state, right_end as right_end_state};
ghost use Rattle.syntax.specs.private.ParserViews.{Leads};
ghost use Rattle.syntax.specs.Below.{call_tree, CallTree, expr_tree, ExprTree, right_tree, RightTree};

use super::{ParseFault, Parser};
use crate::{Call, Expr, RightSide, Sign, Token, TokenKind};

impl<'t> Parser<'t> {
    /// Expressions, each but the first after a comma, and the token that ends them.
    pub fn expressions(&mut self, end: TokenKind) -> Result<Vec<Expr>, ParseFault>
        ensures leads { (k : List ExprTree → ParserState)
            → Leads (some_exprs end k) (λ es. k (map expr_tree es.items)) result self.old self.new }
        ensures shorter { OnOk result (length self.new.rest.now < length self.old.rest.now) }
    {
        let mut expressions = Vec::new(self.alloc);
        'list: loop {
            expressions.push(self.expression(1)?)?;
            if !self.skips(TokenKind::Sign(Sign::Comma))? {
                break 'list;
            }
        }
        self.pass(end)?;
        Ok(expressions)
    }

    /// Arguments, after their opening bracket, and the closing one.
    fn arguments(&mut self) -> Result<Vec<Expr>, ParseFault>
        ensures leads { (k : List ExprTree → ParserState)
            → Leads (arguments_state k) (λ es. k (map expr_tree es.items)) result self.old self.new }
        ensures shorter { OnOk result (length self.new.rest.now < length self.old.rest.now) }
    {
        if self.skips(TokenKind::Sign(Sign::CloseRound))? {
            return Ok(Vec::new(self.alloc));
        }
        self.expressions(TokenKind::Sign(Sign::CloseRound))
    }

    /// A call, after its opening bracket.
    pub fn call(&mut self, name: Token<'t>) -> Result<Call, ParseFault>
        ensures leads { (k : CallTree → ParserState)
            → Leads (call_of (lexeme name.entry) k) (λ c. k (call_tree c)) result self.old self.new }
        ensures shorter { OnOk result (length self.new.rest.now < length self.old.rest.now) }
    {
        let arguments = self.arguments()?;
        let text = self.name(name)?;
        Ok(Call {
            place: name.place,
            name: text,
            arguments,
        })
    }

    /// A right side that begins with a name, after the name.
    fn right_side_from(&mut self, name: Token<'t>) -> Result<RightSide, ParseFault>
        ensures leads { (k : RightTree → ParserState)
            → Leads (right_from (lexeme name.entry) k) (λ r. k (right_tree r)) result self.old self.new }
        ensures shorter { OnOk result (length self.new.rest.now ≤ length self.old.rest.now) }
    {
        if self.skips(TokenKind::Sign(Sign::OpenRound))? {
            return Ok(RightSide::Call(self.call(name)?));
        }
        let first = self.named(name)?;
        Ok(RightSide::Value(self.further(1, first)?))
    }

    fn right_side(&mut self) -> Result<RightSide, ParseFault>
        ensures leads { (k : RightTree → ParserState)
            → Leads (right_state k) (λ r. k (right_tree r)) result self.old self.new }
        ensures shorter { OnOk result (length self.new.rest.now < length self.old.rest.now) }
    {
        match self.takes(TokenKind::Name)? {
            Some(name) => self.right_side_from(name),
            None => Ok(RightSide::Value(self.expression(1)?)),
        }
    }

    /// A right side, after its `=`, and the semicolon.
    pub fn right_end(&mut self) -> Result<RightSide, ParseFault>
        ensures leads { (k : RightTree → ParserState)
            → Leads (right_end_state k) (λ r. k (right_tree r)) result self.old self.new }
        ensures shorter { OnOk result (length self.new.rest.now < length self.old.rest.now) }
    {
        let right_side = self.right_side()?;
        self.pass(TokenKind::Sign(Sign::Semicolon))?;
        Ok(right_side)
    }
}
