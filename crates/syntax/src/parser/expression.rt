ghost use Rattle.std.specs.Prelude.{◌≡◌, ◌≤◌, ◌<◌, ℕ, IfOk, IfErr, OnOk, OnSome, length};
ghost use Rattle.tokens.specs.Lexeme.{lexeme};
ghost use Rattle.syntax.specs.private.Machine.{ParserState, expr, more, operand as operand_state, named as named_state};
ghost use Rattle.syntax.specs.private.Machine.{linked, link_level, after_select, converted, ended};
ghost use Rattle.syntax.specs.private.ParserViews.{Leads, after_sign};
ghost use Rattle.syntax.specs.Below.{binary as binary_tree, convert as convert_tree, element as element_tree};
ghost use Rattle.syntax.specs.Below.{expr_tree, ExprTree, name as name_tree, prefix as prefix_tree};
ghost use Rattle.syntax.specs.Below.{rotate as rotate_tree};

use super::step::unexpected;
use super::{ParseFault, Parser};
use crate::{BinaryOperator, Expr, Kind, Place, PrefixOperator, Sign, Token, TokenKind};
use tokens::{
    Link, OPERAND_LEVEL, OperandStart, PREFIX_LEVEL, begins_of, level_of, link_of, suffix_kind,
};

/// A sign between operands, and where it stands.
#[derive(Clone, Copy)]
struct Joint {
    link: Link,
    place: Place,
}

impl<'t> Parser<'t> {
    /// An expression that is a part of another.
    fn boxed(&self, part: Expr) -> Result<Box<Expr>, ParseFault>
        ensures same { IfOk result (λ b. b.value ≡ part) }
        ensures memory { IfErr result (λ f. f ≡ ParseFault.Memory) }
    {
        Ok(Box::new(self.alloc, part)?)
    }

    fn prefix(
        &self,
        place: Place,
        operator: PrefixOperator,
        operand: Expr,
    ) -> Result<Expr, ParseFault>
        ensures tree { IfOk result (λ e. expr_tree e ≡ prefix_tree place operator (expr_tree operand)) }
        ensures memory { IfErr result (λ f. f ≡ ParseFault.Memory) }
    {
        let operand = self.boxed(operand)?;
        Ok(Expr::Prefix(place, operator, operand))
    }

    fn binary(
        &self,
        place: Place,
        operator: BinaryOperator,
        left: Expr,
        right: Expr,
    ) -> Result<Expr, ParseFault>
        ensures tree { IfOk result (λ e. expr_tree e
            ≡ binary_tree place operator (expr_tree left) (expr_tree right)) }
        ensures memory { IfErr result (λ f. f ≡ ParseFault.Memory) }
    {
        let left = self.boxed(left)?;
        let right = self.boxed(right)?;
        Ok(Expr::Binary(place, operator, left, right))
    }

    fn rotate(&self, place: Place, operand: Expr, amount: u32) -> Result<Expr, ParseFault>
        ensures tree { IfOk result (λ e. expr_tree e ≡ rotate_tree place (expr_tree operand) amount) }
        ensures memory { IfErr result (λ f. f ≡ ParseFault.Memory) }
    {
        let operand = self.boxed(operand)?;
        Ok(Expr::Rotate(place, operand, amount))
    }

    fn convert(&self, place: Place, kind: Kind, operand: Expr) -> Result<Expr, ParseFault>
        ensures tree { IfOk result (λ e. expr_tree e ≡ convert_tree place kind (expr_tree operand)) }
        ensures memory { IfErr result (λ f. f ≡ ParseFault.Memory) }
    {
        let operand = self.boxed(operand)?;
        Ok(Expr::Convert(place, kind, operand))
    }

    fn variable(&self, name: Token<'t>) -> Result<Expr, ParseFault>
        ensures tree { IfOk result (λ e. expr_tree e ≡ name_tree name.entry.place name.entry.text.now) }
        ensures memory { IfErr result (λ f. f ≡ ParseFault.Memory) }
    {
        let text = self.name(name)?;
        Ok(Expr::Name(name.place, text))
    }

    fn element(&self, place: Place, array: Token<'t>, index: Expr) -> Result<Expr, ParseFault>
        ensures tree { IfOk result (λ e. expr_tree e
            ≡ element_tree place array.entry.place array.entry.text.now (expr_tree index)) }
        ensures memory { IfErr result (λ f. f ≡ ParseFault.Memory) }
    {
        let name = self.name(array)?;
        let index = self.boxed(index)?;
        Ok(Expr::Element(place, array.place, name, index))
    }

    /// An expression in which no sign between operands, outside all brackets, binds below the
    /// level.
    #[cycle(expression)]
    pub fn expression(&mut self, level: u8) -> Result<Expr, ParseFault>
        ensures leads { (k : ExprTree → ParserState)
            → Leads (expr level k) (λ e. k (expr_tree e)) result self.old self.new }
        ensures shorter { OnOk result (length self.new.rest.now < length self.old.rest.now) }
    {
        let first = self.operand()?;
        self.further(level, first)
    }

    /// What stands after the first operand of an expression.
    #[cycle(expression)]
    pub fn further(&mut self, level: u8, first: Expr) -> Result<Expr, ParseFault>
        ensures leads { (k : ExprTree → ParserState)
            → Leads (more level OPERAND_LEVEL (expr_tree first) k) (λ e. k (expr_tree e)) result self.old self.new }
        ensures shorter { OnOk result (length self.new.rest.now ≤ length self.old.rest.now) }
    {
        let mut left = first;
        let mut top = OPERAND_LEVEL;
        while let Some(joint) = self.sign(level, top)? {
            top = joint.link.level();
            left = self.joined(joint, left)?;
        }
        Ok(left)
    }

    /// Takes the sign that stands next, where it may follow the operand.
    fn sign(&mut self, level: u8, top: u8) -> Result<Option<Joint>, ParseFault>
        ensures leads { (left : ExprTree) (k : ExprTree → ParserState)
            → Leads (more level top left k) (after_sign level left k) result self.old self.new }
        ensures shorter { IfOk result (λ j. OnSome j (length self.new.rest.now < length self.old.rest.now)) }
        ensures same { OnOk result (length self.new.rest.now ≤ length self.old.rest.now) }
    {
        let Ok((token, rest)) = self.first() else {
            return Ok(None);
        };
        let Some(link) = link_of(token.kind) else {
            return Ok(None);
        };
        if link.level() < level || top < link.left_level() {
            return Ok(None);
        }
        self.advance(token, rest)?;
        Ok(Some(Joint {
            link,
            place: token.place,
        }))
    }

    /// What stands after a sign between operands.
    #[cycle(expression)]
    fn joined(&mut self, joint: Joint, left: Expr) -> Result<Expr, ParseFault>
        ensures leads { (level : ℕ) (k : ExprTree → ParserState)
            → Leads (linked joint.link joint.place level (expr_tree left) k)
            (λ e. more level (link_level joint.link) (expr_tree e) k) result self.old self.new }
        ensures shorter { OnOk result (length self.new.rest.now ≤ length self.old.rest.now) }
    {
        match joint.link {
            Link::Operator(operator) => {
                let right = self.expression(level_of(operator) + 1)?;
                self.binary(joint.place, operator, left, right)
            }
            Link::Rotation => {
                let amount = self.amount()?;
                self.rotate(joint.place, left, amount)
            }
        }
    }

    #[cycle(expression)]
    fn operand(&mut self) -> Result<Expr, ParseFault>
        ensures leads { (level : ℕ) (k : ExprTree → ParserState)
            → Leads (expr level k) (λ e. more level OPERAND_LEVEL (expr_tree e) k) result self.old self.new }
        ensures shorter { OnOk result (length self.new.rest.now < length self.old.rest.now) }
    {
        let (token, rest) = self.first()?;
        let Some(begins) = begins_of(token.kind) else {
            return Err(unexpected(token));
        };
        self.advance(token, rest)?;
        self.operand_from(begins, token)
    }

    /// An operand, after its first token.
    #[cycle(expression)]
    fn operand_from(&mut self, begins: OperandStart, token: Token<'t>) -> Result<Expr, ParseFault>
        ensures leads { (k : ExprTree → ParserState)
            → Leads (operand_state begins (lexeme token.entry) k) (λ e. k (expr_tree e)) result self.old self.new }
        ensures shorter { OnOk result (length self.new.rest.now ≤ length self.old.rest.now) }
    {
        match begins {
            OperandStart::Number(value, suffix) => Ok(Expr::Number(
                token.place,
                value,
                suffix_kind(suffix),
            )),
            OperandStart::Truth(value) => Ok(Expr::Truth(token.place, value)),
            OperandStart::Name => self.named(token),
            OperandStart::Bracket => self.expression_to(TokenKind::Sign(Sign::CloseRound)),
            OperandStart::Prefix(operator) => {
                let operand = self.expression(PREFIX_LEVEL)?;
                self.prefix(token.place, operator, operand)
            }
            OperandStart::Conversion(kind) => self.conversion(token.place, kind),
            OperandStart::Select => self.select(token.place),
        }
    }

    /// A name's value, or an element's, after the name.
    #[cycle(expression)]
    pub fn named(&mut self, name: Token<'t>) -> Result<Expr, ParseFault>
        ensures leads { (k : ExprTree → ParserState)
            → Leads (named_state (lexeme name.entry) k) (λ e. k (expr_tree e)) result self.old self.new }
        ensures shorter { OnOk result (length self.new.rest.now ≤ length self.old.rest.now) }
    {
        match self.takes(TokenKind::Sign(Sign::OpenSquare))? {
            None => self.variable(name),
            Some(opening) => {
                let index = self.expression_to(TokenKind::Sign(Sign::CloseSquare))?;
                self.element(opening.place, name, index)
            }
        }
    }

    /// An expression, and the token that ends it.
    #[cycle(expression)]
    pub fn expression_to(&mut self, end: TokenKind) -> Result<Expr, ParseFault>
        ensures leads { (k : ExprTree → ParserState)
            → Leads (ended end k) (λ e. k (expr_tree e)) result self.old self.new }
        ensures shorter { OnOk result (length self.new.rest.now < length self.old.rest.now) }
    {
        let expression = self.expression(1)?;
        self.pass(end)?;
        Ok(expression)
    }

    /// An expression that is a part of another, and the token that ends it.
    #[cycle(expression)]
    fn part_to(&mut self, end: TokenKind) -> Result<Box<Expr>, ParseFault>
        ensures leads { (k : ExprTree → ParserState)
            → Leads (ended end k) (λ b. k (expr_tree b.value)) result self.old self.new }
        ensures shorter { OnOk result (length self.new.rest.now < length self.old.rest.now) }
    {
        let part = self.expression_to(end)?;
        self.boxed(part)
    }

    /// A conversion, after its keyword.
    #[cycle(expression)]
    fn conversion(&mut self, place: Place, kind: Kind) -> Result<Expr, ParseFault>
        ensures leads { (k : ExprTree → ParserState)
            → Leads (converted place kind k) (λ e. k (expr_tree e)) result self.old self.new }
        ensures shorter { OnOk result (length self.new.rest.now ≤ length self.old.rest.now) }
    {
        self.pass(TokenKind::Sign(Sign::OpenRound))?;
        let operand = self.expression_to(TokenKind::Sign(Sign::CloseRound))?;
        self.convert(place, kind, operand)
    }

    /// A `select`, after its keyword.
    #[cycle(expression)]
    fn select(&mut self, place: Place) -> Result<Expr, ParseFault>
        ensures leads { (k : ExprTree → ParserState)
            → Leads (after_select place k) (λ e. k (expr_tree e)) result self.old self.new }
        ensures shorter { OnOk result (length self.new.rest.now ≤ length self.old.rest.now) }
    {
        self.pass(TokenKind::Sign(Sign::OpenRound))?;
        let condition = self.part_to(TokenKind::Sign(Sign::Comma))?;
        let accepted = self.part_to(TokenKind::Sign(Sign::Comma))?;
        let otherwise = self.part_to(TokenKind::Sign(Sign::CloseRound))?;
        Ok(Expr::Select(place, condition, accepted, otherwise))
    }
}
