// Names and the expressions over them, with numbers in place of the names.

ghost use Rattle.std.specs.Prelude.{◌≡◌, ◌++◌, ◌∷◌, [], false, length, map, IfOk, OnOk};
ghost use Rattle.std.specs.Option.{option_map};
ghost use Rattle.inline.specs.Flat as flat;
ghost use Rattle.inline.specs.Flat.{array_as, counter_type, declaration_of, flat_tree, term_tree, word_as};
ghost use Rattle.inline.specs.Numbering as numbered;
ghost use Rattle.inline.specs.Below.{expr_tree, joined, labelled, parameter_tree, return_tree, written};

use crate::typed::{binary, element, prefix, rotate, select};
use crate::{FlatStatement, FlatVariable, Term};
use language::names::Names;
use language::{ArrayDeclaration, Expr, Kind, Label, Name, Param, Parameter, Return, WordType};
use std::alloc::{AllocError, Global};

/// What a name stands for: a variable's number, and what it is declared as.
#[derive(Clone, Copy)]
pub struct Numbered {
    pub number: u32,
    pub declaration: FlatVariable,
}

/// The label of what two operands make: secret where one of them is.
fn joined(one: Label, other: Label) -> Label
    ensures { result ≡ joined one other }
{
    match one {
        Label::Public => other,
        Label::Secret => Label::Secret,
    }
}

/// The counter of a loop, or an index that is held.
pub(crate) fn counter() -> FlatVariable
    ensures { result ≡ word_as counter_type false }
{
    let word = WordType {
        kind: Kind::Uint32,
        label: Label::Public,
    };
    FlatVariable::word(word, false)
}

/// Declares a variable. It gets the number that those before it are many; where no number is left, memory would not
/// hold the variables either.
pub fn add(declared: &mut Vec<FlatVariable>, declaration: FlatVariable) -> Result<u32, AllocError>
    ensures number { IfOk result (λ number. number ≡ length declared.old.items) }
    ensures declared { OnOk result (declared.new.items ≡ declared.old.items ++ declaration ∷ []) }
{
    let Ok(number) = u32::try_from(declared.len()) else {
        return Err(AllocError);
    };
    declared.push(declaration)?;
    Ok(number)
}

/// The numbers of the names in the scope of one body. All variables that have been declared, those of other bodies
/// among them, are handed along.
#[derive(Drop)]
pub struct Numbering<'a> {
    pub(crate) alloc: Global,
    pub(crate) names: Names<'a, Numbered>,
}

impl<'a> Numbering<'a> {
    /// No names yet.
    pub fn new(alloc: Global) -> Self
        ensures { result.names ≡ [] }
    {
        Numbering {
            alloc,
            names: Names::new(alloc),
        }
    }

    /// Gives a name the next number.
    pub(crate) fn declare(
        &mut self,
        name: &'a Name,
        declaration: FlatVariable,
        declared: &mut Vec<FlatVariable>,
    ) -> Result<u32, AllocError>
        ensures number { IfOk result (λ number. number ≡ length declared.old.items) }
        ensures names { OnOk result (self.new.names
            ≡ numbered.naming self.old.names name.now (length declared.old.items) declaration) }
        ensures declared { OnOk result (declared.new.items ≡ declared.old.items ++ declaration ∷ []) }
    {
        let number = add(declared, declaration)?;
        self.names.declare(
            name.as_str(),
            Numbered {
                number,
                declaration,
            },
        )?;
        Ok(number)
    }

    /// The parameters without their names, each of which gets a number.
    pub fn parameters(
        &mut self,
        parameters: &'a [Parameter],
        declared: &mut Vec<FlatVariable>,
    ) -> Result<Vec<Param>, AllocError>
        ensures params { IfOk result (λ params.
            params.items ≡ map numbered.param_of (map parameter_tree parameters.now)) }
        ensures names { OnOk result (self.new.names
            ≡ numbered.with_parameters self.old.names (length declared.old.items) (map parameter_tree parameters.now)) }
        ensures declared { OnOk result (declared.new.items
            ≡ declared.old.items ++ map declaration_of (map numbered.param_of (map parameter_tree parameters.now))) }
    {
        let mut params = Vec::new(self.alloc);
        for parameter in parameters {
            let param = parameter.param();
            self.declare(&parameter.name, FlatVariable::parameter(param), declared)?;
            params.push(param)?;
        }
        Ok(params)
    }

    /// What a name stands for. Each name is declared in a program that violates no rule.
    pub(crate) fn numbered(&self, name: &Name) -> Numbered
        ensures { result ≡ numbered.numbered self.now.names name.now }
    {
        let nothing = Numbered {
            number: 0,
            declaration: counter(),
        };
        self.names.find(name.as_str()).unwrap_or(nothing)
    }

    /// The label of an expression: secret where one of its operands is.
    pub(crate) fn label(&self, expr: &Expr) -> Label
        ensures { result ≡ numbered.label_in self.now.names (expr_tree expr.now) }
    {
        match expr {
            Expr::Number(_, _, _) => Label::Public,
            Expr::Truth(_, _) => Label::Public,
            Expr::Name(_, text) => self.numbered(text).declaration.word.label,
            Expr::Prefix(_, _, operand) => self.label(operand),
            Expr::Binary(_, _, left, right) => joined(self.label(left), self.label(right)),
            Expr::Rotate(_, operand, _) => self.label(operand),
            Expr::Convert(_, _, operand) => self.label(operand),
            Expr::Select(_, condition, accepted, otherwise) => {
                let chosen = joined(self.label(accepted), self.label(otherwise));
                joined(self.label(condition), chosen)
            }
            Expr::Element(_, _, text, _) => self.numbered(text).declaration.word.label,
        }
    }

    /// An expression with numbers in place of names, and its kind.
    fn typed(&self, expr: &Expr) -> Result<(Term, Kind), AllocError>
        ensures term { IfOk result (λ whole. term_tree whole.0 ≡ numbered.term self.now.names (expr_tree expr.now)) }
        ensures kind { IfOk result (λ whole. whole.1 ≡ numbered.kind_in self.now.names (expr_tree expr.now)) }
    {
        let alloc = self.alloc;
        match expr {
            Expr::Number(_, value, kind) => Ok((Term::Number(*value, *kind), *kind)),
            Expr::Truth(_, value) => Ok((Term::Truth(*value), Kind::Boolean)),
            Expr::Name(_, text) => {
                let Numbered {
                    number,
                    declaration,
                } = self.numbered(text);
                Ok((Term::Variable(number), declaration.word.kind))
            }
            Expr::Prefix(_, operator, operand) => prefix(alloc, *operator, self.typed(operand)?),
            Expr::Binary(place, operator, left, right) => {
                let left = self.typed(left)?;
                let (right, _) = self.typed(right)?;
                binary(alloc, *place, *operator, left, right)
            }
            Expr::Rotate(_, operand, amount) => rotate(alloc, self.typed(operand)?, *amount),
            Expr::Convert(_, kind, operand) => {
                let (operand, _) = self.typed(operand)?;
                Ok((Term::Convert(*kind, Box::new(alloc, operand)?), *kind))
            }
            Expr::Select(_, condition, accepted, otherwise) => {
                let (condition, _) = self.typed(condition)?;
                let accepted = self.typed(accepted)?;
                let (otherwise, _) = self.typed(otherwise)?;
                select(alloc, condition, accepted, otherwise)
            }
            Expr::Element(place, _, text, index) => {
                let (index, _) = self.typed(index)?;
                element(alloc, *place, self.numbered(text), index)
            }
        }
    }

    /// An expression with numbers in place of names.
    pub(crate) fn term(&self, expr: &Expr) -> Result<Term, AllocError>
        ensures { IfOk result (λ whole. term_tree whole ≡ numbered.term self.now.names (expr_tree expr.now)) }
    {
        Ok(self.typed(expr)?.0)
    }

    /// Expressions with numbers in place of names.
    fn terms(&self, exprs: &[Expr]) -> Result<Vec<Term>, AllocError>
        ensures { IfOk result (λ terms.
            map term_tree terms.items ≡ map (numbered.term self.now.names) (map expr_tree exprs.now)) }
    {
        let mut terms = Vec::new(self.alloc);
        for expr in exprs {
            terms.push(self.term(expr)?)?;
        }
        Ok(terms)
    }

    /// A declaration of an array. Its first values are numbered before its name is declared.
    pub(crate) fn array(
        &mut self,
        array: &'a ArrayDeclaration,
        declared: &mut Vec<FlatVariable>,
    ) -> Result<FlatStatement, AllocError>
        ensures statement { IfOk result (λ whole. flat_tree whole
            ≡ flat.array (length declared.old.items) (labelled array.now.kind array.now.label) array.now.mutable
            array.now.length
            (map (numbered.term self.old.names)
            (written (option_map (λ values. map expr_tree values.items) array.now.values)))) }
        ensures names { OnOk result (self.new.names
            ≡ numbered.naming self.old.names array.now.name (length declared.old.items)
            (array_as (labelled array.now.kind array.now.label) array.now.mutable array.now.length)) }
        ensures declared { OnOk result (declared.new.items ≡ declared.old.items
            ++ array_as (labelled array.now.kind array.now.label) array.now.mutable array.now.length ∷ []) }
    {
        let values = match &array.values {
            Some(values) => self.terms(values)?,
            None => Vec::new(self.alloc),
        };
        let word = WordType {
            kind: array.kind,
            label: array.label,
        };
        let size = u32::from(array.length);
        let declaration = FlatVariable::array(word, array.mutable, size);
        let number = self.declare(&array.name, declaration, declared)?;
        Ok(FlatStatement::DeclareArray(number, word, array.mutable, size, values))
    }

    /// A result in the names where `return` stands.
    pub(crate) fn value(&self, returned: &Option<Return>) -> Result<Option<Term>, AllocError>
        ensures { IfOk result (λ value.
            option_map term_tree value ≡ numbered.value_of self.now.names (option_map return_tree returned.now)) }
    {
        match returned {
            Some(returned) => Ok(Some(self.term(&returned.value)?)),
            None => Ok(None),
        }
    }
}
