ghost use Rattle.std.specs.Prelude.{◌≡◌, [], map};
ghost use Rattle.std.specs.Option.{option_map};
ghost use Rattle.language.specs.Meaning.{named};
ghost use Rattle.language.specs.Tree.{procedure_tree};

use crate::name::Name;
use crate::{BinaryOperator, Form, Kind, Label, Param, Place, PrefixOperator, WordType};
use std::alloc::{AllocError, Global};
use std::marker::Model;

/// An expression. Each has the place of its head token.
#[derive(Drop)]
pub enum Expr {
    /// A number and the kind that its suffix names, `Uint32` without one.
    Number(Place, u32, Kind),
    Truth(Place, bool),
    Name(Place, Name),
    Prefix(Place, PrefixOperator, Box<Expr>),
    Binary(Place, BinaryOperator, Box<Expr>, Box<Expr>),
    /// A rotation to the left, by so many bits.
    Rotate(Place, Box<Expr>, u32),
    /// A word made one of this kind of number.
    Convert(Place, Kind, Box<Expr>),
    /// The first operand chooses between the second, where it is true, and the third.
    Select(Place, Box<Expr>, Box<Expr>, Box<Expr>),
    /// An element of an array: the place of `[`, the array's name and its place, the index.
    Element(Place, Place, Name, Box<Expr>),
}

/// A call of a procedure.
#[derive(Drop)]
pub struct Call {
    /// The place of the procedure's name.
    pub place: Place,
    pub name: Name,
    pub arguments: Vec<Expr>,
}

/// What a declaration or an assignment gives its target.
#[derive(Drop)]
pub enum RightSide {
    Call(Call),
    Value(Expr),
}

/// A declaration of a word, with its first value.
#[derive(Drop)]
pub struct Declaration {
    pub label: Label,
    /// Whether it may be assigned to.
    pub mutable: bool,
    pub kind: Kind,
    /// The place of its name.
    pub place: Place,
    pub name: Name,
    pub value: RightSide,
}

/// A declaration of an array.
#[derive(Drop)]
pub struct ArrayDeclaration {
    pub label: Label,
    /// Whether its elements may be assigned to.
    pub mutable: bool,
    pub kind: Kind,
    /// How many elements it has: 1..4096.
    pub length: u16,
    /// The place of its name.
    pub place: Place,
    pub name: Name,
    /// Its first values, where they are written; else it holds zeros.
    pub values: Option<Vec<Expr>>,
}

/// An assignment to a name.
#[derive(Drop)]
pub struct Assignment {
    /// The place of `=`.
    pub place: Place,
    /// The place of the assigned name.
    pub target: Place,
    pub name: Name,
    pub value: RightSide,
}

/// An assignment to an element.
#[derive(Drop)]
pub struct ElementAssignment {
    /// The place of `=`.
    pub place: Place,
    /// The place of `[`.
    pub bracket: Place,
    /// The place of the array's name.
    pub target: Place,
    pub name: Name,
    pub index: Expr,
    pub value: RightSide,
}

/// The counter of a loop.
#[derive(Drop)]
pub struct Counter {
    /// The place of its name.
    pub place: Place,
    pub name: Name,
}

/// A statement.
#[derive(Drop)]
pub enum Statement {
    Declare(Declaration),
    DeclareArray(ArrayDeclaration),
    Assign(Assignment),
    AssignElement(ElementAssignment),
    Call(Call),
    /// The place of `if`, the condition, and what runs where it is true and where it is not.
    If(Place, Expr, Vec<Statement>, Vec<Statement>),
    /// The place of `for`, the counter, the first number that it is, the first that it is no longer,
    /// and what runs in each iteration.
    For(Place, Counter, Expr, Expr, Vec<Statement>),
}

impl Statement {
    ghost use Rattle.language.specs.Tree.{place_of, statement_tree};

    /// Where it stands.
    pub fn place(&self) -> Place
        ensures { result ≡ place_of (statement_tree self.now) }
    {
        match self {
            Statement::Declare(it) => it.place,
            Statement::DeclareArray(it) => it.place,
            Statement::Assign(it) => it.place,
            Statement::AssignElement(it) => it.place,
            Statement::Call(call) => call.place,
            Statement::If(place, _, _, _) | Statement::For(place, _, _, _, _) => *place,
        }
    }
}

/// A parameter of a procedure.
#[derive(Drop)]
pub struct Parameter {
    pub label: Label,
    pub kind: Kind,
    pub form: Form,
    /// How many words it holds: 1 for a single word, 1..4096 for an array.
    pub length: u16,
    /// The place of its name.
    pub place: Place,
    pub name: Name,
}

impl Parameter {
    ghost use Rattle.language.specs.Signature.{param_of};
    ghost use Rattle.language.specs.Tree.{parameter_tree};

    /// The parameter without its name.
    pub fn param(&self) -> Param
        ensures { result ≡ param_of (parameter_tree self.now) }
    {
        Param {
            kind: self.kind,
            label: self.label,
            form: self.form,
            length: self.length,
        }
    }
}

/// The `return` of a procedure.
#[derive(Drop)]
pub struct Return {
    /// The place of the word `return`.
    pub place: Place,
    pub value: Expr,
}

/// A procedure.
#[derive(Drop)]
pub struct Procedure {
    /// The place of the word `export`, where it stands.
    pub export: Option<Place>,
    /// The type of its result, where it has one.
    pub result: Option<WordType>,
    /// The place of its name.
    pub place: Place,
    pub name: Name,
    pub parameters: Vec<Parameter>,
    pub body: Vec<Statement>,
    /// Its `return`, where it has one.
    pub returned: Option<Return>,
}

impl Procedure {
    ghost use Rattle.std.specs.Prelude.{IfOk};
    ghost use Rattle.language.specs.Signature.{param_of};

    /// Its parameters without their names.
    pub fn params(&self, alloc: Global) -> Result<Vec<Param>, AllocError>
        ensures { IfOk result (λ params. params.items ≡ map param_of (procedure_tree self.now).parameters) }
    {
        let mut params = Vec::new(alloc);
        for parameter in &self.parameters {
            params.push(parameter.param())?;
        }
        Ok(params)
    }
}

/// A program: the tree of a text, its procedures in their order. Each is as the grammar has it.
#[derive(Drop)]
pub struct Program {
    procedures: Vec<Procedure>,
}

impl Model for Program {
    ghost use Rattle.std.specs.Coded.{coded_list};
    ghost use Rattle.std.specs.List.{AllByRecursion};
    ghost use Rattle.std.specs.Prelude.{List, map};
    ghost use Rattle.language.specs.contracts.tree.Procedure as procedure;
    ghost use Rattle.language.specs.declared.tree.Procedure.{Procedure};
    ghost use Rattle.language.specs.Grammatical.{IsGrammatical};
    ghost use Rattle.language.specs.Tree.{procedure_tree};

    ghost Value = { List Procedure };

    ghost coded = { coded_list procedure.the_row.coded };

    ghost view = { λ p. p.procedures.items };

    ghost invariant = { λ p. AllByRecursion IsGrammatical (map procedure_tree p.procedures.items) };
}

impl Program {
    ghost use Rattle.std.specs.List.{AllByRecursion};
    ghost use Rattle.language.specs.Grammatical.{IsGrammatical};
    ghost use Rattle.language.specs.Signature.{exported};
    ghost use Rattle.language.specs.Tree.{program_tree};

    /// A program of these procedures.
    pub fn new(procedures: Vec<Procedure>) -> Self
        requires { AllByRecursion IsGrammatical (map procedure_tree procedures.items) }
        ensures { result ≡ procedures.items }
    {
        Program { procedures }
    }

    /// The procedures, in their order.
    pub fn procedures(&self) -> &[Procedure]
        ensures procedures { result.now ≡ self.now }
        ensures grammatical { AllByRecursion IsGrammatical (map procedure_tree self.now) }
    {
        self.procedures.as_slice()
    }

    /// The first exported procedure, and those before it.
    pub fn exported(&self) -> Option<(&[Procedure], &Procedure)>
        ensures { option_map (λ found. (map procedure_tree found.0.now, procedure_tree found.1.now)) result
            ≡ exported [] (program_tree self.now).procedures }
    {
        for (index, procedure) in self.procedures.iter().enumerate() {
            if procedure.export.is_some() {
                return Some((&self.procedures[..index], procedure));
            }
        }
        None
    }
}

/// The first procedure of a name, and those before it.
pub fn procedure_named<'p>(
    procedures: &'p [Procedure],
    name: &Name,
) -> Option<(&'p [Procedure], &'p Procedure)>
    ensures { option_map (λ found. (map procedure_tree found.0.now, procedure_tree found.1.now)) result
        ≡ named [] (map procedure_tree procedures.now) name.now }
{
    for (index, procedure) in procedures.iter().enumerate() {
        if procedure.name.as_str() == name.as_str() {
            return Some((&procedures[..index], procedure));
        }
    }
    None
}
