// The language: the shapes of parameters and arguments, its syntax tree, its rules with their refusals, its types, what
// a program means and how large it is. Of these there are definitions (`specs/`), in which the promises of all crates
// above are stated. Modules have tables of names, the names in scope, what the texts of arguments spell, and laws about
// typing. It stands on the words and the places of `word`.
#![tactic(auto)]

pub mod arguments;
mod cost;
mod first;
mod interval;
mod laws;
mod limits;
mod name;
pub mod names;
mod operation;
mod operators;
mod refusal;
mod rule;
pub mod scopes;
mod signature;
mod tree;
mod typing;
pub mod typing_laws;
mod values;
mod why;

pub use cost::{Cost, larger};
pub use first::First;
pub use interval::Interval;
pub use laws::{largest_is_first_of_greatest, rows_are_blocks, shares_make_the_whole};
pub use limits::{
    MOST_BODIES, MOST_DECLARED_BYTES, MOST_ELEMENTS, MOST_NODES, limits_are_as_stated,
};
pub use name::Name;
pub use operation::Operation;
pub use operators::{BinaryOperator, PrefixOperator, is_true};
pub use refusal::Refusal;
pub use rule::Rule;
pub use signature::{Form, Kind, Label, Param};
pub use tree::{
    ArrayDeclaration, Assignment, Call, Counter, Declaration, ElementAssignment, Expr, Parameter,
    Procedure, Program, Return, RightSide, Statement, procedure_named,
};
pub use typing::{ArrayType, Callee, Declared, ValueType, VariableType, Violation, WordType};
pub use values::{Arg, Args, Numbers, Outcome};
pub use why::{
    ArgumentCounts, ComparedTypes, Counted, Excess, IndexRange, Literal, Part, SecretControl,
    Share, SharedArray, Typed, TypedPart, ValueCounts, Why,
};
pub use word::{Place, Profile};
