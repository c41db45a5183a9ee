use crate::{Interval, Kind, Place, ValueType, WordType};

/// What is known of a value that is well typed.
#[derive(Clone, Copy, Debug)]
pub struct Typed {
    pub value: ValueType,
    /// Where the first secret name in it is declared.
    pub secret: Option<Place>,
    /// The number that it is, where it is one.
    pub literal: Option<u32>,
}

/// A part of what a rule compares.
#[derive(Clone, Copy, Debug)]
pub enum Part {
    Operand,
    LeftOperand,
    RightOperand,
    Condition,
    FirstBound,
    SecondBound,
    Index,
    Variable,
    Element,
    Result,
    Value,
    Argument,
    /// A parameter, by the place of its name.
    Parameter(Place),
}

/// A part, and its type.
#[derive(Clone, Copy, Debug)]
pub struct TypedPart {
    pub part: Part,
    pub value: ValueType,
}

/// The types that a rule compares.
#[derive(Clone, Copy, Debug)]
pub enum ComparedTypes {
    One(TypedPart),
    Two(TypedPart, TypedPart),
    /// Those of a choice: its condition, and what it chooses between.
    Choice(ValueType, ValueType, ValueType),
}

/// A number of a kind.
#[derive(Clone, Copy, Debug)]
pub struct Literal {
    pub value: u32,
    pub kind: Kind,
}

/// How many arguments a call has, and how many the procedure takes whose name is declared there.
#[derive(Clone, Copy, Debug)]
pub struct ArgumentCounts {
    pub given: usize,
    pub taken: usize,
    pub procedure: Place,
}

/// An array that is an argument at a place, and the names of the two parameters for which it is given.
#[derive(Clone, Copy, Debug)]
pub struct SharedArray {
    pub array: Place,
    pub one: Place,
    pub other: Place,
}

/// How many elements an array has, and how many values its list.
#[derive(Clone, Copy, Debug)]
pub struct ValueCounts {
    pub length: u16,
    pub values: usize,
}

/// The innermost `if` around with a secret condition, and where the first secret name in that is declared.
#[derive(Clone, Copy, Debug)]
pub struct SecretControl {
    pub place: Place,
    pub name: Option<Place>,
}

/// An index, and how many elements its array has.
#[derive(Clone, Copy, Debug)]
pub struct IndexRange {
    pub index: Interval,
    pub length: u32,
}

/// What is counted of a source against a limit.
#[derive(Clone, Copy, Debug)]
pub enum Counted {
    Nodes,
    /// Bodies that are open at once.
    Bodies,
    DeclaredBytes,
    Work,
}

/// A part of a source by its place, and how much it has of what is counted.
#[derive(Clone, Copy, Debug)]
pub struct Share {
    pub place: Place,
    pub count: u64,
}

/// A count above its limit. The greatest number stands for those above it too.
#[derive(Clone, Copy, Debug)]
pub struct Excess {
    pub counted: Counted,
    pub whole: u64,
    /// The part that has most, where one is known.
    pub largest: Option<Share>,
}

/// Why a rule is violated: what was found where the rule was asked. A name is given by the place where it stands.
#[derive(Clone, Copy, Debug)]
pub enum Why {
    /// Rule and place say it all.
    Plain,
    /// These types do not go together. One of them may be that of a number, which can be written as another.
    Types(ComparedTypes, Option<Literal>),
    /// The shapes or labels of arrays differ.
    Shapes(TypedPart, TypedPart),
    /// The number is above the greatest of its kind.
    Number(Literal),
    /// An operand of this kind is not rotated by so many bits.
    Amount(Literal),
    ArgumentCounts(ArgumentCounts),
    /// The nearest of the variables in scope is declared there.
    Nearest(Place),
    /// The name that is declared there is not `mut`.
    Fixed(Place),
    /// A value of this type is returned where nothing is.
    Returned(ValueType),
    /// A word of this type is not returned.
    Missing(WordType),
    Shared(SharedArray),
    ValueCounts(ValueCounts),
    /// Something secret is put where something public is wanted; and where the first secret name in it is declared.
    Leak(ComparedTypes, Option<Place>),
    /// Something is secret; and where the first secret name in it is declared.
    Secret(Option<Place>),
    /// Control is secret.
    Control(SecretControl),
    /// The index may be outside its array.
    Index(IndexRange),
    /// The divisor may be 0.
    Divisor(Interval),
    /// Too much is counted.
    TooMuch(Excess),
}
