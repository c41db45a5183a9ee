ghost use Rattle.std.specs.Prelude.{◌≡◌};

use crate::{Kind, Label, Place, Rule, Why};

/// The type of a word.
#[derive(Clone, Copy, Debug, PartialEq, Eq)]
pub struct WordType {
    pub kind: Kind,
    pub label: Label,
}

/// The type of an array.
#[derive(Clone, Copy, Debug, PartialEq, Eq)]
pub struct ArrayType {
    pub element: WordType,
    /// How many elements it has: 1..4096.
    pub length: u16,
}

/// The type of what a part of a program gives.
#[derive(Clone, Copy, Debug, PartialEq, Eq)]
pub enum ValueType {
    Word(WordType),
    Array(ArrayType),
    /// What a procedure without a result gives.
    Nothing,
}

impl ValueType {
    ghost use Rattle.language.specs.Types.{are_alike, is_array, is_bool, is_hidden, is_narrow, is_numeric, kind_of};
    ghost use Rattle.language.specs.Types.{label_of, widths_differ, word};

    /// The type of a word.
    pub fn word(kind: Kind, label: Label) -> ValueType
        ensures { result ≡ word kind label }
    {
        ValueType::Word(WordType { kind, label })
    }

    /// Whether it is a number.
    pub fn is_numeric(self) -> bool
        ensures { result ≡ is_numeric self }
    {
        match self {
            ValueType::Word(word) => word.kind.is_number(),
            ValueType::Array(_) | ValueType::Nothing => false,
        }
    }

    /// Whether it is a bool.
    pub fn is_bool(self) -> bool
        ensures { result ≡ is_bool self }
    {
        match self {
            ValueType::Word(word) => !word.kind.is_number(),
            ValueType::Array(_) | ValueType::Nothing => false,
        }
    }

    /// Whether it is an array.
    pub fn is_array(self) -> bool
        ensures { result ≡ is_array self }
    {
        matches!(self, ValueType::Array(_))
    }

    /// Whether it is a number other than `uint32`.
    pub fn is_narrow(self) -> bool
        ensures { result ≡ is_narrow self }
    {
        match self {
            ValueType::Word(word) => word.kind.is_number() && !word.kind.is_same(Kind::Uint32),
            ValueType::Array(_) | ValueType::Nothing => false,
        }
    }

    /// The kind of a word, or of an array's elements; of nothing it is that of a bool.
    pub fn kind(self) -> Kind
        ensures { result ≡ kind_of self }
    {
        match self {
            ValueType::Word(word) => word.kind,
            ValueType::Array(array) => array.element.kind,
            ValueType::Nothing => Kind::Boolean,
        }
    }

    /// The label of a word, or of an array's elements; nothing is public.
    pub fn label(self) -> Label
        ensures { result ≡ label_of self }
    {
        match self {
            ValueType::Word(word) => word.label,
            ValueType::Array(array) => array.element.label,
            ValueType::Nothing => Label::Public,
        }
    }

    /// Whether it is secret.
    pub fn is_hidden(self) -> bool
        ensures { result ≡ is_hidden self }
    {
        self.label().is_secret()
    }

    /// Whether these are numbers of unequal width.
    pub fn differs_in_width(self, other: ValueType) -> bool
        ensures { result ≡ widths_differ self other }
    {
        self.is_numeric() && other.is_numeric() && !self.kind().is_same(other.kind())
    }

    /// Whether these are two numbers, or two bools.
    pub fn is_alike(self, other: ValueType) -> bool
        ensures { result ≡ are_alike self other }
    {
        (self.is_numeric() && other.is_numeric()) || (self.is_bool() && other.is_bool())
    }
}

/// A variable's type, and whether it may be assigned to.
#[derive(Clone, Copy, Debug, PartialEq, Eq)]
pub struct VariableType {
    pub value: ValueType,
    pub mutable: bool,
}

/// A procedure by its number from 0, and whether a call of it may assign to what is public.
#[derive(Clone, Copy, Debug, PartialEq, Eq)]
pub struct Callee {
    pub number: usize,
    pub assigns_public: bool,
}

/// What a name stands for.
#[derive(Clone, Copy, Debug, PartialEq, Eq)]
pub enum Declared {
    Procedure(Callee),
    Variable(VariableType),
}

/// A rule that is violated at a place, and why.
#[derive(Clone, Copy, Debug)]
pub struct Violation {
    pub place: Place,
    pub rule: Rule,
    pub why: Why,
}

impl Violation {
    ghost use Rattle.language.specs.Sooner.{comes_before};

    /// Whether this one is named rather than another: it stands before it, or at its place with a rule that is asked
    /// sooner.
    pub fn precedes(self, other: Violation) -> bool
        ensures { result ≡ comes_before self other }
    {
        self.place.offset < other.place.offset
            || (self.place.offset == other.place.offset && self.rule.rank() < other.rule.rank())
    }
}
