ghost use Rattle.std.specs.Prelude.{◌≡◌};

use language::{BinaryOperator, Form, Kind, Label, Param, Place, PrefixOperator, WordType};
use word::Width;

/// What a variable is declared as: its type, or that of its elements where it is an array.
#[derive(Clone, Copy, Debug, PartialEq, Eq)]
pub struct FlatVariable {
    pub word: WordType,
    /// Whether it may be assigned to.
    pub mutable: bool,
    /// How many elements an array has; a word has none.
    pub elements: Option<u32>,
}

impl FlatVariable {
    ghost use Rattle.inline.specs.Flat.{array_as, declaration_of, numbers_in, word_as};

    /// A word.
    pub(crate) fn word(word: WordType, mutable: bool) -> Self
        ensures { result ≡ word_as word mutable }
    {
        FlatVariable {
            word,
            mutable,
            elements: None,
        }
    }

    /// An array of so many elements.
    pub(crate) fn array(word: WordType, mutable: bool, size: u32) -> Self
        ensures { result ≡ array_as word mutable size }
    {
        FlatVariable {
            word,
            mutable,
            elements: Some(size),
        }
    }

    /// A parameter: an array may be assigned to where its form says so, a word may not.
    pub(crate) fn parameter(param: Param) -> Self
        ensures { result ≡ declaration_of param }
    {
        let word = WordType {
            kind: param.kind,
            label: param.label,
        };
        let size = u32::from(param.length);
        match param.form {
            Form::SingleWord => FlatVariable::word(word, false),
            Form::FixedArray => FlatVariable::array(word, false, size),
            Form::MutableArray => FlatVariable::array(word, true, size),
        }
    }

    /// How many numbers it holds.
    pub fn numbers(&self) -> u32
        ensures { result ≡ numbers_in self.now.elements }
    {
        match self.elements {
            Some(size) => size,
            None => 1,
        }
    }
}

/// The statements of the body, one behind another, that a statement of the source became: where it stands there, and
/// how many they are.
#[derive(Clone, Copy, Debug)]
pub struct Stretch {
    pub place: Place,
    pub statements: usize,
}

/// An expression over numbered variables. Where the width of an operand decides what a node means, the
/// node has it: the left operand's. A node that may meet a fault has its place.
#[derive(Drop)]
pub enum Term {
    Number(u32, Kind),
    Truth(bool),
    Variable(u32),
    Prefix(PrefixOperator, Width, Box<Term>),
    Binary(Place, BinaryOperator, Width, Box<Term>, Box<Term>),
    /// The operand's bits, moved up by the amount around the width.
    Rotate(Width, Box<Term>, u32),
    /// The operand, as a number of this kind.
    Convert(Kind, Box<Term>),
    /// The first operand chooses between the second, where it is true, and the third.
    Select(Box<Term>, Box<Term>, Box<Term>),
    /// The element at an index of an array, which has so many.
    Element(Place, u32, u32, Box<Term>),
}

/// A statement over numbered variables.
#[derive(Drop)]
pub enum FlatStatement {
    /// A variable of this number and type begins, `mut` or not, with its first value.
    Declare(u32, WordType, bool, Term),
    /// An array of this number and type of its elements begins, `mut` or not, with so many elements:
    /// these values, or zeros where none are written.
    DeclareArray(u32, WordType, bool, u32, Vec<Term>),
    Assign(u32, Term),
    /// The element at an index of an array, which has so many, is set to a value.
    AssignElement(Place, u32, u32, Term, Term),
    /// An index is held in a variable of this number until the element of an array, which has so many, is
    /// assigned to. It has to be below that, here already.
    Hold(u32, Place, u32, Term),
    /// Nothing: a node of the source, such as a call's own, for which nothing is left to do.
    Skip,
    /// What runs where the condition, which has this label, is true, and where it is not.
    Branch(Label, Term, Vec<FlatStatement>, Vec<FlatStatement>),
    /// What runs for each number of a counter, from the first bound up to the last before the second.
    Loop(u32, Term, Term, Vec<FlatStatement>),
}
