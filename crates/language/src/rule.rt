ghost use Rattle.std.specs.Prelude.{◌≡◌};
ghost use Rattle.language.specs.Rules.{code_of, name_of, rank_of};

use std::fmt;

/// Why a text is refused. Rules on names, types and labels (from `UndeclaredName` to
/// `SecretMultiplicationOperand`) stand in the order in which they are asked at one place.
#[derive(Clone, Copy, Debug, PartialEq, Eq)]
pub enum Rule {
    UnknownCharacter,
    BadNumber,
    UnexpectedToken,
    Nesting,
    TextTooLong,
    UndeclaredName,
    NameDeclaredTwice,
    ProcedureNotDeclaredEarlier,
    NotExactlyOneExport,
    WidthsDiffer,
    WrongKind,
    LiteralOutOfRange,
    ArgumentCount,
    ArrayShapeOrLabel,
    NotMutable,
    ReturnMismatch,
    ArrayPassedTwice,
    InitialiserCount,
    SecretToPublic,
    PublicAssignedUnderSecretControl,
    SecretIndex,
    SecretBound,
    SecretDivisionOperand,
    CallAssignsPublicUnderSecretControl,
    SecretMultiplicationOperand,
    InlinedSize,
    DeclaredBytes,
    IndexOutOfRange,
    DivisorMayBeZero,
    TooMuchWork,
    OutOfMemory,
}

impl Rule {
    /// Its number in the order of declaration.
    pub fn rank(self) -> u8
        ensures { result ≡ rank_of self }
    {
        self as u8
    }

    /// Its short code, as `L2`.
    pub fn code(self) -> &'static str
        ensures { result.now ≡ code_of self }
    {
        self.row().0
    }

    /// What it says, in a few words, as `secret to public`.
    pub fn name(self) -> &'static str
        ensures { result.now ≡ name_of self }
    {
        self.row().1
    }

    /// Its short code, and what it says.
    fn row(self) -> (&'static str, &'static str)
        ensures code { result.0.now ≡ code_of self }
        ensures name { result.1.now ≡ name_of self }
    {
        match self {
            Rule::UnknownCharacter => ("X1", "unknown character"),
            Rule::BadNumber => ("X2", "bad number"),
            Rule::UnexpectedToken => ("X3", "unexpected token"),
            Rule::Nesting => ("X4", "nesting"),
            Rule::TextTooLong => ("X5", "text too long"),
            Rule::UndeclaredName => ("N1", "undeclared name"),
            Rule::NameDeclaredTwice => ("N2", "name declared twice"),
            Rule::ProcedureNotDeclaredEarlier => ("N3", "procedure not declared earlier"),
            Rule::NotExactlyOneExport => ("N4", "not exactly one export"),
            Rule::WidthsDiffer => ("T1", "widths differ"),
            Rule::WrongKind => ("T2", "wrong kind"),
            Rule::LiteralOutOfRange => ("T3", "literal out of range"),
            Rule::ArgumentCount => ("T4", "argument count"),
            Rule::ArrayShapeOrLabel => ("T5", "array shape or label"),
            Rule::NotMutable => ("T6", "not mutable"),
            Rule::ReturnMismatch => ("T7", "return"),
            Rule::ArrayPassedTwice => ("T8", "array passed twice"),
            Rule::InitialiserCount => ("T9", "initialiser count"),
            Rule::SecretToPublic => ("L1", "secret to public"),
            Rule::PublicAssignedUnderSecretControl => (
                "L2",
                "public assigned under secret control",
            ),
            Rule::SecretIndex => ("L3", "secret index"),
            Rule::SecretBound => ("L4", "secret bound"),
            Rule::SecretDivisionOperand => ("L5", "secret division operand"),
            Rule::CallAssignsPublicUnderSecretControl => (
                "L6",
                "call assigns public under secret control",
            ),
            Rule::SecretMultiplicationOperand => ("L7", "secret multiplication operand"),
            Rule::InlinedSize => ("S1", "inlined size"),
            Rule::DeclaredBytes => ("S2", "declared bytes"),
            Rule::IndexOutOfRange => ("I1", "index out of range"),
            Rule::DivisorMayBeZero => ("I2", "divisor may be 0"),
            Rule::TooMuchWork => ("S3", "work"),
            Rule::OutOfMemory => ("M1", "memory"),
        }
    }
}

/// The code.
impl fmt::Display for Rule {
    ghost use Rattle.std.specs.Prelude.{Some};

    ghost output = { λ rule. Some (code_of rule) };

    fn fmt<W: fmt::Write>(&self, f: &mut fmt::Formatter<W>) -> fmt::Result {
        f.write_str(self.code())
    }
}
