ghost use Rattle.std.specs.Prelude.{◌≡◌, ◌^◌, nat_lt};

use word::Width;

/// What a word is.
#[derive(Clone, Copy, Debug, PartialEq, Eq)]
pub enum Kind {
    Boolean,
    Uint8,
    Uint16,
    Uint32,
}

impl Kind {
    ghost use Rattle.language.specs.Operators.{width_of};
    ghost use Rattle.language.specs.Size.{array_words, element_bytes};
    ghost use Rattle.language.specs.Types.{bits_of, is_number, same_kind};

    /// How many bits a number has; a bool has one.
    pub fn bits(self) -> u32
        ensures { result ≡ bits_of self }
    {
        match self {
            Kind::Boolean => 1,
            Kind::Uint8 => 8,
            Kind::Uint16 => 16,
            Kind::Uint32 => 32,
        }
    }

    /// Whether a number is one of its kind.
    pub fn includes(self, value: u32) -> bool
        ensures { result ≡ nat_lt value (2 ^ bits_of self) }
    {
        let limit: u64 = match self {
            Kind::Boolean => 2,
            Kind::Uint8 => 0x100,
            Kind::Uint16 => 0x1_0000,
            Kind::Uint32 => 0x1_0000_0000,
        };
        u64::from(value) < limit
    }

    /// Whether it is that of numbers.
    pub fn is_number(self) -> bool
        ensures { result ≡ is_number self }
    {
        !matches!(self, Kind::Boolean)
    }

    /// Whether these are one kind.
    pub fn is_same(self, other: Kind) -> bool
        ensures { result ≡ same_kind self other }
    {
        self.bits() == other.bits()
    }

    /// The width of a number. A bool lies in the narrowest.
    pub fn width(self) -> Width
        ensures { result ≡ width_of self }
    {
        match self {
            Kind::Boolean | Kind::Uint8 => Width::W8,
            Kind::Uint16 => Width::W16,
            Kind::Uint32 => Width::W32,
        }
    }

    /// How many bytes an element of an array takes.
    pub fn element_bytes(self) -> u16
        ensures { result ≡ element_bytes self }
    {
        match self {
            Kind::Boolean | Kind::Uint8 => 1,
            Kind::Uint16 => 2,
            Kind::Uint32 => 4,
        }
    }

    /// How many words, of 4 bytes each, an array of so many elements takes: the last may be taken in part.
    pub fn array_words(self, length: u16) -> u32
        ensures { result ≡ array_words self length }
    {
        (u32::from(length) * u32::from(self.element_bytes())).div_ceil(4)
    }
}

/// Whether an observer may learn a value.
#[derive(Clone, Copy, Debug, PartialEq, Eq)]
pub enum Label {
    Public,
    Secret,
}

impl Label {
    ghost use Rattle.language.specs.Types.{is_secret, joined, same_label};

    /// Whether no observer may learn the value.
    pub fn is_secret(self) -> bool
        ensures { result ≡ is_secret self }
    {
        matches!(self, Label::Secret)
    }

    /// Whether these are one label.
    pub fn is_same(self, other: Label) -> bool
        ensures { result ≡ same_label self other }
    {
        match self {
            Label::Public => !other.is_secret(),
            Label::Secret => other.is_secret(),
        }
    }

    /// The label of what two operands make.
    pub fn join(self, other: Label) -> Label
        ensures { result ≡ joined self other }
    {
        if self.is_secret() {
            Label::Secret
        } else {
            other
        }
    }
}

/// How a parameter holds its words.
#[derive(Clone, Copy, Debug, PartialEq, Eq)]
pub enum Form {
    SingleWord,
    FixedArray,
    MutableArray,
}

impl Form {
    ghost use Rattle.language.specs.Typing.{is_mutable};

    /// Whether a parameter of this form may be assigned to.
    pub fn is_mutable(self) -> bool
        ensures { result ≡ is_mutable self }
    {
        matches!(self, Form::MutableArray)
    }
}

/// A parameter of the export, without its name.
#[derive(Clone, Copy, Debug, PartialEq, Eq)]
pub struct Param {
    pub kind: Kind,
    pub label: Label,
    pub form: Form,
    /// How many words it holds: 1 for a single word, 1..4096 for an array.
    pub length: u16,
}

impl Param {
    ghost use Rattle.language.specs.Size.{held_words};

    /// How many words, of 4 bytes each, it takes where it lies.
    pub fn words(self) -> u32
        ensures { result ≡ held_words self.form self.kind self.length }
    {
        match self.form {
            Form::SingleWord => 1,
            Form::FixedArray | Form::MutableArray => self.kind.array_words(self.length),
        }
    }
}
