ghost use Rattle.std.specs.Prelude.{◌≡◌};
ghost use Rattle.image.specs.RuleNames.{code_of, name_of};

use language::Refusal;
use std::alloc::{AllocError, AllocFailed};
use std::error::Error;
use std::fmt;

/// What is wrong with bytes that spell no image.
#[derive(Clone, Copy, Debug, PartialEq, Eq)]
pub enum ImageRule {
    /// They do not begin as an image does.
    Magic,
    /// The format is of another version.
    Version,
    /// The image is for an observer of no profile that there is.
    Profile,
    /// A field passes the end.
    Truncated,
    /// A field has a value that it may not have.
    FieldOutOfRange,
    /// Bytes stand after the last code word.
    TrailingBytes,
}

impl ImageRule {
    /// Its short code, as `B4`.
    pub fn code(self) -> &'static str
        ensures { result.now ≡ code_of self }
    {
        match self {
            ImageRule::Magic => "B1",
            ImageRule::Version => "B2",
            ImageRule::Profile => "B3",
            ImageRule::Truncated => "B4",
            ImageRule::FieldOutOfRange => "B5",
            ImageRule::TrailingBytes => "B6",
        }
    }

    /// What it says, in a few words, as `truncated`.
    pub fn name(self) -> &'static str
        ensures { result.now ≡ name_of self }
    {
        match self {
            ImageRule::Magic => "magic",
            ImageRule::Version => "version",
            ImageRule::Profile => "profile",
            ImageRule::Truncated => "truncated",
            ImageRule::FieldOutOfRange => "field out of range",
            ImageRule::TrailingBytes => "trailing bytes",
        }
    }
}

/// The code.
impl fmt::Display for ImageRule {
    ghost use Rattle.std.specs.Prelude.{Some};
    ghost use Rattle.image.specs.RuleNames.{code_of};

    ghost output = { λ rule. Some (code_of rule) };

    fn fmt<W: fmt::Write>(&self, f: &mut fmt::Formatter<W>) -> fmt::Result {
        f.write_str(self.code())
    }
}

/// Why an image was not read.
#[derive(Clone, Copy, Debug, PartialEq, Eq)]
pub enum ImageFault {
    /// The first field that is wrong, by the offset of its first byte. For bytes after the last
    /// code word it is the offset of the first of them.
    Field { rule: ImageRule, offset: usize },
    /// A growth was refused.
    Memory,
}

impl From<AllocError> for ImageFault {
    ghost use Rattle.image.specs.declared.fault.ImageFault.TheVariants.{Memory};

    ghost from_gives = { λ _ fault. fault ≡ Memory };

    fn from(_: AllocError) -> Self {
        ImageFault::Memory
    }
}

impl<T: Drop> From<AllocFailed<T>> for ImageFault {
    ghost use Rattle.image.specs.declared.fault.ImageFault.TheVariants.{Memory};

    ghost from_gives = { λ _ fault. fault ≡ Memory };

    fn from(_: AllocFailed<T>) -> Self {
        ImageFault::Memory
    }
}

/// `B4 at byte 31: truncated`, or `M1: memory`.
impl fmt::Display for ImageFault {
    ghost use Rattle.std.specs.Prelude.{Some};
    ghost use Rattle.image.specs.Text.{fault_text};

    ghost output = { λ fault. Some (fault_text fault) };

    fn fmt<W: fmt::Write>(&self, f: &mut fmt::Formatter<W>) -> fmt::Result {
        match *self {
            ImageFault::Field { rule, offset } => {
                let name = rule.name();
                write!(f, "{rule} at byte {offset}: {name}")
            }
            ImageFault::Memory => write!(f, "{}", Refusal::memory()),
        }
    }
}

impl Error for ImageFault {}
