// Why nothing was wrapped, and how that is printed.

ghost use Rattle.std.specs.Prelude.{◌≡◌};
ghost use Rattle.input_files.specs.wrapping.RuleNames.{code_of, name_of};
ghost use Rattle.input_files.specs.wrapping.Wrapped.{IsUnlessMemory};
ghost use Rattle.input_files.specs.declared.wrapping.fault.WrapFault.TheVariants.{Text};

use language::Refusal;
use std::alloc::AllocError;
use std::error::Error;
use std::fmt;

/// What is wrong with code, or with what is asked for it.
#[derive(Clone, Copy, Debug, PartialEq, Eq)]
pub enum CodeRule {
    /// It has no word, a part of a word, or more words than an image may have.
    Length,
    /// The frame cuts a slot, is no whole number of words, or is larger than that of an image may be.
    Frame,
    /// A run takes no step, or more than an image may ask for.
    Steps,
}

impl CodeRule {
    /// Its short code, as `C2`.
    pub fn code(self) -> &'static str
        ensures { result.now ≡ code_of self }
    {
        match self {
            CodeRule::Length => "C1",
            CodeRule::Frame => "C2",
            CodeRule::Steps => "C3",
        }
    }

    /// What it says, in a few words, as `code length`.
    pub fn name(self) -> &'static str
        ensures { result.now ≡ name_of self }
    {
        match self {
            CodeRule::Length => "code length",
            CodeRule::Frame => "frame",
            CodeRule::Steps => "steps",
        }
    }
}

/// `C1: code length`.
impl fmt::Display for CodeRule {
    ghost use Rattle.std.specs.Prelude.{Some};
    ghost use Rattle.input_files.specs.wrapping.RuleNames.{rule_text};

    ghost output = { λ rule. Some (rule_text rule) };

    fn fmt<W: fmt::Write>(&self, f: &mut fmt::Formatter<W>) -> fmt::Result {
        let code = self.code();
        let name = self.name();
        write!(f, "{code}: {name}")
    }
}

/// Why nothing was wrapped.
#[derive(Clone, Copy, Debug)]
pub enum WrapFault<R = Refusal> {
    /// The text is refused, or a growth was.
    Text(R),
    /// The text is accepted, and code, frame or steps break a rule.
    Code(CodeRule),
}

impl From<Refusal> for WrapFault<Refusal> {
    ghost from_gives = { λ refusal fault. fault ≡ Text refusal };

    fn from(refusal: Refusal) -> Self {
        WrapFault::Text(refusal)
    }
}

impl From<AllocError> for WrapFault<Refusal> {
    ghost from_gives = { λ _ fault. IsUnlessMemory fault (λ _. ⊥) };

    fn from(_: AllocError) -> Self {
        WrapFault::Text(Refusal::memory())
    }
}

/// `L2 at 3:12: public assigned under secret control`, `C1: code length`, or `M1: memory`.
impl fmt::Display for WrapFault<Refusal> {
    ghost use Rattle.std.specs.Prelude.{Some};
    ghost use Rattle.input_files.specs.wrapping.RuleNames.{fault_text};

    ghost output = { λ fault. Some (fault_text fault) };

    fn fmt<W: fmt::Write>(&self, f: &mut fmt::Formatter<W>) -> fmt::Result {
        match *self {
            WrapFault::Text(refusal) => write!(f, "{refusal}"),
            WrapFault::Code(rule) => write!(f, "{rule}"),
        }
    }
}

impl Error for WrapFault<Refusal> {}
