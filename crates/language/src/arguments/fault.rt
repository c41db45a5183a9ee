ghost use Rattle.std.specs.Prelude.{◌≡◌, ◌+◌, ◌^◌, ◌<◌, IfSome};
ghost use Rattle.language.specs.arguments.Faults.{shifted};

use std::fmt;

/// What is wrong with arguments. The count is asked before all else, and of one argument the shape
/// before the values.
#[derive(Clone, Copy, Debug, PartialEq, Eq)]
pub enum ArgumentRule {
    /// There is not one argument for each parameter.
    Count,
    /// It is no word for a word, or no array of so many words, or its text is unreadable.
    Shape,
    /// A word is above the greatest value of its type.
    Value,
}

impl ArgumentRule {
    ghost use Rattle.language.specs.arguments.RuleNames.{code_of, name_of};

    /// Its short code, as `A2`.
    pub fn code(self) -> &'static str
        ensures { result.now ≡ code_of self }
    {
        match self {
            ArgumentRule::Count => "A1",
            ArgumentRule::Shape => "A2",
            ArgumentRule::Value => "A3",
        }
    }

    /// What it says, in a few words, as `shape`.
    pub fn name(self) -> &'static str
        ensures { result.now ≡ name_of self }
    {
        match self {
            ArgumentRule::Count => "argument count",
            ArgumentRule::Shape => "shape",
            ArgumentRule::Value => "value outside type",
        }
    }
}

/// A rule that arguments break, and which argument breaks it.
#[derive(Clone, Copy, Debug, PartialEq, Eq)]
pub struct ArgumentFault {
    pub rule: ArgumentRule,
    /// The argument's number, from 0. The count is no one argument's, and has none.
    pub index: Option<usize>,
}

impl ArgumentFault {
    /// There is not one argument for each parameter.
    pub fn count() -> Self
        ensures { result ≡ record { rule = ArgumentRule.Count; index = None } }
    {
        ArgumentFault {
            rule: ArgumentRule::Count,
            index: None,
        }
    }

    /// An argument breaks a rule.
    pub fn at(rule: ArgumentRule, index: usize) -> Self
        ensures { result ≡ record { rule = rule; index = Some index } }
    {
        ArgumentFault {
            rule,
            index: Some(index),
        }
    }

    /// The same fault, of an argument that stands behind so many others.
    pub fn behind(self, others: usize) -> Self
        requires { IfSome self.index (λ index. index + others < 2 ^ 64) }
        ensures { result ≡ shifted others self }
    {
        let index = match self.index {
            Some(index) => Some(index + others),
            None => None,
        };
        ArgumentFault {
            rule: self.rule,
            index,
        }
    }
}

/// `A3 at argument 0: value outside type`, or `A1: argument count`.
impl fmt::Display for ArgumentFault {
    ghost use Rattle.std.specs.Prelude.{Some};
    ghost use Rattle.language.specs.arguments.Text.{fault_text};

    ghost output = { λ fault. Some (fault_text fault) };

    fn fmt<W: fmt::Write>(&self, f: &mut fmt::Formatter<W>) -> fmt::Result {
        let code = self.rule.code();
        let name = self.rule.name();
        match self.index {
            Some(index) => write!(f, "{code} at argument {index}: {name}"),
            None => write!(f, "{code}: {name}"),
        }
    }
}
