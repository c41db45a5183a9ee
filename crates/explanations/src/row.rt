use std::fmt;

/// What a code means. All texts are without a line feed at the end.
#[derive(Clone, Copy)]
pub struct Explanation {
    /// The code of a rule, such as `L1`, or the name of a stop, such as `Illegal`.
    pub code: &'static str,
    /// The rule in a few words, as an error's line has it.
    pub name: &'static str,
    /// What the rule is, what usually breaks it and what to do, in lines of at most 100 columns.
    pub rule: &'static str,
    /// A source that violates this rule first, L7 in profile 2 and F1 as a function for C; empty where no small
    /// source violates it.
    pub violates: &'static str,
    /// The same source corrected, so that it is accepted; empty where `violates` is.
    pub corrected: &'static str,
}

/// The code with its name, the rule, and the two sources where there are any.
impl fmt::Display for Explanation {
    ghost use Rattle.std.specs.Prelude.{Some};
    ghost use Rattle.explanations.specs.Text.{explanation_text};

    ghost output = { λ explanation. Some (explanation_text explanation) };

    fn fmt<W: fmt::Write>(&self, f: &mut fmt::Formatter<W>) -> fmt::Result {
        let Explanation {
            code,
            name,
            rule,
            ..
        } = *self;
        let sources = Sources {
            violates: self.violates,
            corrected: self.corrected,
        };
        write!(f, "{code}: {name}\n\n{rule}{sources}")
    }
}

/// A source that violates a rule and the same source corrected, or two empty texts.
#[derive(Clone, Copy)]
struct Sources {
    violates: &'static str,
    corrected: &'static str,
}

/// Each source after a heading; nothing where there are none.
impl fmt::Display for Sources {
    ghost use Rattle.std.specs.Prelude.{Some};
    ghost use Rattle.explanations.specs.Text.{sources_text};

    ghost output = { λ sources. Some (sources_text sources.violates.now sources.corrected.now) };

    fn fmt<W: fmt::Write>(&self, f: &mut fmt::Formatter<W>) -> fmt::Result {
        if self.violates.is_empty() {
            return Ok(());
        }
        let Sources {
            violates,
            corrected,
        } = *self;
        write!(f, "\n\nRefused:\n\n{violates}\n\nAccepted:\n\n{corrected}")
    }
}
