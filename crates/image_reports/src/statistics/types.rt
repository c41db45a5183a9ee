// How a type is written in a source.

ghost use Rattle.std.specs.Prelude.{◌≡◌};
ghost use Rattle.image_reports.specs.statistics.TypeText.{kind_text, label_text, mutable_text};

use language::{Form, Kind, Label, Param};
use std::fmt;

/// The name of a kind of word.
pub fn kind_text(kind: Kind) -> &'static str
    ensures { result.now ≡ kind_text kind }
{
    match kind {
        Kind::Boolean => "bool",
        Kind::Uint8 => "uint8",
        Kind::Uint16 => "uint16",
        Kind::Uint32 => "uint32",
    }
}

/// A label with the blank behind it.
pub fn label_text(label: Label) -> &'static str
    ensures { result.now ≡ label_text label }
{
    match label {
        Label::Public => "public ",
        Label::Secret => "secret ",
    }
}

/// What stands behind the label of an array that is changed.
fn mutable_text(form: Form) -> &'static str
    ensures { result.now ≡ mutable_text form }
{
    match form {
        Form::MutableArray => "mut ",
        Form::SingleWord | Form::FixedArray => "",
    }
}

/// How many elements an array has.
#[derive(Clone, Copy)]
struct Length {
    form: Form,
    length: u16,
}

/// The number in brackets; nothing for a single word.
impl fmt::Display for Length {
    ghost use Rattle.std.specs.Prelude.{Some};
    ghost use Rattle.image_reports.specs.statistics.TypeText.{length_text};

    ghost output = { λ it. Some (length_text it.form it.length) };

    fn fmt<W: fmt::Write>(&self, f: &mut fmt::Formatter<W>) -> fmt::Result {
        let length = self.length;
        match self.form {
            Form::SingleWord => Ok(()),
            Form::FixedArray | Form::MutableArray => write!(f, "[{length}]"),
        }
    }
}

/// The type of a parameter, as it stands before its name in a source.
#[derive(Clone, Copy)]
pub struct ParamType(pub Param);

impl fmt::Display for ParamType {
    ghost use Rattle.std.specs.Prelude.{Some};
    ghost use Rattle.image_reports.specs.statistics.TypeText.{param_text};

    ghost output = { λ it. Some (param_text it.0) };

    fn fmt<W: fmt::Write>(&self, f: &mut fmt::Formatter<W>) -> fmt::Result {
        let param = self.0;
        let label = label_text(param.label);
        let mutable = mutable_text(param.form);
        let kind = kind_text(param.kind);
        let length = Length {
            form: param.form,
            length: param.length,
        };
        write!(f, "{label}{mutable}{kind}{length}")
    }
}
