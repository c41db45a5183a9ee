ghost use Rattle.std.specs.Prelude.{◌≡◌, fold};
ghost use Rattle.labels.specs.Below.{are_met, argument_rules, argument_why, Array, because_of, control_violations};
ghost use Rattle.labels.specs.Below.{put_why, same_array, shape_rules, noted, typed_part, value_rules};
ghost use Rattle.labels.specs.Below.{value_violations, Word};

use crate::reasons::{control_why, literal_as, typed_part};
use findings::Findings;
use language::{
    ArrayType, ComparedTypes, Label, Part, Place, Rule, SecretControl, Typed, ValueType, Why,
    WordType,
};

/// Notes what a value violates, by what it is, where this word is wanted for a part, and says whether it
/// violates nothing.
fn note_put(
    findings: &mut Findings,
    place: Place,
    wanted: WordType,
    part: Part,
    given_as: Part,
    given: Typed,
) -> bool
    ensures met { result ≡ are_met (value_rules wanted given.value) }
    ensures findings { findings.new ≡ fold noted findings.old
        (because_of (put_why (typed_part part (Word wanted)) given_as given) place (value_rules wanted given.value)) }
{
    let word = ValueType::Word(wanted);
    let types = ComparedTypes::Two(typed_part(part, word), typed_part(given_as, given.value));
    let literal = literal_as(word, given.literal);
    let uneven = word.differs_in_width(given.value);
    let wrong = !word.is_alike(given.value);
    let leaks = !wanted.label.is_secret() && given.value.is_hidden();
    findings.note(
        uneven,
        place,
        Rule::WidthsDiffer,
        Why::Types(types, literal),
    );
    findings.note(wrong, place, Rule::WrongKind, Why::Types(types, None));
    findings.note(
        leaks,
        place,
        Rule::SecretToPublic,
        Why::Leak(types, given.secret),
    );
    !(uneven || wrong || leaks)
}

/// Notes what a value violates where this word is wanted for a part.
pub fn note_value(findings: &mut Findings, place: Place, part: Part, wanted: WordType, given: Typed)
    ensures { findings.new ≡ fold noted findings.old (value_violations place part wanted given) }
{
    note_put(findings, place, wanted, part, Part::Value, given);
}

/// Notes something public that is assigned to under secret control.
pub fn note_control(
    findings: &mut Findings,
    place: Place,
    control: Option<SecretControl>,
    label: Label,
)
    ensures { findings.new ≡ fold noted findings.old (control_violations control place label) }
{
    let told = !label.is_secret() && control.is_some();
    let rule = Rule::PublicAssignedUnderSecretControl;
    findings.note(told, place, rule, control_why(control));
}

/// Whether two arrays are of one shape and label.
fn is_same_array(one: ArrayType, other: ArrayType) -> bool
    ensures { result ≡ same_array one other }
{
    one.element.kind.is_same(other.element.kind)
        && one.length == other.length
        && one.element.label.is_same(other.element.label)
}

/// Notes what an argument violates where this array is wanted for a part, and says whether it violates nothing.
fn note_shape(
    findings: &mut Findings,
    place: Place,
    wanted: ArrayType,
    part: Part,
    given: Typed,
) -> bool
    ensures met { result ≡ are_met (shape_rules wanted given.value) }
    ensures findings { findings.new ≡ fold noted findings.old
        (because_of (argument_why (typed_part part (Array wanted)) given) place (shape_rules wanted given.value)) }
{
    let one = typed_part(part, ValueType::Array(wanted));
    let other = typed_part(Part::Argument, given.value);
    match given.value {
        ValueType::Array(array) => {
            let same = is_same_array(wanted, array);
            findings.note(
                !same,
                place,
                Rule::ArrayShapeOrLabel,
                Why::Shapes(one, other),
            );
            same
        }
        ValueType::Word(_) | ValueType::Nothing => {
            let why = Why::Types(ComparedTypes::Two(one, other), None);
            findings.note(true, place, Rule::WrongKind, why);
            false
        }
    }
}

/// Notes what an argument violates where this is wanted for a part, and says whether it violates nothing.
pub fn note_argument(
    findings: &mut Findings,
    place: Place,
    part: Part,
    wanted: ValueType,
    given: Typed,
) -> bool
    ensures met { result ≡ are_met (argument_rules wanted given.value) }
    ensures findings { findings.new ≡ fold noted findings.old
        (because_of (argument_why (typed_part part wanted) given) place (argument_rules wanted given.value)) }
{
    match wanted {
        ValueType::Word(word) => note_put(findings, place, word, part, Part::Argument, given),
        ValueType::Array(array) => note_shape(findings, place, array, part, given),
        ValueType::Nothing => true,
    }
}
