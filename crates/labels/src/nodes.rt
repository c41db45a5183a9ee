ghost use Rattle.std.specs.Prelude.{◌≡◌, Some, None, fold};
ghost use Rattle.std.specs.Option.{option_map};
ghost use Rattle.labels.specs.Below.{asked_of_one, asked_of_three, asked_of_two, because, binary_rules, binary_type};
ghost use Rattle.labels.specs.Below.{choice_why, convert_rules, convert_type, element_rules, element_type};
ghost use Rattle.labels.specs.Below.{element_why, Number, number_rules, of_one, of_three, of_two, operand_why};
ghost use Rattle.labels.specs.Below.{operands_why, prefix_rules, prefix_type, Public, rotate_rules, rotate_type};
ghost use Rattle.labels.specs.Below.{rotate_why, select_rules, select_type, noted, typed_as, unless, word};
ghost use Rattle.labels.specs.Below.{WrongKind};
ghost use Rattle.language.specs.Operators.{operation_of};
ghost use Rattle.labels.specs.private.Made.{of_choice, of_operand, of_operands};

use crate::reasons::{either_literal, operand_literal, typed_part, whole_literal};
use findings::Findings;
use language::{
    BinaryOperator, ComparedTypes, Kind, Label, Literal, Part, Place, PrefixOperator, Profile,
    Rule, Typed, ValueType, Why,
};

/// Notes what a number violates, and gives what is known of it where it is well typed, as each function below.
pub fn number(findings: &mut Findings, place: Place, value: u32, kind: Kind) -> Option<Typed>
    ensures typed { result
        ≡ option_map (typed_as None (Some value)) (unless (number_rules value kind) (word kind Public)) }
    ensures findings { findings.new
        ≡ fold noted findings.old
        (because (Number (record { value = value; kind = kind })) place (number_rules value kind)) }
{
    let within = kind.includes(value);
    let why = Why::Number(Literal { value, kind });
    findings.note(!within, place, Rule::LiteralOutOfRange, why);
    within.then_some(Typed {
        value: ValueType::word(kind, Label::Public),
        secret: None,
        literal: Some(value),
    })
}

/// What is made of operands: a value with the first secret name in them, and no number.
fn made(value: ValueType, secret: Option<Place>) -> Typed
    ensures { result ≡ typed_as secret None value }
{
    Typed {
        value,
        secret,
        literal: None,
    }
}

/// Why an operand is of the wrong kind.
fn operand_why(operand: Typed) -> Why
    ensures { result ≡ operand_why operand WrongKind }
{
    let operand = typed_part(Part::Operand, operand.value);
    Why::Types(ComparedTypes::One(operand), None)
}

/// A sign before an operand.
pub fn prefix(
    findings: &mut Findings,
    place: Place,
    operator: PrefixOperator,
    operand: Option<Typed>,
) -> Option<Typed>
    ensures typed { result ≡ of_one None (of_operand (prefix_type operator)) operand }
    ensures findings { findings.new
        ≡ fold noted findings.old (asked_of_one operand_why place (prefix_rules operator) operand) }
{
    let operand = operand?;
    let fits = match operator {
        PrefixOperator::Not => operand.value.is_bool(),
        PrefixOperator::Complement => operand.value.is_numeric(),
        PrefixOperator::Negate => operand.value.is_numeric(),
    };
    findings.note(!fits, place, Rule::WrongKind, operand_why(operand));
    fits.then_some(made(operand.value, operand.secret))
}

/// An operator between two operands, for an observer.
pub fn binary(
    findings: &mut Findings,
    profile: Profile,
    place: Place,
    operator: BinaryOperator,
    left: Option<Typed>,
    right: Option<Typed>,
) -> Option<Typed>
    ensures typed { result ≡ of_two None (of_operands (binary_type profile operator)) left right }
    ensures findings { findings.new ≡ fold noted findings.old
        (asked_of_two (operands_why (operation_of operator)) place (binary_rules profile operator) left right) }
{
    let left = left?;
    let right = right?;
    let operation = operator.operation();
    let (one, other) = (left.value, right.value);
    let types = ComparedTypes::Two(
        typed_part(Part::LeftOperand, one),
        typed_part(Part::RightOperand, other),
    );
    let literal = operand_literal(operation, left, right);
    let secret = left.secret.or(right.secret);
    let uneven = operation.is_uneven(one, other);
    let wrong = !operation.takes(one, other);
    let told = operation.divides_secret(one, other);
    let shown = operation.multiplies_secret(profile, one, other);
    findings.note(
        uneven,
        place,
        Rule::WidthsDiffer,
        Why::Types(types, literal),
    );
    findings.note(wrong, place, Rule::WrongKind, Why::Types(types, None));
    findings.note(
        told,
        place,
        Rule::SecretDivisionOperand,
        Why::Secret(secret),
    );
    findings.note(
        shown,
        place,
        Rule::SecretMultiplicationOperand,
        Why::Secret(secret),
    );
    if uneven || wrong || told || shown {
        return None;
    }
    let kind = operation.result_kind(one.kind());
    let label = one.label().join(other.label());
    Some(made(ValueType::word(kind, label), secret))
}

/// A rotation by so many bits.
pub fn rotate(
    findings: &mut Findings,
    place: Place,
    amount: u32,
    operand: Option<Typed>,
) -> Option<Typed>
    ensures typed { result ≡ of_one None (of_operand (rotate_type amount)) operand }
    ensures findings { findings.new
        ≡ fold noted findings.old (asked_of_one (rotate_why amount) place (rotate_rules amount) operand) }
{
    let operand = operand?;
    let kind = operand.value.kind();
    let wrong = !operand.value.is_numeric();
    let within = 0 < amount && amount < kind.bits();
    let outside = operand.value.is_numeric() && !within;
    let why = Why::Amount(Literal {
        value: amount,
        kind,
    });
    findings.note(wrong, place, Rule::WrongKind, operand_why(operand));
    findings.note(outside, place, Rule::LiteralOutOfRange, why);
    if wrong || outside {
        return None;
    }
    Some(made(operand.value, operand.secret))
}

/// A conversion.
pub fn convert(
    findings: &mut Findings,
    place: Place,
    kind: Kind,
    operand: Option<Typed>,
) -> Option<Typed>
    ensures typed { result ≡ of_one None (of_operand (convert_type kind)) operand }
    ensures findings { findings.new ≡ fold noted findings.old (asked_of_one operand_why place convert_rules operand) }
{
    let operand = operand?;
    let fits = operand.value.is_numeric() || operand.value.is_bool();
    findings.note(!fits, place, Rule::WrongKind, operand_why(operand));
    let value = ValueType::word(kind, operand.value.label());
    fits.then_some(made(value, operand.secret))
}

/// A choice between two operands.
pub fn choice(
    findings: &mut Findings,
    place: Place,
    condition: Option<Typed>,
    accepted: Option<Typed>,
    otherwise: Option<Typed>,
) -> Option<Typed>
    ensures typed { result ≡ of_three None (of_choice select_type) condition accepted otherwise }
    ensures findings { findings.new
        ≡ fold noted findings.old (asked_of_three choice_why place select_rules condition accepted otherwise) }
{
    let condition = condition?;
    let accepted = accepted?;
    let otherwise = otherwise?;
    let (chooser, one, other) = (condition.value, accepted.value, otherwise.value);
    let types = ComparedTypes::Choice(chooser, one, other);
    let literal = either_literal(accepted, otherwise);
    let uneven = one.differs_in_width(other);
    let wrong = !(chooser.is_bool() && one.is_alike(other));
    findings.note(
        uneven,
        place,
        Rule::WidthsDiffer,
        Why::Types(types, literal),
    );
    findings.note(wrong, place, Rule::WrongKind, Why::Types(types, None));
    if uneven || wrong {
        return None;
    }
    let label = chooser.label().join(one.label().join(other.label()));
    let secret = condition.secret.or(accepted.secret.or(otherwise.secret));
    Some(made(ValueType::word(one.kind(), label), secret))
}

/// An element of an array.
pub fn element(
    findings: &mut Findings,
    place: Place,
    array: Option<Typed>,
    index: Option<Typed>,
) -> Option<Typed>
    ensures typed { result ≡ of_two None (of_operands element_type) array index }
    ensures findings { findings.new
        ≡ fold noted findings.old (asked_of_two element_why place element_rules array index) }
{
    let array = array?;
    let index = index?;
    let types = ComparedTypes::Two(
        typed_part(Part::Variable, array.value),
        typed_part(Part::Index, index.value),
    );
    let uneven = index.value.is_narrow();
    let wrong = !(array.value.is_array() && index.value.is_numeric());
    let told = index.value.is_hidden();
    findings.note(
        uneven,
        place,
        Rule::WidthsDiffer,
        Why::Types(types, whole_literal(index)),
    );
    findings.note(wrong, place, Rule::WrongKind, Why::Types(types, None));
    findings.note(told, place, Rule::SecretIndex, Why::Secret(index.secret));
    if uneven || wrong || told {
        return None;
    }
    let value = ValueType::word(array.value.kind(), array.value.label());
    Some(made(value, array.secret.or(index.secret)))
}
