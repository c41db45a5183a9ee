// The type of an expression of straight code, where it is well typed: what the language gives for each operator, which
// works at the width of its operand.

ghost use Rattle.std.specs.Prelude.{◌≡◌, None};
ghost use Rattle.std.specs.Option.{option_map};
ghost use Rattle.branch_removal.specs.Below.{of_one, of_three, of_two, select_type, term_tree, Word};
ghost use Rattle.branch_removal.specs.private.Checks.{between, converted, element_in, indexed, is_at, is_counter};
ghost use Rattle.branch_removal.specs.private.Checks.{prefixed, rotated, type_of, types_beside, variable_at, word_in};

use inline::{FlatVariable, Term};
use language::{BinaryOperator, Kind, Label, PrefixOperator, ValueType, WordType};
use word::{Profile, Width};

/// The variable of a number, where it is not the one that is left out.
pub fn variable_at(
    declared: &[FlatVariable],
    without: Option<u32>,
    number: u32,
) -> Option<FlatVariable>
    ensures { result ≡ variable_at declared.now without number }
{
    if let Some(other) = without {
        if number == other {
            return None;
        }
    }
    declared.get(number as usize).copied()
}

/// The type of a variable that is a word.
pub fn word_in(variable: Option<FlatVariable>) -> Option<WordType>
    ensures { result ≡ word_in variable }
{
    let variable = variable?;
    match variable.elements {
        None => Some(variable.word),
        Some(_) => None,
    }
}

/// The type of the elements of a variable that is an array of so many.
pub fn element_in(size: u32, variable: Option<FlatVariable>) -> Option<WordType>
    ensures { result ≡ element_in size variable }
{
    let variable = variable?;
    let elements = variable.elements?;
    (elements == size).then_some(variable.word)
}

/// The type of a word, where there is one.
fn word_type(word: Option<WordType>) -> Option<ValueType>
    ensures { result ≡ option_map Word word }
{
    Some(ValueType::Word(word?))
}

/// Whether an operand has this width.
fn is_at(width: Width, operand: ValueType) -> bool
    ensures { result ≡ is_at width operand }
{
    width.bits() == operand.kind().width().bits()
}

/// Whether it is a public `uint32`.
pub fn is_counter(value: ValueType) -> bool
    ensures { result ≡ is_counter value }
{
    value.is_numeric() && !value.is_narrow() && !value.is_hidden()
}

/// The type of a sign's value.
fn prefixed(operator: PrefixOperator, width: Width, operand: Option<ValueType>) -> Option<ValueType>
    ensures { result ≡ of_one None (prefixed operator width) operand }
{
    let operand = operand?;
    let fits = match operator {
        PrefixOperator::Not => operand.is_bool(),
        PrefixOperator::Complement => operand.is_numeric(),
        PrefixOperator::Negate => operand.is_numeric(),
    };
    (is_at(width, operand) && fits).then_some(operand)
}

/// The type of what an operator makes of two operands.
fn between(
    profile: Profile,
    operator: BinaryOperator,
    width: Width,
    left: Option<ValueType>,
    right: Option<ValueType>,
) -> Option<ValueType>
    ensures { result ≡ of_two None (between profile operator width) left right }
{
    let left = left?;
    let right = right?;
    let operation = operator.operation();
    if !is_at(width, left)
        || operation.is_uneven(left, right)
        || !operation.takes(left, right)
        || operation.divides_secret(left, right)
        || operation.multiplies_secret(profile, left, right)
    {
        return None;
    }
    let kind = operation.result_kind(left.kind());
    Some(ValueType::word(kind, left.label().join(right.label())))
}

/// The type of a rotation.
fn rotated(width: Width, amount: u32, operand: Option<ValueType>) -> Option<ValueType>
    ensures { result ≡ of_one None (rotated width amount) operand }
{
    let operand = operand?;
    let within = 0 < amount && amount < operand.kind().bits();
    (is_at(width, operand) && operand.is_numeric() && within).then_some(operand)
}

/// The type of a conversion.
fn converted(kind: Kind, operand: Option<ValueType>) -> Option<ValueType>
    ensures { result ≡ of_one None (converted kind) operand }
{
    let operand = operand?;
    let fits = operand.is_numeric() || operand.is_bool();
    (kind.is_number() && fits).then_some(ValueType::word(kind, operand.label()))
}

/// The type of a selection.
fn selected(
    condition: Option<ValueType>,
    accepted: Option<ValueType>,
    otherwise: Option<ValueType>,
) -> Option<ValueType>
    ensures { result ≡ of_three None select_type condition accepted otherwise }
{
    let condition = condition?;
    let accepted = accepted?;
    let otherwise = otherwise?;
    if accepted.differs_in_width(otherwise)
        || !(condition.is_bool() && accepted.is_alike(otherwise))
    {
        return None;
    }
    let label = accepted.label().join(otherwise.label());
    Some(ValueType::word(accepted.kind(), condition.label().join(label)))
}

/// The type of an element.
fn indexed(element: Option<WordType>, index: Option<ValueType>) -> Option<ValueType>
    ensures { result ≡ of_one None (indexed element) index }
{
    if is_counter(index?) {
        word_type(element)
    } else {
        None
    }
}

/// The type of an expression, where it is well typed. One variable may be left out.
pub fn type_of(
    profile: Profile,
    declared: &[FlatVariable],
    without: Option<u32>,
    term: &Term,
) -> Option<ValueType>
    ensures { result ≡ type_of (types_beside profile declared.now without) (term_tree term.now) }
{
    match term {
        Term::Number(value, kind) => {
            let word = ValueType::word(*kind, Label::Public);
            kind.includes(*value).then_some(word)
        }
        Term::Truth(_) => Some(ValueType::word(Kind::Boolean, Label::Public)),
        Term::Variable(number) => word_type(word_in(variable_at(declared, without, *number))),
        Term::Prefix(operator, width, operand) => {
            let operand = type_of(profile, declared, without, operand);
            prefixed(*operator, *width, operand)
        }
        Term::Binary(_, operator, width, left, right) => {
            let left = type_of(profile, declared, without, left);
            let right = type_of(profile, declared, without, right);
            between(profile, *operator, *width, left, right)
        }
        Term::Rotate(width, operand, amount) => {
            let operand = type_of(profile, declared, without, operand);
            rotated(*width, *amount, operand)
        }
        Term::Convert(kind, operand) => {
            converted(*kind, type_of(profile, declared, without, operand))
        }
        Term::Select(condition, accepted, otherwise) => {
            let condition = type_of(profile, declared, without, condition);
            let accepted = type_of(profile, declared, without, accepted);
            let otherwise = type_of(profile, declared, without, otherwise);
            selected(condition, accepted, otherwise)
        }
        Term::Element(_, number, size, index) => {
            let element = element_in(*size, variable_at(declared, without, *number));
            indexed(element, type_of(profile, declared, without, index))
        }
    }
}
