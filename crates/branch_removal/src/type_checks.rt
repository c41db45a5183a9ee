// Whether straight code is well typed: what `StraightCode` asks of other statements before it takes them.

ghost use Rattle.std.specs.Prelude.{◌≡◌, ◌&&◌, false, map, None, Some};
ghost use Rattle.std.specs.Option.{option_map};
ghost use Rattle.branch_removal.specs.Below.{of_one, term_tree};
ghost use Rattle.branch_removal.specs.Straight.{straight_tree, straight_block};
ghost use Rattle.branch_removal.specs.private.Checks.{all_suit, are_typed, come_first, decides, element_in, is_among};
ghost use Rattle.branch_removal.specs.private.Checks.{is_counter, is_loop_counter, is_result, is_typed, may_fill};
ghost use Rattle.branch_removal.specs.private.Checks.{may_keep};
ghost use Rattle.branch_removal.specs.private.Checks.{may_set, suits, types_beside, variable_at};

use crate::StraightStatement;
use crate::term_types::{element_in, is_counter, type_of, variable_at, word_in};
use inline::{FlatVariable, Term};
use language::{Kind, Label, ValueType, WordType};
use word::Profile;

/// Whether a value may be put where that is wanted.
fn suits(wanted: WordType, value: Option<ValueType>) -> bool
    ensures { result ≡ of_one false (suits wanted) value }
{
    let word = ValueType::Word(wanted);
    match value {
        None => false,
        Some(value) => {
            !word.differs_in_width(value)
                && word.is_alike(value)
                && (wanted.label.is_secret() || !value.is_hidden())
        }
    }
}

/// Whether it is a public `uint32`.
fn counts(value: Option<ValueType>) -> bool
    ensures { result ≡ of_one false is_counter value }
{
    match value {
        None => false,
        Some(value) => is_counter(value),
    }
}

/// Whether it is a bool, and public where it has to be.
fn decides(public: bool, value: Option<ValueType>) -> bool
    ensures { result ≡ of_one false (decides public) value }
{
    match value {
        None => false,
        Some(value) => value.is_bool() && !(public && value.is_hidden()),
    }
}

/// Whether each value may be put where that is wanted.
fn all_suit(
    profile: Profile,
    declared: &[FlatVariable],
    without: Option<u32>,
    wanted: WordType,
    values: &[Term],
) -> bool
    ensures { result ≡ all_suit (types_beside profile declared.now without) wanted (map term_tree values.now) }
{
    for value in values {
        if !suits(wanted, type_of(profile, declared, without, value)) {
            return false;
        }
    }
    true
}

/// Whether it is the counter of a loop.
fn is_loop_counter(variable: Option<FlatVariable>) -> bool
    ensures { result ≡ is_loop_counter variable }
{
    let word = WordType {
        kind: Kind::Uint32,
        label: Label::Public,
    };
    let counter = FlatVariable {
        word,
        mutable: false,
        elements: None,
    };
    match variable {
        None => false,
        Some(variable) => counter == variable,
    }
}

/// Whether a control value is among so many.
fn is_among(controls: u32, within: Option<u32>) -> bool
    ensures { result ≡ is_among controls within }
{
    match within {
        None => true,
        Some(control) => control < controls,
    }
}

/// Whether what has this label may be set: under a control value only what is secret.
fn may_keep(within: Option<u32>, label: Label) -> bool
    ensures { result ≡ may_keep within label }
{
    match within {
        None => true,
        Some(_) => label.is_secret(),
    }
}

/// Whether a word of this type may be set to a value, under a control value where there is one.
fn may_set(
    profile: Profile,
    declared: &[FlatVariable],
    controls: u32,
    within: Option<u32>,
    wanted: Option<WordType>,
    value: &Term,
) -> bool
    ensures { result ≡ may_set (types_beside profile declared.now None) controls within wanted (term_tree value.now) }
{
    match wanted {
        None => false,
        Some(wanted) => {
            is_among(controls, within)
                && may_keep(within, wanted.label)
                && suits(wanted, type_of(profile, declared, None, value))
        }
    }
}

/// Whether an array of so many elements may be given these values, which do not go by what it held.
fn may_fill(
    profile: Profile,
    declared: &[FlatVariable],
    number: u32,
    size: u32,
    values: &[Term],
) -> bool
    ensures { result ≡ may_fill (types_beside profile declared.now (Some number)) size
        (element_in size (variable_at declared.now None number)) (map term_tree values.now) }
{
    match element_in(size, variable_at(declared, None, number)) {
        None => false,
        Some(wanted) => {
            (values.len() == 0 || values.len() == size as usize)
                && all_suit(profile, declared, Some(number), wanted, values)
        }
    }
}

/// Whether two tests hold, of which each is made.
fn both(one: bool, other: bool) -> bool
    ensures { result ≡ (one && other) }
{
    one && other
}

/// Whether a statement is well typed, with so many control values, and sets only what is secret under one.
#[cycle(types)]
fn is_typed(
    profile: Profile,
    declared: &[FlatVariable],
    controls: u32,
    statement: &StraightStatement,
) -> bool
    ensures { result ≡ is_typed profile declared.now controls (straight_tree statement.now) }
{
    match statement {
        StraightStatement::Set(within, number, value) => {
            let wanted = word_in(variable_at(declared, None, *number));
            may_set(profile, declared, controls, *within, wanted, value)
        }
        StraightStatement::Array(number, size, values) => {
            may_fill(profile, declared, *number, *size, values)
        }
        StraightStatement::Put(within, _, number, size, index, value) => {
            let wanted = element_in(*size, variable_at(declared, None, *number));
            counts(type_of(profile, declared, None, index))
                && may_set(profile, declared, controls, *within, wanted, value)
        }
        StraightStatement::Take(control, within, condition) => {
            u64::from(*control) + 1 < u64::from(controls)
                && is_among(controls, *within)
                && decides(false, type_of(profile, declared, None, condition))
        }
        StraightStatement::Branch(condition, accepted, otherwise) => {
            let decides = decides(true, type_of(profile, declared, None, condition));
            let one = are_typed(profile, declared, controls, accepted);
            let other = are_typed(profile, declared, controls, otherwise);
            both(both(decides, one), other)
        }
        StraightStatement::Repeat(counter, low, high, body) => {
            let from = counts(type_of(profile, declared, None, low));
            let to = counts(type_of(profile, declared, None, high));
            let iteration = are_typed(profile, declared, controls, body);
            let counts = is_loop_counter(variable_at(declared, None, *counter));
            both(both(both(counts, from), to), iteration)
        }
    }
}

/// Whether all statements are.
#[cycle(types)]
pub fn are_typed(
    profile: Profile,
    declared: &[FlatVariable],
    controls: u32,
    statements: &[StraightStatement],
) -> bool
    ensures { result ≡ are_typed profile declared.now controls (straight_block statements.now) }
{
    for statement in statements {
        if !is_typed(profile, declared, controls, statement) {
            return false;
        }
    }
    true
}

/// Whether a value stands exactly where there is a result, and suits its type.
pub fn is_result(
    profile: Profile,
    declared: &[FlatVariable],
    returned: Option<WordType>,
    value: Option<&Term>,
) -> bool
    ensures { result ≡ is_result (types_beside profile declared.now None) returned
        (option_map (λ term. term_tree term.now) value.entry) }
{
    match value {
        None => returned.is_none(),
        Some(value) => match returned {
            None => false,
            Some(wanted) => suits(wanted, type_of(profile, declared, None, value)),
        },
    }
}

/// Whether parameters are the first variables.
pub fn come_first(parameters: &[FlatVariable], declared: &[FlatVariable]) -> bool
    ensures { result ≡ come_first parameters.now declared.now }
{
    declared.starts_with(parameters)
}
