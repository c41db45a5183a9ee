// The table of habits: what stands at and around the place, and what to write instead.

ghost use Rattle.std.specs.Prelude.{◌≡◌, drop, map, take};
ghost use Rattle.std.specs.List.{find, list_any, slice_split};
ghost use Rattle.std.specs.Option.{option_map};
ghost use Rattle.explanations.specs.habits.Habits.{advice_for, fits, habits, is_one_of};
ghost use Rattle.explanations.specs.private.HabitRows.{is_inside, meets, shown};
ghost use Rattle.explanations.specs.habits.Spots.{spot_of};

use crate::habits::advice::{
    BRACES, CALL, COMMENT, COMPARISON, COMPOUND, CONVERSION, COUNTED, EARLY_RETURN, EQUALS, FIELDS,
    FIRST_VALUE, GLOBAL, IMPORT, JUMP, KEYWORD, LABEL, LEAVE, LENGTH, MUTABLE_WORD, NO_PARAMETERS,
    NO_RESULT, ONE_VARIABLE, POINTER, QUALIFIER, ROTATED, ROTATION, SEMICOLON, STEP, SWITCH, TYPE,
    UNSIGNED_SHIFT, WHILE, WIDE,
};
use crate::habits::spots::{Region, Spot};

/// A habit of C: what stands where it is refused, and what to write instead. A text is some words with a blank between
/// each two, of which one stands there; where it is empty, anything may.
#[derive(Clone, Copy)]
struct Habit {
    /// The part of the program.
    region: Option<Region>,
    /// The first token of the statement.
    start: &'static str,
    /// The second token before the place, and the one before it.
    second: &'static str,
    before: &'static str,
    /// The token at the place, and the next.
    here: &'static str,
    next: &'static str,
    /// What to write instead.
    advice: &'static str,
}

/// What is left open.
const ANYWHERE: Habit = Habit {
    region: None,
    start: "",
    second: "",
    before: "",
    here: "",
    next: "",
    advice: "",
};

const STATEMENT_ENDS: &str = "; { }";

const TYPES: &str = "bool uint8 uint16 uint32";

const C_TYPES: &str = "int char short long unsigned signed float double size_t \
    uint8_t uint16_t uint32_t int8_t int16_t int32_t int8 int16 int32";

const WIDE_TYPES: &str = "uint64 uint64_t int64 int64_t";

const QUALIFIERS: &str = "const static inline volatile extern register restrict";

const DECLARERS: &str = "struct union enum typedef";

const KEYWORDS: &str =
    "export void public secret mut bool uint8 uint16 uint32 true false if else for from to return select";

const OPERATORS: &str = "+ - * / % & | ^ << >> <<<";

const BEFORE_OPERANDS: &str =
    "+ - * / % & | ^ << >> ~ ! == != < <= > >= && || ( , [ { return from to";

const COMPARISONS: &str = "== != < <= > >=";

/// Habits of statements, of comments and of steps.
const STATEMENT_HABITS: [Habit; 15] = [
    Habit {
        here: "/",
        next: "*",
        advice: COMMENT,
        ..ANYWHERE
    },
    Habit {
        before: "/",
        here: "*",
        advice: COMMENT,
        ..ANYWHERE
    },
    Habit {
        here: "+",
        next: "+",
        advice: STEP,
        ..ANYWHERE
    },
    Habit {
        here: "-",
        next: "-",
        advice: STEP,
        ..ANYWHERE
    },
    Habit {
        before: "+",
        here: "+",
        advice: STEP,
        ..ANYWHERE
    },
    Habit {
        second: "-",
        before: "-",
        advice: STEP,
        ..ANYWHERE
    },
    Habit {
        here: OPERATORS,
        next: "=",
        advice: COMPOUND,
        ..ANYWHERE
    },
    Habit {
        second: "for",
        before: "(",
        advice: COUNTED,
        ..ANYWHERE
    },
    Habit {
        region: Some(Region::Brackets),
        start: "for",
        here: "=",
        advice: COUNTED,
        ..ANYWHERE
    },
    Habit {
        start: "while do",
        advice: WHILE,
        ..ANYWHERE
    },
    Habit {
        start: "switch",
        advice: SWITCH,
        ..ANYWHERE
    },
    Habit {
        region: Some(Region::Body),
        before: "; { } ) else",
        here: "return",
        advice: EARLY_RETURN,
        ..ANYWHERE
    },
    Habit {
        before: "return",
        here: ";",
        advice: NO_RESULT,
        ..ANYWHERE
    },
    Habit {
        start: "break continue",
        before: "break continue",
        advice: LEAVE,
        ..ANYWHERE
    },
    Habit {
        start: "goto",
        before: "goto",
        advice: JUMP,
        ..ANYWHERE
    },
];

/// Habits of types, of pointers and of what is included.
const TYPE_HABITS: [Habit; 15] = [
    Habit {
        here: DECLARERS,
        advice: FIELDS,
        ..ANYWHERE
    },
    Habit {
        start: DECLARERS,
        before: DECLARERS,
        advice: FIELDS,
        ..ANYWHERE
    },
    Habit {
        region: Some(Region::Outside),
        here: "import include using use",
        advice: IMPORT,
        ..ANYWHERE
    },
    Habit {
        here: WIDE_TYPES,
        advice: WIDE,
        ..ANYWHERE
    },
    Habit {
        start: WIDE_TYPES,
        before: WIDE_TYPES,
        advice: WIDE,
        ..ANYWHERE
    },
    Habit {
        here: QUALIFIERS,
        advice: QUALIFIER,
        ..ANYWHERE
    },
    Habit {
        start: QUALIFIERS,
        before: QUALIFIERS,
        advice: QUALIFIER,
        ..ANYWHERE
    },
    Habit {
        here: C_TYPES,
        advice: TYPE,
        ..ANYWHERE
    },
    Habit {
        start: C_TYPES,
        before: C_TYPES,
        advice: TYPE,
        ..ANYWHERE
    },
    Habit {
        second: C_TYPES,
        before: ")",
        advice: CONVERSION,
        ..ANYWHERE
    },
    Habit {
        second: "(",
        before: TYPES,
        here: ")",
        advice: CONVERSION,
        ..ANYWHERE
    },
    Habit {
        before: "(",
        here: "void",
        advice: NO_PARAMETERS,
        ..ANYWHERE
    },
    Habit {
        before: "bool uint8 uint16 uint32 void",
        here: "*",
        advice: POINTER,
        ..ANYWHERE
    },
    Habit {
        before: "; { } = ( , return",
        here: "* &",
        advice: POINTER,
        ..ANYWHERE
    },
    Habit {
        before: "-",
        here: ">",
        advice: POINTER,
        ..ANYWHERE
    },
];

/// Habits of declarations.
const DECLARATION_HABITS: [Habit; 11] = [
    Habit {
        region: Some(Region::Outside),
        second: TYPES,
        here: "= ; [ ,",
        advice: GLOBAL,
        ..ANYWHERE
    },
    Habit {
        region: Some(Region::Outside),
        before: TYPES,
        here: "[",
        advice: GLOBAL,
        ..ANYWHERE
    },
    Habit {
        region: Some(Region::Outside),
        before: "public secret",
        here: "mut",
        advice: GLOBAL,
        ..ANYWHERE
    },
    Habit {
        second: TYPES,
        here: "[",
        advice: LENGTH,
        ..ANYWHERE
    },
    Habit {
        region: Some(Region::Brackets),
        second: "mut",
        before: TYPES,
        advice: MUTABLE_WORD,
        ..ANYWHERE
    },
    Habit {
        region: Some(Region::Body),
        second: TYPES,
        here: ";",
        advice: FIRST_VALUE,
        ..ANYWHERE
    },
    Habit {
        region: Some(Region::Body),
        second: TYPES,
        here: ",",
        advice: ONE_VARIABLE,
        ..ANYWHERE
    },
    Habit {
        region: Some(Region::Body),
        start: "public secret",
        here: ",",
        advice: ONE_VARIABLE,
        ..ANYWHERE
    },
    Habit {
        before: " ; { } ( , export",
        here: "mut bool uint8 uint16 uint32",
        advice: LABEL,
        ..ANYWHERE
    },
    Habit {
        before: TYPES,
        here: KEYWORDS,
        advice: KEYWORD,
        ..ANYWHERE
    },
    Habit {
        before: STATEMENT_ENDS,
        here: "from to select",
        advice: KEYWORD,
        ..ANYWHERE
    },
];

/// Habits of expressions, and of what stands around blocks.
const EXPRESSION_HABITS: [Habit; 13] = [
    Habit {
        before: ">>",
        here: ">",
        advice: UNSIGNED_SHIFT,
        ..ANYWHERE
    },
    Habit {
        before: "<<<",
        advice: ROTATION,
        ..ANYWHERE
    },
    Habit {
        second: "<<<",
        here: "+ - * / %",
        advice: ROTATED,
        ..ANYWHERE
    },
    Habit {
        region: Some(Region::Body),
        start: "if else for",
        before: ")",
        advice: BRACES,
        ..ANYWHERE
    },
    Habit {
        before: "else",
        advice: BRACES,
        ..ANYWHERE
    },
    Habit {
        second: BEFORE_OPERANDS,
        here: "(",
        advice: CALL,
        ..ANYWHERE
    },
    Habit {
        region: Some(Region::Body),
        before: ")",
        here: OPERATORS,
        advice: CALL,
        ..ANYWHERE
    },
    Habit {
        second: COMPARISONS,
        here: COMPARISONS,
        advice: COMPARISON,
        ..ANYWHERE
    },
    Habit {
        before: ")",
        here: COMPARISONS,
        advice: COMPARISON,
        ..ANYWHERE
    },
    Habit {
        region: Some(Region::Body),
        second: "=",
        here: "=",
        advice: EQUALS,
        ..ANYWHERE
    },
    Habit {
        region: Some(Region::Brackets),
        start: "if else",
        second: "( && || !",
        here: "=",
        advice: EQUALS,
        ..ANYWHERE
    },
    Habit {
        region: Some(Region::Brackets),
        start: "if else",
        before: "]",
        here: "=",
        advice: EQUALS,
        ..ANYWHERE
    },
    Habit {
        before: STATEMENT_ENDS,
        here: ";",
        advice: SEMICOLON,
        ..ANYWHERE
    },
];

/// The habits of statements, with which the table begins.
fn statements() -> &'static [Habit]
    ensures { map shown result.now ≡ take 15 habits }
{
    &STATEMENT_HABITS
}

/// Those of types, behind them.
fn types() -> &'static [Habit]
    ensures { map shown result.now ≡ take 15 (drop 15 habits) }
{
    &TYPE_HABITS
}

/// Those of declarations, behind these.
fn declarations() -> &'static [Habit]
    ensures { map shown result.now ≡ take 11 (drop 30 habits) }
{
    &DECLARATION_HABITS
}

/// Those of expressions, with which it ends.
fn expressions() -> &'static [Habit]
    ensures { map shown result.now ≡ drop 41 habits }
{
    &EXPRESSION_HABITS
}

/// Whether a text is one of some words, which have a blank between them.
fn is_one_of(words: &str, text: &str) -> bool
    ensures { result ≡ is_one_of words.now text.now }
{
    words.split(' ').any(|word| word == text)
}

/// Whether a text is one of some words, where there are any.
fn meets(words: &str, text: &str) -> bool
    ensures { result ≡ meets words.now text.now }
{
    words.is_empty() || is_one_of(words, text)
}

/// Whether a place is in a part of a program, where one is named.
fn is_inside(region: Option<Region>, place: Region) -> bool
    ensures { result ≡ is_inside region place }
{
    match region {
        Some(region) => region == place,
        None => true,
    }
}

/// Whether a habit fits a place.
fn fits(spot: &Spot<'_>, habit: &Habit) -> bool
    ensures { result ≡ fits (spot_of spot.now) (shown habit.now) }
{
    is_inside(habit.region, spot.region)
        && meets(habit.start, spot.statement_start())
        && meets(habit.second, spot.second)
        && meets(habit.before, spot.before)
        && meets(habit.here, spot.here)
        && meets(habit.next, spot.next)
}

/// The first habit that fits a place.
fn first_fitting(spot: &Spot<'_>, habits: &'static [Habit]) -> Option<Habit>
    ensures { result ≡ find (λ habit. fits (spot_of spot.now) (shown habit)) habits.now }
{
    habits.iter().copied().find(|habit| fits(spot, habit))
}

/// The first habit of the table that fits a place.
fn habit_at(spot: &Spot<'_>) -> Option<Habit>
    ensures { option_map shown result ≡ find (fits (spot_of spot.now)) habits }
{
    first_fitting(spot, statements())
        .or(first_fitting(spot, types()))
        .or(first_fitting(spot, declarations()))
        .or(first_fitting(spot, expressions()))
}

/// What to write instead of the first habit that fits a place.
pub(crate) fn advice_for(spot: &Spot<'_>) -> Option<&'static str>
    ensures { option_map (λ text. text.now) result ≡ advice_for (spot_of spot.now) }
{
    match habit_at(spot) {
        Some(habit) => Some(habit.advice),
        None => None,
    }
}
