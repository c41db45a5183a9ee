// Which variables are words of one type.

ghost use Rattle.std.specs.Prelude.{◌≡◌, slice_get};
ghost use Rattle.straight_words.specs.private.SameWords.{are_alike, is_word, same_words};

use inline::FlatVariable;

/// Whether a variable with so many elements, where it is an array, is a word.
fn is_word(elements: Option<u32>) -> bool
    ensures { result ≡ is_word elements }
{
    match elements {
        None => true,
        Some(_) => false,
    }
}

/// Whether two variables are words of one type. One may be assigned to where the other may not: straight code sets
/// both.
fn same_words(one: FlatVariable, other: FlatVariable) -> bool
    ensures { result ≡ same_words one other }
{
    is_word(one.elements)
        && is_word(other.elements)
        && one.word.kind.is_same(other.word.kind)
        && one.word.label.is_same(other.word.label)
}

/// Whether there are two variables, and they are words of one type.
pub fn are_alike(one: Option<FlatVariable>, other: Option<FlatVariable>) -> bool
    ensures { result ≡ are_alike one other }
{
    match one {
        None => false,
        Some(one) => match other {
            None => false,
            Some(other) => same_words(one, other),
        },
    }
}

/// The variable of a number.
pub fn at(declared: &[FlatVariable], number: usize) -> Option<FlatVariable>
    ensures { result ≡ slice_get declared.now number }
{
    match declared.get(number) {
        Some(variable) => Some(*variable),
        None => None,
    }
}
