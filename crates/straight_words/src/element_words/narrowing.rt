// Which arrays still become words, once it is seen how each is used: by known indices alone.

ghost use Rattle.std.specs.Prelude.{◌≡◌, map};
ghost use Rattle.std.specs.Option.{option_map};
ghost use Rattle.straight_words.specs.Below.{straight_block, straight_tree, term_tree};
ghost use Rattle.straight_words.specs.element_words.private.Narrowing.{all_narrowed, narrowed, narrowed_at};
ghost use Rattle.straight_words.specs.element_words.private.Narrowing.{narrowed_by};
ghost use Rattle.straight_words.specs.element_words.private.Narrowing.{narrowed_by_all, narrowed_put, narrowed_result};

use crate::element_words::parts::SplitArrays;
use branch_removal::StraightStatement;
use inline::Term;

/// An array stays whole unless this use of it is a word.
fn narrow_at(parts: &mut SplitArrays, array: u32, index: &Term)
    ensures { parts.new.arrays.items ≡ narrowed_at parts.old.arrays.items array (term_tree index.now) }
{
    if parts.word(array, index).is_none() {
        parts.leave_whole(array);
    }
}

/// The uses in an expression.
fn narrow(parts: &mut SplitArrays, term: &Term)
    ensures { parts.new.arrays.items ≡ narrowed parts.old.arrays.items (term_tree term.now) }
{
    match term {
        Term::Number(_, _) | Term::Truth(_) | Term::Variable(_) => {}
        Term::Prefix(_, _, operand) | Term::Rotate(_, operand, _) | Term::Convert(_, operand) => {
            narrow(parts, operand);
        }
        Term::Binary(_, _, _, left, right) => {
            narrow(parts, left);
            narrow(parts, right);
        }
        Term::Select(condition, accepted, otherwise) => {
            narrow(parts, condition);
            narrow(parts, accepted);
            narrow(parts, otherwise);
        }
        Term::Element(_, array, _, index) => {
            narrow_at(parts, *array, index);
            narrow(parts, index);
        }
    }
}

/// Those in expressions.
fn narrow_all(parts: &mut SplitArrays, terms: &[Term])
    ensures { parts.new.arrays.items ≡ all_narrowed parts.old.arrays.items (map term_tree terms.now) }
{
    for term in terms {
        narrow(parts, term);
    }
}

/// Those where an element is set.
fn narrow_put(parts: &mut SplitArrays, array: u32, index: &Term, value: &Term)
    ensures { parts.new.arrays.items
        ≡ narrowed_put parts.old.arrays.items array (term_tree index.now) (term_tree value.now) }
{
    narrow_at(parts, array, index);
    narrow(parts, index);
    narrow(parts, value);
}

/// Those in a statement.
#[cycle(narrowing)]
fn narrow_by(parts: &mut SplitArrays, statement: &StraightStatement)
    ensures { parts.new.arrays.items ≡ narrowed_by parts.old.arrays.items (straight_tree statement.now) }
{
    match statement {
        StraightStatement::Set(_, _, value) | StraightStatement::Take(_, _, value) => {
            narrow(parts, value);
        }
        StraightStatement::Array(_, _, values) => narrow_all(parts, values),
        StraightStatement::Put(_, _, array, _, index, value) => {
            narrow_put(parts, *array, index, value);
        }
        StraightStatement::Branch(condition, accepted, otherwise) => {
            narrow(parts, condition);
            narrow_by_all(parts, accepted);
            narrow_by_all(parts, otherwise);
        }
        StraightStatement::Repeat(_, low, high, body) => {
            narrow(parts, low);
            narrow(parts, high);
            narrow_by_all(parts, body);
        }
    }
}

/// Those in statements.
#[cycle(narrowing)]
pub fn narrow_by_all(parts: &mut SplitArrays, body: &[StraightStatement])
    ensures { parts.new.arrays.items ≡ narrowed_by_all parts.old.arrays.items (straight_block body.now) }
{
    for statement in body {
        narrow_by(parts, statement);
    }
}

/// Those in a result, where there is one.
pub fn narrow_result(parts: &mut SplitArrays, value: Option<&Term>)
    ensures { parts.new.arrays.items
        ≡ narrowed_result parts.old.arrays.items (option_map (λ term. term_tree term.now) value.entry) }
{
    if let Some(value) = value {
        narrow(parts, value);
    }
}
