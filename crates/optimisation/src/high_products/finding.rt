// Whether code makes an upper word of a product.

ghost use Rattle.std.specs.Prelude.{◌≡◌, ◌||◌, map};
ghost use Rattle.std.specs.Option.{option_map};
ghost use Rattle.optimisation.specs.Below.{straight_block, straight_tree, term_tree};
ghost use Rattle.optimisation.specs.high_products.private.Replacing as definitions;

use crate::high_products::shapes::upper_word;
use branch_removal::{StraightCode, StraightStatement};
use inline::Term;

/// Whether an expression makes one.
fn makes(term: &Term) -> bool
    ensures { result ≡ definitions.makes (term_tree term.now) }
{
    match term {
        Term::Number(_, _) | Term::Truth(_) | Term::Variable(_) => false,
        Term::Prefix(_, _, operand) | Term::Rotate(_, operand, _) | Term::Convert(_, operand) => {
            makes(operand)
        }
        Term::Binary(_, _, _, left, right) => {
            upper_word(term).is_some() || makes(left) || makes(right)
        }
        Term::Select(condition, accepted, otherwise) => {
            makes(condition) || makes(accepted) || makes(otherwise)
        }
        Term::Element(_, _, _, index) => makes(index),
    }
}

/// Whether one of some expressions does.
fn one_makes(terms: &[Term]) -> bool
    ensures { result ≡ definitions.one_makes (map term_tree terms.now) }
{
    for term in terms {
        if makes(term) {
            return true;
        }
    }
    false
}

/// Whether an expression does, where there is one.
fn makes_where_any(term: Option<&Term>) -> bool
    ensures { result ≡ definitions.makes_where_any (option_map (λ term. term_tree term.now) term.entry) }
{
    match term {
        Some(term) => makes(term),
        None => false,
    }
}

/// Whether any of three holds.
fn any_of_three(one: bool, two: bool, three: bool) -> bool
    ensures { result ≡ (one || two || three) }
{
    one || two || three
}

/// Whether a statement does.
#[cycle(finding)]
fn makes_in(statement: &StraightStatement) -> bool
    ensures { result ≡ definitions.makes_in (straight_tree statement.now) }
{
    match statement {
        StraightStatement::Set(_, _, value) | StraightStatement::Take(_, _, value) => makes(value),
        StraightStatement::Array(_, _, values) => one_makes(values),
        StraightStatement::Put(_, _, _, _, index, value) => makes(index) || makes(value),
        StraightStatement::Branch(condition, accepted, otherwise) => {
            let chosen = makes(condition);
            let one = one_makes_in(accepted);
            let other = one_makes_in(otherwise);
            any_of_three(chosen, one, other)
        }
        StraightStatement::Repeat(_, low, high, body) => {
            let from = makes(low);
            let to = makes(high);
            let each = one_makes_in(body);
            any_of_three(from, to, each)
        }
    }
}

/// Whether one of some statements does.
#[cycle(finding)]
fn one_makes_in(statements: &[StraightStatement]) -> bool
    ensures { result ≡ definitions.one_makes_in (straight_block statements.now) }
{
    for statement in statements {
        if makes_in(statement) {
            return true;
        }
    }
    false
}

/// Whether a program does.
pub fn program_makes(straight: &StraightCode<'_>) -> bool
    ensures { result ≡ definitions.program_makes straight.now }
{
    one_makes_in(straight.body()) || makes_where_any(straight.value())
}
