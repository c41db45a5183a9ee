// Which variables need not hold anything at first: what reads one comes behind a statement that sets it.

ghost use Rattle.std.specs.Prelude.{◌≡◌, map};
ghost use Rattle.codegen.specs.Below.{straight_block, straight_tree, term_tree};
ghost use Rattle.codegen.specs.private.Fresh.{is_fresh, names_in, names_in_any, names_in_result, passes, sets_fresh};
ghost use Rattle.codegen.specs.private.Fresh.{is_certain, starts_fresh};
ghost use Rattle.std.specs.Option.{option_map};

use branch_removal::{StraightCode, StraightStatement};
use expression_code::emit::NEAR;
use inline::Term;

/// Whether an expression names a variable.
fn names_in(term: &Term, variable: usize) -> bool
    ensures { result ≡ names_in variable (term_tree term.now) }
{
    match term {
        Term::Number(_, _) | Term::Truth(_) => false,
        Term::Variable(named) => *named as usize == variable,
        Term::Prefix(_, _, operand) | Term::Rotate(_, operand, _) | Term::Convert(_, operand) => {
            names_in(operand, variable)
        }
        Term::Element(_, array, _, index) => *array as usize == variable
            || names_in(index, variable),
        Term::Binary(_, _, _, left, right) => names_in(left, variable) || names_in(right, variable),
        Term::Select(condition, accepted, otherwise) => {
            names_in(condition, variable)
                || (names_in(accepted, variable) || names_in(otherwise, variable))
        }
    }
}

/// Whether one of some expressions names a variable.
fn names_in_any(terms: &[Term], variable: usize) -> bool
    ensures { result ≡ names_in_any variable (map term_tree terms.now) }
{
    for term in terms {
        if names_in(term, variable) {
            return true;
        }
    }
    false
}

/// Whether a loop is certain to make an iteration: it goes from a number up to a larger one that an instruction holds.
fn is_certain(low: &Term, high: &Term) -> bool
    ensures { result ≡ is_certain (term_tree low.now) (term_tree high.now) }
{
    match (low, high) {
        (Term::Number(low, _), Term::Number(high, _)) => low < high && *high < NEAR,
        _ => false,
    }
}

/// Whether a statement sets a variable, and reads nowhere what it held before; a loop's counter is set where an
/// iteration is certain.
fn sets_fresh(statement: &StraightStatement, variable: usize) -> bool
    ensures { result ≡ sets_fresh variable (straight_tree statement.now) }
{
    match statement {
        StraightStatement::Set(within, set, value) => within.is_none()
            && (*set as usize == variable && !names_in(value, variable)),
        StraightStatement::Repeat(counter, low, high, _) => {
            *counter as usize == variable && is_certain(low, high)
        }
        _ => false,
    }
}

/// Whether a statement reads nowhere what a variable held before it; it may set it, but only within an arm or a loop.
#[cycle(freshness)]
fn passes(statement: &StraightStatement, variable: usize) -> bool
    ensures { result ≡ passes variable (straight_tree statement.now) }
{
    match statement {
        StraightStatement::Set(_, set, value) => {
            !(*set as usize == variable || names_in(value, variable))
        }
        StraightStatement::Array(set, _, values) => {
            !(*set as usize == variable || names_in_any(values, variable))
        }
        StraightStatement::Put(_, _, set, _, index, value) => {
            !(*set as usize == variable || (names_in(index, variable) || names_in(value, variable)))
        }
        StraightStatement::Take(_, _, condition) => !names_in(condition, variable),
        StraightStatement::Branch(condition, accepted, otherwise) => {
            !names_in(condition, variable)
                && (is_fresh(accepted, None, variable) && is_fresh(otherwise, None, variable))
        }
        StraightStatement::Repeat(counter, low, high, body) => {
            !(*counter as usize == variable
                || (names_in(low, variable) || names_in(high, variable)))
                && is_fresh(body, None, variable)
        }
    }
}

/// Whether some statements and the result behind them read nowhere what a variable held before.
#[cycle(freshness)]
fn is_fresh(statements: &[StraightStatement], value: Option<&Term>, variable: usize) -> bool
    ensures { result ≡ is_fresh variable (straight_block statements.now)
        (option_map (λ term. term_tree term.now) value.entry) }
{
    for statement in statements {
        if sets_fresh(statement, variable) {
            return true;
        }
        if !passes(statement, variable) {
            return false;
        }
    }
    match value {
        Some(value) => !names_in(value, variable),
        None => true,
    }
}

/// Whether the word of a home is such a variable of a program, and no parameter: it is not loaded at the start.
pub fn starts_fresh(straight: &StraightCode<'_>, number: usize) -> bool
    ensures { result ≡ starts_fresh straight.now number }
{
    number >= straight.parameters().len()
        && (number < straight.declared().len()
            && is_fresh(straight.body(), straight.value(), number))
}
