// Expressions in which a counter is so much more than the base of its group.

ghost use Rattle.std.specs.Prelude.{◌≡◌, IfOk};
ghost use Rattle.optimisation.specs.Below.{term_tree};
ghost use Rattle.optimisation.specs.iteration_groups.private.Grouping.{counter_at, variable_at};

use inline::Term;
use language::{BinaryOperator, Kind};
use std::alloc::{AllocError, Global};
use word::{Place, Width};

/// Where an iteration stands in its group: its counter is so much more than the base.
#[derive(Clone, Copy)]
pub struct Shift {
    pub counter: u32,
    pub base: u32,
    pub offset: u32,
}

/// The number of a counter.
fn counter_at(alloc: Global, shift: Shift) -> Result<Term, AllocError>
    ensures { IfOk result (λ made. term_tree made ≡ counter_at shift) }
{
    let base = Box::new(alloc, Term::Variable(shift.base))?;
    let offset = Box::new(alloc, Term::Number(shift.offset, Kind::Uint32))?;
    let operator = BinaryOperator::Add;
    Ok(Term::Binary(Place::ORIGIN, operator, Width::W32, base, offset))
}

/// A variable, or the number of the counter that it is.
pub fn variable_at(alloc: Global, shift: Option<Shift>, variable: u32) -> Result<Term, AllocError>
    ensures { IfOk result (λ made. term_tree made ≡ variable_at shift variable) }
{
    match shift {
        Some(shift) => {
            if shift.counter == variable {
                counter_at(alloc, shift)
            } else {
                Ok(Term::Variable(variable))
            }
        }
        None => Ok(Term::Variable(variable)),
    }
}
