// An array that is watched: what is known of counters, and what may be read.

ghost use Rattle.std.specs.Prelude.{◌≡◌, ◌&&◌, map, IfOk};
ghost use Rattle.std.specs.Bool.{then_some};
ghost use Rattle.variable_room.specs.Below.{term_tree};
ghost use Rattle.variable_room.specs.set_whole.Watching.{all_set, filled, in_iteration, is_apart, is_free, is_set};
ghost use Rattle.variable_room.specs.set_whole.Watching.{may_read, may_read_all, may_read_element, number_at};
ghost use Rattle.variable_room.specs.set_whole.Watching.{number_of};
ghost use Rattle.variable_room.specs.set_whole.Watching.{put_in, range_of, watch_of, with_set};

use inline::Term;
use optimisation::constants::{CounterRange, folded};
use std::alloc::{AllocError, Global};

/// A counter at a number.
#[derive(Clone, Copy)]
pub struct Counter {
    pub variable: u32,
    pub number: u32,
}

/// The array that is watched, how many iterations of a loop are followed one after the other at most, and the counters
/// of the loops around that are followed, the innermost first.
#[derive(Drop)]
pub struct ArrayWatch {
    pub array: u32,
    pub room: u32,
    pub counters: Vec<Counter>,
}

/// Whether all elements were set.
pub fn all_set(flags: &[bool]) -> bool
    ensures { result ≡ all_set flags.now }
{
    for flag in flags {
        if !*flag {
            return false;
        }
    }
    true
}

/// Whether the element at a number that is known was set.
fn is_set(flags: &[bool], index: Option<u32>) -> bool
    ensures { result ≡ is_set flags.now index }
{
    match index {
        Some(index) => flags.get(index as usize).copied().unwrap_or(false),
        None => false,
    }
}

/// The element at a number that is known was set too.
fn note(flags: &mut Vec<bool>, index: Option<u32>)
    ensures { flags.new.items ≡ with_set flags.old.items index }
{
    if let Some(index) = index {
        if let Some(flag) = flags.get_mut(index as usize) {
            *flag = true;
        }
    }
}

impl ArrayWatch {
    /// The number of a counter, where it is known.
    fn number_at(&self, variable: u32) -> Option<u32>
        ensures { result ≡ number_at self.now.counters.items variable }
    {
        for counter in self.counters.iter() {
            if counter.variable == variable {
                return Some(counter.number);
            }
        }
        None
    }

    /// The number that an expression is, where it is made of numbers and of counters that are known.
    fn number_of(&self, term: &Term) -> Option<u32>
        ensures { result ≡ number_of self.now.counters.items (term_tree term.now) }
    {
        match term {
            Term::Number(value, _) => Some(*value),
            Term::Variable(variable) => self.number_at(*variable),
            Term::Binary(_, operator, width, left, right) => {
                let left = self.number_of(left)?;
                let right = self.number_of(right)?;
                folded(*operator, *width, left, right)
            }
            Term::Truth(_)
            | Term::Prefix(_, _, _)
            | Term::Rotate(_, _, _)
            | Term::Convert(_, _)
            | Term::Select(_, _, _)
            | Term::Element(_, _, _, _) => None,
        }
    }

    /// Whether the element of an array at an index may be read.
    fn may_read_element(&self, flags: &[bool], array: u32, index: &Term) -> bool
        ensures { result ≡ may_read_element (watch_of self.now) flags.now array (term_tree index.now) }
    {
        array != self.array || all_set(flags) || is_set(flags, self.number_of(index))
    }

    /// Whether an expression reads no element of the array that was not set.
    pub fn may_read(&self, flags: &[bool], term: &Term) -> bool
        ensures { result ≡ may_read (watch_of self.now) flags.now (term_tree term.now) }
    {
        match term {
            Term::Number(_, _) | Term::Truth(_) => true,
            Term::Variable(variable) => *variable != self.array,
            Term::Prefix(_, _, operand) | Term::Rotate(_, operand, _) | Term::Convert(_, operand) =>
                self.may_read(flags, operand),
            Term::Binary(_, _, _, left, right) => {
                self.may_read(flags, left) && self.may_read(flags, right)
            }
            Term::Select(condition, accepted, otherwise) => {
                self.may_read(flags, condition)
                    && self.may_read(flags, accepted)
                    && self.may_read(flags, otherwise)
            }
            Term::Element(_, array, _, index) => {
                self.may_read(flags, index) && self.may_read_element(flags, *array, index)
            }
        }
    }

    /// Whether expressions do not.
    pub fn may_read_all(&self, flags: &[bool], terms: &[Term]) -> bool
        ensures { result ≡ may_read_all (watch_of self.now) flags.now (map term_tree terms.now) }
    {
        for term in terms {
            if !self.may_read(flags, term) {
                return false;
            }
        }
        true
    }

    /// Whether a variable is no counter whose number is known.
    pub fn is_free(&self, variable: u32) -> bool
        ensures { result ≡ is_free (watch_of self.now) variable }
    {
        self.number_at(variable).is_none()
    }

    /// And not the array.
    pub fn is_apart(&self, variable: u32) -> bool
        ensures { result ≡ is_apart (watch_of self.now) variable }
    {
        variable != self.array && self.is_free(variable)
    }

    /// A new array of so many elements is set, where it may be.
    pub fn fill(&self, flags: &mut Vec<bool>, variable: u32, count: usize) -> bool
        ensures { filled (watch_of self.now) flags.old.items variable count ≡ then_some result flags.new.items }
    {
        if variable != self.array {
            return true;
        }
        if count != flags.len() {
            return false;
        }
        flags.as_mut_slice().fill(true);
        true
    }

    /// An element of an array is set, or kept.
    pub fn put(&self, flags: &mut Vec<bool>, within: Option<u32>, variable: u32, index: &Term)
        ensures { flags.new.items
            ≡ put_in (watch_of self.now) flags.old.items within variable (term_tree index.now) }
    {
        match within {
            None => {
                if variable == self.array {
                    note(flags, self.number_of(index));
                }
            }
            Some(_) => {}
        }
    }

    /// Whether a loop may begin: its counter is apart, and its bounds read nothing that was not set.
    pub fn may_begin(&self, flags: &[bool], counter: u32, low: &Term, high: &Term) -> bool
        ensures { result ≡ (is_apart (watch_of self.now) counter
            && may_read (watch_of self.now) flags.now (term_tree low.now)
            && may_read (watch_of self.now) flags.now (term_tree high.now)) }
    {
        self.is_apart(counter) && self.may_read(flags, low) && self.may_read(flags, high)
    }

    /// The numbers of a loop's counter, where its iterations are followed.
    pub fn range_of(&self, low: &Term, high: &Term) -> Option<CounterRange>
        ensures { result ≡ range_of self.now.room (number_of self.now.counters.items (term_tree low.now))
            (number_of self.now.counters.items (term_tree high.now)) }
    {
        let low = self.number_of(low)?;
        let high = self.number_of(high)?;
        if high.saturating_sub(low) <= self.room {
            Some(CounterRange { low, high })
        } else {
            None
        }
    }

    /// The same in an iteration of a loop that is followed.
    pub fn in_iteration(
        &self,
        alloc: Global,
        counter: u32,
        range: CounterRange,
        number: u32,
    ) -> Result<Self, AllocError>
        ensures { IfOk result (λ inside. watch_of inside ≡ in_iteration (watch_of self.now) counter range number) }
    {
        let mut counters = Vec::new(alloc);
        counters.push(Counter {
            variable: counter,
            number,
        })?;
        counters.extend_from_slice(self.counters.as_slice())?;
        Ok(ArrayWatch {
            array: self.array,
            room: self.room / range.high.saturating_sub(range.low).max(1),
            counters,
        })
    }
}
