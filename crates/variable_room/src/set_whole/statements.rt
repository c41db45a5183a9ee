// Which elements of an array were set once statements have run.

ghost use Rattle.std.specs.Prelude.{◌≡◌, ◌-◌, is_some, map, IfOk};
ghost use Rattle.std.specs.Bool.{then_some};
ghost use Rattle.variable_room.specs.Below.{straight_block, straight_tree, term_tree};
ghost use Rattle.variable_room.specs.set_whole.Watching.{elements_of, in_iteration, through, watch_of, watched};
ghost use Rattle.variable_room.specs.set_whole.Watching.{watched_all};

use crate::set_first::all_three;
use crate::set_whole::watch::ArrayWatch;
use branch_removal::StraightStatement;
use inline::Term;
use optimisation::constants::CounterRange;
use std::alloc::{AllocError, Global};

/// How many elements a new array has: as many as values are given, or so many where none are.
fn elements_of(size: u32, values: &[Term]) -> usize
    ensures { result ≡ elements_of size (map term_tree values.now) }
{
    if values.is_empty() {
        size as usize
    } else {
        values.len()
    }
}

impl ArrayWatch {
    /// Whether a statement reads only elements that were set; then those that it sets were set too.
    #[cycle(watching)]
    fn watch(
        &self,
        alloc: Global,
        flags: &mut Vec<bool>,
        statement: &StraightStatement,
    ) -> Result<bool, AllocError>
        ensures { IfOk result (λ fine. watched (watch_of self.now) flags.old.items (straight_tree statement.now)
            ≡ then_some fine flags.new.items) }
    {
        match statement {
            StraightStatement::Set(_, variable, value) => {
                Ok(self.is_apart(*variable) && self.may_read(flags.as_slice(), value))
            }
            StraightStatement::Array(variable, size, values) => {
                if !(self.is_free(*variable) && self.may_read_all(flags.as_slice(), values)) {
                    return Ok(false);
                }
                Ok(self.fill(flags, *variable, elements_of(*size, values)))
            }
            StraightStatement::Put(within, _, variable, _, index, value) => {
                let may = self.is_free(*variable)
                    && self.may_read(flags.as_slice(), index)
                    && self.may_read(flags.as_slice(), value);
                self.put(flags, *within, *variable, index);
                Ok(may)
            }
            StraightStatement::Take(_, _, condition) => {
                Ok(self.may_read(flags.as_slice(), condition))
            }
            StraightStatement::Branch(condition, accepted, otherwise) => {
                let chosen = self.may_read(flags.as_slice(), condition);
                let one = self.may_run(alloc, flags.as_slice(), accepted)?;
                let other = self.may_run(alloc, flags.as_slice(), otherwise)?;
                Ok(all_three(chosen, one, other))
            }
            StraightStatement::Repeat(counter, low, high, body) => {
                if !self.may_begin(flags.as_slice(), *counter, low, high) {
                    return Ok(false);
                }
                match self.range_of(low, high) {
                    Some(range) => self.watch_iterations(alloc, flags, *counter, range, body),
                    None => {
                        let may = self.may_run(alloc, flags.as_slice(), body)?;
                        Ok(may)
                    }
                }
            }
        }
    }

    /// Whether an arm, or the body of a loop, reads only elements that were set: nothing that it sets counts behind it.
    #[cycle(watching)]
    fn may_run(
        &self,
        alloc: Global,
        flags: &[bool],
        body: &[StraightStatement],
    ) -> Result<bool, AllocError>
        ensures { IfOk result (λ may.
            may ≡ is_some (watched_all (watch_of self.now) flags.now (straight_block body.now))) }
    {
        let mut inside = Vec::from_slice(alloc, flags)?;
        self.watch_all(alloc, &mut inside, body)
    }

    /// Whether the iterations of a loop do, one after the other.
    #[cycle(watching)]
    fn watch_iterations(
        &self,
        alloc: Global,
        flags: &mut Vec<bool>,
        counter: u32,
        range: CounterRange,
        body: &[StraightStatement],
    ) -> Result<bool, AllocError>
        ensures { IfOk result (λ fine. through (range.high - range.low) range.low
            (λ i next. watched_all (in_iteration (watch_of self.now) counter range i) next (straight_block body.now))
            flags.old.items ≡ then_some fine flags.new.items) }
    {
        for number in range.low..range.high {
            let inside = self.in_iteration(alloc, counter, range, number)?;
            let fine = inside.watch_all(alloc, flags, body)?;
            if !fine {
                return Ok(false);
            }
        }
        Ok(true)
    }

    /// Whether some statements do.
    #[cycle(watching)]
    pub fn watch_all(
        &self,
        alloc: Global,
        flags: &mut Vec<bool>,
        body: &[StraightStatement],
    ) -> Result<bool, AllocError>
        ensures { IfOk result (λ fine. watched_all (watch_of self.now) flags.old.items (straight_block body.now)
            ≡ then_some fine flags.new.items) }
    {
        for statement in body {
            if !self.watch(alloc, flags, statement)? {
                return Ok(false);
            }
        }
        Ok(true)
    }
}
