// Taking lines, one after another.

ghost use Rattle.std.specs.Prelude.{◌≡◌, ◌≢◌, ◌+◌, ◌-◌, ◌*◌, ◌≤◌, ◌++◌, true, length, map, vec_len, Some, None, IfOk};
ghost use Rattle.std.specs.Prelude.{[], replicate};
ghost use Rattle.std.specs.List.{range_with_len, repeat};
ghost use Rattle.input_files.specs.Below.{most_turns};
ghost use Rattle.input_files.specs.harts_file.Lines.{turns_of, rounds, a_hart, some_turns, said_of};
ghost use Rattle.input_files.specs.harts_file.Faults.{given_from, rule_of, rule_of_said};
ghost use Rattle.input_files.specs.harts_file.private.Reading.{given_to, given_also, given_with, line_hart};

use crate::harts_file::jobs::job_of;
use crate::harts_file::lines::{Line, line_of};
use crate::harts_file::reader::PlanReader;
use harts::{HartsRule, MOST_IMAGES, MOST_TURNS};
use std::alloc::{AllocError, Global};

impl PlanReader {
    /// No line was read.
    pub fn new(alloc: Global) -> Self
        ensures { given_to result ≡ given_from [] [] }
    {
        PlanReader {
            jobs: Vec::new(alloc),
            schedule: Vec::new(alloc),
            has_turns: false,
        }
    }

    /// Takes the next line, which stands without its end, and answers the first rule that it breaks, if it breaks one.
    pub fn take(&mut self, alloc: Global, text: &str) -> Result<Option<HartsRule>, AllocError>
        ensures rule { IfOk result (λ rule. rule ≡ rule_of (given_to self.old) (said_of text.now)) }
        ensures taken { IfOk result (λ rule.
            rule ≡ None → given_to self.new ≡ given_with (given_to self.old) (said_of text.now)) }
    {
        match line_of(alloc, text)? {
            Some(Line::Hart { path, arguments }) => {
                self.take_hart(alloc, path, arguments.as_slice())
            }
            Some(Line::Turns { hart, count }) => self.take_turns(hart, count),
            Some(Line::Round { count }) => self.take_rounds(count),
            None => Ok(Some(HartsRule::LineForm)),
        }
    }

    fn take_hart(
        &mut self,
        alloc: Global,
        path: &str,
        arguments: &[&str],
    ) -> Result<Option<HartsRule>, AllocError>
        ensures rule { IfOk result (λ rule.
            rule ≡ rule_of_said (given_to self.old) (a_hart (line_hart path.entry arguments.now))) }
        ensures taken { IfOk result (λ rule.
            rule ≡ None
            → given_to self.new ≡ given_also (given_to self.old) (a_hart (line_hart path.entry arguments.now))) }
    {
        if self.has_turns {
            return Ok(Some(HartsRule::LineForm));
        }
        if self.jobs.len() == MOST_IMAGES {
            return Ok(Some(HartsRule::HartCount));
        }
        self.jobs.push(job_of(alloc, path, arguments)?)?;
        Ok(None)
    }

    fn take_turns(&mut self, hart: u64, count: u64) -> Result<Option<HartsRule>, AllocError>
        ensures rule { IfOk result (λ rule.
            rule ≡ rule_of_said (given_to self.old) (some_turns (turns_of hart count))) }
        ensures taken { IfOk result (λ rule.
            rule ≡ None → given_to self.new ≡ given_also (given_to self.old) (some_turns (turns_of hart count))) }
    {
        self.has_turns = true;
        let harts = self.jobs.len() as u64;
        if harts == 0 {
            return Ok(Some(HartsRule::HartCount));
        }
        if hart >= harts {
            return Ok(Some(HartsRule::NoSuchHart));
        }
        if count > self.turns_left() {
            return Ok(Some(HartsRule::TooManyTurns));
        }
        let turns = self.schedule.len() + count as usize;
        self.schedule.resize(turns, hart as u8)?;
        Ok(None)
    }

    fn take_rounds(&mut self, count: u64) -> Result<Option<HartsRule>, AllocError>
        ensures rule { IfOk result (λ rule. rule ≡ rule_of_said (given_to self.old) (some_turns (rounds count))) }
        ensures taken { IfOk result (λ rule.
            rule ≡ None → given_to self.new ≡ given_also (given_to self.old) (some_turns (rounds count))) }
    {
        self.has_turns = true;
        let harts = self.jobs.len() as u64;
        if harts == 0 {
            return Ok(Some(HartsRule::HartCount));
        }
        match count.checked_mul(harts) {
            Some(turns) if turns <= self.turns_left() => {
                for _ in 0..count {
                    self.push_round()?;
                }
                Ok(None)
            }
            _ => Ok(Some(HartsRule::TooManyTurns)),
        }
    }

    /// One turn of each hart, in the order of their numbers.
    fn push_round(&mut self) -> Result<(), AllocError>
        requires room { vec_len self.old.schedule + vec_len self.old.jobs ≤ most_turns }
        ensures turns { IfOk result (λ _.
            self.new.schedule.items ≡ self.old.schedule.items ++ range_with_len 0 (vec_len self.old.jobs)) }
        ensures length { IfOk result (λ _.
            vec_len self.new.schedule ≡ vec_len self.old.schedule + vec_len self.old.jobs) }
        ensures jobs { self.new.jobs ≡ self.old.jobs }
        ensures begun { self.new.has_turns ≡ self.old.has_turns }
    {
        for hart in 0..self.jobs.len() {
            self.schedule.push(hart as u8)?;
        }
        Ok(())
    }

    /// How many turns there may still be.
    fn turns_left(&self) -> u64
        ensures { result ≡ most_turns - vec_len self.now.schedule }
    {
        (MOST_TURNS - self.schedule.len()) as u64
    }
}
