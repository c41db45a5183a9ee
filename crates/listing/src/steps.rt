// The lines of a run, written a step at a time.

ghost use Rattle.std.specs.Prelude.{◌≡◌, ◌++◌, List, IsTrue, IfOk, OnOk, OnErr};
ghost use Rattle.listing.specs.Below.{GainsPart, listed, Observation, one_more, State, state_of, Stop, Writes};
ghost use Rattle.listing.specs.Below.{WritesPart};
ghost use Rattle.listing.specs.Lines.{lines_of};
ghost use Rattle.listing.specs.Listings.{AreLines, ProgramEnds};

use crate::lines;
use rv_machine::{Memory, Observation, Running, Stop};
use rv_programs::{Program, step_unrecorded};
use streams::{Sink, SinkFault, put_all};

/// Writes the lines of what a step shows.
fn write_seen<W: Sink>(sink: &mut W, seen: Option<Observation>) -> Result<(), SinkFault>
    ensures whole { IsTrue W.TELLS → OnOk result (W.taken sink.new ≡ W.taken sink.old ++ lines_of (listed seen)) }
    ensures calm { OnOk result (W.failures sink.new ≡ W.failures sink.old) }
    ensures beginning { IsTrue W.TELLS
        → OnErr result (GainsPart (W.taken sink.old) (W.taken sink.new) (lines_of (listed seen))) }
    ensures counts { OnErr result (W.failures sink.new ≡ one_more (W.failures sink.old)) }
{
    match seen {
        Some(seen) => put_all(sink, lines::lines_of(&seen).as_slice()),
        None => Ok(()),
    }
}

/// Makes the steps of a run until one stops, or until none is left, and writes the lines of each step before the next
/// one is made. It answers why the run stops, leaves the machine as it stands then, and takes no memory.
pub fn write_steps<P: Program, M: Memory, W: Sink>(
    program: &P,
    run: &mut Running<M>,
    sink: &mut W,
) -> Result<Stop, SinkFault>
    ensures ended { IfOk result (λ stop. (seen : List Observation)
        × ProgramEnds (P.program program.now) run.old.steps_left (state_of run.old.hart (M.bytes run.old.memory)) seen
        stop (state_of run.new.hart (M.bytes run.new.memory))) }
    ensures written { IsTrue W.TELLS
        → IfOk result (λ stop. Writes
        (AreLines (P.program program.now) run.old.steps_left (state_of run.old.hart (M.bytes run.old.memory)) stop
        (state_of run.new.hart (M.bytes run.new.memory)))
        (W.taken sink.old)
        (W.taken sink.new)) }
    ensures beginning { IsTrue W.TELLS
        → OnErr result (WritesPart (λ bytes. (stop : Stop) × (end : State)
        × AreLines (P.program program.now) run.old.steps_left (state_of run.old.hart (M.bytes run.old.memory)) stop end
        bytes)
        (W.taken sink.old)
        (W.taken sink.new)) }
    ensures calm { OnOk result (W.failures sink.new ≡ W.failures sink.old) }
    ensures counts { OnErr result (W.failures sink.new ≡ one_more (W.failures sink.old)) }
{
    for _step in 0..run.steps_left {
        let (seen, stop) = step_unrecorded(&mut run.hart, program, &mut run.memory);
        write_seen(sink, seen)?;
        if let Some(stop) = stop {
            return Ok(stop);
        }
    }
    Ok(Stop::Budget)
}
