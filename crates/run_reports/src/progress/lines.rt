// The lines of progress.

ghost use Rattle.std.specs.Prelude.{◌≡◌, ◌+◌, ◌*◌, ◌^◌, ◌<◌, ◌++◌, IsTrue, OnOk, OnErr};
ghost use Rattle.run_reports.specs.progress.Lines.{steps_a_line, progress_line, WentOut};
ghost use Rattle.run_reports.specs.Below.{Collected, collected, GainsPart, one_more};

use arrayvec::ArrayString;
use itoa::Buffer;
use streams::{Sink, SinkFault, put_all};

/// How many steps there are to a line.
pub const STEPS_A_LINE: u64 = 1 << 27;

/// Writes the line of so many steps.
fn put_line<E: Sink>(err: &mut E, steps: u64) -> Result<(), SinkFault>
    ensures whole { IsTrue E.TELLS → OnOk result (E.taken err.new ≡ E.taken err.old ++ progress_line steps) }
    ensures calm { OnOk result (E.failures err.new ≡ E.failures err.old) }
    ensures beginning { IsTrue E.TELLS
        → OnErr result (GainsPart (E.taken err.old) (E.taken err.new) (progress_line steps)) }
    ensures counts { OnErr result (E.failures err.new ≡ one_more (E.failures err.old)) }
{
    let mut digits = Buffer::new();
    let mut line = ArrayString::<48>::new();
    line.push_str("progress: ");
    line.push_str(digits.format(steps));
    line.push_str(" turns\n");
    put_all(err, line.as_bytes())
}

/// How many lines a run has, and whether all went out. Where a call fails no further line is tried.
#[derive(Clone, Copy)]
pub struct ProgressLines {
    pub count: u64,
    pub whole: bool,
}

impl ProgressLines {
    /// None yet.
    pub fn new() -> Self
        ensures none { result.count ≡ 0 }
        ensures whole { IsTrue result.whole }
    {
        ProgressLines {
            count: 0,
            whole: true,
        }
    }

    /// Writes the next line.
    pub fn tell<E: Sink>(&mut self, err: &mut E)
        requires few { (self.old.count + 1) * steps_a_line < 2 ^ 64 }
        ensures next { self.new.count ≡ self.old.count + 1 }
        ensures told { (before : Collected) → IsTrue E.TELLS
            → WentOut self.old.whole self.old.count before (collected (E.taken err.old) (E.failures err.old))
            → WentOut self.new.whole self.new.count before (collected (E.taken err.new) (E.failures err.new)) }
    {
        self.count += 1;
        if self.whole {
            self.whole = put_line(err, self.count * STEPS_A_LINE).is_ok();
        }
    }
}
