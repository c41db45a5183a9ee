// What an observer sees of a function's run, written to a sink.

ghost use Rattle.std.specs.Prelude.{◌≡◌, ◌≢◌, ◌++◌, Err, IsTrue, IfErr, IfOk, IsErrOf, OnErr, OnOk};
ghost use Rattle.elf_reports.specs.Below.{FunctionStop, GainsPart, one_more, Writes, WritesPart};
ghost use Rattle.elf_reports.specs.Leaked.{end_line, IsFunctionLeak, LeaksFunction};
ghost use Rattle.elf_reports.specs.declared.leaking.FunctionLeakFault.TheVariants.{Start, Write};

use elf::Program;
use elf_runs::{Asked, FunctionStop, RunOptions, StartFault, load_function};
use listing::{stop_line, write_steps};
use std::alloc::Global;
use streams::{Sink, SinkFault, put_all};

/// Why the listing of a function's run was not written to its end.
#[derive(Clone, Copy, Debug, PartialEq, Eq)]
pub enum FunctionLeakFault {
    /// The run does not begin.
    Start(StartFault),
    /// A call of the sink failed.
    Write,
}

impl From<StartFault> for FunctionLeakFault {
    ghost from_gives = { λ fault result. result ≡ Start fault };

    fn from(fault: StartFault) -> Self {
        FunctionLeakFault::Start(fault)
    }
}

impl From<SinkFault> for FunctionLeakFault {
    ghost from_gives = { λ _ result. result ≡ Write };

    fn from(_: SinkFault) -> Self {
        FunctionLeakFault::Write
    }
}

/// Writes the line of how a run stops.
fn put_end<W: Sink>(sink: &mut W, how: FunctionStop) -> Result<(), SinkFault>
    ensures whole { IsTrue W.TELLS → OnOk result (W.taken sink.new ≡ W.taken sink.old ++ end_line how) }
    ensures calm { OnOk result (W.failures sink.new ≡ W.failures sink.old) }
    ensures beginning { IsTrue W.TELLS
        → OnErr result (GainsPart (W.taken sink.old) (W.taken sink.new) (end_line how)) }
    ensures counts { OnErr result (W.failures sink.new ≡ one_more (W.failures sink.old)) }
{
    match how {
        FunctionStop::Returned => put_all(sink, b"stop Return\n"),
        FunctionStop::Stopped(stop) => put_all(sink, stop_line(stop).as_slice()),
    }
}

/// Runs a function, writes what an observer sees, a line for each entry, and then the line of how it stops, which it
/// answers. All that is not known is as it stands when the run begins: what is set, the bytes of the file, and zeros.
/// What the request does not meet is refused before anything is written. Each step's lines are written before the next
/// step is made, and once the function is loaded no memory is taken. A call of the sink that fails ends the run.
pub fn leak_function<W: Sink>(
    alloc: Global,
    program: &Program<'_>,
    asked: &Asked,
    options: RunOptions,
    sink: &mut W,
) -> Result<FunctionStop, FunctionLeakFault>
    ensures answer { LeaksFunction program.now asked.now options result }
    ensures written { IsTrue W.TELLS → IfOk result (λ how.
        Writes (IsFunctionLeak program.now asked.now options how) (W.taken sink.old) (W.taken sink.new)) }
    ensures beginning { IsTrue W.TELLS
        → IsErrOf result FunctionLeakFault.Write
        → WritesPart (λ bytes. (how : FunctionStop) × IsFunctionLeak program.now asked.now options how bytes)
        (W.taken sink.old) (W.taken sink.new) }
    ensures untouched { IfErr result (λ fault. fault ≢ FunctionLeakFault.Write → sink.new ≡ sink.old) }
    ensures calm { result ≢ Err FunctionLeakFault.Write → W.failures sink.new ≡ W.failures sink.old }
    ensures counts { IsErrOf result FunctionLeakFault.Write → W.failures sink.new ≡ one_more (W.failures sink.old) }
{
    let mut loaded = load_function(alloc, program, asked, options)?;
    let stop = write_steps(&loaded.program, &mut loaded.run, sink)?;
    let how = FunctionStop::of(stop, loaded.run.hart.pc());
    put_end(sink, how)?;
    Ok(how)
}
