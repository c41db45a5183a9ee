// What an observer sees of an image's run, written to a sink.

ghost use Rattle.std.specs.Prelude.{◌≡◌, ◌≢◌, Err, IsTrue, IfOk, IfErr, IsErrOf};
ghost use Rattle.listing.specs.Below.{one_more, Stop, Writes, WritesPart};
ghost use Rattle.listing.specs.Leaked.{Leaks, IsLeak};

use crate::fault::LeakFault;
use crate::lines::stop_line;
use crate::steps::write_steps;
use hepurita::{code, first_fault, load};
use image::Image;
use language::Args;
use rv_machine::Stop;
use std::alloc::Global;
use streams::{Sink, put_all};

/// Runs an image on arguments, writes what an observer sees, a line for each entry, and then the line
/// of the stop, which it answers. Arguments are refused by their first fault, before memory is asked for.
/// Each step's lines are written before the next step is made, and once the image is loaded no memory is
/// taken. A call of the sink that fails ends the run.
pub fn leak<W: Sink>(
    alloc: Global,
    image: &Image,
    args: &Args,
    sink: &mut W,
) -> Result<Stop, LeakFault>
    ensures answer { Leaks image.now args.now result }
    ensures written { IsTrue W.TELLS
        → IfOk result (λ stop. Writes (IsLeak image.now args.now stop) (W.taken sink.old) (W.taken sink.new)) }
    ensures beginning { IsTrue W.TELLS
        → IsErrOf result LeakFault.Write
        → WritesPart (λ bytes. (stop : Stop) × IsLeak image.now args.now stop bytes) (W.taken sink.old)
        (W.taken sink.new) }
    ensures untouched { IfErr result (λ fault. fault ≢ LeakFault.Write → sink.new ≡ sink.old) }
    ensures calm { result ≢ Err LeakFault.Write → W.failures sink.new ≡ W.failures sink.old }
    ensures counts { IsErrOf result LeakFault.Write → W.failures sink.new ≡ one_more (W.failures sink.old) }
{
    if let Some(fault) = first_fault(image, args) {
        return Err(LeakFault::from(fault));
    }
    let code = code(alloc, image)?;
    let mut run = load(alloc, image, args)?;
    let stop = write_steps(&code, &mut run, sink)?;
    put_all(sink, stop_line(stop).as_slice())?;
    Ok(stop)
}
