ghost use Rattle.std.specs.Prelude.{◌≡◌, ◌<◌, ℕ, List, [], ◌∷◌, true, length, Ok, Err, IfOk, IfErr, IfSome};
ghost use Rattle.hepurita.specs.Built.{IsBuilt};
ghost use Rattle.hepurita.specs.Told.{IsRefusalOf};
ghost use Rattle.hepurita.specs.Executed.{Executed};
ghost use Rattle.hepurita.specs.Paired.{Paired};
ghost use Rattle.image.specs.Reading.{IsUnlessMemory, Spells, reading};
ghost use Rattle.image.specs.declared.fault.ImageFault.{ImageFault};
ghost use Rattle.rv_machine.specs.ListRecording.{recorded};
ghost use Rattle.rv_machine.specs.declared.observation.Observation.{Observation};
ghost use Rattle.language.specs.declared.refusal.Refusal.{Refusal};

use crate::fault::RequestsFault;
use hepurita::{Optimisation, RunFault, build, execute, pair};
use image::Image;
use language::{Arg, Args, Outcome, Profile};
use rv_machine::ListRecorder;
use std::alloc::Global;
use streams::{ByteSink, put_all};

/// The bytes of the plain image of an accepted text.
pub fn bytes_of(alloc: Global, text: &str) -> Result<Vec<u8>, RequestsFault>
    ensures accepted { IfOk result (λ bytes. IsBuilt Optimisation.Off Profile.P1 text.now bytes.items) }
    ensures refused { IfErr result (λ given. (refusal : Refusal)
        × (given ≡ RequestsFault.Build refusal.rule refusal.name) × IsRefusalOf Profile.P1 text.now refusal) }
{
    match build(alloc, text) {
        Ok(bytes) => Ok(bytes),
        Err(refusal) => Err(RequestsFault::Build(refusal.rule, refusal.name)),
    }
}

/// The image that bytes spell.
pub fn image_of(alloc: Global, bytes: &[u8]) -> Result<Image, RequestsFault>
    ensures found { IfOk result (λ image. Spells bytes.now image) }
    ensures fault { IfErr result (λ given. (fault : ImageFault)
        × (given ≡ RequestsFault.Read fault) × IsUnlessMemory (Err fault) (reading bytes.now)) }
{
    match image::read(alloc, bytes) {
        Ok(image) => Ok(image),
        Err(fault) => Err(RequestsFault::Read(fault)),
    }
}

/// A condition, and two words to choose from.
pub fn arguments(alloc: Global, condition: u32) -> Result<Args, RequestsFault>
    ensures words { IfOk result (λ args. args ≡ Arg.Word condition ∷ Arg.Word 5 ∷ Arg.Word 9 ∷ []) }
    ensures memory { IfErr result (λ given. given ≡ RequestsFault.Arguments) }
{
    match vec![in alloc; Arg::Word(condition), Arg::Word(5), Arg::Word(9)] {
        Ok(words) => Ok(Args::new(words)),
        Err(_) => Err(RequestsFault::Arguments),
    }
}

/// Why the runs of an image on two lists of arguments are not compared, where they are not.
pub fn fault_of_pair(alloc: Global, image: &Image, one: &Args, other: &Args) -> Option<RunFault>
    ensures { IfSome result (λ fault. Paired image.now one.now other.now (Err fault)) }
{
    pair(alloc, image, one, other).err()
}

/// Runs an image with a recorder that keeps what an observer sees. Where there is no outcome, it says
/// how much was kept up to there.
pub fn observe(
    alloc: Global,
    image: &Image,
    args: &Args,
) -> Result<(Outcome, ListRecorder), RequestsFault>
    ensures outcome { IfOk result (λ run. Executed image.now args.now true [] (Ok run.0) (recorded run.1)) }
    ensures fault { IfErr result (λ given. (fault : RunFault) × (list : List Observation)
        × (given ≡ RequestsFault.Execute fault (length list)) × Executed image.now args.now true [] (Err fault) list) }
{
    let mut recorder = ListRecorder::new(alloc);
    match execute(alloc, image, args, &mut recorder) {
        Ok(outcome) => Ok((outcome, recorder)),
        Err(fault) => Err(RequestsFault::Execute(fault, recorder.list().len())),
    }
}

/// A sink in memory that has taken these bytes. Where it refuses, it says how many it had taken.
pub fn keep(alloc: Global, bytes: &[u8]) -> Result<ByteSink, RequestsFault>
    ensures taken { IfOk result (λ sink. sink.bytes ≡ bytes.now) }
    ensures refused { IfErr result
        (λ given. (taken : ℕ) × (given ≡ RequestsFault.Put taken) × (taken < length bytes.now)) }
{
    let mut sink = ByteSink::new(alloc);
    match put_all(&mut sink, bytes) {
        Ok(()) => Ok(sink),
        Err(_) => Err(RequestsFault::Put(sink.as_slice().len())),
    }
}
