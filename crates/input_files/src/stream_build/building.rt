// The image of a text that a source hands out, on a sink.

ghost use Rattle.std.specs.Prelude.{◌≡◌, ◌≢◌, ◌+◌, length, IsTrue, IfOk, IfErr, OnOk, IsErrOf};
ghost use Rattle.input_files.specs.Below.{IsBuilt, LosesPart, one_more, source_limit, Writes, WritesPart};
ghost use Rattle.input_files.specs.stream_build.Faults.{IsText, IsFaultOf, IsUnbuilt};

use crate::stream_build::fault::{BuildFault, Unbuilt};
use crate::stream_build::reading::read_text;
use hepurita::{Optimisation, build_with};
use language::Profile;
use std::alloc::Global;
use streams::{Sink, Source, put_all};

/// Compiles the text that a source hands out, for an observer of this profile, and hands its plain or its optimised
/// image to a sink once that is whole. The text is read to its end, or until it is too long; one that is refused is
/// handed out with its refusal. No failed call is tried again.
pub fn build_stream_keeping<R: Source, W: Sink>(
    alloc: Global,
    source: &mut R,
    sink: &mut W,
    profile: Profile,
    optimisation: Optimisation,
) -> Result<(), Unbuilt>
    ensures written { IsTrue R.TELLS
        → IsTrue W.TELLS
        → OnOk result
        (Writes (IsBuilt optimisation profile (R.coming source.old)) (W.taken sink.old) (W.taken sink.new)) }
    ensures beginning { IsTrue R.TELLS → IsTrue W.TELLS → IsErrOf result Unbuilt.Unwritten
        → WritesPart (IsBuilt optimisation profile (R.coming source.old)) (W.taken sink.old) (W.taken sink.new) }
    ensures untouched { IfErr result (λ fault. fault ≢ Unbuilt.Unwritten → sink.new ≡ sink.old) }
    ensures text { IsTrue R.TELLS → OnOk result (IsText (R.coming source.old)) }
    ensures fault { IsTrue R.TELLS → IfErr result (IsUnbuilt profile (R.coming source.old)) }
    ensures unread { result ≢ Err (Unbuilt.Unread BuildFault.Write) }
    ensures part { IsTrue R.TELLS → LosesPart (R.coming source.old) (R.coming source.new) (source_limit + 1) }
    ensures read_calm { result ≢ Err (Unbuilt.Unread BuildFault.Read) → R.failures source.new ≡ R.failures source.old }
    ensures read_counts { IsErrOf result (Unbuilt.Unread BuildFault.Read)
        → R.failures source.new ≡ one_more (R.failures source.old) }
    ensures write_calm { result ≢ Err Unbuilt.Unwritten → W.failures sink.new ≡ W.failures sink.old }
    ensures write_counts { IsErrOf result Unbuilt.Unwritten → W.failures sink.new ≡ one_more (W.failures sink.old) }
{
    let text = match read_text(alloc, source) {
        Ok(text) => text,
        Err(fault) => return Err(Unbuilt::Unread(fault)),
    };
    let image = match build_with(alloc, text.as_str(), profile, optimisation) {
        Ok(image) => image,
        Err(refusal) => return Err(Unbuilt::NotAccepted(refusal, text)),
    };
    match put_all(sink, image.as_slice()) {
        Ok(()) => Ok(()),
        Err(_) => Err(Unbuilt::Unwritten),
    }
}

/// The same, where a refusal is answered without its text.
pub fn build_stream_with<R: Source, W: Sink>(
    alloc: Global,
    source: &mut R,
    sink: &mut W,
    profile: Profile,
    optimisation: Optimisation,
) -> Result<(), BuildFault>
    ensures written { IsTrue R.TELLS
        → IsTrue W.TELLS
        → OnOk result
        (Writes (IsBuilt optimisation profile (R.coming source.old)) (W.taken sink.old) (W.taken sink.new)) }
    ensures beginning { IsTrue R.TELLS → IsTrue W.TELLS → IsErrOf result BuildFault.Write
        → WritesPart (IsBuilt optimisation profile (R.coming source.old)) (W.taken sink.old) (W.taken sink.new) }
    ensures untouched { IfErr result (λ fault. fault ≢ BuildFault.Write → sink.new ≡ sink.old) }
    ensures text { IsTrue R.TELLS → OnOk result (IsText (R.coming source.old)) }
    ensures fault { IsTrue R.TELLS → IfErr result (IsFaultOf profile (R.coming source.old)) }
    ensures part { IsTrue R.TELLS → LosesPart (R.coming source.old) (R.coming source.new) (source_limit + 1) }
    ensures read_calm { result ≢ Err BuildFault.Read → R.failures source.new ≡ R.failures source.old }
    ensures read_counts { IsErrOf result BuildFault.Read → R.failures source.new ≡ one_more (R.failures source.old) }
    ensures write_calm { result ≢ Err BuildFault.Write → W.failures sink.new ≡ W.failures sink.old }
    ensures write_counts { IsErrOf result BuildFault.Write → W.failures sink.new ≡ one_more (W.failures sink.old) }
{
    match build_stream_keeping(alloc, source, sink, profile, optimisation) {
        Ok(()) => Ok(()),
        Err(Unbuilt::Unread(fault)) => Err(fault),
        Err(Unbuilt::NotAccepted(refusal, _)) => Err(BuildFault::Refused(refusal)),
        Err(Unbuilt::Unwritten) => Err(BuildFault::Write),
    }
}

/// The same of the plain image.
pub fn build_stream_as<R: Source, W: Sink>(
    alloc: Global,
    source: &mut R,
    sink: &mut W,
    profile: Profile,
) -> Result<(), BuildFault>
    ensures written { IsTrue R.TELLS
        → IsTrue W.TELLS
        → OnOk result
        (Writes (IsBuilt Optimisation.Off profile (R.coming source.old)) (W.taken sink.old) (W.taken sink.new)) }
    ensures beginning { IsTrue R.TELLS → IsTrue W.TELLS → IsErrOf result BuildFault.Write
        → WritesPart (IsBuilt Optimisation.Off profile (R.coming source.old)) (W.taken sink.old) (W.taken sink.new) }
    ensures untouched { IfErr result (λ fault. fault ≢ BuildFault.Write → sink.new ≡ sink.old) }
    ensures text { IsTrue R.TELLS → OnOk result (IsText (R.coming source.old)) }
    ensures fault { IsTrue R.TELLS → IfErr result (IsFaultOf profile (R.coming source.old)) }
    ensures part { IsTrue R.TELLS → LosesPart (R.coming source.old) (R.coming source.new) (source_limit + 1) }
    ensures read_calm { result ≢ Err BuildFault.Read → R.failures source.new ≡ R.failures source.old }
    ensures read_counts { IsErrOf result BuildFault.Read → R.failures source.new ≡ one_more (R.failures source.old) }
    ensures write_calm { result ≢ Err BuildFault.Write → W.failures sink.new ≡ W.failures sink.old }
    ensures write_counts { IsErrOf result BuildFault.Write → W.failures sink.new ≡ one_more (W.failures sink.old) }
{
    build_stream_with(alloc, source, sink, profile, Optimisation::Off)
}

/// The same of the plain image, for an observer of profile 1.
pub fn build_stream<R: Source, W: Sink>(
    alloc: Global,
    source: &mut R,
    sink: &mut W,
) -> Result<(), BuildFault>
    ensures written { IsTrue R.TELLS
        → IsTrue W.TELLS
        → OnOk result
        (Writes (IsBuilt Optimisation.Off Profile.P1 (R.coming source.old)) (W.taken sink.old) (W.taken sink.new)) }
    ensures beginning { IsTrue R.TELLS → IsTrue W.TELLS → IsErrOf result BuildFault.Write
        → WritesPart (IsBuilt Optimisation.Off Profile.P1 (R.coming source.old)) (W.taken sink.old) (W.taken sink.new) }
    ensures untouched { IfErr result (λ fault. fault ≢ BuildFault.Write → sink.new ≡ sink.old) }
    ensures text { IsTrue R.TELLS → OnOk result (IsText (R.coming source.old)) }
    ensures fault { IsTrue R.TELLS → IfErr result (IsFaultOf Profile.P1 (R.coming source.old)) }
    ensures part { IsTrue R.TELLS → LosesPart (R.coming source.old) (R.coming source.new) (source_limit + 1) }
    ensures read_calm { result ≢ Err BuildFault.Read → R.failures source.new ≡ R.failures source.old }
    ensures read_counts { IsErrOf result BuildFault.Read → R.failures source.new ≡ one_more (R.failures source.old) }
    ensures write_calm { result ≢ Err BuildFault.Write → W.failures sink.new ≡ W.failures sink.old }
    ensures write_counts { IsErrOf result BuildFault.Write → W.failures sink.new ≡ one_more (W.failures sink.old) }
{
    build_stream_as(alloc, source, sink, Profile::P1)
}
