// A text from a source.

ghost use Rattle.std.specs.Prelude.{◌≡◌, ◌≢◌, ℕ, ◌+◌, ◌≤◌, Err, List, length, take, IsTrue, IfOk, IfErr, IsErrOf};
ghost use Rattle.std.specs.String.{string_bytes};
ghost use Rattle.input_files.specs.Below.{LosesPart, one_more, source_limit};
ghost use Rattle.input_files.specs.stream_build.Faults.{NoText};

use crate::stream_build::fault::BuildFault;
use language::{Place, Refusal, Rule};
use std::alloc::Global;
use streams::{ReadFault, Source, get_up_to};
use syntax::SOURCE_LIMIT;

/// The text that a source's bytes are, to its end. One that is too long is not read to its end, and
/// not asked whether it is UTF-8. No failed call is tried again.
pub fn read_text<R: Source>(alloc: Global, source: &mut R) -> Result<String, BuildFault>
    ensures whole { IsTrue R.TELLS → IfOk result (λ text. string_bytes text ≡ R.coming source.old) }
    ensures within { IfOk result (λ text. length (string_bytes text) ≤ source_limit) }
    ensures fault { IsTrue R.TELLS → IfErr result (NoText (R.coming source.old)) }
    ensures unwritten { result ≢ Err BuildFault.Write }
    ensures part { IsTrue R.TELLS → LosesPart (R.coming source.old) (R.coming source.new) (source_limit + 1) }
    ensures calm { result ≢ Err BuildFault.Read → R.failures source.new ≡ R.failures source.old }
    ensures counts { IsErrOf result BuildFault.Read → R.failures source.new ≡ one_more (R.failures source.old) }
{
    let bytes = match get_up_to(alloc, source, SOURCE_LIMIT + 1) {
        Ok(bytes) => bytes,
        Err(ReadFault::Source) => return Err(BuildFault::Read),
        Err(ReadFault::Memory) => return Err(BuildFault::Refused(Refusal::memory())),
    };
    text_of(bytes)
}

/// The text of which these are the first bytes, as many as one that is too long has, or all that there are. Too many of
/// them are not asked whether they are UTF-8.
pub fn text_of(bytes: Vec<u8>) -> Result<String, BuildFault>
    ensures whole { (all : List ℕ)
        → bytes.items ≡ take (source_limit + 1) all
        → IfOk result (λ text. string_bytes text ≡ all) }
    ensures within { IfOk result (λ text. length (string_bytes text) ≤ source_limit) }
    ensures fault { (all : List ℕ) → bytes.items ≡ take (source_limit + 1) all → IfErr result (NoText all) }
    ensures unread { result ≢ Err BuildFault.Read }
    ensures unwritten { result ≢ Err BuildFault.Write }
{
    if bytes.len() > SOURCE_LIMIT {
        let too_long = Refusal::at(Rule::TextTooLong, Place::ORIGIN);
        return Err(BuildFault::Refused(too_long));
    }
    match String::from_utf8(bytes) {
        Ok(text) => Ok(text),
        Err(_) => Err(BuildFault::NotUtf8),
    }
}
