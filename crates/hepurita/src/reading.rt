// Arguments from the texts that spell them.

ghost use Rattle.std.specs.Prelude.{◌≡◌, ◌≢◌, ◌↔◌, Some, None, Err, map, IfOk, OnOk};
ghost use Rattle.hepurita.specs.Below.{AreWithin, ArgumentFault, Stop, words_of};
ghost use Rattle.language.specs.arguments.Texts.{numbers_of, fault_of_texts};

use crate::fault::RunFault;
use language::arguments::{ReadError, read};
use language::{Args, Param};
use std::alloc::Global;

/// The arguments that texts spell for these parameters, or their first fault. A text is numbers
/// joined by commas, each in decimal digits or `0x` and hexadecimal digits.
pub fn read_args(alloc: Global, params: &[Param], texts: &[&str]) -> Result<Args, RunFault>
    ensures found { IfOk result (λ args.
        map (λ arg. Some (words_of arg)) args ≡ map (λ text. numbers_of text.now) texts.now) }
    ensures within { IfOk result (AreWithin params.now) }
    ensures fault { (fault : ArgumentFault)
        → (result ≡ Err (RunFault.Argument fault.rule fault.index))
        ↔ (fault_of_texts params.now (map (λ text. text.now) texts.now) ≡ Some fault) }
    ensures only { OnOk result (fault_of_texts params.now (map (λ text. text.now) texts.now) ≡ None) }
    ensures unstopped { (stop : Stop) → result ≢ Err (RunFault.Stopped stop) }
{
    match read(alloc, params, texts) {
        Ok(args) => Ok(args),
        Err(ReadError::Argument(fault)) => Err(RunFault::from(fault)),
        Err(ReadError::Memory) => Err(RunFault::Memory),
    }
}
