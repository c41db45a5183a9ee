// What is written for one text is one list of bytes.

ghost use Rattle.std.specs.Prelude.{◌≡◌, ℕ, List, ◌++◌};
ghost use Rattle.input_files.specs.Below.{GainsPart, IsBuilt, Profile, Writes, WritesPart};
ghost use Rattle.compilation.specs.declared.optimised.Optimisation.{Optimisation};

use hepurita::builds_agree;

/// What is written of the image of one text, plain or optimised, for one observer is one list of bytes, those that
/// `build_with` answers and `build_stream_with` writes, and where a call of the sink failed it is a beginning of these.
pub fn streams_agree()
    ensures written { (optimisation : Optimisation) (profile : Profile) (text before one other : List ℕ)
        → Writes (IsBuilt optimisation profile text) before one
        → Writes (IsBuilt optimisation profile text) before other
        → one ≡ other }
    ensures answered { (optimisation : Optimisation) (profile : Profile) (text bytes before after : List ℕ)
        → IsBuilt optimisation profile text bytes
        → Writes (IsBuilt optimisation profile text) before after
        → after ≡ before ++ bytes }
    ensures begun { (optimisation : Optimisation) (profile : Profile) (text bytes before after : List ℕ)
        → IsBuilt optimisation profile text bytes
        → WritesPart (IsBuilt optimisation profile text) before after
        → GainsPart before after bytes }
{
    builds_agree();
}
