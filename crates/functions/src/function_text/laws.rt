// What two answers for one source are to each other, and what a call of its function does.

ghost use Rattle.std.specs.Prelude.{ℕ, ◌≡◌, List};
ghost use Rattle.functions.specs.function_text.Functions.{FunctionParts, IsFunctionOf};
ghost use Rattle.functions.specs.function_text.Linked.{FunctionsAreLinked, HeadersStateStacks};
ghost use Rattle.functions.specs.function_text.Texts.{AreTextsOf};
ghost use Rattle.functions.specs.Below.{Optimisation, Profile};

use crate::function_text::notation::Notation;
use linked_calls::calls_are_linked;
use rv_code::laws::words_differ;
use syntax::one_answer_for_a_source;

/// A source has one plain and one optimised function for an observer and under a prefix: two of a kind are one in their
/// names, parameters and image, so in their words; and the texts of two, written alike, are one.
pub fn functions_agree()
    ensures parts { (optimisation : Optimisation) (profile : Profile) (prefix source : List ℕ)
        (one other : FunctionParts)
        → IsFunctionOf optimisation profile prefix source one → IsFunctionOf optimisation profile prefix source other
        → one ≡ other }
    ensures texts { (optimisation : Optimisation) (profile : Profile) (prefix : List ℕ) (notation : Notation)
        (source assembler header assembler' header' : List ℕ)
        → AreTextsOf optimisation profile prefix notation source assembler header
        → AreTextsOf optimisation profile prefix notation source assembler' header'
        → (assembler ≡ assembler') × (header ≡ header') }
{
    words_differ();
    one_answer_for_a_source();
}

/// The function of a source, plain or optimised, can be called from wherever its words stand in code, as C calls
/// functions: what it leaves is what the source's program means on the arguments, and what it shows an observer is one
/// list for arguments that agree where they are public. The number that its header defines as the macro of its stack is
/// exactly the room of a call below the caller's stack pointer.
pub fn functions_are_linked()
    ensures linked { FunctionsAreLinked }
    ensures stack { HeadersStateStacks }
{
    calls_are_linked();
}
