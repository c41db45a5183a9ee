// What the answers of the calls are to each other.

ghost use Rattle.std.specs.Prelude.{ℕ, ◌+◌, ◌*◌, ◌<◌, ◌≤◌, ◌≡◌, ◌≢◌, Bool, List, ◌++◌, Result, Ok, Err, Some, map};
ghost use Rattle.hepurita.specs.Below.{accepted, Agree, AgreeInPublic, answer, AreBases, AreWithin, Arg, extents_of};
ghost use Rattle.hepurita.specs.Below.{Fields, flattened, IsGenerated, IsRemoved, most_nodes, most_work, nodes_of};
ghost use Rattle.hepurita.specs.Below.{Observation, Pairing, Param, param_of, params_of, ProcedureTree, Profile};
ghost use Rattle.hepurita.specs.Below.{ProgramTree, ranged, Reads, Results, State, Stop, StraightProgram, words_of};
ghost use Rattle.hepurita.specs.Bases.{code_base, frame_base, most_images, code_distance, frame_distance};
ghost use Rattle.hepurita.specs.Built.{IsBuilt, IsCompilation, Judges, JudgesProgram, accepts};
ghost use Rattle.hepurita.specs.Compiled.{IsCompiled, Means};
ghost use Rattle.hepurita.specs.CutOff.{IsRightSoFar};
ghost use Rattle.hepurita.specs.declared.fault.RunFault.{RunFault};
ghost use Rattle.compilation.specs.declared.optimised.Optimisation.{Optimisation};
ghost use Rattle.hepurita.specs.Answers.{Builds, IsTheOutcome, IsSame};
ghost use Rattle.hepurita.specs.Executed.{Executed, WantsMemory};
ghost use Rattle.hepurita.specs.Paired.{Paired};
ghost use Rattle.hepurita.specs.Uncut.{RunsFor};

use language::arguments::faultless_arguments;
use syntax::one_answer_for_a_source;

/// What the passes promise, put together. Where a source is a program that is accepted with an export, for an observer,
/// the image for straight code for the export, with the bodies that it calls, is that export, compiled.
pub fn sources_are_compiled()
    ensures { (profile : Profile) (source : List ℕ) (program : ProgramTree) (before : List ProcedureTree)
        (export : ProcedureTree) (straight : StraightProgram) (image : Fields)
        → Reads source (accepted program)
        → JudgesProgram profile program (accepts program before export)
        → IsRemoved (ranged (flattened profile before export)) straight
        → IsGenerated straight image
        → IsCompiled program before export image }
{}

/// Code and frame of a compiled image may lie at the standard bases, and those of eight images beside one
/// another, the code 2^20 and the frames 2^16 bytes apart.
pub fn bases_fit()
    ensures { (program : ProgramTree) (before : List ProcedureTree) (p : ProcedureTree) (image : Fields) (k : ℕ)
        → IsCompiled program before p image
        → nodes_of (extents_of before) p ≤ most_nodes
        → k < most_images
        → AreBases image (code_base + code_distance * k) (frame_base + frame_distance * k) }
{}

/// A source has one plain and one optimised image for an observer: what `build_with` answers twice is one list of
/// bytes, so an image can be checked by its hash.
pub fn builds_agree()
    ensures { (optimisation : Optimisation) (profile : Profile) (source one other : List ℕ)
        → IsBuilt optimisation profile source one → IsBuilt optimisation profile source other → one ≡ other }
{
    one_answer_for_a_source();
}

/// A compilation has bytes: those that `build_with` answers, from which it is read.
pub fn compilations_are_spelled()
    ensures { (optimisation : Optimisation) (profile : Profile) (source : List ℕ) (program : ProgramTree)
        (before : List ProcedureTree) (export : ProcedureTree) (image : Fields)
        → IsCompilation optimisation profile source program before export image
        → (bytes : List ℕ) × Builds optimisation profile source bytes program before export image }
{}

/// The calls, one after another. The image of a source that is accepted for an observer, plain or optimised, read from
/// the bytes that `build_with` answers and executed on arguments within the parameter types, gives the one outcome that
/// the source means. On two lists of arguments that are equal where they are public `pair` answers `same`, the recorder
/// takes one and the same list, and the return and the `mut` arrays are equal where they are public. Other answers are
/// out of memory and a recorder that refuses.
pub fn images_do_what_sources_mean()
    ensures outcome { (optimisation : Optimisation) (profile : Profile) (source bytes : List ℕ) (program : ProgramTree)
        (before : List ProcedureTree) (export : ProcedureTree) (image : Fields) (args : List Arg) (keeps : Bool)
        (list after : List Observation) (answer : Result Results RunFault)
        → Builds optimisation profile source bytes program before export image
        → AreWithin (params_of image) args
        → Executed image args keeps list answer after
        → IsTheOutcome program args answer }
    ensures same { (optimisation : Optimisation) (profile : Profile) (source bytes : List ℕ) (program : ProgramTree)
        (before : List ProcedureTree) (export : ProcedureTree) (image : Fields) (one other : List Arg)
        (answer : Result Pairing RunFault)
        → Builds optimisation profile source bytes program before export image
        → Agree (params_of image) one other
        → Paired image one other answer
        → IsSame answer }
    ensures shown { (optimisation : Optimisation) (profile : Profile) (source bytes : List ℕ) (program : ProgramTree)
        (before : List ProcedureTree) (export : ProcedureTree) (image : Fields) (one other : List Arg) (keeps : Bool)
        (list after after' : List Observation) (a b : Results)
        → Builds optimisation profile source bytes program before export image
        → Agree (params_of image) one other
        → Executed image one keeps list (Ok a) after
        → Executed image other keeps list (Ok b) after'
        → after ≡ after' }
    ensures public { (optimisation : Optimisation) (profile : Profile) (source bytes : List ℕ) (program : ProgramTree)
        (before : List ProcedureTree) (export : ProcedureTree) (image : Fields) (one other : List Arg) (keeps : Bool)
        (list after after' : List Observation) (a b : Results)
        → Builds optimisation profile source bytes program before export image
        → Agree (params_of image) one other
        → Executed image one keeps list (Ok a) after
        → Executed image other keeps list (Ok b) after'
        → AgreeInPublic (params_of image) export.result a b }
{
    one_answer_for_a_source();
    faultless_arguments();
}

/// Runs that are cut off. However few steps the image of an accepted source, plain or optimised, is given, on arguments
/// within the parameter types and with no recorder that refuses, it has stopped by `Ecall` with the one outcome that
/// the source means, or it has not stopped and had fewer steps than the image states. On two lists of arguments that
/// are equal where they are public, as many steps show one and the same list.
pub fn cut_off_runs_are_right()
    ensures outcome { (optimisation : Optimisation) (profile : Profile) (source bytes : List ℕ) (program : ProgramTree)
        (before : List ProcedureTree) (export : ProcedureTree) (image : Fields) (args : List Arg) (given : ℕ)
        (seen : List Observation) (stop : Stop) (end : State)
        → Builds optimisation profile source bytes program before export image
        → AreWithin (params_of image) args
        → RunsFor given image args seen stop end
        → IsRightSoFar program image args given stop end }
    ensures shown { (optimisation : Optimisation) (profile : Profile) (source bytes : List ℕ) (program : ProgramTree)
        (before : List ProcedureTree) (export : ProcedureTree) (image : Fields) (one other : List Arg) (given : ℕ)
        (seen seen' : List Observation) (stop stop' : Stop) (end end' : State)
        → Builds optimisation profile source bytes program before export image
        → Agree (params_of image) one other
        → RunsFor given image one seen stop end
        → RunsFor given image other seen' stop' end'
        → seen ≡ seen' }
{
    one_answer_for_a_source();
}

/// What `eval` answers for an accepted source, with a budget that the most work fits, as the command gives it: the one
/// outcome that the source means. So it never says that the source has no meaning, or that the budget is used up.
pub fn accepted_sources_are_evaluated()
    ensures { (profile : Profile) (source : List ℕ) (program : ProgramTree) (before : List ProcedureTree)
        (export : ProcedureTree) (args : List Arg) (budget : ℕ)
        → Judges profile source (accepts program before export)
        → AreWithin (map param_of export.parameters) args
        → most_work ≤ budget
        → (results : Results) × Means program args results × (answer program args budget ≡ Ok results) }
{
    faultless_arguments();
}

/// Two calls of `execute` with one image, one list of arguments and one list of what was recorded before. Where neither
/// lacks memory they answer the same and leave one list. Where one of them does, or its recorder, what it leaves is a
/// beginning of what the other leaves.
pub fn executions_agree()
    ensures answered { (image : Fields) (args : List Arg) (keeps : Bool) (list one other : List Observation)
        (a b : Result Results RunFault)
        → Executed image args keeps list a one
        → Executed image args keeps list b other
        → (WantsMemory a → ⊥)
        → (WantsMemory b → ⊥)
        → (a ≡ b) × (one ≡ other) }
    ensures wanted { (image : Fields) (args : List Arg) (keeps : Bool) (list one other : List Observation)
        (a b : Result Results RunFault)
        → Executed image args keeps list a one
        → Executed image args keeps list b other
        → (WantsMemory a → ⊥)
        → WantsMemory b
        → (rest : List Observation) × (one ≡ other ++ rest) }
{}

/// Two calls of `pair` with one image and the same two lists of arguments answer the same, where neither runs out of
/// memory.
pub fn comparisons_agree()
    ensures { (image : Fields) (one other : List Arg) (a b : Result Pairing RunFault)
        → Paired image one other a → Paired image one other b
        → a ≢ Err RunFault.Memory → b ≢ Err RunFault.Memory → a ≡ b }
{}

/// Texts spell one list of arguments for parameters: within their types, the words decide whether each is an array.
pub fn readings_agree()
    ensures { (params : List Param) (one other : List Arg)
        → AreWithin params one → AreWithin params other
        → map (λ arg. Some (words_of arg)) one ≡ map (λ arg. Some (words_of arg)) other → one ≡ other }
{}
