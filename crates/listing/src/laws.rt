// What the answers of calls of `leak` are to each other.

ghost use Rattle.std.specs.Prelude.{ℕ, ◌≡◌, ◌≢◌, List, ◌++◌, Result, Err};
ghost use Rattle.language.specs.arguments.Agreement.{Agree};
ghost use Rattle.listing.specs.Below.{Arg, Fields, params_of, ProcedureTree, ProgramTree, Stop, Writes, WritesPart};
ghost use Rattle.hepurita.specs.Answers.{Builds};
ghost use Rattle.compilation.specs.declared.optimised.Optimisation.{Optimisation};
ghost use Rattle.listing.specs.declared.fault.LeakFault.{LeakFault};
ghost use Rattle.listing.specs.Leaked.{Leaks, IsLeak};
ghost use Rattle.word.specs.declared.profile.Profile.{Profile};

use hepurita::cut_off_runs_are_right;

/// An image on arguments has one stop and one listing. Two calls of `leak` answer the same, where neither lacks memory
/// and no call of a sink fails; and where one failed, what went out is a beginning of what went out where none did.
pub fn leaks_agree()
    ensures answer { (image : Fields) (args : List Arg) (a b : Result Stop LeakFault)
        → Leaks image args a → Leaks image args b
        → a ≢ Err LeakFault.Memory → a ≢ Err LeakFault.Write → b ≢ Err LeakFault.Memory → b ≢ Err LeakFault.Write
        → a ≡ b }
    ensures listing { (image : Fields) (args : List Arg) (stop other : Stop) (bytes more : List ℕ)
        → IsLeak image args stop bytes → IsLeak image args other more → (stop ≡ other) × (bytes ≡ more) }
    ensures beginning { (image : Fields) (args : List Arg) (stop : Stop) (before whole part : List ℕ)
        → Writes (IsLeak image args stop) before whole
        → WritesPart (λ bytes. (stop : Stop) × IsLeak image args stop bytes) before part
        → (rest : List ℕ) × (whole ≡ part ++ rest) }
{}

/// What goes out shows only what is public. Of the image of an accepted text, plain or optimised, on two lists of
/// arguments that are equal where they are public, the listings are one list of bytes, and the stop is `Ecall`.
pub fn listings_show_what_is_public()
    ensures { (optimisation : Optimisation) (profile : Profile) (text bytes : List ℕ) (program : ProgramTree)
        (before : List ProcedureTree) (export : ProcedureTree) (image : Fields) (one other : List Arg)
        (stop stop' : Stop) (listed listed' : List ℕ)
        → Builds optimisation profile text bytes program before export image
        → Agree (params_of image) one other
        → IsLeak image one stop listed
        → IsLeak image other stop' listed'
        → (listed ≡ listed') × (stop ≡ Stop.Ecall) × (stop' ≡ Stop.Ecall) }
{
    cut_off_runs_are_right();
}
