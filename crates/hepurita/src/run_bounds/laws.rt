// The laws, which hold of the definitions alone.

ghost use Rattle.std.specs.Prelude.{◌≡◌, ℕ, ◌≤◌, List, [], Some, Ok, length, map};
ghost use Rattle.std.specs.List.{AllByRecursion};
ghost use Rattle.hepurita.specs.Below.{AreWithin, Arg, bodies_of, evaluated_by, exported, extents_of, flattened};
ghost use Rattle.hepurita.specs.Below.{IsGrammatical, IsTypedFlat, most_bodies, most_work, outcome_of};
ghost use Rattle.hepurita.specs.Below.{param_of, ProcedureTree, Profile, program_run, ProgramTree};
ghost use Rattle.hepurita.specs.Below.{range_violations, run_answer, violations, work_of};

/// A run of a program that violates no rule evaluates no more nodes than are counted for a run of the one body that it
/// becomes.
pub fn runs_evaluate_what_is_counted()
    ensures { (profile : Profile) (program : ProgramTree) (before : List ProcedureTree) (p : ProcedureTree)
        (args : List Arg)
        → length (violations profile program) ≡ 0
        → exported [] program.procedures ≡ Some (before, p)
        → AllByRecursion IsGrammatical before
        → IsGrammatical p
        → AreWithin (map param_of p.parameters) args
        → (program_run program args).nodes ≤ evaluated_by (flattened profile before p) args }
{}

/// Of a program that all passes accept its outcome is answered, within any budget that is at least the greatest work
/// that is allowed: it meets no fault, and it uses no budget up.
pub fn accepted_programs_are_answered()
    ensures { (profile : Profile) (program : ProgramTree) (before : List ProcedureTree) (p : ProcedureTree)
        (args : List Arg) (budget : ℕ)
        → length (violations profile program) ≡ 0
        → exported [] program.procedures ≡ Some (before, p)
        → AllByRecursion IsGrammatical before
        → IsGrammatical p
        → IsTypedFlat (flattened profile before p)
        → bodies_of (extents_of before) p ≤ most_bodies
        → length (range_violations (flattened profile before p)) ≡ 0
        → work_of (flattened profile before p) ≤ most_work
        → AreWithin (map param_of p.parameters) args
        → most_work ≤ budget
        → run_answer (program_run program args) budget ≡ Ok (outcome_of (flattened profile before p) args) }
{}
