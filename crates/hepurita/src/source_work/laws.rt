// The laws, which hold of the definitions alone.

ghost use Rattle.std.specs.List.{AllByRecursion};
ghost use Rattle.std.specs.Prelude.{◌≡◌, [], List, Some, length};
ghost use Rattle.hepurita.specs.Below.{cost_by, exported, flattened, IsGrammatical, ProcedureTree, Profile};
ghost use Rattle.hepurita.specs.Below.{ProgramTree, sum_of, iterations_of, violations, work_of};
ghost use Rattle.hepurita.specs.source_work.SourceWork.{source_work, work_cost, work_shares};

/// The work of the export of a program that violates no rule is that of its one body with numbered variables.
pub fn work_is_that_of_the_body()
    ensures { (profile : Profile) (program : ProgramTree) (before : List ProcedureTree) (p : ProcedureTree)
        → length (violations profile program) ≡ 0
        → exported [] program.procedures ≡ Some (before, p)
        → AllByRecursion IsGrammatical before
        → IsGrammatical p
        → source_work before p ≡ work_of (flattened profile before p) }
{}

/// And so is what is counted of it, with its first part of those that cost most.
pub fn cost_is_that_of_the_body()
    ensures { (profile : Profile) (program : ProgramTree) (before : List ProcedureTree) (p : ProcedureTree)
        → length (violations profile program) ≡ 0
        → exported [] program.procedures ≡ Some (before, p)
        → AllByRecursion IsGrammatical before
        → IsGrammatical p
        → work_cost before p ≡ cost_by (iterations_of (flattened profile before p)) (flattened profile before p) }
{}

/// What the parts of an export cost of its work together is its work.
pub fn parts_make_the_work()
    ensures { (before : List ProcedureTree) (p : ProcedureTree) → sum_of (work_shares before p) ≡ source_work before p }
{}
