// The laws, which join the two forms of the meaning: its rules, and the function that works it out.

ghost use Rattle.std.specs.Prelude.{◌≡◌, ◌≤◌, List, [], Some, length};
ghost use Rattle.source_eval.specs.Below.{Arg, bodies_of, Ending, exported, extents_of, Gives, ProcedureTree};
ghost use Rattle.source_eval.specs.Below.{Profile, program_run, ProgramTree, Results, violations};

/// Whatever end the rules give a program, it is the one that is worked out.
pub fn meaning_is_worked_out()
    ensures { (program : ProgramTree) (args : List Arg) (ending : Ending Results)
        → Gives program args ending
        → (program_run program args).ends ≡ ending }
{}

/// A program that violates no rule, for an observer, comes to an end on any arguments, and to one alone: the one that
/// is worked out. The arguments need not be within its parameter types, since each look-up has an answer: a name that
/// holds no word reads as 0, and an element of what is no array is a fault.
pub fn meaning_can_be_had()
    ensures derivable { (profile : Profile) (program : ProgramTree) (args : List Arg)
        → length (violations profile program) ≡ 0
        → Gives program args (program_run program args).ends }
    ensures exactly_one { (profile : Profile) (program : ProgramTree) (args : List Arg)
        → length (violations profile program) ≡ 0
        → (ending : Ending Results)
        × Gives program args ending
        × ((other : Ending Results) → Gives program args other → other ≡ ending) }
{}

/// No more bodies are open at once in a run than are counted for the text.
pub fn runs_open_what_is_counted()
    ensures { (program : ProgramTree) (args : List Arg) (before : List ProcedureTree) (p : ProcedureTree)
        → exported [] program.procedures ≡ Some (before, p)
        → (program_run program args).bodies ≤ bodies_of (extents_of before) p }
{}
