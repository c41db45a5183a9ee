// The laws, which hold of the definitions alone.

ghost use Rattle.std.specs.List.{AllByRecursion};
ghost use Rattle.std.specs.Prelude.{◌≡◌, [], List, Some, length, map};
ghost use Rattle.inline.specs.Below.{AreWithin, Arg, exported, Gives, IsGrammatical, Label, ProcedureTree, Profile};
ghost use Rattle.inline.specs.Below.{ProgramTree, size_violations, violations, WordType};
ghost use Rattle.inline.specs.declared.flat.FlatVariable.{FlatVariable};
ghost use Rattle.inline.specs.Fitting.{Fits, IsWithinKind};
ghost use Rattle.inline.specs.Flat.{FlatBlock, FlatProgram, FlatTree, TermTree};
ghost use Rattle.inline.specs.FlatMeaning.{Values, after, after_all, end_of, ending_of, given, value_in};
ghost use Rattle.inline.specs.FlatSize.{IsSized};
ghost use Rattle.inline.specs.FlatTyping.{AreTyped, TermHasType, IsTyped, IsTypedFlat, TermSuits, Types, end_types};
ghost use Rattle.inline.specs.FlatTyping.{parameter_types, types_after, types_after_all};
ghost use Rattle.inline.specs.Numbering.{flattened, param_of};

/// The export of a program that violates no rule is well typed for the same observer once its names are numbers, with
/// the bodies that it calls in it.
pub fn flat_is_typed()
    ensures { (profile : Profile) (program : ProgramTree) (before : List ProcedureTree) (p : ProcedureTree)
        → length (violations profile program) ≡ 0
        → exported [] program.procedures ≡ Some (before, p)
        → AllByRecursion IsGrammatical before
        → IsGrammatical p
        → IsTypedFlat (flattened profile before p) }
{}

/// And it keeps the limits on size, where the procedure passes none.
pub fn flat_is_sized()
    ensures { (profile : Profile) (program : ProgramTree) (before : List ProcedureTree) (p : ProcedureTree)
        → length (violations profile program) ≡ 0
        → exported [] program.procedures ≡ Some (before, p)
        → AllByRecursion IsGrammatical before
        → IsGrammatical p
        → length (size_violations before p) ≡ 0
        → IsSized (flattened profile before p) }
{}

/// The program comes to what it came to: on arguments within the parameter types it has the flat program's
/// outcome, or meets the first fault on that one's path.
pub fn flat_keeps_meaning()
    ensures { (profile : Profile) (program : ProgramTree) (before : List ProcedureTree) (p : ProcedureTree)
        (args : List Arg)
        → length (violations profile program) ≡ 0
        → exported [] program.procedures ≡ Some (before, p)
        → AllByRecursion IsGrammatical before
        → IsGrammatical p
        → AreWithin (map param_of p.parameters) args
        → Gives program args (ending_of (flattened profile before p) args) }
{}

/// Where each variable holds what it is declared as, each expression has a value of its own kind, and
/// each well-typed statement leaves it so, also where it meets a fault.
pub fn typed_values_fit()
    ensures value { (types : Types) (m : Values) (e : TermTree) (word : WordType) → Fits types m
        → TermHasType types e word → IsWithinKind word.kind (value_in m e) }
    ensures suited { (types : Types) (m : Values) (e : TermTree) (wanted : WordType) → Fits types m
        → TermSuits types wanted e → IsWithinKind wanted.kind (value_in m e) }
    ensures statement { (declared : List FlatVariable) (types : Types) (control : Label) (s : FlatTree) (m : Values)
        → IsTyped declared types control s
        → Fits types m
        → Fits (types_after types s) (after m s) }
    ensures body { (declared : List FlatVariable) (types : Types) (control : Label) (b : FlatBlock) (m : Values)
        → AreTyped declared types control b
        → Fits types m
        → Fits (types_after_all types b) (after_all m b) }
{}

/// So it is throughout a well-typed program, on arguments within its parameter types.
pub fn flat_values_fit()
    ensures parameters { (p : FlatProgram) (args : List Arg) → IsTypedFlat p → AreWithin p.parameters args
        → Fits (parameter_types p.profile p.parameters) (given p.declared args) }
    ensures end { (p : FlatProgram) (args : List Arg)
        → IsTypedFlat p
        → AreWithin p.parameters args
        → Fits (end_types p) (end_of p args) }
    ensures result { (p : FlatProgram) (args : List Arg) (word : WordType) (value : TermTree)
        → IsTypedFlat p
        → AreWithin p.parameters args
        → p.returned ≡ Some word
        → p.value ≡ Some value
        → IsWithinKind word.kind (value_in (end_of p args) value) }
{}
