//! Arguments have no fault exactly where they are within the parameter types.

ghost use Rattle.std.specs.Prelude.{◌≡◌, ◌↔◌, List, length, None};
ghost use Rattle.language.specs.arguments.Faults.{fault_of};
ghost use Rattle.language.specs.arguments.Within.{AreWithin};
ghost use Rattle.language.specs.declared.signature.Param.{Param};
ghost use Rattle.language.specs.declared.values.Arg.{Arg};

/// Arguments that are within the parameter types are those that have no fault, and there is one for
/// each parameter.
pub fn faultless_arguments()
    ensures none { (params : List Param) (args : List Arg) → (fault_of params args ≡ None) ↔ AreWithin params args }
    ensures count { (params : List Param) (args : List Arg) → AreWithin params args → length args ≡ length params }
{}
