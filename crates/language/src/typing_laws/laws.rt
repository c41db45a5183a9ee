// Laws, which hold of the definitions alone.

ghost use Rattle.language.specs.typing_laws.ByRules.{BlocksByRules, ExpressionsByRules, ProgramsByRules};

/// An expression violates no rule exactly where the rules of inference give it a type, and that is the
/// type that it has.
pub fn expressions_by_rules()
    ensures { ExpressionsByRules }
{}

/// Statements violate no rule exactly where they are well typed by the rules of inference, under each
/// control label.
pub fn blocks_by_rules()
    ensures { BlocksByRules }
{}

/// A program violates no rule exactly where it is well typed by the rules of inference, for each observer.
pub fn programs_by_rules()
    ensures { ProgramsByRules }
{}
