// The law, which holds of the definitions alone.

ghost use Rattle.expression_code.specs.Computed.{Site, IsSiteOf, IsComputed};
ghost use Rattle.expression_code.specs.Below.{TermHasType, TermTree, types_of, WordType};

/// The machine computes a well-typed expression, wherever its code stands, whichever variables have homes and whichever
/// the place of its value. The value is then in the variable's home or comes into the place, within so many steps. What
/// is shown is a list that the part of the path which the code's observer sees decides alone. The homes, the
/// temporaries of lower places and what lies before all temporaries stay.
pub fn expressions_are_computed()
    ensures { (e : TermTree) (word : WordType) (site : Site)
        → TermHasType (types_of site.code.profile site.layout.declared) e word
        → IsSiteOf e site
        → IsComputed e site }
{}
