// Code that is made anew by a rule. A pass says what stands in the place of an expression; any other expression has its
// parts made anew.

ghost use Rattle.std.specs.Prelude.{◌≡◌, IfOk, Option};
ghost use Rattle.std.specs.Option.{option_map};
ghost use Rattle.straight_words.specs.Below.{term_tree, TermTree};

pub mod statements;
pub mod terms;

use inline::Term;
use std::alloc::{AllocError, Global};

/// What a pass puts in the place of expressions.
pub trait Rewriting {
    // What stands in the place of an expression, where that is not the same with its parts made anew.
    ghost rule: { Self → TermTree → Option TermTree };

    /// What stands in the place of an expression, where that is not the same with its parts made anew.
    fn instead(&self, alloc: Global, term: &Term) -> Result<Option<Term>, AllocError>
        ensures { IfOk result (λ made. option_map term_tree made ≡ rule self.now (term_tree term.now)) };
}
