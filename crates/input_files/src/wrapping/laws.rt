// What two answers of `wrap` are to each other.

ghost use Rattle.std.specs.Prelude.{◌≡◌, ℕ, List};
ghost use Rattle.input_files.specs.wrapping.Wrapped.{Breaks, IsWrapped};
ghost use Rattle.input_files.specs.declared.wrapping.asked.Asked.{Asked};
ghost use Rattle.input_files.specs.declared.wrapping.fault.CodeRule.{CodeRule};

use syntax::one_answer_for_a_source;

/// Of a text, code and what is asked besides there is one image, or one rule that is broken first, and not both: what
/// `wrap` answers twice is one list of bytes, or one rule.
pub fn wraps_agree()
    ensures bytes { (text code : List ℕ) (asked : Asked) (one other : List ℕ)
        → IsWrapped text code asked one
        → IsWrapped text code asked other
        → one ≡ other }
    ensures rules { (text code : List ℕ) (asked : Asked) (one other : CodeRule)
        → Breaks text code asked one
        → Breaks text code asked other
        → one ≡ other }
    ensures apart { (text code : List ℕ) (asked : Asked) (bytes : List ℕ) (rule : CodeRule)
        → IsWrapped text code asked bytes
        → Breaks text code asked rule
        → ⊥ }
{
    one_answer_for_a_source();
}
