// The laws, which hold of the definitions alone.

ghost use Rattle.std.specs.Prelude.{◌≡◌, ℕ, ◌≤◌, List, take};
ghost use Rattle.std.specs.List.{All};
ghost use Rattle.hepurita.specs.grammar_laws.Heads.{astray, here, in_program};
ghost use Rattle.hepurita.specs.Below.{accepted, ParseAnswer, AreByCases, Lexeme, Lexes, origin, place_after};
ghost use Rattle.tokens.specs.Tokens.{TokensEnding};
ghost use Rattle.hepurita.specs.Below.{ProgramTree, Reads};

/// Some program begins with tokens exactly where they begin one by the cases of the grammar.
pub fn beginnings_are_by_cases()
    ensures { AreByCases }
{}

/// Each source has a list of tokens, which ends somehow.
pub fn each_source_has_tokens()
    ensures { (source : List ℕ) → (tokens : List Lexeme) × (end : TokensEnding) × Lexes source tokens end }
{}

/// Each source has an answer.
pub fn each_source_has_an_answer()
    ensures { (source : List ℕ) → (answer : ParseAnswer) × Reads source answer }
{}

/// A token's place is the one after the bytes before it, so its offset decides its line and its column.
pub fn offsets_decide_places()
    ensures { (source : List ℕ) (tokens : List Lexeme) (end : TokensEnding) → Lexes source tokens end
        → All (λ token. token.place ≡ place_after origin (take token.place.offset source)) tokens }
{}

/// No two nodes of a program have their heads at one offset.
pub fn heads_are_distinct()
    ensures { (source : List ℕ) (tree : ProgramTree)
        → Reads source (accepted tree)
        → (n : ℕ)
        → in_program (here n) tree ≤ 1 }
{}

/// The offset of a head of a program decides its line and its column.
pub fn heads_are_in_place()
    ensures { (source : List ℕ) (tree : ProgramTree) → Reads source (accepted tree) → in_program
        (astray source) tree ≡ 0 }
{}
