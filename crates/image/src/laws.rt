//! Bytes and fields determine each other.

ghost use Rattle.std.specs.Prelude.{◌≡◌, ◌↔◌, ℕ, ◌++◌, List, []};
ghost use Rattle.image.specs.Below.{Fields, IsImage};
ghost use Rattle.image.specs.Reading.{AreBytes, Spells};

/// The fields that some bytes spell are those that an image may have.
pub fn allowed_fields_are_spelled()
    ensures { (fields : Fields) → IsImage fields ↔ ((bytes : List ℕ) × AreBytes bytes × Spells bytes fields) }
{}

/// Fields have one spelling.
pub fn one_spelling()
    ensures { (one other : List ℕ) (fields : Fields)
        → AreBytes one → AreBytes other → Spells one fields → Spells other fields → one ≡ other }
{}

/// No spelling begins another.
pub fn no_spelling_begins_another()
    ensures { (bytes rest : List ℕ) (fields others : Fields)
        → AreBytes (bytes ++ rest) → Spells bytes fields → Spells (bytes ++ rest) others → rest ≡ [] }
{}
