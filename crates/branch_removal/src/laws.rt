// The laws, which hold of the definitions alone.

ghost use Rattle.std.specs.Prelude.{◌≡◌, List, [], true};
ghost use Rattle.branch_removal.specs.Below.{Agree, AgreeInPublic, Arg, path_in, RangedProgram, seen, TermTree, Values};
ghost use Rattle.branch_removal.specs.Quiet.{is_quiet};
ghost use Rattle.branch_removal.specs.Removed.{IsRemoved};
ghost use Rattle.branch_removal.specs.Replaced.{IsReplaced};
ghost use Rattle.branch_removal.specs.Straight.{StraightProgram};
ghost use Rattle.branch_removal.specs.StraightMeaning.{outcome_of, path_of};
ghost use Rattle.branch_removal.specs.StraightTyping.{IsTypedStraight};

/// What a run of well-typed straight code shows is decided by what is public, and so are its public results.
pub fn straight_shows_what_is_public()
    ensures paths { (p : StraightProgram) (one other : List Arg) → IsTypedStraight p → Agree p.parameters one other
        → seen p.profile (path_of p one) ≡ seen p.profile (path_of p other) }
    ensures public { (p : StraightProgram) (one other : List Arg) → IsTypedStraight p → Agree p.parameters one other
        → AgreeInPublic p.parameters p.returned (outcome_of p one) (outcome_of p other) }
{}

/// What may stand in the place of a body's straight code is straight code for that body.
pub fn replaced_is_removed()
    ensures { (ranged : RangedProgram) (before after : StraightProgram)
        → IsRemoved ranged before
        → IsReplaced before after
        → IsRemoved ranged after }
{}

/// An expression without an index, a division or a multiplication has nothing on its path.
pub fn quiet_shows_nothing()
    ensures { (variables : Values) (e : TermTree) → is_quiet e ≡ true → path_in variables e ≡ [] }
{}
