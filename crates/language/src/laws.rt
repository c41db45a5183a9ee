// Laws of the trees and of their sizes.

ghost use Rattle.std.specs.Prelude.{◌≡◌, ◌+◌, [], None, Some, List};
ghost use Rattle.language.specs.Blocks.{RowsAreBlocks};
ghost use Rattle.language.specs.Shares.{IsFirstOfGreatest, greatest_of, largest, sum_of};
ghost use Rattle.language.specs.Size.{Extents, bodies_of, body_shares, byte_shares, declared_bytes, node_shares};
ghost use Rattle.language.specs.Size.{nodes_of};
ghost use Rattle.language.specs.Tree.{ProcedureTree};
ghost use Rattle.language.specs.declared.why.Share.{Share};

/// The trees of conditionals and loops have the blocks that they run as lists.
pub fn rows_are_blocks()
    ensures { RowsAreBlocks }
{}

/// What a procedure's parts have together is what it has; of bodies that are open at once what the deepest part has,
/// and its own.
pub fn shares_make_the_whole()
    ensures nodes { (extents : Extents) (p : ProcedureTree) → sum_of (node_shares extents p) ≡ nodes_of extents p }
    ensures bodies { (extents : Extents) (p : ProcedureTree)
        → 1 + greatest_of (body_shares extents p) ≡ bodies_of extents p }
    ensures bytes { (extents : Extents) (p : ProcedureTree)
        → sum_of (byte_shares extents p) ≡ declared_bytes extents p }
{}

/// The part that is named is the first of those that have most; none is named only where there is none.
pub fn largest_is_first_of_greatest()
    ensures some { (ps : List Share) (p : Share) → largest ps ≡ Some p → IsFirstOfGreatest ps p }
    ensures none { (ps : List Share) → largest ps ≡ None → ps ≡ [] }
{}
