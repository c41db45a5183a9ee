// The body of the export with numbers in place of names: which statements each of its statements becomes.

ghost use Rattle.std.specs.Prelude.{◌≡◌, ◌++◌, length, IfOk, OnOk};
ghost use Rattle.inline.specs.Callees.{called_by};
ghost use Rattle.inline.specs.Flat.{chain, flat_block};
ghost use Rattle.inline.specs.Numbering as numbered;
ghost use Rattle.inline.specs.Below.{block_tree};

use crate::numbering::Numbering;
use crate::{FlatStatement, FlatVariable, Stretch};
use language::{Procedure, Statement};
use std::alloc::AllocError;

impl<'a> Numbering<'a> {
    /// Statements with numbers in place of names, put behind what there is; and how many each of them becomes.
    pub fn stretches(
        &mut self,
        earlier: &[Procedure],
        block: &'a [Statement],
        declared: &mut Vec<FlatVariable>,
        flat: &mut Vec<FlatStatement>,
    ) -> Result<Vec<Stretch>, AllocError>
        ensures stretches { IfOk result (λ all. all.items ≡ numbered.stretches (called_by earlier.now) self.old.names
            (length declared.old.items) (block_tree block.now)) }
        ensures block { OnOk result (flat_block flat.new.items
            ≡ chain (flat_block flat.old.items)
            (numbered.block (called_by earlier.now) self.old.names (length declared.old.items)
            (block_tree block.now))) }
        ensures names { OnOk result (self.new.names
            ≡ numbered.names_after_all (called_by earlier.now) self.old.names (length declared.old.items)
            (block_tree block.now)) }
        ensures declared { OnOk result (declared.new.items
            ≡ declared.old.items ++ numbered.declared_in_all (called_by earlier.now) (block_tree block.now)) }
    {
        let mut all = Vec::new(self.alloc);
        for statement in block {
            let before = flat.len();
            self.statement(earlier, statement, declared, flat)?;
            let after = flat.len();
            all.push(Stretch {
                place: statement.place(),
                statements: after - before,
            })?;
        }
        Ok(all)
    }
}
