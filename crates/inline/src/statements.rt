// Statements and bodies with numbers in place of names, each put behind what there is. The body of a called procedure
// stands where its call stood.

ghost use Rattle.std.specs.Prelude.{◌≡◌, ◌++◌, ◌∷◌, ◌+◌, false, length, map, IfOk, OnOk};
ghost use Rattle.std.specs.Option.{option_map};
ghost use Rattle.inline.specs.Flat as flat_forms;
ghost use Rattle.inline.specs.Flat.{chain, counter_type, flat_block, term_tree, word_as};
ghost use Rattle.inline.specs.Numbering as numbered;
ghost use Rattle.inline.specs.Callees.{called_by};
ghost use Rattle.inline.specs.Numbering.{naming, single};
ghost use Rattle.inline.specs.Below.{block_tree, call_tree, declaration, expr_tree, return_tree, right_tree};
ghost use Rattle.inline.specs.Below.{statement_tree};
ghost use Rattle.language.specs.Tree as source;

use crate::calls::push;
use crate::numbering::{Numbered, Numbering, add, counter};
use crate::{FlatStatement, FlatVariable, Term};
use language::{
    Assignment, Call, Counter, Declaration, ElementAssignment, Expr, Procedure, RightSide,
    Statement, WordType, procedure_named,
};
use std::alloc::AllocError;

/// What a call gives: the type of its result and the result, where it has one.
#[derive(Drop)]
pub struct CallGiven {
    word: Option<WordType>,
    value: Option<Term>,
}

/// The result of a call. Where one is wanted there is one in a well-typed program.
fn value_given(value: Option<Term>) -> Term
    ensures { term_tree result ≡ numbered.value_given (option_map term_tree value) }
{
    match value {
        Some(value) => value,
        None => Term::Truth(false),
    }
}

impl<'a> Numbering<'a> {
    /// A call without its own node: its words are passed, and the called body stands in its own names.
    #[tactic(auto, using(crate::proofs::BlockLemmas::chain_nothing, crate::proofs::BlockLemmas::chain_chain))]
    #[cycle(numbering)]
    fn call(
        &self,
        earlier: &[Procedure],
        call: &Call,
        declared: &mut Vec<FlatVariable>,
        flat: &mut Vec<FlatStatement>,
    ) -> Result<CallGiven, AllocError>
        ensures word { IfOk result (λ given. given.word ≡ numbered.call_result (called_by earlier.now call.now.name)) }
        ensures value { IfOk result (λ given. option_map term_tree given.value
            ≡ numbered.call_value (called_by earlier.now call.now.name) self.now.names (length declared.old.items)
            (map expr_tree call.now.arguments.items)) }
        ensures block { OnOk result (flat_block flat.new.items
            ≡ chain (flat_block flat.old.items)
            (numbered.call_block (called_by earlier.now call.now.name) self.now.names (length declared.old.items)
            (map expr_tree call.now.arguments.items))) }
        ensures declared { OnOk result (declared.new.items ≡ declared.old.items
            ++ numbered.call_variables (called_by earlier.now call.now.name) (map expr_tree call.now.arguments.items)) }
    {
        let Some((before, callee)) = procedure_named(earlier, &call.name) else {
            return Ok(CallGiven {
                word: None,
                value: None,
            });
        };
        let mut own = self.pass(&callee.parameters, &call.arguments, declared, flat)?;
        let value = own.inside(before, callee, declared, flat)?;
        Ok(CallGiven {
            word: callee.result,
            value,
        })
    }

    /// The body of a procedure that stands in its own names, and its result.
    #[cycle(numbering)]
    fn inside(
        &mut self,
        earlier: &[Procedure],
        procedure: &'a Procedure,
        declared: &mut Vec<FlatVariable>,
        flat: &mut Vec<FlatStatement>,
    ) -> Result<Option<Term>, AllocError>
        ensures value { IfOk result (λ value. option_map term_tree value
            ≡ numbered.value_of (numbered.names_after_all (called_by earlier.now) self.old.names
            (length declared.old.items) (block_tree procedure.now.body.items))
            (option_map return_tree procedure.now.returned)) }
        ensures block { OnOk result (flat_block flat.new.items
            ≡ chain (flat_block flat.old.items)
            (numbered.block (called_by earlier.now) self.old.names (length declared.old.items)
            (block_tree procedure.now.body.items))) }
        ensures declared { OnOk result
            (declared.new.items ≡ declared.old.items ++ numbered.declared_in_all (called_by earlier.now)
            (block_tree procedure.now.body.items)) }
    {
        self.block(earlier, &procedure.body, declared, flat)?;
        self.value(&procedure.returned)
    }

    /// What is assigned, and what stands before it is known.
    #[tactic(auto, using(crate::proofs::BlockLemmas::chain_nothing, crate::proofs::BlockLemmas::chain_chain))]
    #[cycle(numbering)]
    fn right(
        &self,
        earlier: &[Procedure],
        right: &RightSide,
        declared: &mut Vec<FlatVariable>,
        flat: &mut Vec<FlatStatement>,
    ) -> Result<Term, AllocError>
        ensures value { IfOk result (λ value. term_tree value
            ≡ numbered.right (called_by earlier.now) self.now.names (length declared.old.items)
            (right_tree right.now)) }
        ensures block { OnOk result (flat_block flat.new.items
            ≡ chain (flat_block flat.old.items)
            (numbered.right_block (called_by earlier.now) self.now.names (length declared.old.items)
            (right_tree right.now))) }
        ensures declared { OnOk result (declared.new.items
            ≡ declared.old.items ++ numbered.right_variables (called_by earlier.now) (right_tree right.now)) }
    {
        match right {
            RightSide::Value(expr) => self.term(expr),
            RightSide::Call(call) => {
                push(flat, FlatStatement::Skip)?;
                let given = self.call(earlier, call, declared, flat)?;
                push(flat, FlatStatement::Skip)?;
                Ok(value_given(given.value))
            }
        }
    }

    /// A declaration of a word.
    #[tactic(auto, using(crate::proofs::BlockLemmas::chain_nothing, crate::proofs::BlockLemmas::chain_chain))]
    #[cycle(numbering)]
    fn word(
        &mut self,
        earlier: &[Procedure],
        declaration: &'a Declaration,
        declared: &mut Vec<FlatVariable>,
        flat: &mut Vec<FlatStatement>,
    ) -> Result<(), AllocError>
        ensures block { OnOk result (flat_block flat.new.items
            ≡ chain (flat_block flat.old.items)
            (numbered.statement (called_by earlier.now) self.old.names (length declared.old.items)
            (source.declaration declaration.now.place declaration.now.label declaration.now.mutable declaration.now.kind
            declaration.now.name (right_tree declaration.now.value)))) }
        ensures names { OnOk result (self.new.names
            ≡ numbered.names_after (called_by earlier.now) self.old.names (length declared.old.items)
            (source.declaration declaration.now.place declaration.now.label declaration.now.mutable declaration.now.kind
            declaration.now.name (right_tree declaration.now.value))) }
        ensures declared { OnOk result (declared.new.items ≡ declared.old.items
            ++ numbered.declared_in (called_by earlier.now)
            (source.declaration declaration.now.place declaration.now.label declaration.now.mutable declaration.now.kind
            declaration.now.name (right_tree declaration.now.value))) }
    {
        let value = self.right(earlier, &declaration.value, declared, flat)?;
        let word = WordType {
            kind: declaration.kind,
            label: declaration.label,
        };
        let mutable = declaration.mutable;
        let number = self.declare(
            &declaration.name,
            FlatVariable::word(word, mutable),
            declared,
        )?;
        push(flat, FlatStatement::Declare(number, word, mutable, value))
    }

    /// An assignment to a name.
    #[tactic(auto, using(crate::proofs::BlockLemmas::chain_nothing, crate::proofs::BlockLemmas::chain_chain))]
    #[cycle(numbering)]
    fn assign(
        &self,
        earlier: &[Procedure],
        assignment: &Assignment,
        declared: &mut Vec<FlatVariable>,
        flat: &mut Vec<FlatStatement>,
    ) -> Result<(), AllocError>
        ensures block { OnOk result (flat_block flat.new.items
            ≡ chain (flat_block flat.old.items)
            (numbered.statement (called_by earlier.now) self.now.names (length declared.old.items)
            (source.assignment assignment.now.place assignment.now.target assignment.now.name
            (right_tree assignment.now.value)))) }
        ensures declared { OnOk result (declared.new.items ≡ declared.old.items
            ++ numbered.right_variables (called_by earlier.now) (right_tree assignment.now.value)) }
    {
        let number = self.numbered(&assignment.name).number;
        let value = self.right(earlier, &assignment.value, declared, flat)?;
        push(flat, FlatStatement::Assign(number, value))
    }

    /// An assignment to an element. Its index is held while a call stands behind it.
    #[tactic(auto, using(crate::proofs::BlockLemmas::chain_nothing, crate::proofs::BlockLemmas::chain_chain))]
    #[cycle(numbering)]
    fn element(
        &self,
        earlier: &[Procedure],
        assignment: &ElementAssignment,
        declared: &mut Vec<FlatVariable>,
        flat: &mut Vec<FlatStatement>,
    ) -> Result<(), AllocError>
        ensures block { OnOk result (flat_block flat.new.items
            ≡ chain (flat_block flat.old.items)
            (numbered.element_block (called_by earlier.now) self.now.names (length declared.old.items)
            assignment.now.bracket assignment.now.name (expr_tree assignment.now.index)
            (right_tree assignment.now.value))) }
        ensures declared { OnOk result (declared.new.items ≡ declared.old.items
            ++ numbered.element_variables (called_by earlier.now) (right_tree assignment.now.value)) }
    {
        let place = assignment.bracket;
        let Numbered {
            number,
            declaration,
        } = self.numbered(&assignment.name);
        let size = declaration.numbers();
        let index = self.term(&assignment.index)?;
        match &assignment.value {
            RightSide::Value(expr) => {
                let value = self.term(expr)?;
                push(
                    flat,
                    FlatStatement::AssignElement(place, number, size, index, value),
                )
            }
            RightSide::Call(call) => {
                let held = add(declared, counter())?;
                push(flat, FlatStatement::Hold(held, place, size, index))?;
                let given = self.call(earlier, call, declared, flat)?;
                let index = Term::Variable(held);
                let value = value_given(given.value);
                push(
                    flat,
                    FlatStatement::AssignElement(place, number, size, index, value),
                )
            }
        }
    }

    /// A call as a statement. A result that nothing takes is held in a variable.
    #[tactic(auto, using(crate::proofs::BlockLemmas::chain_nothing, crate::proofs::BlockLemmas::chain_chain))]
    #[cycle(numbering)]
    fn call_alone(
        &self,
        earlier: &[Procedure],
        call: &Call,
        declared: &mut Vec<FlatVariable>,
        flat: &mut Vec<FlatStatement>,
    ) -> Result<(), AllocError>
        ensures block { OnOk result (flat_block flat.new.items
            ≡ chain (flat_block flat.old.items)
            (numbered.statement (called_by earlier.now) self.now.names (length declared.old.items)
            (source.call (call_tree call.now)))) }
        ensures declared { OnOk result (declared.new.items ≡ declared.old.items
            ++ numbered.declared_in (called_by earlier.now) (source.call (call_tree call.now))) }
    {
        push(flat, FlatStatement::Skip)?;
        let CallGiven { word, value } = self.call(earlier, call, declared, flat)?;
        if let Some(word) = word {
            let number = add(declared, FlatVariable::word(word, false))?;
            push(
                flat,
                FlatStatement::Declare(number, word, false, value_given(value)),
            )?;
        }
        Ok(())
    }

    /// A conditional.
    #[cycle(numbering)]
    fn branch(
        &mut self,
        earlier: &[Procedure],
        condition: &Expr,
        accepted: &'a [Statement],
        otherwise: &'a [Statement],
        declared: &mut Vec<FlatVariable>,
        flat: &mut Vec<FlatStatement>,
    ) -> Result<(), AllocError>
        ensures block { OnOk result (flat_block flat.new.items
            ≡ chain (flat_block flat.old.items)
            (single (flat_forms.branch (numbered.label_in self.old.names (expr_tree condition.now))
            (numbered.term self.old.names (expr_tree condition.now))
            (numbered.block (called_by earlier.now) self.old.names (length declared.old.items)
            (block_tree accepted.now))
            (numbered.block (called_by earlier.now) self.old.names
            (length declared.old.items + numbered.numbers_taken_all (called_by earlier.now) (block_tree accepted.now))
            (block_tree otherwise.now))))) }
        ensures names { OnOk result (self.new.names ≡ self.old.names) }
        ensures declared { OnOk result (declared.new.items ≡ declared.old.items
            ++ (numbered.declared_in_all (called_by earlier.now) (block_tree accepted.now)
            ++ numbered.declared_in_all (called_by earlier.now) (block_tree otherwise.now))) }
    {
        let label = self.label(condition);
        let condition = self.term(condition)?;
        let accepted = self.arm(earlier, accepted, declared)?;
        let otherwise = self.arm(earlier, otherwise, declared)?;
        push(
            flat,
            FlatStatement::Branch(label, condition, accepted, otherwise),
        )
    }

    /// The statements of an arm, or of a loop, whose names are gone where it ends.
    #[cycle(numbering)]
    fn arm(
        &mut self,
        earlier: &[Procedure],
        arm: &'a [Statement],
        declared: &mut Vec<FlatVariable>,
    ) -> Result<Vec<FlatStatement>, AllocError>
        ensures block { IfOk result (λ whole. flat_block whole.items
            ≡ numbered.block (called_by earlier.now) self.old.names (length declared.old.items) (block_tree arm.now)) }
        ensures names { OnOk result (self.new.names ≡ self.old.names) }
        ensures declared { OnOk result (declared.new.items
            ≡ declared.old.items ++ numbered.declared_in_all (called_by earlier.now) (block_tree arm.now)) }
    {
        let names = self.names.len();
        let mut flat = Vec::new(self.alloc);
        self.block(earlier, arm, declared, &mut flat)?;
        self.names.truncate(names);
        Ok(flat)
    }

    /// A loop, the names of its counter and its body are gone where it ends.
    #[cycle(numbering)]
    fn iterations(
        &mut self,
        earlier: &[Procedure],
        counted: &'a Counter,
        low: &Expr,
        high: &Expr,
        body: &'a [Statement],
        declared: &mut Vec<FlatVariable>,
        flat: &mut Vec<FlatStatement>,
    ) -> Result<(), AllocError>
        ensures block { OnOk result (flat_block flat.new.items
            ≡ chain (flat_block flat.old.items)
            (single (flat_forms.loop (length declared.old.items) (numbered.term self.old.names (expr_tree low.now))
            (numbered.term self.old.names (expr_tree high.now))
            (numbered.block (called_by earlier.now)
            (naming self.old.names counted.now.name (length declared.old.items) (word_as counter_type false))
            (length declared.old.items + 1) (block_tree body.now))))) }
        ensures names { OnOk result (self.new.names ≡ self.old.names) }
        ensures declared { OnOk result (declared.new.items ≡ declared.old.items
            ++ word_as counter_type false ∷ numbered.declared_in_all (called_by earlier.now) (block_tree body.now)) }
    {
        let low = self.term(low)?;
        let high = self.term(high)?;
        let names = self.names.len();
        let number = self.declare(&counted.name, counter(), declared)?;
        let iteration = self.arm(earlier, body, declared)?;
        self.names.truncate(names);
        push(flat, FlatStatement::Loop(number, low, high, iteration))
    }

    /// A statement with numbers in place of names.
    #[cycle(numbering)]
    pub(crate) fn statement(
        &mut self,
        earlier: &[Procedure],
        statement: &'a Statement,
        declared: &mut Vec<FlatVariable>,
        flat: &mut Vec<FlatStatement>,
    ) -> Result<(), AllocError>
        ensures block { OnOk result (flat_block flat.new.items
            ≡ chain (flat_block flat.old.items)
            (numbered.statement (called_by earlier.now) self.old.names (length declared.old.items)
            (statement_tree statement.now))) }
        ensures names { OnOk result (self.new.names
            ≡ numbered.names_after (called_by earlier.now) self.old.names (length declared.old.items)
            (statement_tree statement.now)) }
        ensures declared { OnOk result (declared.new.items
            ≡ declared.old.items ++ numbered.declared_in (called_by earlier.now) (statement_tree statement.now)) }
    {
        match statement {
            Statement::Declare(it) => self.word(earlier, it, declared, flat),
            Statement::DeclareArray(it) => push(flat, self.array(it, declared)?),
            Statement::Assign(it) => self.assign(earlier, it, declared, flat),
            Statement::AssignElement(it) => self.element(earlier, it, declared, flat),
            Statement::Call(it) => self.call_alone(earlier, it, declared, flat),
            Statement::If(_, condition, accepted, otherwise) => {
                self.branch(earlier, condition, accepted, otherwise, declared, flat)
            }
            Statement::For(_, counted, low, high, body) => {
                self.iterations(earlier, counted, low, high, body, declared, flat)
            }
        }
    }

    /// Statements with numbers in place of names.
    #[cycle(numbering)]
    fn block(
        &mut self,
        earlier: &[Procedure],
        block: &'a [Statement],
        declared: &mut Vec<FlatVariable>,
        flat: &mut Vec<FlatStatement>,
    ) -> Result<(), AllocError>
        ensures block { OnOk result (flat_block flat.new.items
            ≡ chain (flat_block flat.old.items)
            (numbered.block (called_by earlier.now) self.old.names (length declared.old.items)
            (block_tree block.now))) }
        ensures names { OnOk result (self.new.names
            ≡ numbered.names_after_all (called_by earlier.now) self.old.names (length declared.old.items)
            (block_tree block.now)) }
        ensures declared { OnOk result (declared.new.items
            ≡ declared.old.items ++ numbered.declared_in_all (called_by earlier.now) (block_tree block.now)) }
    {
        for statement in block {
            self.statement(earlier, statement, declared, flat)?;
        }
        Ok(())
    }
}
