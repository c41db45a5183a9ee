// What a call hands to a called body: the words that it passes, and the names in which the body begins.

ghost use Rattle.std.specs.Prelude.{◌≡◌, ◌++◌, ◌∷◌, [], length, map, IfOk, OnOk};
ghost use Rattle.inline.specs.Flat.{chain, flat_block, flat_tree};
ghost use Rattle.inline.specs.Numbering.{begun, number_given, passed, passed_variables, single};
ghost use Rattle.inline.specs.Below.{expr_tree, parameter_tree};

use crate::numbering::{Numbered, Numbering, add};
use crate::{FlatStatement, FlatVariable};
use language::names::Names;
use language::{Expr, Form, Parameter, WordType};
use std::alloc::AllocError;

/// Puts a statement behind a block.
pub fn push(flat: &mut Vec<FlatStatement>, one: FlatStatement) -> Result<(), AllocError>
    ensures { OnOk result (flat_block flat.new.items ≡ chain (flat_block flat.old.items) (single (flat_tree one))) }
{
    flat.push(one)?;
    Ok(())
}

impl Numbering<'_> {
    /// The number of the array that an argument names.
    fn number_given(&self, argument: &Expr) -> u32
        ensures { result ≡ number_given self.now.names (expr_tree argument.now) }
    {
        match argument {
            Expr::Name(_, name) => self.numbered(name).number,
            Expr::Number(_, _, _)
            | Expr::Truth(_, _)
            | Expr::Prefix(_, _, _)
            | Expr::Binary(_, _, _, _)
            | Expr::Rotate(_, _, _)
            | Expr::Convert(_, _, _)
            | Expr::Select(_, _, _, _)
            | Expr::Element(_, _, _, _) => 0,
        }
    }

    /// Passes an argument: a word is put into a variable, an array keeps the caller's number.
    #[tactic(auto, using(crate::proofs::BlockLemmas::chain_nothing))]
    fn pass_one<'p>(
        &self,
        own: &mut Names<'p, Numbered>,
        parameter: &'p Parameter,
        argument: &Expr,
        declared: &mut Vec<FlatVariable>,
        flat: &mut Vec<FlatStatement>,
    ) -> Result<(), AllocError>
        ensures block { OnOk result (flat_block flat.new.items
            ≡ chain (flat_block flat.old.items)
            (passed self.now.names (length declared.old.items) (parameter_tree parameter.now ∷ [])
            (expr_tree argument.now ∷ []))) }
        ensures own { OnOk result (own.new ≡ begun self.now.names own.old (length declared.old.items)
            (parameter_tree parameter.now ∷ []) (expr_tree argument.now ∷ [])) }
        ensures declared { OnOk result (declared.new.items ≡ declared.old.items
            ++ passed_variables (parameter_tree parameter.now ∷ []) (expr_tree argument.now ∷ [])) }
    {
        let declaration = FlatVariable::parameter(parameter.param());
        let number = match parameter.form {
            Form::SingleWord => {
                let value = self.term(argument)?;
                let number = add(declared, declaration)?;
                let word = WordType {
                    kind: parameter.kind,
                    label: parameter.label,
                };
                push(flat, FlatStatement::Declare(number, word, false, value))?;
                number
            }
            Form::FixedArray | Form::MutableArray => self.number_given(argument),
        };
        own.declare(
            parameter.name.as_str(),
            Numbered {
                number,
                declaration,
            },
        )?;
        Ok(())
    }

    /// Passes the arguments of a call from the first to the last, and gives the names in which the called body begins.
    pub(crate) fn pass<'p>(
        &self,
        parameters: &'p [Parameter],
        arguments: &[Expr],
        declared: &mut Vec<FlatVariable>,
        flat: &mut Vec<FlatStatement>,
    ) -> Result<Numbering<'p>, AllocError>
        ensures block { OnOk result (flat_block flat.new.items
            ≡ chain (flat_block flat.old.items)
            (passed self.now.names (length declared.old.items) (map parameter_tree parameters.now)
            (map expr_tree arguments.now))) }
        ensures own { IfOk result (λ own. own.names ≡ begun self.now.names [] (length declared.old.items)
            (map parameter_tree parameters.now) (map expr_tree arguments.now)) }
        ensures declared { OnOk result (declared.new.items ≡ declared.old.items
            ++ passed_variables (map parameter_tree parameters.now) (map expr_tree arguments.now)) }
    {
        let mut own = Numbering::new(self.alloc);
        for (index, parameter) in parameters.iter().enumerate() {
            let Some(argument) = arguments.get(index) else {
                return Ok(own);
            };
            self.pass_one(&mut own.names, parameter, argument, declared, flat)?;
        }
        Ok(own)
    }
}
