// The program in which loops are over groups of iterations.

ghost use Rattle.std.specs.Prelude.{◌≡◌, [], ◌∷◌, ◌++◌, length, IfErr, IfOk, IfSome};
ghost use Rattle.optimisation.specs.Below.{IsReplaced, IsWantOfMemory};
ghost use Rattle.optimisation.specs.iteration_groups.Exact.{grouped_of, groups_for};
ghost use Rattle.optimisation.specs.iteration_groups.private.Grouping.{base_behind, base_type};

use crate::iteration_groups::statements::{Copying, push_all};
use branch_removal::StraightCode;
use inline::FlatVariable;
use language::{Kind, Label, Refusal, WordType};
use std::alloc::{AllocError, Global};
use std::marker::Model;
use straight_words::element_words::MOST_VARIABLE_WORDS;
use straight_words::rewriting::terms::rewritten_where_any;

/// The variable of the base.
fn base_type() -> FlatVariable
    ensures { result ≡ base_type }
{
    FlatVariable {
        word: WordType {
            kind: Kind::Uint32,
            label: Label::Public,
        },
        mutable: true,
        elements: None,
    }
}

/// The variables, and the base behind them.
fn with_base(alloc: Global, variables: &[FlatVariable]) -> Result<Vec<FlatVariable>, AllocError>
    ensures { IfOk result (λ declared. declared.items ≡ variables.now ++ base_type ∷ []) }
{
    let mut declared = variables.to_vec(alloc)?;
    declared.push(base_type())?;
    Ok(declared)
}

/// The variable behind these, where they are not too many.
fn base_behind(variables: &[FlatVariable]) -> Option<u32>
    ensures { result ≡ base_behind (length variables.now) }
{
    if variables.len() <= MOST_VARIABLE_WORDS {
        Some(variables.len() as u32)
    } else {
        None
    }
}

/// The variables of a program, the base of its groups behind the others, and which it is, where they are not too many.
#[derive(Drop)]
pub struct IterationGroups {
    declared: Vec<FlatVariable>,
    base: Option<u32>,
}

impl Model for IterationGroups {
    ghost use Rattle.optimisation.specs.iteration_groups.private.Grouping.{GroupPlan};

    ghost Value = { GroupPlan };

    ghost view = { λ groups. record { declared = groups.declared.items; base = groups.base } };
}

impl IterationGroups {
    /// What the groups of a program's loops need. The program alone decides it. Running out of memory alone refuses it.
    pub fn of(alloc: Global, straight: &StraightCode<'_>) -> Result<IterationGroups, Refusal>
        ensures exact { IfOk result (λ groups. groups ≡ groups_for straight.now) }
        ensures memory { IfErr result (λ refusal. IsWantOfMemory refusal.rule refusal.place) }
    {
        let declared = with_base(alloc, straight.declared())?;
        let base = base_behind(straight.declared());
        Ok(IterationGroups { declared, base })
    }

    /// The program in which loops are over groups of iterations. It may stand in the place of the program that it is
    /// made of, which alone decides it; there is none where it has too many variables, or would not be within the
    /// limits on size. Running out of memory alone refuses it.
    pub fn apply<'g, 'f>(
        &'g self,
        alloc: Global,
        straight: &StraightCode<'f>,
    ) -> Result<Option<StraightCode<'g>>, Refusal>
    where
        'f: 'g,
        requires { self.now ≡ groups_for straight.now }
        ensures replaced { IfOk result (λ made. IfSome made (IsReplaced straight.now)) }
        ensures exact { IfOk result (λ made. made ≡ grouped_of straight.now) }
        ensures memory { IfErr result (λ refusal. IsWantOfMemory refusal.rule refusal.place) }
    {
        let base = match self.base {
            Some(base) => base,
            None => return Ok(None),
        };
        let mut code = Vec::new(alloc);
        let copying = Copying {
            alloc,
            base,
            shift: None,
        };
        push_all(copying, &mut code, straight.body())?;
        let value = rewritten_where_any(alloc, &copying, straight.value())?;
        Ok(straight.rewritten(self.declared.as_slice(), code, value))
    }
}
