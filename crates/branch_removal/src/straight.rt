ghost use Rattle.std.specs.Prelude.{◌≡◌, IfSome};
ghost use Rattle.std.specs.Option.{option_map};
ghost use Rattle.branch_removal.specs.Below.{term_tree};
ghost use Rattle.branch_removal.specs.Kept.{IsStraight};
ghost use Rattle.branch_removal.specs.Straight.{straight_block, straight_program, with_variables};
ghost use Rattle.branch_removal.specs.Checked.{checked, has_room, is_checked, redeclared};

use crate::sizes::{all_words_taken, block_size, result_size};
use crate::type_checks::{are_typed, come_first, is_result};
use inline::{FlatVariable, Term};
use intervals::Ranged;
use language::{Param, WordType};
use std::marker::Model;
use word::{Place, Profile};

/// How many words the variables may take, in all.
const MOST_VARIABLE_WORDS: u64 = 10_192;

/// A statement of straight code. Branches and loops are left only where what decides them is public.
#[derive(Drop)]
pub enum StraightStatement {
    /// Sets a variable. Within a control value it keeps what it holds where that is false.
    Set(Option<u32>, u32, Term),
    /// An array, which has so many elements, gets its first values, one for each, or zeros where none are given.
    Array(u32, u32, Vec<Term>),
    /// The element at an index of an array, which has so many, is set to a value, or kept as a variable is.
    Put(Option<u32>, Place, u32, u32, Term, Term),
    /// Takes a condition into two control values, this one for where it is true and the next for where
    /// it is not. Each is joined with the enclosing one, where there is one.
    Take(u32, Option<u32>, Term),
    /// What runs where a public condition is true, and where it is not.
    Branch(Term, Vec<StraightStatement>, Vec<StraightStatement>),
    /// What runs for each number of a counter, from the first bound up to the last before the second.
    Repeat(u32, Term, Term, Vec<StraightStatement>),
}

/// Straight code: the export without branches on secrets. Its parameters are the first variables. It is well typed, and
/// within the limits on size. Where it was made of other straight code, it may have more nodes than its source.
#[derive(Drop)]
pub struct StraightCode<'f> {
    profile: Profile,
    parameters: &'f [Param],
    returned: Option<WordType>,
    nodes: u32,
    work: u64,
    iterations: &'f [u32],
    declared: &'f [FlatVariable],
    controls: u32,
    body: Vec<StraightStatement>,
    value: Option<Term>,
}

impl<'f> Model for StraightCode<'f> {
    ghost use Rattle.branch_removal.specs.Straight.{StraightProgram, straight_program};
    ghost use Rattle.branch_removal.specs.private.StraightCodes.{coded_straight};
    ghost use Rattle.branch_removal.specs.Kept.{IsStraight};

    ghost Value = { StraightProgram };

    ghost coded = { coded_straight };

    ghost view = { λ s. straight_program s.profile s.parameters.now s.returned s.nodes s.work s.iterations.now
        s.declared.now s.controls s.body.items s.value };

    ghost invariant = { λ s. IsStraight (straight_program s.profile s.parameters.now s.returned s.nodes s.work
        s.iterations.now s.declared.now s.controls s.body.items s.value) };
}

impl<'f> StraightCode<'f> {
    /// A body's straight code, with what stays as it was.
    pub(crate) fn new(
        ranged: &'f Ranged<'_>,
        controls: u32,
        body: Vec<StraightStatement>,
        value: Option<Term>,
    ) -> Self
        requires { IsStraight (straight_program ranged.now.flat.profile ranged.now.flat.parameters
            ranged.now.flat.returned ranged.now.flat.nodes ranged.now.work ranged.now.iterations
            ranged.now.flat.declared controls body.items value) }
        ensures { result ≡ straight_program ranged.now.flat.profile ranged.now.flat.parameters ranged.now.flat.returned
            ranged.now.flat.nodes ranged.now.work ranged.now.iterations ranged.now.flat.declared controls body.items
            value }
    {
        let flat = ranged.flat();
        StraightCode {
            profile: flat.profile(),
            parameters: flat.parameters(),
            returned: flat.returned(),
            nodes: flat.nodes(),
            work: ranged.work(),
            iterations: ranged.iterations(),
            declared: flat.declared(),
            controls,
            body,
            value,
        }
    }

    /// Whether other variables, another body and another result may take the place of its own.
    fn may_have(
        &self,
        declared: &[FlatVariable],
        body: &[StraightStatement],
        value: Option<&Term>,
    ) -> bool
        ensures { result ≡ is_checked (with_variables self.now declared.now (straight_block body.now)
            (option_map (λ term. term_tree term.now) value.entry)) }
    {
        let parameters = &self.declared[..self.parameters.len()];
        come_first(parameters, declared)
            && are_typed(self.profile, declared, self.controls, body)
            && is_result(self.profile, declared, self.returned, value)
            && self.has_room(declared, body, value)
    }

    /// Whether it would be within the limits on size with these in the place of its own.
    fn has_room(
        &self,
        declared: &[FlatVariable],
        body: &[StraightStatement],
        value: Option<&Term>,
    ) -> bool
        ensures { result ≡ has_room (with_variables self.now declared.now (straight_block body.now)
            (option_map (λ term. term_tree term.now) value.entry)) }
    {
        let code = block_size(self.iterations, body);
        let last = result_size(value);
        let frame = u64::from(self.controls)
            .saturating_add(code.depth.saturating_mul(2))
            .saturating_add(code.height.max(last.height));
        all_words_taken(declared) <= MOST_VARIABLE_WORDS
            && code.work.saturating_add(last.work) <= self.work
            && frame <= u64::from(self.nodes)
    }

    /// The same with other variables, another body and another result in their place, where that is well typed and
    /// within the limits on size.
    pub fn rewritten<'g>(
        &self,
        declared: &'g [FlatVariable],
        body: Vec<StraightStatement>,
        value: Option<Term>,
    ) -> Option<StraightCode<'g>>
    where
        'f: 'g,
        ensures exact { result ≡ checked
            (with_variables self.now declared.now (straight_block body.items) (option_map term_tree value)) }
        ensures straight { IfSome result IsStraight }
    {
        if !self.may_have(declared, body.as_slice(), value.as_ref()) {
            return None;
        }
        Some(StraightCode {
            profile: self.profile,
            parameters: self.parameters,
            returned: self.returned,
            nodes: self.nodes,
            work: self.work,
            iterations: self.iterations,
            declared,
            controls: self.controls,
            body,
            value,
        })
    }

    /// Whether other variables may take the place of its own.
    fn may_declare(&self, declared: &[FlatVariable]) -> bool
        ensures { result ≡ is_checked (with_variables self.now declared.now self.now.body self.now.value) }
    {
        self.may_have(declared, self.body.as_slice(), self.value.as_ref())
    }

    /// The same with other variables, where that is well typed and within the limits on size; else as it is.
    pub fn redeclared<'g>(self, declared: &'g [FlatVariable]) -> StraightCode<'g>
    where
        'f: 'g,
        ensures { result ≡ redeclared self.entry declared.now }
    {
        if !self.may_declare(declared) {
            return self;
        }
        StraightCode {
            profile: self.profile,
            parameters: self.parameters,
            returned: self.returned,
            nodes: self.nodes,
            work: self.work,
            iterations: self.iterations,
            declared,
            controls: self.controls,
            body: self.body,
            value: self.value,
        }
    }

    /// For which observer it is.
    pub fn profile(&self) -> Profile
        ensures { result ≡ self.now.profile }
    {
        self.profile
    }

    /// The parameters, without their names.
    pub fn parameters(&self) -> &'f [Param]
        ensures { result.now ≡ self.now.parameters }
    {
        self.parameters
    }

    /// The type of the result, where there is one.
    pub fn returned(&self) -> Option<WordType>
        ensures { result ≡ self.now.returned }
    {
        self.returned
    }

    /// How many nodes the source has.
    pub fn nodes(&self) -> u32
        ensures { result ≡ self.now.nodes }
    {
        self.nodes
    }

    /// How much work a run is at most: that of the source.
    pub fn work(&self) -> u64
        ensures { result ≡ self.now.work }
    {
        self.work
    }

    /// How many iterations the loop of each counter makes at most, at the counter's number.
    pub fn iterations(&self) -> &'f [u32]
        ensures { result.now ≡ self.now.iterations }
    {
        self.iterations
    }

    /// The variables, each at its number, the parameters first.
    pub fn declared(&self) -> &'f [FlatVariable]
        ensures { result.now ≡ self.now.declared }
    {
        self.declared
    }

    /// How many control values there are.
    pub fn controls(&self) -> u32
        ensures { result ≡ self.now.controls }
    {
        self.controls
    }

    /// The statements before the result is known.
    pub fn body(&self) -> &[StraightStatement]
        ensures body { straight_block result.now ≡ self.now.body }
        ensures kept { IsStraight self.now }
    {
        self.body.as_slice()
    }

    /// The result, where there is one.
    pub fn value(&self) -> Option<&Term>
        ensures { option_map (λ term. term_tree term.now) result ≡ self.now.value }
    {
        self.value.as_ref()
    }
}
