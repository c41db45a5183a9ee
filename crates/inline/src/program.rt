ghost use Rattle.std.specs.Prelude.{◌≡◌};
ghost use Rattle.std.specs.Option.{option_map};
ghost use Rattle.inline.specs.Flat.{term_tree, flat_block, flat_program};
ghost use Rattle.inline.specs.Kept.{IsFlat};

use crate::{FlatStatement, FlatVariable, Stretch, Term};
use language::{Param, Place, Profile, WordType};
use std::marker::Model;

/// The export as one body with numbered variables. Its parameters are the first variables. It is well typed, and within
/// the limits on size.
#[derive(Drop)]
pub struct Flat {
    profile: Profile,
    place: Place,
    parameters: Vec<Param>,
    returned: Option<WordType>,
    nodes: u32,
    declared: Vec<FlatVariable>,
    body: Vec<FlatStatement>,
    stretches: Vec<Stretch>,
    value: Option<Term>,
    return_place: Option<Place>,
}

impl Model for Flat {
    ghost use Rattle.inline.specs.Codes.{coded_program};
    ghost use Rattle.inline.specs.Flat.{FlatProgram, flat_program};
    ghost use Rattle.inline.specs.Kept.{IsFlat};

    ghost Value = { FlatProgram };

    ghost coded = { coded_program };

    ghost view = { λ f. flat_program f.profile f.place f.parameters.items f.returned f.nodes f.declared.items
        f.body.items f.stretches.items f.value f.return_place };

    ghost invariant = { λ f. IsFlat (flat_program f.profile f.place f.parameters.items f.returned f.nodes
        f.declared.items f.body.items f.stretches.items f.value f.return_place) };
}

impl Flat {
    /// A program of these parts.
    pub(crate) fn new(
        profile: Profile,
        place: Place,
        parameters: Vec<Param>,
        returned: Option<WordType>,
        nodes: u32,
        declared: Vec<FlatVariable>,
        body: Vec<FlatStatement>,
        stretches: Vec<Stretch>,
        value: Option<Term>,
        return_place: Option<Place>,
    ) -> Self
        requires { IsFlat (flat_program profile place parameters.items returned nodes declared.items body.items
            stretches.items value return_place) }
        ensures { result ≡ flat_program profile place parameters.items returned nodes declared.items body.items
            stretches.items value return_place }
    {
        Flat {
            profile,
            place,
            parameters,
            returned,
            nodes,
            declared,
            body,
            stretches,
            value,
            return_place,
        }
    }

    /// For which observer it is.
    pub fn profile(&self) -> Profile
        ensures { result ≡ self.now.profile }
    {
        self.profile
    }

    /// Where the export's name stands.
    pub fn place(&self) -> Place
        ensures { result ≡ self.now.place }
    {
        self.place
    }

    /// The parameters, without their names.
    pub fn parameters(&self) -> &[Param]
        ensures { result.now ≡ self.now.parameters }
    {
        self.parameters.as_slice()
    }

    /// The type of the result, where there is one.
    pub fn returned(&self) -> Option<WordType>
        ensures { result ≡ self.now.returned }
    {
        self.returned
    }

    /// How many nodes the source has.
    pub fn nodes(&self) -> u32
        ensures { result ≡ self.now.nodes }
    {
        self.nodes
    }

    /// Its variables, each at its number: the parameters first.
    pub fn declared(&self) -> &[FlatVariable]
        ensures { result.now ≡ self.now.declared }
    {
        self.declared.as_slice()
    }

    /// The statements before the result is known.
    pub fn body(&self) -> &[FlatStatement]
        ensures body { flat_block result.now ≡ self.now.body }
        ensures kept { IsFlat self.now }
    {
        self.body.as_slice()
    }

    /// Which of them each statement of the source became, those inside others aside.
    pub fn stretches(&self) -> &[Stretch]
        ensures { result.now ≡ self.now.stretches }
    {
        self.stretches.as_slice()
    }

    /// The result, where there is one.
    pub fn value(&self) -> Option<&Term>
        ensures { option_map (λ term. term_tree term.now) result ≡ self.now.value }
    {
        self.value.as_ref()
    }

    /// Where the source's `return` stands, where there is one.
    pub fn return_place(&self) -> Option<Place>
        ensures { result ≡ self.now.return_place }
    {
        self.return_place
    }
}
