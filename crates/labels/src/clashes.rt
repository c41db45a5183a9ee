ghost use Rattle.std.specs.Prelude.{◌≡◌, [], length, map, IfOk, OnOk, if◌then◌else◌};
ghost use Rattle.std.specs.Option.{option_map};
ghost use Rattle.language.specs.names.Scope.{declared, found};
ghost use Rattle.labels.specs.Below.{Array, array_name, expr_tree, first_clash, is_mutable, name_place};
ghost use Rattle.labels.specs.Below.{parameter_tree, passed, shared_at};
ghost use Rattle.language.specs.declared.typing.ArrayType.{ArrayType};
ghost use Rattle.labels.specs.private.Arrays.{given_before, with_array, with_changed};

use language::names::Names;
use language::{Expr, Parameter, Place, SharedArray, Typed, ValueType};
use std::alloc::{AllocError, Global};

/// The name that an argument is.
fn bare_name(argument: &Expr) -> Option<&str>
    ensures { (array : ArrayType)
        → option_map (λ name. name.now) result ≡ array_name (Array array) (expr_tree argument.now) }
{
    match argument {
        Expr::Name(_, text) => Some(text.as_str()),
        _ => None,
    }
}

/// The array that an argument is the bare name of.
fn array_name(given: ValueType, argument: &Expr) -> Option<&str>
    ensures { option_map (λ name. name.now) result ≡ array_name given (expr_tree argument.now) }
{
    match given {
        ValueType::Array(_) => bare_name(argument),
        ValueType::Word(_) => None,
        ValueType::Nothing => None,
    }
}

/// The arrays that the arguments of a call are, so far, each with the place of the first parameter for which it is
/// given.
#[derive(Drop)]
struct Arrays<'a> {
    /// All of them.
    given: Names<'a, Place>,
    /// Those that the called procedure may change.
    changed: Names<'a, Place>,
}

impl<'a> Arrays<'a> {
    /// One more array, for the parameter at a place. Answers the first parameter for which it was given before, where
    /// that or this one may change it.
    fn give(
        &mut self,
        name: &'a str,
        place: Place,
        mutable: bool,
    ) -> Result<Option<Place>, AllocError>
        ensures before { IfOk result (λ before.
            before ≡ (if mutable then found self.old.given name.now else found self.old.changed name.now)) }
        ensures given { OnOk result (self.new.given ≡ declared self.old.given name.now place) }
        ensures changed { OnOk result (self.new.changed
            ≡ (if mutable then declared self.old.changed name.now place else self.old.changed)) }
    {
        let before = if mutable {
            self.given.find(name)
        } else {
            self.changed.find(name)
        };
        self.given.declare(name, place)?;
        if mutable {
            self.changed.declare(name, place)?;
        }
        Ok(before)
    }

    /// One more argument, which is an array or none. Answers the same of an array.
    fn take(
        &mut self,
        parameter: &Parameter,
        given: ValueType,
        argument: &'a Expr,
    ) -> Result<Option<Place>, AllocError>
        ensures before { IfOk result (λ before. before ≡ given_before self.old.given self.old.changed
            (is_mutable parameter.now.form) (array_name given (expr_tree argument.now))) }
        ensures given { OnOk result (self.new.given
            ≡ with_array self.old.given (array_name given (expr_tree argument.now)) parameter.now.place) }
        ensures changed { OnOk result (self.new.changed
            ≡ with_changed self.old.changed (is_mutable parameter.now.form) (array_name given (expr_tree argument.now))
            parameter.now.place) }
    {
        match array_name(given, argument) {
            Some(name) => self.give(name, parameter.place, parameter.form.is_mutable()),
            None => Ok(None),
        }
    }
}

/// The place of an argument that is a bare name.
fn name_place(argument: &Expr) -> Place
    ensures { result ≡ name_place (expr_tree argument.now) }
{
    match argument {
        Expr::Name(place, _) => *place,
        _ => Place::ORIGIN,
    }
}

/// The array that an argument is, by an earlier parameter for which it is given too, where there is one.
fn shared(argument: &Expr, parameter: &Parameter, earlier: Option<Place>) -> Option<SharedArray>
    ensures { result ≡ option_map (shared_at (name_place (expr_tree argument.now)) parameter.now.place) earlier }
{
    match earlier {
        Some(one) => Some(SharedArray {
            array: name_place(argument),
            one,
            other: parameter.place,
        }),
        None => None,
    }
}

/// The first array that is given twice and may be changed, where none is taken yet.
fn first_clash<'a>(
    arrays: &mut Arrays<'a>,
    parameters: &[Parameter],
    types: &[Typed],
    arguments: &'a [Expr],
) -> Result<Option<SharedArray>, AllocError>
    requires given { arrays.old.given ≡ [] }
    requires changed { arrays.old.changed ≡ [] }
    requires types { length types.now ≡ length parameters.now }
    requires arguments { length arguments.now ≡ length parameters.now }
    ensures { IfOk result (λ clash. clash ≡ first_clash []
        (passed (map parameter_tree parameters.now) types.now (map expr_tree arguments.now))) }
{
    let mut clash = None;
    for (index, parameter) in parameters.iter().enumerate() {
        let argument = &arguments[index];
        let earlier = arrays.take(parameter, types[index].value, argument)?;
        clash = clash.or(shared(argument, parameter, earlier));
    }
    Ok(clash)
}

/// The first array that is given twice and may be changed.
pub fn array_clash(
    alloc: Global,
    parameters: &[Parameter],
    types: &[Typed],
    arguments: &[Expr],
) -> Result<Option<SharedArray>, AllocError>
    requires types { length types.now ≡ length parameters.now }
    requires arguments { length arguments.now ≡ length parameters.now }
    ensures { IfOk result (λ clash. clash
        ≡ first_clash [] (passed (map parameter_tree parameters.now) types.now (map expr_tree arguments.now))) }
{
    let mut arrays = Arrays {
        given: Names::new(alloc),
        changed: Names::new(alloc),
    };
    first_clash(&mut arrays, parameters, types, arguments)
}
