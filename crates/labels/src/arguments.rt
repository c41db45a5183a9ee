ghost use Rattle.std.specs.Prelude.{◌≡◌, ◌&&◌, fold, length, map};
ghost use Rattle.labels.specs.Below.{are_met, argument_declared, argument_variable, argument_violations, expr_tree};
ghost use Rattle.labels.specs.Below.{is_immutable, is_mutable, parameter_tree, parameter_value, passed};
ghost use Rattle.labels.specs.Below.{passed_violations, noted};

use crate::values::note_argument;
use findings::Findings;
use language::scopes::Scope;
use language::{
    ArrayType, Expr, Form, Parameter, Part, Place, Rule, Typed, ValueType, VariableType, Why,
    WordType,
};

/// What a parameter is.
pub fn parameter_value(parameter: &Parameter) -> ValueType
    ensures { result ≡ parameter_value (parameter_tree parameter.now) parameter.now.form }
{
    let element = WordType {
        kind: parameter.kind,
        label: parameter.label,
    };
    let length = parameter.length;
    match parameter.form {
        Form::SingleWord => ValueType::word(parameter.kind, parameter.label),
        Form::FixedArray => ValueType::Array(ArrayType { element, length }),
        Form::MutableArray => ValueType::Array(ArrayType { element, length }),
    }
}

/// The variable that an argument is the bare name of.
fn argument_variable(names: &Scope<'_>, argument: &Expr) -> Option<VariableType>
    ensures { result ≡ argument_variable names.now (expr_tree argument.now) }
{
    match argument {
        Expr::Name(_, text) => names.variable(text.as_str()),
        _ => None,
    }
}

/// Whether it is an array that may not be assigned to.
fn is_immutable(variable: Option<VariableType>) -> bool
    ensures { result ≡ is_immutable variable }
{
    match variable {
        Some(variable) => variable.value.is_array() && !variable.mutable,
        None => false,
    }
}

/// Whether a parameter may change its argument, and that is an array that may not be assigned to.
fn is_fixed(names: &Scope<'_>, parameter: &Parameter, argument: &Expr) -> bool
    ensures { result
        ≡ (is_mutable parameter.now.form && is_immutable (argument_variable names.now (expr_tree argument.now))) }
{
    parameter.form.is_mutable() && is_immutable(argument_variable(names, argument))
}

/// Where the variable is declared that an argument is the bare name of.
fn argument_declared(names: &Scope<'_>, argument: &Expr) -> Place
    ensures { result ≡ argument_declared names.now (expr_tree argument.now) }
{
    match argument {
        Expr::Name(_, text) => names.place(text.as_str()),
        _ => Place::ORIGIN,
    }
}

/// Notes what an argument violates beside its parameter, and says whether it violates nothing.
fn note_passed(
    names: &Scope<'_>,
    findings: &mut Findings,
    place: Place,
    parameter: &Parameter,
    given: Typed,
    argument: &Expr,
) -> bool
    ensures met { result ≡ are_met (argument_violations names.now place
        (record { parameter = parameter_tree parameter.now; given = given; argument = expr_tree argument.now })) }
    ensures findings { findings.new
        ≡ fold noted findings.old (argument_violations names.now place
        (record { parameter = parameter_tree parameter.now; given = given; argument = expr_tree argument.now })) }
{
    let part = Part::Parameter(parameter.place);
    let fits = note_argument(findings, place, part, parameter_value(parameter), given);
    let fixed = is_fixed(names, parameter, argument);
    let why = Why::Fixed(argument_declared(names, argument));
    findings.note(fixed, place, Rule::NotMutable, why);
    fits && !fixed
}

/// Notes what well-typed arguments violate beside the parameters, and says whether they violate nothing.
pub fn note_all_passed(
    names: &Scope<'_>,
    findings: &mut Findings,
    place: Place,
    parameters: &[Parameter],
    types: &[Typed],
    arguments: &[Expr],
) -> bool
    requires types { length types.now ≡ length parameters.now }
    requires arguments { length arguments.now ≡ length parameters.now }
    ensures met { result ≡ are_met (passed_violations names.now place
        (passed (map parameter_tree parameters.now) types.now (map expr_tree arguments.now))) }
    ensures findings { findings.new
        ≡ fold noted findings.old (passed_violations names.now place
        (passed (map parameter_tree parameters.now) types.now (map expr_tree arguments.now))) }
{
    let mut met = true;
    for (index, parameter) in parameters.iter().enumerate() {
        let (given, argument) = (types[index], &arguments[index]);
        met &= note_passed(names, findings, place, parameter, given, argument);
    }
    met
}
