ghost use Rattle.std.specs.Prelude.{◌≡◌, [], fold, length, map, OnOk};
ghost use Rattle.std.specs.Option.{option_map};
ghost use Rattle.labels.specs.Below.{missing_violations, of_one, parameter_tree, parameter_violations};
ghost use Rattle.labels.specs.Below.{procedure_tree, procedure_violations, return_tree, return_violations};
ghost use Rattle.labels.specs.Below.{returned_violations, scope_after_all, noted, with_parameters, with_procedure};
ghost use Rattle.labels.specs.private.Inside.{inside_violations};

use crate::arguments::parameter_value;
use crate::expressions::expression;
use crate::statements::statements;
use crate::values::note_value;
use findings::Findings;
use language::scopes::{Scope, assigns_public};
use language::{
    Callee, Declared, Parameter, Part, Place, Procedure, Return, Rule, Typed, VariableType, Why,
    WordType,
};
use std::alloc::{AllocError, Global};

/// Declares the parameters, and notes the names that are taken.
fn parameters<'a>(
    names: &mut Scope<'a>,
    findings: &mut Findings,
    parameters: &'a [Parameter],
) -> Result<(), AllocError>
    ensures names { OnOk result (names.new ≡ with_parameters names.old (map parameter_tree parameters.now)) }
    ensures findings { OnOk result (findings.new
        ≡ fold noted findings.old (parameter_violations names.old (map parameter_tree parameters.now))) }
{
    for parameter in parameters {
        let variable = VariableType {
            value: parameter_value(parameter),
            mutable: parameter.form.is_mutable(),
        };
        let taken = names.declare(
            parameter.place,
            parameter.name.as_str(),
            Declared::Variable(variable),
        )?;
        findings.note_if(taken, parameter.place, Rule::NameDeclaredTwice);
    }
    Ok(())
}

/// Notes what a `return` violates, by its value.
fn note_return(
    findings: &mut Findings,
    place: Place,
    wanted: Option<WordType>,
    given: Option<Typed>,
)
    ensures { findings.new ≡ fold noted findings.old (of_one [] (returned_violations place wanted) given) }
{
    let Some(given) = given else {
        return;
    };
    let why = Why::Returned(given.value);
    match wanted {
        Some(wanted) => note_value(findings, place, Part::Result, wanted, given),
        None => findings.note(true, place, Rule::ReturnMismatch, why),
    }
}

/// The `return` of a procedure with this type of result.
fn returned(
    names: &Scope<'_>,
    findings: &mut Findings,
    wanted: Option<WordType>,
    returned: &Option<Return>,
)
    ensures { findings.new
        ≡ fold noted findings.old (return_violations names.now wanted (option_map return_tree returned.now)) }
{
    if let Some(it) = returned {
        let given = expression(names, findings, &it.value);
        note_return(findings, it.place, wanted, given);
    }
}

/// Notes that a procedure with a result has no `return`.
fn note_missing(findings: &mut Findings, procedure: &Procedure)
    ensures { findings.new ≡ fold noted findings.old
        (missing_violations procedure.now.place procedure.now.result (option_map return_tree procedure.now.returned)) }
{
    if let Some(result) = procedure.result {
        let missing = procedure.returned.is_none();
        let why = Why::Missing(result);
        findings.note(missing, procedure.place, Rule::ReturnMismatch, why);
    }
}

/// What a procedure declares after its name, and what it violates there.
fn inside<'a>(
    alloc: Global,
    names: &mut Scope<'a>,
    findings: &mut Findings,
    earlier: &[Procedure],
    procedure: &'a Procedure,
) -> Result<(), AllocError>
    ensures names { OnOk result (names.new ≡ scope_after_all
        (with_parameters names.old (procedure_tree procedure.now).parameters) (procedure_tree procedure.now).body) }
    ensures findings { OnOk result (findings.new ≡ fold noted findings.old
        (inside_violations (map procedure_tree earlier.now) names.old (procedure_tree procedure.now))) }
{
    parameters(names, findings, procedure.parameters.as_slice())?;
    let body = procedure.body.as_slice();
    statements(alloc, names, findings, earlier, None, body)?;
    returned(names, findings, procedure.result, &procedure.returned);
    Ok(())
}

/// A procedure after the earlier ones: its name is in scope from here on, and what it declares is its
/// own.
pub fn procedure<'a>(
    alloc: Global,
    names: &mut Scope<'a>,
    findings: &mut Findings,
    earlier: &[Procedure],
    procedure: &'a Procedure,
) -> Result<(), AllocError>
    ensures names { OnOk result (names.new
        ≡ with_procedure names.old (length earlier.now) (procedure_tree procedure.now)) }
    ensures findings { OnOk result (findings.new
        ≡ fold noted findings.old
        (procedure_violations (map procedure_tree earlier.now) names.old (procedure_tree procedure.now))) }
{
    let callee = Callee {
        number: earlier.len(),
        assigns_public: assigns_public(names, procedure),
    };
    let taken = names.declare(
        procedure.place,
        procedure.name.as_str(),
        Declared::Procedure(callee),
    )?;
    let outside = names.len();
    findings.note_if(taken, procedure.place, Rule::NameDeclaredTwice);
    note_missing(findings, procedure);
    inside(alloc, names, findings, earlier, procedure)?;
    names.truncate(outside);
    Ok(())
}
