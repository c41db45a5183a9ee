ghost use Rattle.std.specs.Prelude.{◌≡◌, ◌&&◌, ◌∷◌, [], None, Some, fold, is_some, length, map, IfOk, OnOk};
ghost use Rattle.std.specs.Prelude.{if◌then◌else◌};
ghost use Rattle.std.specs.Option.{option_map};
ghost use Rattle.labels.specs.Below.{are_met, ArgumentCount, ArgumentCounts as Counts, arguments_violations, because};
ghost use Rattle.labels.specs.Below.{call_tree, call_type, call_violations, CallAssignsPublicUnderSecretControl};
ghost use Rattle.labels.specs.Below.{called_one, callee, clash_violations, control_why, expr_tree, found};
ghost use Rattle.labels.specs.Below.{known_call_type, known_call_violations, procedure_tree, result_value, noted};
ghost use Rattle.labels.specs.Below.{when};

use crate::arguments::note_all_passed;
use crate::clashes::array_clash;
use crate::expressions::expressions;
use crate::reasons::control_why;
use findings::Findings;
use language::scopes::Scope;
use language::{
    ArgumentCounts, Call, Callee, Place, Procedure, Rule, SecretControl, SharedArray, Typed,
    ValueType, Why, WordType,
};
use std::alloc::{AllocError, Global};

/// What a procedure gives.
fn result_value(of: Option<WordType>) -> ValueType
    ensures { result ≡ result_value of }
{
    match of {
        Some(word) => ValueType::Word(word),
        None => ValueType::Nothing,
    }
}

/// Notes the array that is given twice, where there is one.
fn note_clash(findings: &mut Findings, place: Place, clash: Option<SharedArray>)
    ensures { findings.new ≡ fold noted findings.old (clash_violations place clash) }
{
    if let Some(twice) = clash {
        findings.note(true, place, Rule::ArrayPassedTwice, Why::Shared(twice));
    }
}

/// Notes that a call has too few arguments, or too many.
fn note_count(findings: &mut Findings, call: &Call, procedure: &Procedure)
    ensures { findings.new
        ≡ fold noted findings.old (because (Counts (record {
          given = length call.now.arguments.items;
          taken = length procedure.now.parameters.items;
          procedure = procedure.now.place;
        })) call.now.place
        (ArgumentCount ∷ [])) }
{
    let counts = ArgumentCounts {
        given: call.arguments.len(),
        taken: procedure.parameters.len(),
        procedure: procedure.place,
    };
    let why = Why::ArgumentCounts(counts);
    findings.note(true, call.place, Rule::ArgumentCount, why);
}

/// Notes what well-typed arguments violate, and says whether they violate nothing.
fn note_arguments(
    alloc: Global,
    names: &Scope<'_>,
    findings: &mut Findings,
    procedure: &Procedure,
    types: &[Typed],
    call: &Call,
) -> Result<bool, AllocError>
    requires { length types.now ≡ length call.now.arguments.items }
    ensures met { IfOk result (λ met. met ≡ are_met (arguments_violations names.now call.now.place
        (procedure_tree procedure.now) types.now (map expr_tree call.now.arguments.items))) }
    ensures findings { OnOk result (findings.new
        ≡ fold noted findings.old (arguments_violations names.now call.now.place (procedure_tree procedure.now)
        types.now (map expr_tree call.now.arguments.items))) }
{
    let arguments = call.arguments.as_slice();
    let parameters = procedure.parameters.as_slice();
    if arguments.len() != parameters.len() {
        note_count(findings, call, procedure);
        return Ok(false);
    }
    let met = note_all_passed(names, findings, call.place, parameters, types, arguments);
    let clash = array_clash(alloc, parameters, types, arguments)?;
    note_clash(findings, call.place, clash);
    Ok(met && clash.is_none())
}

/// The earlier procedure that is called, with what is known of it.
fn called<'p>(earlier: &'p [Procedure], what: Option<Callee>) -> Option<(Callee, &'p Procedure)>
    ensures { option_map (λ known. (known.0, procedure_tree known.1.now)) result
        ≡ called_one (map procedure_tree earlier.now) what }
{
    let Some(callee) = what else {
        return None;
    };
    let Some(procedure) = earlier.get(callee.number) else {
        return None;
    };
    Some((callee, procedure))
}

/// Notes a call under secret control that may assign to something public, and says whether it is none.
fn note_call_control(
    findings: &mut Findings,
    place: Place,
    control: Option<SecretControl>,
    callee: Callee,
) -> bool
    ensures met { result
        ≡ are_met (when (is_some control && callee.assigns_public) CallAssignsPublicUnderSecretControl) }
    ensures findings { findings.new
        ≡ fold noted findings.old (because (control_why control) place
        (when (is_some control && callee.assigns_public) CallAssignsPublicUnderSecretControl)) }
{
    let told = control.is_some() && callee.assigns_public;
    let rule = Rule::CallAssignsPublicUnderSecretControl;
    findings.note(told, place, rule, control_why(control));
    !told
}

/// What a call gives, where it violates nothing.
fn given(met: bool, wanted: Option<WordType>) -> Option<ValueType>
    ensures { result ≡ (if met then Some (result_value wanted) else None) }
{
    if met {
        Some(result_value(wanted))
    } else {
        None
    }
}

/// Notes what a call violates whose arguments are well typed, and gives its type where it is too.
fn known_call(
    alloc: Global,
    names: &Scope<'_>,
    findings: &mut Findings,
    earlier: &[Procedure],
    control: Option<SecretControl>,
    call: &Call,
    types: &[Typed],
) -> Result<Option<ValueType>, AllocError>
    requires { length types.now ≡ length call.now.arguments.items }
    ensures typed { IfOk result (λ type. type ≡ known_call_type names.now control (call_tree call.now)
        (called_one (map procedure_tree earlier.now) (callee (found names.now call.now.name))) types.now) }
    ensures findings { OnOk result (findings.new ≡ fold noted findings.old
        (known_call_violations names.now control (call_tree call.now)
        (called_one (map procedure_tree earlier.now) (callee (found names.now call.now.name))) types.now)) }
{
    let Some((callee, procedure)) = called(earlier, names.callee(call.name.as_str())) else {
        findings.note_if(true, call.place, Rule::ProcedureNotDeclaredEarlier);
        return Ok(None);
    };
    let met = note_arguments(alloc, names, findings, procedure, types, call)?;
    let allowed = note_call_control(findings, call.place, control, callee);
    Ok(given(met && allowed, procedure.result))
}

/// Notes what a call violates, and gives its type where it is well typed.
pub fn call(
    alloc: Global,
    names: &Scope<'_>,
    findings: &mut Findings,
    earlier: &[Procedure],
    control: Option<SecretControl>,
    call: &Call,
) -> Result<Option<ValueType>, AllocError>
    ensures typed { IfOk result (λ type.
        type ≡ call_type (map procedure_tree earlier.now) names.now control (call_tree call.now)) }
    ensures findings { OnOk result (findings.new ≡ fold noted findings.old
        (call_violations (map procedure_tree earlier.now) names.now control (call_tree call.now))) }
{
    match expressions(alloc, names, findings, call.arguments.as_slice())? {
        Some(types) => known_call(
            alloc,
            names,
            findings,
            earlier,
            control,
            call,
            types.as_slice(),
        ),
        None => Ok(None),
    }
}
