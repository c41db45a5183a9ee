ghost use Rattle.std.specs.Prelude.{◌≡◌, ◌++◌, fold, map, OnOk};
ghost use Rattle.std.specs.Option.{option_map};
ghost use Rattle.labels.specs.Below.{Assign, AssignElement, assignment_violations, because_of, change_violations};
ghost use Rattle.labels.specs.Below.{element_assignment_violations, procedure_tree, put_why, noted, statement_tree};
ghost use Rattle.labels.specs.Below.{statement_violations, target_rules, Typed, typed_part, Value};
ghost use Rattle.language.specs.declared.why.Part.TheVariants.{Variable};

use crate::declarations::right_side;
use crate::expressions::{expression, name, note_name};
use crate::nodes::element;
use crate::reasons::typed_part;
use crate::values::{note_control, note_value};
use findings::Findings;
use language::scopes::Scope;
use language::{
    Assignment, ComparedTypes, ElementAssignment, Label, Part, Place, Procedure, Rule,
    SecretControl, Typed, ValueType, VariableType, Why, WordType,
};
use std::alloc::{AllocError, Global};

/// An assignment at a place, under control, to a name that is declared at another.
#[derive(Clone, Copy)]
struct AssignmentAt {
    place: Place,
    control: Option<SecretControl>,
    declared_at: Place,
}

/// Notes what a value violates that is put into a target. An array as a whole is none.
fn note_target(findings: &mut Findings, place: Place, target: ValueType, given: Typed)
    ensures { findings.new ≡ fold noted findings.old
        (because_of (put_why (typed_part Variable target) Value given) place (target_rules target given.value)) }
{
    let types = ComparedTypes::Two(
        typed_part(Part::Variable, target),
        typed_part(Part::Value, given.value),
    );
    let why = Why::Types(types, None);
    match target {
        ValueType::Word(wanted) => note_value(findings, place, Part::Variable, wanted, given),
        ValueType::Array(_) => findings.note(true, place, Rule::WrongKind, why),
        ValueType::Nothing => findings.note(true, place, Rule::WrongKind, why),
    }
}

/// Notes what may not be changed: what is immutable, and what is public under secret control.
fn note_change(findings: &mut Findings, change: AssignmentAt, mutable: bool, label: Label)
    ensures { findings.new
        ≡ fold noted findings.old (change_violations change.control change.place change.declared_at mutable label) }
{
    let why = Why::Fixed(change.declared_at);
    findings.note(!mutable, change.place, Rule::NotMutable, why);
    note_control(findings, change.place, change.control, label);
}

/// Notes what an assignment to a name violates, by its value.
fn note_assignment(
    findings: &mut Findings,
    change: AssignmentAt,
    variable: Option<VariableType>,
    given: Option<Typed>,
)
    ensures { findings.new
        ≡ fold noted findings.old
        (assignment_violations change.control change.place change.declared_at variable given) }
{
    let (Some(variable), Some(given)) = (variable, given) else {
        return;
    };
    let label = variable.value.label();
    note_target(findings, change.place, variable.value, given);
    note_change(findings, change, variable.mutable, label);
}

/// An assignment to a name.
pub fn assignment(
    alloc: Global,
    names: &Scope<'_>,
    findings: &mut Findings,
    earlier: &[Procedure],
    control: Option<SecretControl>,
    assignment: &Assignment,
) -> Result<(), AllocError>
    ensures { OnOk result (findings.new
        ≡ fold noted findings.old (statement_violations (map procedure_tree earlier.now) names.now control
        (statement_tree (Assign assignment.now)))) }
{
    let text = assignment.name.as_str();
    let variable = names.variable(text);
    let change = AssignmentAt {
        place: assignment.place,
        control,
        declared_at: names.place(text),
    };
    note_name(
        names,
        findings,
        assignment.target,
        &assignment.name,
        variable,
    );
    let given = right_side(alloc, names, findings, earlier, control, &assignment.value)?;
    note_assignment(findings, change, variable, given);
    Ok(())
}

/// Notes what an assignment to an element violates, by its value.
fn note_element_assignment(
    findings: &mut Findings,
    change: AssignmentAt,
    variable: Option<VariableType>,
    element: Option<ValueType>,
    given: Option<Typed>,
)
    ensures { findings.new ≡ fold noted findings.old
        (element_assignment_violations change.control change.place change.declared_at variable element given) }
{
    let Some(variable) = variable else {
        return;
    };
    let Some(element) = element else {
        return;
    };
    let Some(given) = given else {
        return;
    };
    let wanted = WordType {
        kind: element.kind(),
        label: element.label(),
    };
    note_value(findings, change.place, Part::Element, wanted, given);
    note_change(findings, change, variable.mutable, element.label());
}

/// The type of what is well typed.
fn value_of(typed: Option<Typed>) -> Option<ValueType>
    ensures { result ≡ option_map (λ (known : Typed). known.value) typed }
{
    match typed {
        Some(known) => Some(known.value),
        None => None,
    }
}

/// An assignment to an element.
pub fn element_assignment(
    alloc: Global,
    names: &Scope<'_>,
    findings: &mut Findings,
    earlier: &[Procedure],
    control: Option<SecretControl>,
    assignment: &ElementAssignment,
) -> Result<(), AllocError>
    ensures { OnOk result (findings.new
        ≡ fold noted findings.old (statement_violations (map procedure_tree earlier.now) names.now control
        (statement_tree (AssignElement assignment.now)))) }
{
    let text = assignment.name.as_str();
    let variable = names.variable(text);
    let change = AssignmentAt {
        place: assignment.place,
        control,
        declared_at: names.place(text),
    };
    let array = name(names, findings, assignment.target, &assignment.name);
    let index = expression(names, findings, &assignment.index);
    let element = value_of(element(findings, assignment.bracket, array, index));
    let given = right_side(alloc, names, findings, earlier, control, &assignment.value)?;
    note_element_assignment(findings, change, variable, element, given);
    Ok(())
}
