ghost use Rattle.std.specs.Prelude.{◌≡◌, ◌++◌, fold, is_some, map, OnOk};
ghost use Rattle.labels.specs.Below.{asked_of_one, asked_of_two, at, block_tree, block_violations, bounds_rules};
ghost use Rattle.labels.specs.Below.{bounds_why, condition_rules, condition_why, control_under, counter_as, declared};
ghost use Rattle.labels.specs.Below.{found, NameDeclaredTwice, procedure_tree, scope_after, scope_after_all, noted};
ghost use Rattle.labels.specs.Below.{statement_tree, statement_violations, when};

use crate::assignments::{assignment, element_assignment};
use crate::calls::call;
use crate::declarations::{array, declaration};
use crate::expressions::expression;
use crate::reasons::typed_part;
use findings::Findings;
use language::scopes::Scope;
use language::{
    ComparedTypes, Counter, Declared, Kind, Label, Part, Place, Procedure, Rule, SecretControl,
    Statement, Typed, ValueType, VariableType, Why,
};
use std::alloc::{AllocError, Global};

/// Notes what a condition violates.
fn note_condition(findings: &mut Findings, place: Place, condition: Option<Typed>)
    ensures { findings.new ≡ fold noted findings.old (asked_of_one condition_why place condition_rules condition) }
{
    if let Some(condition) = condition {
        let part = typed_part(Part::Condition, condition.value);
        let why = Why::Types(ComparedTypes::One(part), None);
        findings.note(!condition.value.is_bool(), place, Rule::WrongKind, why);
    }
}

/// Control in the arms of a conditional at a place, by its condition.
fn control_under(
    place: Place,
    control: Option<SecretControl>,
    condition: Option<Typed>,
) -> Option<SecretControl>
    ensures { result ≡ control_under place control condition }
{
    match condition {
        Some(condition) if condition.value.is_hidden() => Some(SecretControl {
            place,
            name: condition.secret,
        }),
        Some(_) | None => control,
    }
}

/// Notes what a loop's bounds violate.
fn note_bounds(findings: &mut Findings, place: Place, low: Option<Typed>, high: Option<Typed>)
    ensures { findings.new ≡ fold noted findings.old (asked_of_two bounds_why place bounds_rules low high) }
{
    let (Some(low), Some(high)) = (low, high) else {
        return;
    };
    let (one, other) = (low.value, high.value);
    let types = ComparedTypes::Two(
        typed_part(Part::FirstBound, one),
        typed_part(Part::SecondBound, other),
    );
    let why = Why::Types(types, None);
    let secret = Why::Secret(low.secret.or(high.secret));
    let uneven = one.is_narrow() || other.is_narrow();
    let wrong = !(one.is_numeric() && other.is_numeric());
    let told = one.is_hidden() || other.is_hidden();
    findings.note(uneven, place, Rule::WidthsDiffer, why);
    findings.note(wrong, place, Rule::WrongKind, why);
    findings.note(told, place, Rule::SecretBound, secret);
}

/// A statement under control. What it declares is in scope from here on.
#[cycle(statement)]
fn statement<'a>(
    alloc: Global,
    names: &mut Scope<'a>,
    findings: &mut Findings,
    earlier: &[Procedure],
    control: Option<SecretControl>,
    statement: &'a Statement,
) -> Result<(), AllocError>
    ensures names { OnOk result (names.new ≡ scope_after names.old (statement_tree statement.now)) }
    ensures findings { OnOk result (findings.new
        ≡ fold noted findings.old
        (statement_violations (map procedure_tree earlier.now) names.old control (statement_tree statement.now))) }
{
    match statement {
        Statement::Declare(it) => declaration(alloc, names, findings, earlier, control, it),
        Statement::DeclareArray(it) => array(alloc, names, findings, control, it),
        Statement::Assign(it) => assignment(alloc, names, findings, earlier, control, it),
        Statement::AssignElement(it) => {
            element_assignment(alloc, names, findings, earlier, control, it)
        }
        Statement::Call(it) => {
            call(alloc, names, findings, earlier, control, it)?;
            Ok(())
        }
        Statement::If(place, condition, accepted, otherwise) => {
            let condition = expression(names, findings, condition);
            note_condition(findings, *place, condition);
            let control = control_under(*place, control, condition);
            arm(
                alloc,
                names,
                findings,
                earlier,
                control,
                accepted.as_slice(),
            )?;
            arm(
                alloc,
                names,
                findings,
                earlier,
                control,
                otherwise.as_slice(),
            )
        }
        Statement::For(place, counter, low, high, body) => {
            let low = expression(names, findings, low);
            let high = expression(names, findings, high);
            note_bounds(findings, *place, low, high);
            iterations(
                alloc,
                names,
                findings,
                earlier,
                control,
                counter,
                body.as_slice(),
            )
        }
    }
}

/// An arm of a conditional: the names that it declares are its own.
#[cycle(statement)]
fn arm<'a>(
    alloc: Global,
    names: &mut Scope<'a>,
    findings: &mut Findings,
    earlier: &[Procedure],
    control: Option<SecretControl>,
    arm: &'a [Statement],
) -> Result<(), AllocError>
    ensures names { OnOk result (names.new ≡ names.old) }
    ensures findings { OnOk result (findings.new
        ≡ fold noted findings.old
        (block_violations (map procedure_tree earlier.now) names.old control (block_tree arm.now))) }
{
    let outside = names.len();
    statements(alloc, names, findings, earlier, control, arm)?;
    names.truncate(outside);
    Ok(())
}

/// The iterations of a loop: the counter and the names that they declare are their own.
#[cycle(statement)]
fn iterations<'a>(
    alloc: Global,
    names: &mut Scope<'a>,
    findings: &mut Findings,
    earlier: &[Procedure],
    control: Option<SecretControl>,
    counter: &'a Counter,
    body: &'a [Statement],
) -> Result<(), AllocError>
    ensures names { OnOk result (names.new ≡ names.old) }
    ensures findings { OnOk result (findings.new
        ≡ fold noted findings.old (at counter.now.place
        (when (is_some (found names.old counter.now.name)) NameDeclaredTwice)
        ++ block_violations (map procedure_tree earlier.now)
        (declared names.old counter.now.place counter.now.name counter_as) control (block_tree body.now))) }
{
    let before = names.len();
    let variable = VariableType {
        value: ValueType::word(Kind::Uint32, Label::Public),
        mutable: false,
    };
    let taken = names.declare(
        counter.place,
        counter.name.as_str(),
        Declared::Variable(variable),
    )?;
    findings.note_if(taken, counter.place, Rule::NameDeclaredTwice);
    statements(alloc, names, findings, earlier, control, body)?;
    names.truncate(before);
    Ok(())
}

/// Statements in their order.
#[cycle(statement)]
pub fn statements<'a>(
    alloc: Global,
    names: &mut Scope<'a>,
    findings: &mut Findings,
    earlier: &[Procedure],
    control: Option<SecretControl>,
    statements: &'a [Statement],
) -> Result<(), AllocError>
    ensures names { OnOk result (names.new ≡ scope_after_all names.old (block_tree statements.now)) }
    ensures findings { OnOk result (findings.new
        ≡ fold noted findings.old
        (block_violations (map procedure_tree earlier.now) names.old control (block_tree statements.now))) }
{
    for one in statements {
        statement(alloc, names, findings, earlier, control, one)?;
    }
    Ok(())
}
