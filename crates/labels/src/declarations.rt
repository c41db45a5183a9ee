ghost use Rattle.std.specs.Prelude.{◌≡◌, ◌++◌, [], None, fold, is_some, map, OnOk, IfOk};
ghost use Rattle.std.specs.Option.{option_map};
ghost use Rattle.labels.specs.Below.{array_violations, count_violations, declaration_control_violations};
ghost use Rattle.labels.specs.Below.{declaration_violations, Declare, DeclareArray, exprs_violations, found, of_one};
ghost use Rattle.labels.specs.Below.{procedure_tree, right_tree, right_typed, right_violations, scope_after, noted};
ghost use Rattle.labels.specs.Below.{statement_tree, statement_violations, typed_as, typed_of_all, values_violations};
ghost use Rattle.labels.specs.Below.{written};
ghost use Rattle.labels.specs.private.Written.{values_tree};

use crate::calls::call;
use crate::expressions::{expression, expressions};
use crate::values::{note_control, note_value};
use findings::Findings;
use language::scopes::Scope;
use language::{
    ArrayDeclaration, ArrayType, Declaration, Declared, Expr, Label, Part, Place, Procedure,
    RightSide, Rule, SecretControl, Typed, ValueCounts, ValueType, VariableType, Why, WordType,
};
use std::alloc::{AllocError, Global};

/// What is known of what a call gives, where it is well typed.
fn given(value: Option<ValueType>) -> Option<Typed>
    ensures { result ≡ option_map (typed_as None None) value }
{
    match value {
        Some(value) => Some(Typed {
            value,
            secret: None,
            literal: None,
        }),
        None => None,
    }
}

/// Notes what a right side violates, and gives what is known of it where it is well typed.
pub fn right_side(
    alloc: Global,
    names: &Scope<'_>,
    findings: &mut Findings,
    earlier: &[Procedure],
    control: Option<SecretControl>,
    right: &RightSide,
) -> Result<Option<Typed>, AllocError>
    ensures typed { IfOk result (λ typed.
        typed ≡ right_typed (map procedure_tree earlier.now) names.now control (right_tree right.now)) }
    ensures findings { OnOk result (findings.new
        ≡ fold noted findings.old
        (right_violations (map procedure_tree earlier.now) names.now control (right_tree right.now))) }
{
    match right {
        RightSide::Call(it) => {
            let value = call(alloc, names, findings, earlier, control, it)?;
            Ok(given(value))
        }
        RightSide::Value(expr) => Ok(expression(names, findings, expr)),
    }
}

/// Notes something public that is declared with `mut` under secret control.
fn note_declared(
    findings: &mut Findings,
    place: Place,
    control: Option<SecretControl>,
    label: Label,
    mutable: bool,
)
    ensures { findings.new ≡ fold noted findings.old (declaration_control_violations control place label mutable) }
{
    if mutable {
        note_control(findings, place, control, label);
    }
}

/// Notes what a declaration violates, by its first value.
fn note_declaration(
    findings: &mut Findings,
    control: Option<SecretControl>,
    taken: bool,
    declaration: &Declaration,
    given: Option<Typed>,
)
    ensures { findings.new
        ≡ fold noted findings.old (of_one []
        (declaration_violations control declaration.now.place taken declaration.now.label declaration.now.mutable
        declaration.now.kind) given) }
{
    let Some(given) = given else {
        return;
    };
    let (place, label) = (declaration.place, declaration.label);
    let wanted = WordType {
        kind: declaration.kind,
        label,
    };
    findings.note_if(taken, place, Rule::NameDeclaredTwice);
    note_value(findings, place, Part::Variable, wanted, given);
    note_declared(findings, place, control, label, declaration.mutable);
}

/// A declaration of a word: its name is in scope from here on.
pub fn declaration<'a>(
    alloc: Global,
    names: &mut Scope<'a>,
    findings: &mut Findings,
    earlier: &[Procedure],
    control: Option<SecretControl>,
    declaration: &'a Declaration,
) -> Result<(), AllocError>
    ensures names { OnOk result (names.new ≡ scope_after names.old (statement_tree (Declare declaration.now))) }
    ensures findings { OnOk result (findings.new
        ≡ fold noted findings.old (statement_violations (map procedure_tree earlier.now) names.old control
        (statement_tree (Declare declaration.now)))) }
{
    let given = right_side(alloc, names, findings, earlier, control, &declaration.value)?;
    let variable = VariableType {
        value: ValueType::word(declaration.kind, declaration.label),
        mutable: declaration.mutable,
    };
    let taken = names.declare(
        declaration.place,
        declaration.name.as_str(),
        Declared::Variable(variable),
    )?;
    note_declaration(findings, control, taken, declaration, given);
    Ok(())
}

/// Notes what an array's first values violate.
fn note_values(findings: &mut Findings, place: Place, wanted: WordType, types: &[Typed])
    ensures { findings.new ≡ fold noted findings.old (values_violations place wanted types.now) }
{
    for given in types {
        note_value(findings, place, Part::Element, wanted, *given);
    }
}

/// Notes first values that are not as many as the elements.
fn note_count(findings: &mut Findings, place: Place, length: u16, values: &Option<Vec<Expr>>)
    ensures { findings.new ≡ fold noted findings.old (count_violations place length (values_tree values.now)) }
{
    if let Some(values) = values {
        let count = values.len();
        let uneven = count != usize::from(length);
        let why = Why::ValueCounts(ValueCounts {
            length,
            values: count,
        });
        findings.note(uneven, place, Rule::InitialiserCount, why);
    }
}

/// Notes what a declaration of an array violates, by its first values.
fn note_array(
    findings: &mut Findings,
    control: Option<SecretControl>,
    taken: bool,
    array: &ArrayDeclaration,
    types: &[Typed],
)
    ensures { findings.new
        ≡ fold noted findings.old (array_violations control array.now.place taken array.now.label array.now.mutable
        array.now.kind array.now.length (values_tree array.now.values) types.now) }
{
    let (place, label) = (array.place, array.label);
    let wanted = WordType {
        kind: array.kind,
        label,
    };
    findings.note_if(taken, place, Rule::NameDeclaredTwice);
    note_values(findings, place, wanted, types);
    note_count(findings, place, array.length, &array.values);
    note_declared(findings, place, control, label, array.mutable);
}

/// Notes what an array's written values violate, and gives what is known of them where all are well typed.
fn written(
    alloc: Global,
    names: &Scope<'_>,
    findings: &mut Findings,
    values: &Option<Vec<Expr>>,
) -> Result<Option<Vec<Typed>>, AllocError>
    ensures typed { IfOk result (λ types.
        option_map (λ given. given.items) types ≡ typed_of_all names.now (written (values_tree values.now))) }
    ensures findings { OnOk result (findings.new
        ≡ fold noted findings.old (exprs_violations names.now (written (values_tree values.now)))) }
{
    match values {
        None => Ok(Some(Vec::new(alloc))),
        Some(values) => expressions(alloc, names, findings, values.as_slice()),
    }
}

/// A declaration of an array: its name is in scope from here on.
pub fn array<'a>(
    alloc: Global,
    names: &mut Scope<'a>,
    findings: &mut Findings,
    control: Option<SecretControl>,
    array: &'a ArrayDeclaration,
) -> Result<(), AllocError>
    ensures names { OnOk result (names.new ≡ scope_after names.old (statement_tree (DeclareArray array.now))) }
    ensures findings { OnOk result (findings.new
        ≡ fold noted findings.old (exprs_violations names.old (written (values_tree array.now.values))
        ++ of_one []
        (array_violations control array.now.place (is_some (found names.old array.now.name)) array.now.label
        array.now.mutable array.now.kind array.now.length (values_tree array.now.values))
        (typed_of_all names.old (written (values_tree array.now.values))))) }
{
    let types = written(alloc, names, findings, &array.values)?;
    let element = WordType {
        kind: array.kind,
        label: array.label,
    };
    let variable = VariableType {
        value: ValueType::Array(ArrayType {
            element,
            length: array.length,
        }),
        mutable: array.mutable,
    };
    let taken = names.declare(
        array.place,
        array.name.as_str(),
        Declared::Variable(variable),
    )?;
    if let Some(types) = types {
        note_array(findings, control, taken, array, types.as_slice());
    }
    Ok(())
}
