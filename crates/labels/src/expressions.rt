ghost use Rattle.std.specs.Prelude.{◌≡◌, ◌++◌, ◌∷◌, [], None, is_some, fold, length, map, IfOk, IfSome, OnOk};
ghost use Rattle.std.specs.Option.{option_map};
ghost use Rattle.labels.specs.Below.{expr_tree, expr_violations, exprs_violations, found as found_in, name_type};
ghost use Rattle.labels.specs.Below.{name_violations, Public, secret_name, noted, typed_as, typed_of, typed_of_all};
ghost use Rattle.labels.specs.Below.{variable, word};
ghost use Rattle.language.specs.declared.signature.Kind.TheVariants.{Boolean};

use crate::nodes::{binary, choice, convert, element, number, prefix, rotate};
use crate::reasons::unknown_why;
use findings::Findings;
use language::scopes::Scope;
use language::{Expr, Kind, Label, Name, Place, Rule, Typed, ValueType, VariableType};
use std::alloc::{AllocError, Global};

/// What is known of a name, by its variable where there is one.
fn known(names: &Scope<'_>, text: &Name, found: Option<VariableType>) -> Option<Typed>
    requires { found ≡ variable (found_in names.now text.now) }
    ensures { result ≡ option_map (typed_as (secret_name names.now text.now) None) (name_type names.now text.now) }
{
    match found {
        Some(known) => Some(Typed {
            value: known.value,
            secret: known
                .value
                .is_hidden()
                .then_some(names.place(text.as_str())),
            literal: None,
        }),
        None => None,
    }
}

/// Notes a name that is no variable's. What is near it is looked for only where this would be told.
pub fn note_name(
    names: &Scope<'_>,
    findings: &mut Findings,
    place: Place,
    text: &Name,
    found: Option<VariableType>,
)
    requires { found ≡ variable (found_in names.now text.now) }
    ensures { findings.new ≡ fold noted findings.old (name_violations names.now place text.now) }
{
    if found.is_some() {
        return;
    }
    if findings.would_tell(place, Rule::UndeclaredName) {
        findings.note(true, place, Rule::UndeclaredName, unknown_why(names, text));
    } else {
        findings.pass_over(place, Rule::UndeclaredName);
    }
}

/// Notes a name that is no variable's, and gives what is known of the variable.
pub fn name(names: &Scope<'_>, findings: &mut Findings, place: Place, text: &Name) -> Option<Typed>
    ensures typed { result
        ≡ option_map (typed_as (secret_name names.now text.now) None) (name_type names.now text.now) }
    ensures findings { findings.new ≡ fold noted findings.old (name_violations names.now place text.now) }
{
    let variable = names.variable(text.as_str());
    note_name(names, findings, place, text, variable);
    known(names, text, variable)
}

/// What is known of `true` and of `false`.
fn truth() -> Typed
    ensures { result ≡ typed_as None None (word Boolean Public) }
{
    Typed {
        value: ValueType::word(Kind::Boolean, Label::Public),
        secret: None,
        literal: None,
    }
}

/// Notes what an expression's nodes violate, and gives what is known of it where it is well typed.
pub fn expression(names: &Scope<'_>, findings: &mut Findings, expr: &Expr) -> Option<Typed>
    ensures typed { result ≡ typed_of names.now (expr_tree expr.now) }
    ensures findings { findings.new ≡ fold noted findings.old (expr_violations names.now (expr_tree expr.now)) }
{
    match expr {
        Expr::Number(place, value, kind) => number(findings, *place, *value, *kind),
        Expr::Truth(_, _) => Some(truth()),
        Expr::Name(place, text) => name(names, findings, *place, text),
        Expr::Prefix(place, operator, operand) => {
            let operand = expression(names, findings, operand);
            prefix(findings, *place, *operator, operand)
        }
        Expr::Binary(place, operator, left, right) => {
            let left = expression(names, findings, left);
            let right = expression(names, findings, right);
            binary(findings, names.profile(), *place, *operator, left, right)
        }
        Expr::Rotate(place, operand, amount) => {
            let operand = expression(names, findings, operand);
            rotate(findings, *place, *amount, operand)
        }
        Expr::Convert(place, kind, operand) => {
            let operand = expression(names, findings, operand);
            convert(findings, *place, *kind, operand)
        }
        Expr::Select(place, condition, accepted, otherwise) => {
            let condition = expression(names, findings, condition);
            let accepted = expression(names, findings, accepted);
            let otherwise = expression(names, findings, otherwise);
            choice(findings, *place, condition, accepted, otherwise)
        }
        Expr::Element(place, target, text, index) => {
            let array = name(names, findings, *target, text);
            let index = expression(names, findings, index);
            element(findings, *place, array, index)
        }
    }
}

/// Adds what is known of one more expression, and says whether it is well typed.
fn keep(types: &mut Vec<Typed>, one: Option<Typed>) -> Result<bool, AllocError>
    ensures kept { IfOk result (λ kept. kept ≡ is_some one) }
    ensures types { OnOk result (IfSome one (λ typed. types.new.items ≡ types.old.items ++ typed ∷ [])) }
{
    match one {
        Some(one) => {
            types.push(one)?;
            Ok(true)
        }
        None => Ok(false),
    }
}

/// Notes what expressions violate, and gives what is known of them where all are well typed.
pub fn expressions(
    alloc: Global,
    names: &Scope<'_>,
    findings: &mut Findings,
    exprs: &[Expr],
) -> Result<Option<Vec<Typed>>, AllocError>
    ensures count { IfOk result (λ types. IfSome types (λ given. length given.items ≡ length exprs.now)) }
    ensures typed { IfOk result (λ types.
        option_map (λ given. given.items) types ≡ typed_of_all names.now (map expr_tree exprs.now)) }
    ensures findings { OnOk result (findings.new
        ≡ fold noted findings.old (exprs_violations names.now (map expr_tree exprs.now))) }
{
    let mut types = Vec::new(alloc);
    let mut typed = true;
    for expr in exprs {
        let one = expression(names, findings, expr);
        typed &= keep(&mut types, one)?;
    }
    if typed { Ok(Some(types)) } else { Ok(None) }
}
