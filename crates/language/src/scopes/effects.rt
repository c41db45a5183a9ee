ghost use Rattle.std.specs.Prelude.{◌≡◌, map};
ghost use Rattle.language.specs.Tree.{block_tree, call_tree, parameter_tree, procedure_tree, right_tree};
ghost use Rattle.language.specs.Tree.{statement_tree};
ghost use Rattle.language.specs.Typing.{assigns_public, block_assigns, calls_one, is_public_mutable, may_assign};
ghost use Rattle.language.specs.Typing.{parameters_assign, right_assigns, statement_assigns};

use crate::scopes::scope::Scope;
use crate::{Call, Callee, Label, Parameter, Procedure, RightSide, Statement};

/// Whether it is public and may be assigned to.
fn is_public_mutable(label: Label, mutable: bool) -> bool
    ensures { result ≡ is_public_mutable label mutable }
{
    mutable && !label.is_secret()
}

/// Whether it is a procedure that may assign to something public.
fn may_assign(callee: Option<Callee>) -> bool
    ensures { result ≡ may_assign callee }
{
    match callee {
        Some(known) => known.assigns_public,
        None => false,
    }
}

/// Whether the call may assign to something public.
fn call_assigns(names: &Scope<'_>, call: &Call) -> bool
    ensures { result ≡ calls_one names.now (call_tree call.now) }
{
    may_assign(names.callee(call.name.as_str()))
}

/// Whether a right side may assign to something public.
fn right_assigns(names: &Scope<'_>, right: &RightSide) -> bool
    ensures { result ≡ right_assigns names.now (right_tree right.now) }
{
    match right {
        RightSide::Call(it) => call_assigns(names, it),
        RightSide::Value(_) => false,
    }
}

/// Whether a statement declares a public name with `mut`, or calls a procedure that may assign to
/// something public.
#[cycle(effect)]
fn statement_assigns(names: &Scope<'_>, statement: &Statement) -> bool
    ensures { result ≡ statement_assigns names.now (statement_tree statement.now) }
{
    match statement {
        Statement::Declare(it) => {
            is_public_mutable(it.label, it.mutable) || right_assigns(names, &it.value)
        }
        Statement::DeclareArray(it) => is_public_mutable(it.label, it.mutable),
        Statement::Assign(it) => right_assigns(names, &it.value),
        Statement::AssignElement(it) => right_assigns(names, &it.value),
        Statement::Call(it) => call_assigns(names, it),
        Statement::If(_, _, accepted, otherwise) => {
            block_assigns(names, accepted.as_slice()) || block_assigns(names, otherwise.as_slice())
        }
        Statement::For(_, _, _, _, body) => block_assigns(names, body.as_slice()),
    }
}

/// Whether one of these statements does.
#[cycle(effect)]
fn block_assigns(names: &Scope<'_>, statements: &[Statement]) -> bool
    ensures { result ≡ block_assigns names.now (block_tree statements.now) }
{
    for one in statements {
        if statement_assigns(names, one) {
            return true;
        }
    }
    false
}

/// Whether one of the parameters is public and may be assigned to.
fn parameters_assign(parameters: &[Parameter]) -> bool
    ensures { result ≡ parameters_assign (map parameter_tree parameters.now) }
{
    for parameter in parameters {
        if is_public_mutable(parameter.label, parameter.form.is_mutable()) {
            return true;
        }
    }
    false
}

/// Whether a call of the procedure may assign to something public. The names are those of the
/// earlier procedures.
pub fn assigns_public(names: &Scope<'_>, procedure: &Procedure) -> bool
    ensures { result ≡ assigns_public names.now (procedure_tree procedure.now) }
{
    parameters_assign(procedure.parameters.as_slice())
        || block_assigns(names, procedure.body.as_slice())
}
