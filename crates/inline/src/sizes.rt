// How large code is. Each procedure is measured once, by what is known of the earlier ones.

ghost use Rattle.std.specs.Prelude.{◌≡◌, ◌≤◌, ◌+◌, [], length, map, max, IfOk, IfErr, OnOk};
ghost use Rattle.inline.specs.Counts.{AreCountsOf};
ghost use Rattle.std.specs.Option.{option_map};
ghost use Rattle.inline.specs.Measured.{block_size, call_size, counted_size, export_size, extents_in};
ghost use Rattle.inline.specs.Measured.{procedure_size, right_size, statement_size};
ghost use Rattle.inline.specs.Below.{array_words, block_tree, call_tree, counted, expr_tree, extents_of, nodes_in};
ghost use Rattle.inline.specs.Below.{nodes_in_all, parameter_tree, parameter_words, passed_words, procedure_tree};
ghost use Rattle.inline.specs.Below.{return_nodes, return_tree, right_bodies, right_nodes, right_tree, right_words};
ghost use Rattle.inline.specs.Below.{statement_tree, written};

use crate::measured::{FlatSize, Measured};
use crate::nodes::{nodes_in, nodes_in_all, nodes_passed};
use language::names::Names;
use language::{
    ArrayDeclaration, Call, ElementAssignment, Expr, Form, Parameter, Procedure, Return, RightSide,
    Statement,
};
use std::alloc::{AllocError, Global};

/// How large a call is: itself, its word arguments and the called body.
fn size_of_call<'s>(earlier: &Names<'s, Measured<'s>>, call: &Call) -> FlatSize
    ensures { result ≡ call_size (extents_in earlier.now) (call_tree call.now) }
{
    match earlier.find(call.name.as_str()) {
        Some(called) => {
            let passed = nodes_passed(called.parameters, &call.arguments);
            called.size.with(passed.saturating_add(1), 0)
        }
        None => FlatSize::of(1, 0),
    }
}

/// How large a right side is.
fn size_of_right<'s>(earlier: &Names<'s, Measured<'s>>, right: &RightSide) -> FlatSize
    ensures { result ≡ right_size (extents_in earlier.now) (right_tree right.now) }
{
    match right {
        RightSide::Call(call) => size_of_call(earlier, call),
        RightSide::Value(expr) => FlatSize::of(nodes_in(expr), 0),
    }
}

/// How large a declaration of an array is.
fn size_of_array(array: &ArrayDeclaration) -> FlatSize
    ensures { result ≡ counted_size
        (1 + nodes_in_all (written (option_map (λ values. map expr_tree values.items) array.now.values)))
        (array_words array.now.kind array.now.length) 0 }
{
    let values = match &array.values {
        Some(values) => nodes_in_all(values),
        None => 0,
    };
    FlatSize::of(
        values.saturating_add(1),
        u64::from(array.kind.array_words(array.length)),
    )
}

/// How large an assignment to an element is.
fn size_of_element<'s>(
    earlier: &Names<'s, Measured<'s>>,
    assignment: &ElementAssignment,
) -> FlatSize
    ensures { result ≡ counted_size
        (1 + (1 + nodes_in (expr_tree assignment.now.index))
        + right_nodes (extents_in earlier.now) (right_tree assignment.now.value))
        (right_words (extents_in earlier.now) (right_tree assignment.now.value))
        (right_bodies (extents_in earlier.now) (right_tree assignment.now.value)) }
{
    let index = nodes_in(&assignment.index);
    size_of_right(earlier, &assignment.value).with(index.saturating_add(2), 0)
}

/// How large a conditional is, whose arms are so large.
fn size_of_branch(condition: &Expr, accepted: FlatSize, otherwise: FlatSize) -> FlatSize
    ensures { result ≡ counted_size (1 + nodes_in (expr_tree condition.now) + accepted.nodes + otherwise.nodes)
        (accepted.words + otherwise.words) (max accepted.bodies otherwise.bodies) }
{
    let condition = nodes_in(condition).saturating_add(1);
    accepted.and(otherwise).with(condition, 0)
}

/// How large a loop is, whose body is so large.
fn size_of_loop(low: &Expr, high: &Expr, body: FlatSize) -> FlatSize
    ensures { result ≡ counted_size (1 + nodes_in (expr_tree low.now) + nodes_in (expr_tree high.now) + body.nodes)
        (1 + body.words) body.bodies }
{
    let bounds = nodes_in(low).saturating_add(nodes_in(high));
    body.with(bounds.saturating_add(1), 1)
}

/// How large a statement is.
#[cycle(sizes)]
pub fn size_of_statement<'s>(earlier: &Names<'s, Measured<'s>>, statement: &Statement) -> FlatSize
    ensures { result ≡ statement_size (extents_in earlier.now) (statement_tree statement.now) }
{
    match statement {
        Statement::Declare(it) => size_of_right(earlier, &it.value).with(1, 1),
        Statement::DeclareArray(it) => size_of_array(it),
        Statement::Assign(it) => size_of_right(earlier, &it.value).with(1, 0),
        Statement::AssignElement(it) => size_of_element(earlier, it),
        Statement::Call(call) => size_of_call(earlier, call),
        Statement::If(_, condition, accepted, otherwise) => {
            let accepted = size_of_block(earlier, accepted);
            let otherwise = size_of_block(earlier, otherwise);
            size_of_branch(condition, accepted, otherwise)
        }
        Statement::For(_, _, low, high, body) => {
            size_of_loop(low, high, size_of_block(earlier, body))
        }
    }
}

/// How large some statements are.
#[cycle(sizes)]
fn size_of_block<'s>(earlier: &Names<'s, Measured<'s>>, block: &[Statement]) -> FlatSize
    ensures { result ≡ block_size (extents_in earlier.now) (block_tree block.now) }
{
    let mut size = FlatSize::of(0, 0);
    for statement in block {
        size = size.and(size_of_statement(earlier, statement));
    }
    size
}

/// How many nodes a `return` is, where it stands.
fn nodes_of_return(returned: &Option<Return>) -> u64
    ensures { result ≡ counted (return_nodes (option_map return_tree returned.now)) }
{
    match returned {
        Some(returned) => nodes_in(&returned.value).saturating_add(1),
        None => 0,
    }
}

/// How large a procedure is whose parameters take so many words.
fn size_of<'s>(earlier: &Names<'s, Measured<'s>>, procedure: &Procedure, words: u64) -> FlatSize
    ensures { result ≡ procedure_size (extents_in earlier.now) words (procedure_tree procedure.now) }
{
    let returned = nodes_of_return(&procedure.returned);
    let inside = size_of_block(earlier, &procedure.body).with(returned, words);
    FlatSize {
        bodies: inside.bodies.saturating_add(1),
        ..inside
    }
}

/// How large the export is.
pub fn size_of_export<'s>(earlier: &Names<'s, Measured<'s>>, export: &Procedure) -> FlatSize
    ensures { result ≡ export_size (extents_in earlier.now) (procedure_tree export.now) }
{
    size_of(earlier, export, parameter_words(&export.parameters))
}

/// How many words the parameters of the export take.
fn parameter_words(parameters: &[Parameter]) -> u64
    ensures { result ≡ counted (parameter_words (map parameter_tree parameters.now)) }
{
    let mut sum = 0u64;
    for parameter in parameters {
        sum = sum.saturating_add(u64::from(parameter.param().words()));
    }
    sum
}

/// How many words the parameters of a called procedure take: an array is the caller's own.
fn passed_words(parameters: &[Parameter]) -> u64
    ensures { result ≡ counted (passed_words (map parameter_tree parameters.now)) }
{
    let mut sum = 0u64;
    for parameter in parameters {
        if matches!(parameter.form, Form::SingleWord) {
            sum = sum.saturating_add(1);
        }
    }
    sum
}

/// Puts the first procedures into a table that is empty, each with its size.
fn measure_all<'s>(
    table: &mut Names<'s, Measured<'s>>,
    procedures: &'s [Procedure],
) -> Result<(), AllocError>
    requires { table.old ≡ [] }
    ensures counts { OnOk result (AreCountsOf (extents_in table.new) (extents_of (map procedure_tree procedures.now))) }
    ensures memory { IfErr result (λ _. 1 ≤ length procedures.now) }
{
    for procedure in procedures {
        let parameters = procedure.parameters.as_slice();
        let size = size_of(table, procedure, passed_words(parameters));
        let _taken = table.declare(procedure.name.as_str(), Measured { parameters, size })?;
    }
    Ok(())
}

/// How large procedures are where they are called, by their names.
pub fn measured_all<'s>(
    alloc: Global,
    procedures: &'s [Procedure],
) -> Result<Names<'s, Measured<'s>>, AllocError>
    ensures counts { IfOk result (λ table.
        AreCountsOf (extents_in table) (extents_of (map procedure_tree procedures.now))) }
    ensures memory { IfErr result (λ _. 1 ≤ length procedures.now) }
{
    let mut table = Names::new(alloc);
    measure_all(&mut table, procedures)?;
    Ok(table)
}
