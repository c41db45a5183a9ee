// What the export costs of each limit on its size, and the first of the parts that cost most of it.

ghost use Rattle.std.specs.Prelude.{◌≡◌, ◌*◌, fold, map, IfOk};
ghost use Rattle.std.specs.Option.{option_map};
ghost use Rattle.inline.specs.Measured.{extents_in};
ghost use Rattle.inline.specs.Below.{block_tree, bodies_cost, body_shares, byte_shares, bytes_cost, counted_share};
ghost use Rattle.inline.specs.Below.{extents_of, larger, largest, node_shares, nodes_cost, parameter_share};
ghost use Rattle.inline.specs.Below.{parameter_tree, place_of, procedure_tree, return_shares, return_tree};
ghost use Rattle.inline.specs.Below.{statement_bodies, statement_bytes, statement_nodes, statement_shares};
ghost use Rattle.inline.specs.Below.{statement_tree};

use crate::measured::{FlatSize, Measured};
use crate::nodes::nodes_in;
use crate::sizes::{measured_all, size_of_export, size_of_statement};
use language::names::Names;
use language::{Cost, Parameter, Place, Procedure, Return, Share, Statement, larger};
use std::alloc::{AllocError, Global};

/// What an export costs of each limit on its size.
#[derive(Clone, Copy, Debug)]
pub struct SizeCosts {
    /// The nodes, those of called bodies among them.
    pub nodes: Cost,
    /// The bodies that are open at once.
    pub bodies: Cost,
    /// The bytes of what is declared.
    pub declared_bytes: Cost,
}

/// The first of the parts that have most nodes, of those in which most bodies are open, and of those that declare most
/// bytes.
#[derive(Clone, Copy)]
struct Largest {
    nodes: Option<Share>,
    bodies: Option<Share>,
    declared_bytes: Option<Share>,
}

/// What an export costs of each limit behind the procedures that it may call.
pub fn size_costs(
    alloc: Global,
    earlier: &[Procedure],
    export: &Procedure,
) -> Result<SizeCosts, AllocError>
    ensures nodes { IfOk result (λ costs.
        costs.nodes ≡ nodes_cost (extents_of (map procedure_tree earlier.now)) (procedure_tree export.now)) }
    ensures bodies { IfOk result (λ costs.
        costs.bodies ≡ bodies_cost (extents_of (map procedure_tree earlier.now)) (procedure_tree export.now)) }
    ensures declared_bytes { IfOk result (λ costs. costs.declared_bytes
        ≡ bytes_cost (extents_of (map procedure_tree earlier.now)) (procedure_tree export.now)) }
{
    let known = measured_all(alloc, earlier)?;
    Ok(costs_of(&known, export))
}

/// What an export costs of each limit, by the sizes of the procedures that it may call.
pub fn costs_of<'s>(earlier: &Names<'s, Measured<'s>>, export: &Procedure) -> SizeCosts
    ensures nodes { result.nodes ≡ nodes_cost (extents_in earlier.now) (procedure_tree export.now) }
    ensures bodies { result.bodies ≡ bodies_cost (extents_in earlier.now) (procedure_tree export.now) }
    ensures declared_bytes { result.declared_bytes ≡ bytes_cost (extents_in earlier.now) (procedure_tree export.now) }
{
    let size = size_of_export(earlier, export);
    let largest = largest_parts(earlier, export);
    SizeCosts {
        nodes: Cost {
            whole: size.nodes,
            largest: largest.nodes,
        },
        bodies: Cost {
            whole: size.bodies,
            largest: largest.bodies,
        },
        declared_bytes: Cost {
            whole: size.declared_bytes(),
            largest: largest.declared_bytes,
        },
    }
}

/// The largest parts of an export: of its parameters, its statements and its `return`.
fn largest_parts<'s>(earlier: &Names<'s, Measured<'s>>, export: &Procedure) -> Largest
    ensures nodes { result.nodes
        ≡ largest (map counted_share (node_shares (extents_in earlier.now) (procedure_tree export.now))) }
    ensures bodies { result.bodies
        ≡ largest (map counted_share (body_shares (extents_in earlier.now) (procedure_tree export.now))) }
    ensures declared_bytes { result.declared_bytes
        ≡ largest (map counted_share (byte_shares (extents_in earlier.now) (procedure_tree export.now))) }
{
    let before = Largest {
        nodes: None,
        bodies: None,
        declared_bytes: largest_parameter(&export.parameters),
    };
    let inside = largest_statements(earlier, &export.body, before);
    Largest {
        nodes: larger_return(inside.nodes, export.returned.as_ref()),
        ..inside
    }
}

/// The parameter of an export that takes most bytes.
fn largest_parameter(parameters: &[Parameter]) -> Option<Share>
    ensures { result ≡ largest (map counted_share (map parameter_share (map parameter_tree parameters.now))) }
{
    let mut most = None;
    for parameter in parameters {
        let share = Share {
            place: parameter.place,
            count: 4 * u64::from(parameter.param().words()),
        };
        most = larger(most, share);
    }
    most
}

/// The largest of statements and of the parts before them.
fn largest_statements<'s>(
    earlier: &Names<'s, Measured<'s>>,
    block: &[Statement],
    before: Largest,
) -> Largest
    ensures nodes { result.nodes
        ≡ fold larger before.nodes
        (map counted_share (statement_shares (statement_nodes (extents_in earlier.now)) (block_tree block.now))) }
    ensures bodies { result.bodies
        ≡ fold larger before.bodies
        (map counted_share (statement_shares (statement_bodies (extents_in earlier.now)) (block_tree block.now))) }
    ensures declared_bytes { result.declared_bytes
        ≡ fold larger before.declared_bytes
        (map counted_share (statement_shares (statement_bytes (extents_in earlier.now)) (block_tree block.now))) }
{
    let mut most = before;
    for statement in block {
        most = larger_statement(
            most,
            statement.place(),
            size_of_statement(earlier, statement),
        );
    }
    most
}

/// The largest parts, with a statement of this size behind them.
fn larger_statement(most: Largest, place: Place, size: FlatSize) -> Largest
    ensures nodes { result.nodes ≡ larger most.nodes (record { place = place; count = size.nodes }) }
    ensures bodies { result.bodies ≡ larger most.bodies (record { place = place; count = size.bodies }) }
    ensures declared_bytes { result.declared_bytes
        ≡ larger most.declared_bytes (counted_share (record { place = place; count = 4 * size.words })) }
{
    Largest {
        nodes: larger(
            most.nodes,
            Share {
                place,
                count: size.nodes,
            },
        ),
        bodies: larger(
            most.bodies,
            Share {
                place,
                count: size.bodies,
            },
        ),
        declared_bytes: larger(
            most.declared_bytes,
            Share {
                place,
                count: size.declared_bytes(),
            },
        ),
    }
}

/// The part that has most nodes of those before and of a `return`.
fn larger_return(most: Option<Share>, returned: Option<&Return>) -> Option<Share>
    ensures { result ≡ fold larger most
        (map counted_share (return_shares (option_map (λ r. return_tree r.now) returned.entry))) }
{
    match returned {
        Some(returned) => {
            let share = Share {
                place: returned.place,
                count: nodes_in(&returned.value).saturating_add(1),
            };
            larger(most, share)
        }
        None => most,
    }
}
