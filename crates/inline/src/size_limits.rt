// The limits on a program's size.

ghost use Rattle.std.specs.Prelude.{◌≡◌, ◌<◌, ◌≤◌, ◌*◌, ◌||◌, [], is_none, length, map, nat_lt, IfErr, IfOk, IfSome};
ghost use Rattle.inline.specs.Measured.{extents_in, passed_by};
ghost use Rattle.inline.specs.Below.{AreInOrder, excess, extents_of, IsNamed, IsRefusedFor, IsToldOf, IsWantOfMemory};
ghost use Rattle.inline.specs.Below.{limits_passed, most_bodies, most_declared_bytes, most_nodes, nodes_of};
ghost use Rattle.inline.specs.Below.{procedure_tree, size_violations};

use crate::costs::{SizeCosts, costs_of, size_costs};
use crate::measured::{FlatSize, Measured};
use crate::sizes::{measured_all, size_of_export};
use findings::in_order;
use language::names::Names;
use language::{
    Counted, Excess, MOST_BODIES, MOST_DECLARED_BYTES, MOST_NODES, Place, Procedure, Refusal, Rule,
    Violation, Why,
};
use std::alloc::{AllocError, Global};

/// How many nodes there are, where such a size passes no limit.
fn nodes_within(size: FlatSize) -> Option<u32>
    ensures nodes { IfSome result (λ nodes. nodes ≡ size.nodes) }
    ensures limits { is_none result
        ≡ (nat_lt most_nodes size.nodes
        || nat_lt most_bodies size.bodies
        || nat_lt most_declared_bytes (4 * size.words)) }
{
    if size.nodes > u64::from(MOST_NODES)
        || size.bodies > u64::from(MOST_BODIES)
        || size.declared_bytes() > u64::from(MOST_DECLARED_BYTES)
    {
        return None;
    }
    Some(size.nodes as u32)
}

/// A limit is passed by so much.
fn too_much(place: Place, rule: Rule, excess: Excess) -> Violation
    ensures { result ≡ record { place = place; rule = rule; why = Why.TooMuch excess } }
{
    Violation {
        place,
        rule,
        why: Why::TooMuch(excess),
    }
}

/// The first limit that is passed by such costs, at this place, where one is passed.
fn first_passed(place: Place, costs: SizeCosts) -> Violation
    ensures nodes { most_nodes < costs.nodes.whole
        → result
        ≡ record { place = place; rule = Rule.InlinedSize; why = Why.TooMuch (excess Counted.Nodes costs.nodes) } }
    ensures bodies { costs.nodes.whole ≤ most_nodes
        → most_bodies < costs.bodies.whole
        → result ≡ record {
          place = place;
          rule = Rule.InlinedSize;
          why = Why.TooMuch (excess Counted.Bodies costs.bodies);
        } }
    ensures declared_bytes { costs.nodes.whole ≤ most_nodes
        → costs.bodies.whole ≤ most_bodies
        → result ≡ record {
          place = place;
          rule = Rule.DeclaredBytes;
          why = Why.TooMuch (excess Counted.DeclaredBytes costs.declared_bytes);
        } }
{
    if costs.nodes.whole > u64::from(MOST_NODES) {
        return too_much(place, Rule::InlinedSize, costs.nodes.excess(Counted::Nodes));
    }
    if costs.bodies.whole > u64::from(MOST_BODIES) {
        return too_much(
            place,
            Rule::InlinedSize,
            costs.bodies.excess(Counted::Bodies),
        );
    }
    let excess = costs.declared_bytes.excess(Counted::DeclaredBytes);
    too_much(place, Rule::DeclaredBytes, excess)
}

/// How many nodes the export has with every call replaced by the called body, where it passes no limit; else the first
/// that it passes.
fn limited<'s>(earlier: &Names<'s, Measured<'s>>, export: &Procedure) -> Result<u32, Violation>
    ensures nodes { IfOk result (λ nodes.
        (nodes ≤ most_nodes) × (nodes ≡ nodes_of (extents_in earlier.now) (procedure_tree export.now))) }
    ensures within { IfOk result (λ _.
        length (limits_passed (extents_in earlier.now) (procedure_tree export.now)) ≡ 0) }
    ensures named { IfErr result (IsNamed (limits_passed (extents_in earlier.now) (procedure_tree export.now))) }
{
    match nodes_within(size_of_export(earlier, export)) {
        Some(nodes) => Ok(nodes),
        None => Err(first_passed(export.place, costs_of(earlier, export))),
    }
}

/// How many nodes the export has with every call replaced by the called body, where it passes no limit; else the
/// first that it passes. Where no procedure is earlier no memory is asked for.
pub fn measure(alloc: Global, earlier: &[Procedure], export: &Procedure) -> Result<u32, Refusal>
    ensures nodes { IfOk result (λ nodes.
        nodes ≡ nodes_of (extents_of (map procedure_tree earlier.now)) (procedure_tree export.now)) }
    ensures within { IfOk result (λ _.
        length (size_violations (map procedure_tree earlier.now) (procedure_tree export.now)) ≡ 0) }
    ensures refused { IfErr result (λ refusal. IsRefusedFor
        (size_violations (map procedure_tree earlier.now) (procedure_tree export.now)) refusal.rule refusal.place) }
    ensures told { IfErr result
        (IsToldOf (size_violations (map procedure_tree earlier.now) (procedure_tree export.now))) }
    ensures memory { earlier.now ≡ [] → IfErr result (λ refusal. IsWantOfMemory refusal.rule refusal.place → ⊥) }
{
    let known = measured_all(alloc, earlier)?;
    match limited(&known, export) {
        Ok(nodes) => Ok(nodes),
        Err(violation) => Err(Refusal::of(violation)),
    }
}

/// The limits that are passed by such costs, at this place.
fn all_passed(alloc: Global, place: Place, costs: SizeCosts) -> Result<Vec<Violation>, AllocError>
    ensures { IfOk result (λ passed. passed.items ≡ passed_by place costs) }
{
    let mut passed = Vec::new(alloc);
    if costs.nodes.whole > u64::from(MOST_NODES) {
        let excess = costs.nodes.excess(Counted::Nodes);
        passed.push(too_much(place, Rule::InlinedSize, excess))?;
    } else if costs.bodies.whole > u64::from(MOST_BODIES) {
        let excess = costs.bodies.excess(Counted::Bodies);
        passed.push(too_much(place, Rule::InlinedSize, excess))?;
    }
    if costs.declared_bytes.whole > u64::from(MOST_DECLARED_BYTES) {
        let excess = costs.declared_bytes.excess(Counted::DeclaredBytes);
        passed.push(too_much(place, Rule::DeclaredBytes, excess))?;
    }
    Ok(passed)
}

/// All limits on size that an export passes behind the procedures that it may call, in their order: first the one for
/// which `measure` refuses it.
pub fn limits_passed(
    alloc: Global,
    earlier: &[Procedure],
    export: &Procedure,
) -> Result<Vec<Violation>, AllocError>
    ensures { IfOk result (λ found. AreInOrder
        (size_violations (map procedure_tree earlier.now) (procedure_tree export.now)) found.items) }
{
    let costs = size_costs(alloc, earlier, export)?;
    in_order(all_passed(alloc, export.place, costs)?)
}
