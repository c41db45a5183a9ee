ghost use Rattle.std.specs.Prelude.{◌≡◌, Some, fold, length, map, replicate, IfErr, IfOk, OnOk};
ghost use Rattle.intervals.specs.Loose.{IsSafe};
ghost use Rattle.intervals.specs.Ranges.{bound_by, bound_of, first_bounds, range_violations, result_violations};
ghost use Rattle.intervals.specs.Ranges.{iterations_of};
ghost use Rattle.intervals.specs.Work.{IsRefusedByRanges, IsToldByRanges, ranged, work_excess, work_violations};
ghost use Rattle.intervals.specs.Below.{AreInOrder, first_found, IsFirst, IsNamed, noted, TellsOf};

use crate::costs::program_cost;
use crate::known::KnownBounds;
use crate::operators::full_of;
use crate::terms::note_term;
use crate::walk::{Walk, statements};
use crate::work::program_work;
use crate::{Interval, MOST_WORK, Ranged};
use findings::{Findings, in_order};
use inline::Flat;
use language::{Counted, Form, Label, Param, Refusal, Rule, Violation, Why};
use std::alloc::{AllocError, Global};

/// What is known of a parameter: a public word is something of its kind.
fn bound_of(parameter: Param) -> Option<Interval>
    ensures { result ≡ bound_of parameter }
{
    match parameter.form {
        Form::SingleWord => match parameter.label {
            Label::Public => Some(full_of(parameter.kind)),
            Label::Secret => None,
        },
        Form::FixedArray => None,
        Form::MutableArray => None,
    }
}

/// What is known of parameters.
fn bounds_of(alloc: Global, parameters: &[Param]) -> Result<Vec<Option<Interval>>, AllocError>
    ensures { IfOk result (λ bounds. bounds.items ≡ map bound_of parameters.now) }
{
    let mut bounds = Vec::new(alloc);
    for parameter in parameters {
        bounds.push(bound_of(*parameter))?;
    }
    Ok(bounds)
}

/// What is known where the body begins: nothing of what it declares.
fn first_bounds(alloc: Global, flat: &Flat) -> Result<Vec<Option<Interval>>, AllocError>
    ensures { IfOk result (λ bounds. bounds.items ≡ first_bounds flat.now) }
{
    let parameters = flat.parameters();
    let mut bounds = bounds_of(alloc, parameters)?;
    for _ in parameters.len()..flat.declared().len() {
        bounds.push(None)?;
    }
    Ok(bounds)
}

/// A walk over a whole program, behind what was found before: the program is safe where no range is passed.
fn walked(alloc: Global, flat: &Flat, before: Findings) -> Result<Walk, AllocError>
    ensures iterations { IfOk result (λ walk. walk.iterations.items ≡ iterations_of flat.now) }
    ensures findings { IfOk result (λ walk. walk.findings ≡ fold noted before (range_violations flat.now)) }
    ensures safe { OnOk result (length (range_violations flat.now) ≡ 0 → IsSafe flat.now (iterations_of flat.now)) }
{
    let declared = flat.declared();
    let mut walk = Walk {
        known: KnownBounds {
            alloc,
            bounds: first_bounds(alloc, flat)?,
            changes: Vec::new(alloc),
        },
        iterations: vec![in alloc; 0; declared.len()]?,
        findings: before,
    };
    statements(declared, &mut walk, flat.body())?;
    if let Some(value) = flat.value() {
        note_term(
            &mut walk.findings,
            declared,
            walk.known.bounds.as_slice(),
            value,
        );
    }
    Ok(walk)
}

/// What a body violates whose work is too much.
fn too_much_work(iterations: &[u32], flat: &Flat) -> Violation
    requires { iterations.now ≡ iterations_of flat.now }
    ensures rule { result.rule ≡ Rule.TooMuchWork }
    ensures place { result.place ≡ flat.now.place }
    ensures why { result.why ≡ Why.TooMuch (work_excess flat.now) }
{
    let excess = program_cost(iterations, flat).excess(Counted::Work);
    Violation {
        place: flat.place(),
        rule: Rule::TooMuchWork,
        why: Why::TooMuch(excess),
    }
}

/// The body with these iterations and its work, where that is within the limit. It asks for no memory.
fn with_work<'f>(flat: &'f Flat, iterations: Vec<u32>) -> Result<Ranged<'f>, Refusal>
    requires iterations { iterations.items ≡ iterations_of flat.now }
    requires safe { IsSafe flat.now iterations.items }
    ensures accepted { IfOk result (λ result. result ≡ ranged flat.now) }
    ensures worked { OnOk result (length (work_violations flat.now) ≡ 0) }
    ensures refused { IfErr result (λ refusal. (first : Violation)
        × IsFirst (work_violations flat.now) first
        × IsNamed (work_violations flat.now) first
        × TellsOf refusal first) }
{
    let work = program_work(iterations.as_slice(), flat);
    if work > MOST_WORK {
        return Err(Refusal::of(too_much_work(iterations.as_slice(), flat)));
    }
    Ok(Ranged::new(flat, iterations, work))
}

/// The body with what is counted for it, where each index is within its array, no divisor is 0 and the work is within
/// the limit; else the first of these that is not so, the work last.
pub fn check_ranges<'f>(alloc: Global, flat: &'f Flat) -> Result<Ranged<'f>, Refusal>
    ensures accepted { IfOk result (λ result. result ≡ ranged flat.now) }
    ensures in_range { OnOk result (length (range_violations flat.now) ≡ 0) }
    ensures worked { OnOk result (length (work_violations flat.now) ≡ 0) }
    ensures refused { IfErr result (λ refusal. IsRefusedByRanges flat.now refusal.rule refusal.place) }
    ensures told { IfErr result (IsToldByRanges flat.now) }
{
    let walk = walked(alloc, flat, Findings::new(alloc))?;
    match walk.findings.first() {
        Some(first) => Err(Refusal::of(first)),
        None => with_work(flat, walk.iterations),
    }
}

/// What a body violates whose work is above the limit.
fn work_passed(alloc: Global, iterations: &[u32], flat: &Flat) -> Result<Vec<Violation>, AllocError>
    requires { iterations.now ≡ iterations_of flat.now }
    ensures { IfOk result (λ passed. passed.items ≡ work_violations flat.now) }
{
    let mut passed = Vec::new(alloc);
    if program_work(iterations, flat) > MOST_WORK {
        passed.push(too_much_work(iterations, flat))?;
    }
    Ok(passed)
}

/// All indices that may be outside their arrays and divisors that may be 0, in their order; or else, where there are
/// none, the work that is above the limit: first what `check_ranges` refuses the body for.
pub fn violations(alloc: Global, flat: &Flat) -> Result<Vec<Violation>, AllocError>
    ensures { IfOk result (λ found.
        AreInOrder (first_found (range_violations flat.now) (work_violations flat.now)) found.items) }
{
    let counted = walked(alloc, flat, Findings::new(alloc))?;
    if counted.findings.first().is_none() {
        return in_order(work_passed(alloc, counted.iterations.as_slice(), flat)?);
    }
    let room = counted.findings.again(alloc)?;
    walked(alloc, flat, room)?.findings.in_order()
}
