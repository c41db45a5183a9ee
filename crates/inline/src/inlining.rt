// The export of a program as one body, where it passes no limit on its size.

ghost use Rattle.std.specs.Prelude.{◌≡◌, [], List, Some, length, map, IfOk, IfErr};
ghost use Rattle.std.specs.Option.{option_map};
ghost use Rattle.inline.specs.Kept.{IsFlat};
ghost use Rattle.inline.specs.Numbering as numbered;
ghost use Rattle.inline.specs.Numbering.{flattened};
ghost use Rattle.inline.specs.Below.{AreInOrder, exported, extents_of, IsRefusedFor, IsToldOf, IsWantOfMemory};
ghost use Rattle.inline.specs.Below.{nodes_of};
ghost use Rattle.inline.specs.Below.{procedure_tree, ProcedureTree, program_tree, return_tree, size_violations};

use crate::Flat;
use crate::numbering::Numbering;
use crate::size_limits::{limits_passed, measure};
use labels::Checked;
use language::{Place, Procedure, Profile, Refusal, Return, Violation};
use std::alloc::{AllocError, Global};

/// Where a result stands.
fn return_place(returned: &Option<Return>) -> Option<Place>
    ensures { result ≡ numbered.return_place (option_map return_tree returned.now) }
{
    match returned {
        Some(returned) => Some(returned.place),
        None => None,
    }
}

/// The export behind the procedures that it may call, as one body of so many nodes for an observer.
fn flat_with(
    alloc: Global,
    profile: Profile,
    nodes: u32,
    earlier: &[Procedure],
    export: &Procedure,
) -> Result<Flat, AllocError>
    requires counted { nodes ≡ nodes_of (extents_of (map procedure_tree earlier.now)) (procedure_tree export.now) }
    requires kept { IsFlat (flattened profile (map procedure_tree earlier.now) (procedure_tree export.now)) }
    ensures { IfOk result (λ flat.
        flat ≡ flattened profile (map procedure_tree earlier.now) (procedure_tree export.now)) }
{
    let mut numbering = Numbering::new(alloc);
    let mut declared = Vec::new(alloc);
    let parameters = numbering.parameters(&export.parameters, &mut declared)?;
    let mut body = Vec::new(alloc);
    let stretches = numbering.stretches(earlier, &export.body, &mut declared, &mut body)?;
    let value = numbering.value(&export.returned)?;
    let return_place = return_place(&export.returned);
    Ok(Flat::new(
        profile,
        export.place,
        parameters,
        export.result,
        nodes,
        declared,
        body,
        stretches,
        value,
        return_place,
    ))
}

/// The export behind the procedures that it may call, as one body for an observer, where it passes no limit on its
/// size; else the first limit that it passes.
fn flat_of(
    alloc: Global,
    profile: Profile,
    earlier: &[Procedure],
    export: &Procedure,
) -> Result<Flat, Refusal>
    requires { length (size_violations (map procedure_tree earlier.now) (procedure_tree export.now)) ≡ 0
        → IsFlat (flattened profile (map procedure_tree earlier.now) (procedure_tree export.now)) }
    ensures accepted { IfOk result (λ flat.
        flat ≡ flattened profile (map procedure_tree earlier.now) (procedure_tree export.now)) }
    ensures within { IfOk result (λ _.
        length (size_violations (map procedure_tree earlier.now) (procedure_tree export.now)) ≡ 0) }
    ensures memory { earlier.now ≡ []
        → IfErr result (λ refusal. IsWantOfMemory refusal.rule refusal.place
        → length (size_violations (map procedure_tree earlier.now) (procedure_tree export.now)) ≡ 0) }
    ensures refused { IfErr result (λ refusal. IsRefusedFor
        (size_violations (map procedure_tree earlier.now) (procedure_tree export.now)) refusal.rule refusal.place) }
    ensures told { IfErr result
        (IsToldOf (size_violations (map procedure_tree earlier.now) (procedure_tree export.now))) }
{
    let nodes = measure(alloc, earlier, export)?;
    Ok(flat_with(alloc, profile, nodes, earlier, export)?)
}

/// The export of a checked program as one body for the same observer, with every call replaced by the called body,
/// where that passes no limit on its size; else the first limit that it passes. Of a program whose export is its first
/// procedure, memory is asked for only where no limit is passed.
pub fn inline(alloc: Global, checked: &Checked<'_>) -> Result<Flat, Refusal>
    ensures accepted { IfOk result (λ flat. (before : List ProcedureTree) × (p : ProcedureTree)
        × (exported [] (program_tree checked.now.program.now).procedures ≡ Some (before, p))
        × (length (size_violations before p) ≡ 0)
        × (flat ≡ flattened checked.now.profile before p)) }
    ensures memory { (p : ProcedureTree)
        → exported [] (program_tree checked.now.program.now).procedures ≡ Some ([], p)
        → IfErr result (λ refusal. IsWantOfMemory refusal.rule refusal.place → length (size_violations [] p) ≡ 0) }
    ensures refused { IfErr result (λ refusal. (before : List ProcedureTree) × (p : ProcedureTree)
        × (exported [] (program_tree checked.now.program.now).procedures ≡ Some (before, p))
        × IsRefusedFor (size_violations before p) refusal.rule refusal.place) }
    ensures told { IfErr result (λ refusal. (before : List ProcedureTree) × (p : ProcedureTree)
        × (exported [] (program_tree checked.now.program.now).procedures ≡ Some (before, p))
        × IsToldOf (size_violations before p) refusal) }
{
    let (earlier, export) = checked.export();
    flat_of(alloc, checked.profile(), earlier, export)
}

/// All limits on size that the export of a checked program passes, in their order: first the one for which `inline`
/// refuses it.
pub fn violations(alloc: Global, checked: &Checked<'_>) -> Result<Vec<Violation>, AllocError>
    ensures { IfOk result (λ found. (before : List ProcedureTree) × (p : ProcedureTree)
        × (exported [] (program_tree checked.now.program.now).procedures ≡ Some (before, p))
        × AreInOrder (size_violations before p) found.items) }
{
    let (earlier, export) = checked.export();
    limits_passed(alloc, earlier, export)
}
