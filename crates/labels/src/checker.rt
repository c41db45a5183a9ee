ghost use Rattle.std.specs.Prelude.{◌≡◌, ◌<◌, Some, [], fold, length, map, IsOk, IfOk, IfErr, OnOk};
ghost use Rattle.std.specs.List.{AllByRecursion};
ghost use Rattle.word.specs.Places.{origin};
ghost use Rattle.word.specs.declared.profile.Profile.TheVariants.{P1};
ghost use Rattle.labels.specs.Below.{empty, export_violations, exported, exports, IsGrammatical, NotExactlyOneExport};
ghost use Rattle.labels.specs.Below.{AreInOrder, noted, procedure_tree, procedures_violations, program_tree};
ghost use Rattle.labels.specs.Below.{violations};
ghost use Rattle.language.specs.FirstViolation.{IsRefusedFor, IsToldOf};
ghost use Rattle.labels.specs.Exports.{export_index};

use crate::procedures::procedure;
use findings::Findings;
use language::scopes::Scope;
use language::{Place, Procedure, Profile, Program, Refusal, Rule, Violation};
use std::alloc::{AllocError, Global};

/// A program that violates no rule on names, types and labels, where this is the observer; so one of
/// its procedures is exported.
#[derive(Drop)]
pub struct Checked<'p> {
    program: &'p Program,
    profile: Profile,
    /// How many procedures stand before the exported one.
    export: usize,
    pub ghost well_typed: { length (violations profile (program_tree program.now)) ≡ 0 },
    pub ghost inside: { export < length program.now },
    pub ghost exported: { export_index (exported [] (program_tree program.now).procedures) ≡ Some export },
}

impl<'p> Checked<'p> {
    /// The program.
    pub fn program(&self) -> &'p Program
        ensures program { result ≡ self.now.program }
        ensures well_typed { length (violations self.now.profile (program_tree result.now)) ≡ 0 }
    {
        self.program
    }

    /// The observer.
    pub fn profile(&self) -> Profile
        ensures { result ≡ self.now.profile }
    {
        self.profile
    }

    /// The exported procedure, and those before it.
    pub fn export(&self) -> (&'p [Procedure], &'p Procedure)
        ensures exported { exported [] (program_tree self.now.program.now).procedures
            ≡ Some (map procedure_tree result.0.now, procedure_tree result.1.now) }
        ensures earlier { AllByRecursion IsGrammatical (map procedure_tree result.0.now) }
        ensures grammatical { IsGrammatical (procedure_tree result.1.now) }
    {
        let procedures = self.program.procedures();
        (&procedures[..self.export], &procedures[self.export])
    }
}

/// Notes that no procedure is exported, or which further ones are; and counts those before the first.
fn note_exports(procedures: &[Procedure], findings: &mut Findings) -> Option<usize>
    ensures findings { findings.new
        ≡ fold noted findings.old (export_violations (exports (map procedure_tree procedures.now))) }
    ensures export { result ≡ export_index (exported [] (map procedure_tree procedures.now)) }
{
    let mut export = None;
    for (index, procedure) in procedures.iter().enumerate() {
        if let Some(place) = procedure.export {
            findings.note_if(export.is_some(), place, Rule::NotExactlyOneExport);
            export = export.or(Some(index));
        }
    }
    findings.note_if(export.is_none(), Place::ORIGIN, Rule::NotExactlyOneExport);
    export
}

/// Notes what each procedure violates in the scope of those before it.
fn note_each<'a>(
    alloc: Global,
    names: &mut Scope<'a>,
    findings: &mut Findings,
    procedures: &'a [Procedure],
) -> Result<(), AllocError>
    ensures findings { OnOk result (findings.new ≡ fold noted findings.old
        (procedures_violations [] names.old (map procedure_tree procedures.now))) }
    ensures memory { procedures.now ≡ [] → IsOk result }
{
    for (index, it) in procedures.iter().enumerate() {
        procedure(alloc, names, findings, &procedures[..index], it)?;
    }
    Ok(())
}

/// Notes what the procedures violate, where this is the observer.
fn note_procedures(
    alloc: Global,
    procedures: &[Procedure],
    findings: &mut Findings,
    profile: Profile,
) -> Result<(), AllocError>
    ensures findings { OnOk result (findings.new
        ≡ fold noted findings.old (procedures_violations [] (empty profile) (map procedure_tree procedures.now))) }
    ensures memory { procedures.now ≡ [] → IsOk result }
{
    let mut names = Scope::new(alloc, profile);
    note_each(alloc, &mut names, findings, procedures)
}

/// What is found of procedures: how many stand before the first exported one, and what they violate.
#[derive(Drop)]
struct Found {
    export: Option<usize>,
    findings: Findings,
}

/// What is found of these procedures, where this is the observer, behind what was found before.
fn judged(
    alloc: Global,
    procedures: &[Procedure],
    profile: Profile,
    before: Findings,
) -> Result<Found, AllocError>
    ensures export { IfOk result (λ judged.
        judged.export ≡ export_index (exported [] (map procedure_tree procedures.now))) }
    ensures findings { IfOk result (λ judged. judged.findings
        ≡ fold noted before (violations profile (record { procedures = map procedure_tree procedures.now }))) }
    ensures memory { procedures.now ≡ [] → IsOk result }
{
    let mut findings = before;
    let export = note_exports(procedures, &mut findings);
    note_procedures(alloc, procedures, &mut findings, profile)?;
    Ok(Found { export, findings })
}

/// The program, where it is well typed for an observer; else its first violation. Memory is asked for
/// the names of procedures and of what they declare, so not for an empty program.
pub fn check_as<'p>(
    alloc: Global,
    program: &'p Program,
    profile: Profile,
) -> Result<Checked<'p>, Refusal>
    ensures program { IfOk result (λ checked. checked.program.now ≡ program.now) }
    ensures profile { IfOk result (λ checked. checked.profile ≡ profile) }
    ensures well_typed { IfOk result (λ _. length (violations profile (program_tree program.now)) ≡ 0) }
    ensures empty { program.now ≡ []
        → IfErr result (λ refusal. (refusal.rule ≡ NotExactlyOneExport) × (refusal.place ≡ Some origin)) }
    ensures refused { IfErr result (λ refusal.
        IsRefusedFor (violations profile (program_tree program.now)) refusal.rule refusal.place) }
    ensures told { IfErr result (IsToldOf (violations profile (program_tree program.now))) }
{
    let judged = judged(alloc, program.procedures(), profile, Findings::new(alloc))?;
    if let Some(violation) = judged.findings.first() {
        return Err(Refusal::of(violation));
    }
    match judged.export {
        Some(export) => Ok(Checked {
            program,
            profile,
            export,
        }),
        None => unreachable!(),
    }
}

/// The same, for the observer who sees nothing of multiplications.
pub fn check<'p>(alloc: Global, program: &'p Program) -> Result<Checked<'p>, Refusal>
    ensures program { IfOk result (λ checked. checked.program.now ≡ program.now) }
    ensures profile { IfOk result (λ checked. checked.profile ≡ P1) }
    ensures well_typed { IfOk result (λ _. length (violations P1 (program_tree program.now)) ≡ 0) }
    ensures empty { program.now ≡ []
        → IfErr result (λ refusal. (refusal.rule ≡ NotExactlyOneExport) × (refusal.place ≡ Some origin)) }
    ensures refused { IfErr result (λ refusal.
        IsRefusedFor (violations P1 (program_tree program.now)) refusal.rule refusal.place) }
    ensures told { IfErr result (IsToldOf (violations P1 (program_tree program.now))) }
{
    check_as(alloc, program, Profile::P1)
}

/// All that a program violates of these rules, in its order: first what `check_as` refuses it for.
pub fn violations(
    alloc: Global,
    program: &Program,
    profile: Profile,
) -> Result<Vec<Violation>, AllocError>
    ensures { IfOk result (λ found. AreInOrder (violations profile (program_tree program.now)) found.items) }
{
    let procedures = program.procedures();
    let counted = judged(alloc, procedures, profile, Findings::new(alloc))?;
    let room = counted.findings.again(alloc)?;
    judged(alloc, procedures, profile, room)?
        .findings
        .in_order()
}
