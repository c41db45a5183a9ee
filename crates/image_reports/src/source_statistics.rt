// What an accepted source costs, as lines: its nodes and its work, which have limits, then the fields of its image, and
// then what else has a limit: the bodies that are open at once and the declared bytes, with the parts that have most.
//
// It promises that these are the numbers that the passes used to judge the source, and the fields of the one image,
// plain or optimised, that is built of it (`specs/source_statistics/SourceText.antt`); and that a source is refused
// exactly as `build` refuses it. It stands on `hepurita` and on `statistics`.

mod sizes;

ghost use Rattle.std.specs.Prelude.{◌≡◌, [], ◌++◌, IfOk, IfErr, IfSome};
ghost use Rattle.std.specs.String.{string_bytes};
ghost use Rattle.image_reports.specs.Below.{code_for, cost_by, exported, IsRefusalOf, IsWantOfMemory, program_tree};
ghost use Rattle.image_reports.specs.Below.{straight_of, work_cost};
ghost use Rattle.image_reports.specs.source_places.Placed.{numbered_of};
ghost use Rattle.image_reports.specs.source_statistics.SourceText.{costs_text, export_lines, SaysCosts};

use crate::source_places::Library;
use crate::source_statistics::sizes::push_sizes;
use crate::statistics::push_fields;
use hepurita::{Optimisation, code_of, flatten};
use intervals::{Ranged, program_cost};
use language::{Profile, Program, Refusal};
use std::alloc::Global;
use std::fmt::Write;

/// What a source costs that is accepted for an observer, in plain or optimised code, as lines, or the first refusal:
/// the one that `build_as` names. It was read from libraries and a file, in which places are told.
pub fn source_statistics(
    alloc: Global,
    source: &str,
    libraries: &[Library<'_>],
    profile: Profile,
    optimisation: Optimisation,
) -> Result<String, Refusal>
    ensures said { IfOk result (λ text.
        SaysCosts optimisation profile source.now (numbered_of libraries.now) (string_bytes text)) }
    ensures refused { IfErr result (IsRefusalOf profile source.now) }
{
    let flattened = flatten(alloc, source, profile)?;
    let ranged = flattened.ranged(alloc)?;
    costs(alloc, &ranged, &flattened.program, libraries, optimisation)
}

/// The lines of a body with what was counted for it, and of the program whose export it is. Only memory refuses them.
fn costs(
    alloc: Global,
    ranged: &Ranged<'_>,
    program: &Program,
    libraries: &[Library<'_>],
    optimisation: Optimisation,
) -> Result<String, Refusal>
    requires { IfSome (exported [] (program_tree program.now).procedures)
        (λ export. cost_by ranged.now.iterations ranged.now.flat ≡ work_cost export.0 export.1) }
    ensures said { IfOk result (λ text. string_bytes text
        ≡ costs_text ranged.now (code_for optimisation (straight_of ranged.now))
        ++ export_lines (numbered_of libraries.now) (exported [] (program_tree program.now).procedures)) }
    ensures memory { IfErr result (λ refusal. IsWantOfMemory refusal.rule refusal.place) }
{
    let mut text = body_costs(alloc, ranged, optimisation)?;
    let work = program_cost(ranged.iterations(), ranged.flat());
    push_sizes(alloc, &mut text, work, program, libraries)?;
    Ok(text)
}

/// The lines of a body with what was counted for it. Only memory refuses them.
fn body_costs(
    alloc: Global,
    ranged: &Ranged<'_>,
    optimisation: Optimisation,
) -> Result<String, Refusal>
    ensures said { IfOk result (λ text.
        string_bytes text ≡ costs_text ranged.now (code_for optimisation (straight_of ranged.now))) }
    ensures memory { IfErr result (λ refusal. IsWantOfMemory refusal.rule refusal.place) }
{
    let code = code_of(alloc, ranged, optimisation)?;
    let nodes = ranged.flat().nodes();
    let work = ranged.work();
    let mut text = String::new(alloc);
    writeln!(text, "nodes {nodes}\nwork {work}")?;
    push_fields(&mut text, code.fields())?;
    Ok(text)
}
