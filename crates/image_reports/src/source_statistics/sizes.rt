// The sizes of an export, and which parts of it have most.

ghost use Rattle.std.specs.Prelude.{◌≡◌, [], ◌++◌, map, OnOk, IfSome};
ghost use Rattle.std.specs.String.{string_bytes};
ghost use Rattle.image_reports.specs.Below.{exported, procedure_tree, program_tree, work_cost};
ghost use Rattle.image_reports.specs.source_places.Placed.{numbered_of};
ghost use Rattle.image_reports.specs.source_statistics.SourceText.{export_lines, most_line, size_lines, size_text};

use crate::source_places::{Library, standing_place};
use inline::{SizeCosts, size_costs};
use language::{Cost, Procedure, Program, Share};
use std::alloc::{AllocError, Global};
use std::fmt::Write;

/// Puts lines at the end of a text for the export of a program, whose work costs so much: how many bodies are open at
/// once and how many bytes are declared, and the first of the parts that have most nodes, of those that declare most,
/// and of those that have most work. Their places are those in the libraries and the file that the program was read
/// from.
pub fn push_sizes(
    alloc: Global,
    text: &mut String,
    work: Cost,
    program: &Program,
    libraries: &[Library<'_>],
) -> Result<(), AllocError>
    requires { IfSome (exported [] (program_tree program.now).procedures)
        (λ export. work ≡ work_cost export.0 export.1) }
    ensures { OnOk result (string_bytes text.new
        ≡ string_bytes text.old
        ++ export_lines (numbered_of libraries.now) (exported [] (program_tree program.now).procedures)) }
{
    match program.exported() {
        Some((earlier, export)) => push_export(alloc, earlier, export, work, libraries, text),
        None => Ok(()),
    }
}

/// The same of an export behind the procedures that it may call.
fn push_export(
    alloc: Global,
    earlier: &[Procedure],
    export: &Procedure,
    work: Cost,
    libraries: &[Library<'_>],
    text: &mut String,
) -> Result<(), AllocError>
    requires { work ≡ work_cost (map procedure_tree earlier.now) (procedure_tree export.now) }
    ensures { OnOk result (string_bytes text.new
        ≡ string_bytes text.old
        ++ size_lines (numbered_of libraries.now) (map procedure_tree earlier.now) (procedure_tree export.now)) }
{
    let sizes = size_costs(alloc, earlier, export)?;
    push_costs(text, sizes, work, libraries)
}

/// Puts the lines of what was counted at the end.
fn push_costs(
    text: &mut String,
    sizes: SizeCosts,
    work: Cost,
    libraries: &[Library<'_>],
) -> Result<(), AllocError>
    ensures { OnOk result (string_bytes text.new
        ≡ string_bytes text.old
        ++ size_text (numbered_of libraries.now) sizes.nodes sizes.bodies sizes.declared_bytes work) }
{
    let bodies = sizes.bodies.whole;
    let declared = sizes.declared_bytes.whole;
    writeln!(text, "bodies {bodies}\ndeclared_bytes {declared}")?;
    push_share(text, "nodes", sizes.nodes.largest, libraries)?;
    push_share(
        text,
        "declared_bytes",
        sizes.declared_bytes.largest,
        libraries,
    )?;
    push_share(text, "work", work.largest, libraries)
}

/// Puts the line of a part at the end, where there is one.
fn push_share(
    text: &mut String,
    name: &str,
    share: Option<Share>,
    libraries: &[Library<'_>],
) -> Result<(), AllocError>
    ensures { OnOk result (string_bytes text.new
        ≡ string_bytes text.old ++ most_line (numbered_of libraries.now) name.now share) }
{
    if let Some(share) = share {
        let count = share.count;
        let standing = standing_place(libraries, share.place);
        writeln!(text, "most {name} {count} at {standing}")?;
    }
    Ok(())
}
