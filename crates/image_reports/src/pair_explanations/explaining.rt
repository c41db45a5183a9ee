// Why what an observer sees of two runs differs.

ghost use Rattle.std.specs.Prelude.{◌≡◌, ◌<◌, List, Ok, IfOk};
ghost use Rattle.image_reports.specs.Below.{AreWithin, code_at, code_base, code_of, Differ, frame_base, loaded_at};
ghost use Rattle.image_reports.specs.Below.{Observation, Paired, params_of, ShowsFewer};
ghost use Rattle.image_reports.specs.pair_explanations.Explained.{SaysOf, ExplainsDifference};

use crate::pair_explanations::lines::{SaidOfRun, lines, push_shown};
use hepurita::{code, load};
use image::Image;
use language::Args;
use run_reports::run_places::{last_before, make_steps, registers_at, shown_at};
use rv_machine::CodeRegion;
use std::alloc::{AllocError, Global};

/// What is said of the run of an image on arguments, of which this is the code, and which shows at least as many
/// entries.
fn said_of_run(
    alloc: Global,
    image: &Image,
    code: &CodeRegion,
    args: &Args,
    place: u64,
) -> Result<SaidOfRun, AllocError>
    requires within { AreWithin (params_of image.now) args.now }
    requires place { 0 < place }
    requires code { code_of code.now ≡ code_at code_base image.now }
    requires reached { ShowsFewer (code_at code_base image.now) image.now.max_steps
        (loaded_at code_base frame_base image.now args.now) place
        → ⊥ }
    ensures { IfOk result (λ said. (seen : List Observation)
        × SaysOf image.now args.now place seen said.pc said.text.items) }
{
    let mut whole = load(alloc, image, args)?;
    let Some(before) = last_before(alloc, code, &mut whole, place) else {
        unreachable!();
    };
    let mut again = load(alloc, image, args)?;
    make_steps(code, &mut again, before.steps);
    let pc = again.hart.pc();
    let mut text = registers_at(alloc, code, &again.hart)?;
    text.extend_from_slice(b" ")?;
    let shown = shown_at(alloc, code, &mut again, place - before.entries);
    push_shown(&mut text, shown)?;
    Ok(SaidOfRun { pc, text })
}

/// The lines that explain why what an observer sees of the runs of an image on two lists of arguments differs first at
/// this entry: the last word that both runs come to before it, and for each run what that word reads, and what the run
/// shows at the entry. Both runs are made again.
pub fn explain_difference(
    alloc: Global,
    image: &Image,
    one: &Args,
    other: &Args,
    place: u64,
) -> Result<Vec<u8>, AllocError>
    requires one { AreWithin (params_of image.now) one.now }
    requires other { AreWithin (params_of image.now) other.now }
    requires differ { Paired image.now one.now other.now (Ok (Differ place)) }
    ensures { IfOk result (λ text. ExplainsDifference image.now one.now other.now place text.items) }
{
    let code = code(alloc, image)?;
    let first = said_of_run(alloc, image, &code, one, place)?;
    let second = said_of_run(alloc, image, &code, other, place)?;
    lines(alloc, image, &first, &second)
}
