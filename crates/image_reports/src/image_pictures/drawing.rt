// An image's runs, loaded and drawn.

ghost use Rattle.std.specs.Prelude.{◌≡◌, None, IfOk, IsTrue, OnErr, OnOk};
ghost use Rattle.image_reports.specs.Below.{AreWithin, code_base, collected, frame_base, HasLines, IsImage, loaded_at};
ghost use Rattle.image_reports.specs.Below.{paged_bytes, params_of, Reaches, state_of};
ghost use Rattle.image_reports.specs.certificates.Given.{fault_of_given};
ghost use Rattle.image_reports.specs.certificates.KnownImage.{known_at};
ghost use Rattle.image_reports.specs.image_pictures.Drawn.{BeginsAt, DrawsImage, DrawsOne, DrawsTwo};
ghost use Rattle.image_reports.specs.image_pictures.Telling.{TellsImage, TellsOne, TellsTwo};

use crate::certificates::{Shifts, load_given};
use hepurita::{CODE_BASE, FRAME_BASE, code, load};
use image::Image;
use language::{Arg, Args};
use run_reports::pictures::{Area, Drawing, PairOfRuns, picture};
use rv_machine::PagedMemory;
use std::alloc::{AllocError, Global};
use streams::Sink;

/// What a page says of its runs: what was asked for, and what is said of them, which stands on the page as it is.
#[derive(Clone, Copy)]
pub struct Caption<'a> {
    pub asked: &'a str,
    pub said: &'a [u8],
}

/// Two runs of an image, or one in both places, each loaded twice: to be counted, and to be drawn.
#[derive(Drop)]
struct LoadedRuns {
    counted: PairOfRuns<PagedMemory>,
    drawn: PairOfRuns<PagedMemory>,
    are_two: bool,
}

/// The page of the one run of an image in which 0 stands for each argument that is not given, with this caption. The
/// arguments that are given have no fault. Lines of progress go out while the runs are counted and drawn.
pub fn picture_of_given<E: Sink>(
    alloc: Global,
    image: &Image,
    given: &[Option<Arg>],
    caption: &Caption<'_>,
    err: &mut E,
) -> Result<Vec<u8>, AllocError>
    requires allowed { IsImage image.now }
    requires faultless { fault_of_given (params_of image.now) given.now ≡ None }
    ensures exact { IfOk result (λ page.
        DrawsOne image.now given.now caption.now.asked.now caption.now.said.now page.items) }
    ensures told { IsTrue E.TELLS → OnOk result (TellsOne HasLines image.now given.now
        (collected (E.taken err.old) (E.failures err.old)) (collected (E.taken err.new) (E.failures err.new))) }
    ensures part { IsTrue E.TELLS → OnErr result (TellsOne Reaches image.now given.now
        (collected (E.taken err.old) (E.failures err.old)) (collected (E.taken err.new) (E.failures err.new))) }
{
    let counted = both_of_given(alloc, image, given)?;
    let drawn = both_of_given(alloc, image, given)?;
    let mut runs = LoadedRuns {
        counted,
        drawn,
        are_two: false,
    };
    draw(alloc, image, &mut runs, caption, err)
}

/// The page of two runs of an image over each other, on two lists of arguments within its parameter types, with this
/// caption. Lines of progress go out while the runs are counted and drawn.
pub fn picture_of_pair<E: Sink>(
    alloc: Global,
    image: &Image,
    one: &Args,
    other: &Args,
    caption: &Caption<'_>,
    err: &mut E,
) -> Result<Vec<u8>, AllocError>
    requires allowed { IsImage image.now }
    requires one { AreWithin (params_of image.now) one.now }
    requires other { AreWithin (params_of image.now) other.now }
    ensures exact { IfOk result (λ page.
        DrawsTwo image.now one.now other.now caption.now.asked.now caption.now.said.now page.items) }
    ensures told { IsTrue E.TELLS → OnOk result (TellsTwo HasLines image.now one.now other.now
        (collected (E.taken err.old) (E.failures err.old)) (collected (E.taken err.new) (E.failures err.new))) }
    ensures part { IsTrue E.TELLS → OnErr result (TellsTwo Reaches image.now one.now other.now
        (collected (E.taken err.old) (E.failures err.old)) (collected (E.taken err.new) (E.failures err.new))) }
{
    let counted = both_of_args(alloc, image, one, other)?;
    let drawn = both_of_args(alloc, image, one, other)?;
    let mut runs = LoadedRuns {
        counted,
        drawn,
        are_two: true,
    };
    draw(alloc, image, &mut runs, caption, err)
}

/// The run with zeros for what is not given, twice.
fn both_of_given(
    alloc: Global,
    image: &Image,
    given: &[Option<Arg>],
) -> Result<PairOfRuns<PagedMemory>, AllocError>
    requires { fault_of_given (params_of image.now) given.now ≡ None }
    ensures one { IfOk result (λ runs. BeginsAt image.now
        (known_at code_base frame_base image.now given.now Shifts.Hidden).state
        (state_of runs.one.hart (paged_bytes runs.one.memory)) runs.one.steps_left) }
    ensures other { IfOk result (λ runs. BeginsAt image.now
        (known_at code_base frame_base image.now given.now Shifts.Hidden).state
        (state_of runs.other.hart (paged_bytes runs.other.memory)) runs.other.steps_left) }
{
    let one = load_given(alloc, image, given, Shifts::Hidden)?.run;
    let other = load_given(alloc, image, given, Shifts::Hidden)?.run;
    Ok(PairOfRuns { one, other })
}

/// The runs of two lists of arguments.
fn both_of_args(
    alloc: Global,
    image: &Image,
    one: &Args,
    other: &Args,
) -> Result<PairOfRuns<PagedMemory>, AllocError>
    requires one { AreWithin (params_of image.now) one.now }
    requires other { AreWithin (params_of image.now) other.now }
    ensures one { IfOk result (λ runs. BeginsAt image.now (loaded_at code_base frame_base image.now one.now)
        (state_of runs.one.hart (paged_bytes runs.one.memory)) runs.one.steps_left) }
    ensures other { IfOk result (λ runs. BeginsAt image.now (loaded_at code_base frame_base image.now other.now)
        (state_of runs.other.hart (paged_bytes runs.other.memory)) runs.other.steps_left) }
{
    let one = load(alloc, image, one)?;
    let other = load(alloc, image, other)?;
    Ok(PairOfRuns { one, other })
}

/// The page of runs that are loaded.
fn draw<E: Sink>(
    alloc: Global,
    image: &Image,
    runs: &mut LoadedRuns,
    caption: &Caption<'_>,
    err: &mut E,
) -> Result<Vec<u8>, AllocError>
    requires allowed { IsImage image.now }
    requires one { BeginsAt image.now (state_of runs.old.drawn.one.hart (paged_bytes runs.old.drawn.one.memory))
        (state_of runs.old.counted.one.hart (paged_bytes runs.old.counted.one.memory))
        runs.old.counted.one.steps_left }
    requires other { BeginsAt image.now (state_of runs.old.drawn.other.hart (paged_bytes runs.old.drawn.other.memory))
        (state_of runs.old.counted.other.hart (paged_bytes runs.old.counted.other.memory))
        runs.old.counted.other.steps_left }
    requires one_steps { runs.old.drawn.one.steps_left ≡ image.now.max_steps }
    requires other_steps { runs.old.drawn.other.steps_left ≡ image.now.max_steps }
    ensures exact { IfOk result (λ page. DrawsImage image.now
        (state_of runs.old.drawn.one.hart (paged_bytes runs.old.drawn.one.memory))
        (state_of runs.old.drawn.other.hart (paged_bytes runs.old.drawn.other.memory))
        caption.now.asked.now caption.now.said.now runs.old.are_two page.items) }
    ensures told { IsTrue E.TELLS → OnOk result (TellsImage HasLines image.now
        (state_of runs.old.drawn.one.hart (paged_bytes runs.old.drawn.one.memory))
        (state_of runs.old.drawn.other.hart (paged_bytes runs.old.drawn.other.memory))
        (collected (E.taken err.old) (E.failures err.old)) (collected (E.taken err.new) (E.failures err.new))) }
    ensures part { IsTrue E.TELLS → OnErr result (TellsImage Reaches image.now
        (state_of runs.old.drawn.one.hart (paged_bytes runs.old.drawn.one.memory))
        (state_of runs.old.drawn.other.hart (paged_bytes runs.old.drawn.other.memory))
        (collected (E.taken err.old) (E.failures err.old)) (collected (E.taken err.new) (E.failures err.new))) }
{
    let code = code(alloc, image)?;
    let drawing = Drawing {
        code: Area {
            base: CODE_BASE,
            words: image.words().len() as u32,
        },
        frame: Area {
            base: FRAME_BASE,
            words: image.frame_bytes() / 4,
        },
        asked: caption.asked,
        said: caption.said,
        are_two: runs.are_two,
    };
    picture(
        alloc,
        &code,
        &mut runs.counted,
        &mut runs.drawn,
        &drawing,
        err,
    )
}
