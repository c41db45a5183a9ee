// The lines of an explanation.

ghost use Rattle.std.specs.Prelude.{◌≡◌, ◌≢◌, ◌++◌, List, ℕ, codes, None, Some, IfOk, OnOk};
ghost use Rattle.image_reports.specs.Below.{code_at, code_base, IsLineAt, word_at};
ghost use Rattle.image_reports.specs.pair_explanations.Explained.{shown_line};

use image::Image;
use listing::{line_at, lines_of, stop_line};
use run_reports::run_places::Shown;
use rv_machine::Observation;
use std::alloc::{AllocError, Global};

/// How many bytes the line of a program counter has.
const PROGRAM_COUNTER_LINE: usize = 12;

/// What is said of one run.
#[derive(Drop)]
pub(crate) struct SaidOfRun {
    /// The program counter of the last step that begins before the place.
    pub(crate) pc: u32,
    /// What is read there, and what is shown at the place.
    pub(crate) text: Vec<u8>,
}

/// Puts the line of what a run shows at a place at the end.
pub(crate) fn push_shown(text: &mut Vec<u8>, shown: Shown) -> Result<(), AllocError>
    ensures { OnOk result (text.new.items ≡ text.old.items ++ shown_line shown) }
{
    match shown {
        Shown::ProgramCounter(pc) => {
            let lines = lines_of(&Observation { pc, event: None });
            text.extend_from_slice(lines.as_slice())
        }
        Shown::HasEvent(event) => {
            let lines = lines_of(&Observation {
                pc: 0,
                event: Some(event),
            });
            text.extend_from_slice(&lines.as_slice()[PROGRAM_COUNTER_LINE..])
        }
        Shown::Stopped(stop) => text.extend_from_slice(stop_line(stop).as_slice()),
    }
}

/// The lines: of the word at the first run's program counter, of the first run, of the second.
pub(crate) fn lines(
    alloc: Global,
    image: &Image,
    first: &SaidOfRun,
    second: &SaidOfRun,
) -> Result<Vec<u8>, AllocError>
    requires { word_at (code_at code_base image.now) first.now.pc ≢ None }
    ensures { IfOk result (λ text. (word : List ℕ) × IsLineAt (code_at code_base image.now) first.now.pc (Some word)
        × (text.items ≡ word ++ codes "first" ++ first.now.text.items ++ codes "second" ++ second.now.text.items)) }
{
    let mut text = Vec::new(alloc);
    if let Some(word) = line_at(alloc, image, first.pc)? {
        text.extend_from_slice(word.as_slice())?;
    }
    text.extend_from_slice(b"first")?;
    text.extend_from_slice(first.text.as_slice())?;
    text.extend_from_slice(b"second")?;
    text.extend_from_slice(second.text.as_slice())?;
    Ok(text)
}
