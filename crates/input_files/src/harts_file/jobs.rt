// Harts as a file names them.

ghost use Rattle.std.specs.Prelude.{◌≡◌, map, IfOk};
ghost use Rattle.std.specs.String.{string_bytes};
ghost use Rattle.input_files.specs.harts_file.Jobs.{hart_of};

use std::alloc::{AllocError, Global};

/// What a hart runs: the image of a file, on the arguments that texts spell.
#[derive(Debug, Drop)]
pub struct FileJob {
    pub path: String,
    pub arguments: Vec<String>,
}

/// Texts, as they stand in a line, kept.
fn kept_texts(alloc: Global, texts: &[&str]) -> Result<Vec<String>, AllocError>
    ensures { IfOk result (λ kept. map string_bytes kept.items ≡ map (λ text. text.now) texts.now) }
{
    let mut kept = Vec::new(alloc);
    'texts: for text in texts {
        kept.push(String::from_str(alloc, text)?)?;
    }
    Ok(kept)
}

/// The job of this path and these arguments.
pub(crate) fn job_of(alloc: Global, path: &str, arguments: &[&str]) -> Result<FileJob, AllocError>
    ensures { IfOk result (λ job.
        hart_of job ≡ record { path = path.now; arguments = map (λ text. text.now) arguments.now }) }
{
    let path = String::from_str(alloc, path)?;
    let arguments = kept_texts(alloc, arguments)?;
    Ok(FileJob { path, arguments })
}
