// The vectors that a text says.

ghost use Rattle.std.specs.Prelude.{◌≡◌, ◌≢◌, ◌<◌, ◌≤◌, ℕ, Ok, Err, length, map, IfOk};
ghost use Rattle.image_reports.specs.vectors.Lines.{longest_vectors, vectors_from, vectors_in};
ghost use Rattle.image_reports.specs.vectors.Views.{named};
ghost use Rattle.image_reports.specs.declared.vectors.fault.VectorsFault.TheVariants.{Line, TooLong};

use crate::vectors::fault::VectorsFault;
use crate::vectors::lines::{Vector, says_nothing, vector_of};
use std::alloc::Global;

/// The vectors that lines say, one after another; else the first line, counted from 1, that has not the form of one.
fn vectors_of<'a>(alloc: Global, lines: &[&'a str]) -> Result<Vec<Vector<'a>>, VectorsFault>
    ensures vectors { IfOk result (λ vectors.
        vectors_from 1 (map (λ line. line.now) lines.now) ≡ Ok (map named vectors.items)) }
    ensures fault { (line : ℕ)
        → result ≡ Err (Line line)
        → vectors_from 1 (map (λ line. line.now) lines.now) ≡ Err line }
    ensures form { result ≢ Err TooLong }
{
    let mut vectors = Vec::new(alloc);
    for (index, line) in lines.iter().enumerate() {
        if says_nothing(line) {
            continue;
        }
        match vector_of(alloc, line)? {
            Some(vector) => vectors.push(vector)?,
            None => return Err(VectorsFault::Line { line: index + 1 }),
        }
    }
    Ok(vectors)
}

/// How many bytes a text of vectors has at most.
pub const LONGEST_VECTORS: usize = 4_194_304;

/// Reads vectors, each of which is a line `NAME: ARG .. = OUTCOME ..`. A line that begins with `#`, or has nothing but
/// blanks, says nothing. Answers the vectors, else that the text is too long, else the first line that has another
/// form.
pub fn read<'a>(alloc: Global, text: &'a str) -> Result<Vec<Vector<'a>>, VectorsFault>
    ensures vectors { IfOk result (λ vectors. vectors_in text.now ≡ Ok (map named vectors.items)) }
    ensures short { IfOk result (λ vectors. length text.now ≤ longest_vectors) }
    ensures long { result ≡ Err TooLong → longest_vectors < length text.now }
    ensures fault { (line : ℕ) → result ≡ Err (Line line)
        → (length text.now ≤ longest_vectors) × (vectors_in text.now ≡ Err line) }
{
    if text.len() > LONGEST_VECTORS {
        return Err(VectorsFault::TooLong);
    }
    let lines: Vec<&'a str> = text.lines().collect(alloc)?;
    vectors_of(alloc, lines.as_slice())
}
