// Vectors, tried one after another.

ghost use Rattle.std.specs.Prelude.{◌≡◌, ℕ, List, map, IfOk, IfErr};
ghost use Rattle.std.specs.Option.{option_map};
ghost use Rattle.std.specs.String.{string_bytes};
ghost use Rattle.image_reports.specs.Below.{IsRefusalOf, IsWantOfMemory, params_of, ProgramTree};
ghost use Rattle.image_reports.specs.vectors.Spelled.{TextsSpell};
ghost use Rattle.image_reports.specs.vectors.Texts.{plain};
ghost use Rattle.image_reports.specs.vectors.Verdicts.{IsImageOf, IsSource, IsVerdict, IsTally, IsReport};
ghost use Rattle.image_reports.specs.vectors.Views.{named};

use crate::vectors::given::args_of;
use crate::vectors::lines::Vector;
use crate::vectors::running::{outcome_of, wrong_of};
use crate::vectors::texts::all_plain;
use crate::vectors::wanted::difference_of;
use hepurita::{Compiled, Optimisation, compile_with, params};
use image::Image;
use language::{Args, Profile, Refusal};
use std::alloc::Global;
use std::fmt::Write;

/// What is printed of vectors, and how many of them failed.
#[derive(Debug, Drop)]
pub struct Report {
    pub text: String,
    pub failures: usize,
}

/// The plain or the optimised image of a source that is accepted for an observer, or its refusal.
fn image_of(
    alloc: Global,
    source: &str,
    profile: Profile,
    optimisation: Optimisation,
) -> Result<Image, Refusal>
    ensures image { IfOk result (λ image.
        (program : ProgramTree) × IsSource optimisation profile source.now program image) }
    ensures refused { IfErr result (IsRefusalOf profile source.now) }
{
    let compiled = compile_with(alloc, source, profile, optimisation)?;
    let Compiled { code, .. } = compiled;
    Ok(Image::from(code))
}

/// What is wrong with a vector that gives these arguments; `None` where it passes.
fn verdict_on(
    alloc: Global,
    image: &Image,
    args: &Args,
    vector: &Vector<'_>,
) -> Result<Option<String>, Refusal>
    requires source { (program : ProgramTree) × IsImageOf program image.now }
    requires spelled { TextsSpell (params_of image.now) (map plain (named vector.now).given) args.now }
    ensures verdict { (program : ProgramTree)
        → IsImageOf program image.now
        → IfOk result (λ wrong. IsVerdict program image.now (named vector.now) (option_map string_bytes wrong)) }
    ensures memory { IfErr result (λ refusal. IsWantOfMemory refusal.rule refusal.place) }
{
    let lists = outcome_of(alloc, image, args)?;
    match difference_of(alloc, vector.wanted.as_slice(), lists.as_slice())? {
        Some(difference) => Ok(Some(difference)),
        None => wrong_of(alloc, image, args),
    }
}

/// What is wrong with a vector; `None` where it passes.
fn verdict_of(alloc: Global, image: &Image, vector: &Vector<'_>) -> Result<Option<String>, Refusal>
    requires source { (program : ProgramTree) × IsImageOf program image.now }
    ensures verdict { (program : ProgramTree)
        → IsImageOf program image.now
        → IfOk result (λ wrong. IsVerdict program image.now (named vector.now) (option_map string_bytes wrong)) }
    ensures memory { IfErr result (λ refusal. IsWantOfMemory refusal.rule refusal.place) }
{
    let params = params(alloc, image)?;
    let given = all_plain(alloc, vector.given.as_slice())?;
    match args_of(alloc, params.as_slice(), given.as_slice())? {
        Ok(args) => verdict_on(alloc, image, &args, vector),
        Err(fault) => Ok(Some(format!(in alloc; "{fault}")?)),
    }
}

/// Tries vectors on the image of a source.
fn try_all(alloc: Global, image: &Image, vectors: &[Vector<'_>]) -> Result<Report, Refusal>
    requires source { (program : ProgramTree) × IsImageOf program image.now }
    ensures tally { (program : ProgramTree)
        → IsImageOf program image.now
        → IfOk result (λ report.
        IsTally program image.now (map named vectors.now) (string_bytes report.text) report.failures) }
    ensures memory { IfErr result (λ refusal. IsWantOfMemory refusal.rule refusal.place) }
{
    let mut text = String::new(alloc);
    let mut passes = 0usize;
    let mut failures = 0usize;
    for vector in vectors {
        match verdict_of(alloc, image, vector)? {
            None => passes += 1,
            Some(wrong) => {
                failures += 1;
                let name = vector.name;
                writeln!(text, "{name}: {wrong}")?;
            }
        }
    }
    writeln!(text, "{passes} passed, {failures} failed")?;
    Ok(Report { text, failures })
}

/// Tries vectors of a source that is accepted for an observer on its plain or its optimised image, or answers the
/// refusal. The source is compiled once.
pub fn try_vectors(
    alloc: Global,
    source: &str,
    profile: Profile,
    optimisation: Optimisation,
    vectors: &[Vector<'_>],
) -> Result<Report, Refusal>
    ensures report { IfOk result (λ report.
        IsReport optimisation profile source.now (map named vectors.now) (string_bytes report.text) report.failures) }
    ensures refused { IfErr result (IsRefusalOf profile source.now) }
{
    let image = image_of(alloc, source, profile, optimisation)?;
    try_all(alloc, &image, vectors)
}
