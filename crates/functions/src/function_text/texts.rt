// Both texts of the function of a source.

ghost use Rattle.std.specs.Prelude.{◌≡◌, IfOk, IfErr};
ghost use Rattle.std.specs.String.{string_bytes};
ghost use Rattle.functions.specs.function_text.Functions.{IsFaultOf, parts_of};
ghost use Rattle.functions.specs.function_text.Texts.{AreTextsOf};
ghost use Rattle.functions.specs.function_text.AssemblerText.{IsAssemblerText};
ghost use Rattle.functions.specs.function_text.HeaderText.{header_text};

use crate::function_text::assembler::assembler_text;
use crate::function_text::fault::FunctionFault;
use crate::function_text::function::{Function, function_of};
use crate::function_text::header::header_text;
use crate::function_text::notation::Notation;
use hepurita::Optimisation;
use language::{Profile, Refusal};
use std::alloc::{AllocError, Global};

/// A function for C as files have it.
#[derive(Drop)]
pub struct Texts {
    /// For a GNU or LLVM assembler.
    pub assembler: String,
    /// The C header.
    pub header: String,
}

/// Both texts of a function.
fn both_texts(alloc: Global, function: &Function, notation: Notation) -> Result<Texts, AllocError>
    ensures assembled { IfOk result (λ texts.
        IsAssemblerText notation (parts_of function.now) (string_bytes texts.assembler)) }
    ensures declared { IfOk result (λ texts. string_bytes texts.header ≡ header_text (parts_of function.now)) }
{
    let assembler = assembler_text(alloc, function, notation)?;
    let header = header_text(alloc, function)?;
    Ok(Texts { assembler, header })
}

/// Both texts of the function of a source, for an observer of this profile, with plain or optimised code; its name is
/// the export's behind a prefix. A source that is not accepted is refused as by `compile_with`, then a name that C, its
/// library, C++ or an assembler cannot take.
pub fn texts_of(
    alloc: Global,
    source: &str,
    profile: Profile,
    optimisation: Optimisation,
    prefix: &str,
    notation: Notation,
) -> Result<Texts, FunctionFault<Refusal>>
    ensures made { IfOk result (λ texts.
        AreTextsOf optimisation profile prefix.now notation source.now (string_bytes texts.assembler)
        (string_bytes texts.header)) }
    ensures fault { IfErr result (IsFaultOf profile prefix.now source.now) }
{
    let function = function_of(alloc, source, profile, optimisation, prefix)?;
    Ok(both_texts(alloc, &function, notation)?)
}
