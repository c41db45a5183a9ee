// The arguments that a vector gives, and the public ones of them.

ghost use Rattle.std.specs.Prelude.{◌≡◌, length, map, IfOk, IfErr};
ghost use Rattle.std.specs.String.{string_bytes};
ghost use Rattle.image_reports.specs.Below.{IsWantOfMemory};
ghost use Rattle.image_reports.specs.vectors.Spelled.{IsReading, given_by, publics};

use language::arguments::{ArgumentFault, ReadError, read as read_arguments};
use language::{Arg, Args, Label, Numbers, Param, Refusal};
use std::alloc::{AllocError, Global};

/// The arguments for parameters that texts spell, or the first fault of the texts.
pub fn args_of(
    alloc: Global,
    params: &[Param],
    texts: &[String],
) -> Result<Result<Args, ArgumentFault>, Refusal>
    ensures read { IfOk result (IsReading params.now (map string_bytes texts.now)) }
    ensures memory { IfErr result (λ refusal. IsWantOfMemory refusal.rule refusal.place) }
{
    let texts: Vec<&str> = texts.iter().map(|text| text.as_str()).collect(alloc)?;
    match read_arguments(alloc, params, texts.as_slice()) {
        Ok(args) => Ok(Ok(args)),
        Err(ReadError::Argument(fault)) => Ok(Err(fault)),
        Err(ReadError::Memory) => Err(Refusal::memory()),
    }
}

/// A copy of an argument.
fn copy_of(alloc: Global, arg: &Arg) -> Result<Arg, AllocError>
    ensures { IfOk result (λ copy. copy ≡ arg.now) }
{
    match arg {
        Arg::Word(word) => Ok(Arg::Word(*word)),
        Arg::Array(numbers) => Ok(Arg::Array(Numbers::new(numbers.as_slice().to_vec(alloc)?))),
    }
}

/// An argument of a parameter, where that is public.
fn given_by(alloc: Global, label: Label, arg: &Arg) -> Result<Option<Arg>, AllocError>
    ensures { IfOk result (λ given. given ≡ given_by label arg.now) }
{
    match label {
        Label::Public => Ok(Some(copy_of(alloc, arg)?)),
        Label::Secret => Ok(None),
    }
}

/// The public arguments alone.
pub fn publics(
    alloc: Global,
    params: &[Param],
    args: &[Arg],
) -> Result<Vec<Option<Arg>>, AllocError>
    requires { length args.now ≡ length params.now }
    ensures { IfOk result (λ given. given.items ≡ publics params.now args.now) }
{
    let mut given = Vec::new(alloc);
    for (index, param) in params.iter().enumerate() {
        given.push(given_by(alloc, param.label, &args[index])?)?;
    }
    Ok(given)
}
