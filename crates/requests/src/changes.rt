// What comes of an image's bytes where one of them is another.

ghost use Rattle.std.specs.Prelude.{◌≡◌, ◌<◌, map, length, IfOk};
ghost use Rattle.expression_code.specs.declared.image_fields.slot.Slot.{Slot};

use crate::fault::RequestsFault;
use expression_code::image_fields::Slot;
use hepurita::{RunFault, execute};
use image::{Image, ImageFault, read};
use language::{Arg, Args, Form, Numbers};
use rv_machine::{NullRecorder, Stop};
use std::alloc::Global;
use std::fmt;

/// What comes of bytes.
#[derive(Drop)]
pub enum BytesAnswer {
    /// They spell no image.
    Fault(ImageFault),
    /// They spell one, and its run on zeros stops so.
    Stop(Stop),
}

/// The fault or the stop, as `B4 at byte 31: truncated` or `Ecall`.
impl fmt::Display for BytesAnswer {
    fn fmt<W: fmt::Write>(&self, f: &mut fmt::Formatter<W>) -> fmt::Result {
        match self {
            BytesAnswer::Fault(fault) => write!(f, "{fault}"),
            BytesAnswer::Stop(stop) => write!(f, "{stop}"),
        }
    }
}

/// Zeros for a parameter.
fn zero(alloc: Global, slot: &Slot) -> Result<Arg, RequestsFault> {
    match slot.param.form {
        Form::SingleWord => Ok(Arg::Word(0)),
        Form::FixedArray | Form::MutableArray => {
            match vec![in alloc; 0; usize::from(slot.param.length)] {
                Ok(words) => Ok(Arg::Array(Numbers::new(words))),
                Err(_) => Err(RequestsFault::Arguments),
            }
        }
    }
}

/// Zeros for each parameter of an image.
fn zeros(alloc: Global, image: &Image) -> Result<Args, RequestsFault> {
    let mut args = Vec::new(alloc);
    for slot in image.slots() {
        if args.push(zero(alloc, slot)?).is_err() {
            return Err(RequestsFault::Arguments);
        }
    }
    Ok(Args::new(args))
}

/// How an image's run on zeros stops.
fn stop_of(alloc: Global, image: &Image) -> Result<Stop, RequestsFault> {
    let args = zeros(alloc, image)?;
    match execute(alloc, image, &args, &mut NullRecorder) {
        Ok(_) => Ok(Stop::Ecall),
        Err(RunFault::Stopped(stop)) => Ok(stop),
        Err(fault) => Err(RequestsFault::Execute(fault, 0)),
    }
}

/// What comes of bytes.
fn answer_to(alloc: Global, bytes: &[u8]) -> Result<BytesAnswer, RequestsFault> {
    match read(alloc, bytes) {
        Ok(image) => Ok(BytesAnswer::Stop(stop_of(alloc, &image)?)),
        Err(ImageFault::Memory) => Err(RequestsFault::Read(ImageFault::Memory)),
        Err(fault) => Ok(BytesAnswer::Fault(fault)),
    }
}

/// Prints what comes of bytes with each value at a place: a line for each, with the place and the value.
fn print_changes_at(
    alloc: Global,
    rt: &impl Print,
    bytes: &mut Vec<u8>,
    place: usize,
) -> anyhow::Result<()>
    requires { place < length bytes.old.items }
    ensures { length bytes.new.items ≡ length bytes.old.items }
{
    let kept = bytes[place];
    for value in 0..=u8::MAX {
        bytes[place] = value;
        let answer = answer_to(alloc, bytes.as_slice())?;
        println!(rt; "{place} {value} {answer}")?;
    }
    bytes[place] = kept;
    Ok(())
}

/// The same of each place.
pub fn print_changes(alloc: Global, rt: &impl Print, mut bytes: Vec<u8>) -> anyhow::Result<()> {
    for place in 0..bytes.len() {
        print_changes_at(alloc, rt, &mut bytes, place)?;
    }
    Ok(())
}
