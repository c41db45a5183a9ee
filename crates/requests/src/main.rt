// A program that makes the library's calls that no command of `factc` makes, so that each of their
// requests for memory can be refused from outside.
//
// It compiles a text, runs the image with a recorder that keeps what an observer sees, compares the runs
// on lists of which the first has a value outside its type and the second is too short, and puts the image's
// bytes into a sink in memory. It prints what they gave, or which call wanted memory.
//
// Given a text, it compiles that one, and prints what comes of the image's bytes with each of them changed to each
// value. Given `halfwords`, it prints what each halfword means.
#![tactic(auto)]

mod calls;
mod changes;
mod fault;
mod halfwords;

use calls::{arguments, bytes_of, fault_of_pair, image_of, keep, observe};
use changes::print_changes;
use fault::RequestsFault;
use halfwords::print_halfwords;
use hepurita::RunFault;
use image::Image;
use language::{Args, Outcome};
use rv_machine::ListRecorder;
use std::alloc::Global;
use std::env;
use streams::ByteSink;

/// With a choice under a secret an observer sees enough for the recorder to grow several times.
const TEXT: &str = "export secret uint32 f(secret bool s, secret uint32 a, secret uint32 b) { \
                    return select(s, a, b); }";

fn main(rt: HostRuntime) -> anyhow::Result<()> {
    let alloc = rt.alloc();
    let Some(text) = env::args(&rt)?.nth(1) else {
        return print_answers(&rt, &ask(alloc)?);
    };
    if text.as_str() == "halfwords" {
        return print_halfwords(&rt);
    }
    print_changes(alloc, &rt, bytes_of(alloc, text.as_str())?)
}

/// What the calls gave.
#[derive(Drop)]
struct Answers {
    outcome: Outcome,
    recorder: ListRecorder,
    fault: Option<RunFault>,
    sink: ByteSink,
}

/// Makes the calls.
fn ask(alloc: Global) -> Result<Answers, RequestsFault> {
    let bytes = bytes_of(alloc, TEXT)?;
    let image = image_of(alloc, bytes.as_slice())?;
    let (outcome, recorder) = run(alloc, &image)?;
    let fault = compare(alloc, &image)?;
    let sink = keep(alloc, bytes.as_slice())?;
    Ok(Answers {
        outcome,
        recorder,
        fault,
        sink,
    })
}

/// A run of the image that an observer sees.
fn run(alloc: Global, image: &Image) -> Result<(Outcome, ListRecorder), RequestsFault> {
    let args = arguments(alloc, 1)?;
    observe(alloc, image, &args)
}

/// Why its runs on a condition that is no bool, and on no arguments, are not compared.
fn compare(alloc: Global, image: &Image) -> Result<Option<RunFault>, RequestsFault> {
    let large = arguments(alloc, 2)?;
    let none = Args::new(Vec::new(alloc));
    Ok(fault_of_pair(alloc, image, &large, &none))
}

/// Prints what the calls gave.
fn print_answers(rt: &impl Print, answers: &Answers) -> anyhow::Result<()> {
    println!(rt; "outcome {:?}", answers.outcome.returned())?;
    println!(rt; "{} observations", answers.recorder.list().len())?;
    println!(rt; "pair {:?}", answers.fault)?;
    println!(rt; "{} bytes", answers.sink.as_slice().len())?;
    Ok(())
}
