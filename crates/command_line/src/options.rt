// How a source is to be compiled, and what is asked of a run, of a comparison and of runs of a function.

ghost use Rattle.std.specs.Prelude.{◌<◌, ◌^◌};

use functions::function_text::{Notation, Prefix};
use hepurita::Optimisation;
use word::Profile;

/// How an answer is printed: as text, or as objects of JSON.
#[derive(Clone, Copy, Debug, PartialEq, Eq)]
pub enum Format {
    Text,
    Json,
}

/// For which observer a source is compiled, whether to plain or to optimised code, and whether its refusal is
/// explained.
#[derive(Clone, Copy, Debug)]
pub struct CompileOptions {
    pub profile: Profile,
    pub optimisation: Optimisation,
    pub explain: bool,
}

/// How a source is compiled to a function for C, what stands before the name of its export in the function's, and how
/// its words are written.
#[derive(Clone, Copy, Debug)]
pub struct LinkOptions<'a> {
    pub compile: CompileOptions,
    pub prefix: Prefix<'a>,
    pub notation: Notation,
}

/// Whether a run says how far it is, and how many steps it has made once it has stopped.
#[derive(Clone, Copy, Debug)]
pub struct StepOptions {
    pub progress: bool,
    pub steps: bool,
}

/// Whether it is explained why two runs differ, and whether their comparison says how far it is.
#[derive(Clone, Copy, Debug)]
pub struct PairOptions {
    pub explain: bool,
    pub progress: bool,
}

/// Whether the observer of a certified run sees the amounts of shifts by registers, whether it is explained why runs
/// may differ, and whether the run says how far it is.
#[derive(Clone, Copy, Debug)]
pub struct CertifyOptions {
    pub shifts: bool,
    pub explain: bool,
    pub progress: bool,
}

/// Who observes a run of a function, whether that observer sees the amounts of shifts by registers, how many steps the
/// run has at most, whether it is explained why runs may differ, and whether the run says how far it is.
#[derive(Clone, Copy, Debug)]
pub struct FunctionOptions {
    pub profile: Profile,
    pub shifts: bool,
    pub steps: u64,
    pub explain: bool,
    pub progress: bool,
    ghost bounded: { steps < 2 ^ 62 },
}

/// Who observes runs of a function that are made one by one, and how many steps each has at most.
#[derive(Clone, Copy, Debug)]
pub struct ObservedOptions {
    pub profile: Profile,
    pub steps: u64,
    ghost bounded: { steps < 2 ^ 62 },
}
