// What the words of a command line ask of `factc`: one of its commands, with its files, arguments and options. They are
// read by `clap`, by the table of commands. No request writes a file that it reads.
#![tactic(auto)]

mod asked;
mod commands;
mod grammar;
mod on_executables;
mod options;
mod words;

pub use options::{
    CertifyOptions, CompileOptions, Format, FunctionOptions, LinkOptions, ObservedOptions,
    PairOptions, StepOptions,
};
pub use words::{FormattedRequest, Matched, NoRequest, Request, parse};
