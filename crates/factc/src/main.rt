// The program `factc`: it compiles a text to an image, runs an image, and compares what an observer
// sees of two runs. Here are the process's own words, files and streams; what is done with them stands
// in `commands`.
#![tactic(auto)]

mod host;

use std::process::ExitCode;

fn main(rt: HostRuntime) -> ExitCode {
    ExitCode::from(host::run(&rt, rt.stdout(), rt.stderr()))
}
