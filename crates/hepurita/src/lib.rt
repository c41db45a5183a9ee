// The calls of the compiler and of its simulator: a source to an image's bytes, an image run on arguments, and two runs
// compared by what an observer sees. Each pass is a library below this one; here they are put together, and what the
// whole promises is said.
#![tactic(auto)]

mod building;
mod checking;
mod comparing;
mod compiling;
mod elements;
mod executing;
mod fault;
mod flattening;
pub mod grammar_laws;
mod judging;
mod laws;
mod loading;
mod reading;
mod results;
pub mod run_bounds;
pub mod source_work;
mod violating;

pub use building::{
    accepted_or_refused, build, build_as, build_with, each_source_is_judged, one_refusal,
};
pub use checking::first_fault;
pub use comparing::{fault_of_both, pair};
pub use compilation::{FrameNeeds, Generated, Optimisation, code_of};
pub use compiling::{Compiled, compile_with};
pub use executing::{answer, execute};
pub use fault::RunFault;
pub use flattening::{Flattened, flatten};
pub use judging::{Accepted, judge, judge_as};
pub use laws::{
    accepted_sources_are_evaluated, bases_fit, builds_agree, comparisons_agree,
    compilations_are_spelled, cut_off_runs_are_right, executions_agree,
    images_do_what_sources_mean, readings_agree, sources_are_compiled,
};
pub use loading::{CODE_BASE, FRAME_BASE, code, frame, load, params, put_argument, put_arguments};
pub use reading::read_args;
pub use results::{ResultSpace, outcome, result_space};
pub use violating::{listed_violations_are_judged, violations};
