// How the run of a function stops.

ghost use Rattle.std.specs.Prelude.{◌≡◌};
ghost use Rattle.elf_memory.specs.Stops.{function_stop, stop_name};

use crate::addresses::RETURN_ADDRESS;
use rv_machine::Stop;

/// Why the run of a function stops.
#[derive(Clone, Copy, Debug, PartialEq, Eq)]
pub enum FunctionStop {
    /// It came back to its caller.
    Returned,
    /// It stopped before that.
    Stopped(Stop),
}

impl FunctionStop {
    /// How a run has stopped at this address.
    pub fn of(stop: Stop, address: u32) -> FunctionStop
        ensures { result ≡ function_stop stop address }
    {
        match stop {
            Stop::AccessFault if address == RETURN_ADDRESS => FunctionStop::Returned,
            _ => FunctionStop::Stopped(stop),
        }
    }

    /// The name of the stop, as it is printed.
    pub fn name(self) -> &'static str
        ensures { result.now ≡ stop_name self }
    {
        match self {
            FunctionStop::Returned => "Return",
            FunctionStop::Stopped(stop) => stop.name(),
        }
    }
}
