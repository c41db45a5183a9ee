// Why a run of the machine ends.

ghost use Rattle.std.specs.Prelude.{◌≡◌};
ghost use Rattle.rv_machine.specs.Stops.{stop_name};

use std::fmt;

/// Why a run ends.
#[derive(Clone, Copy, Debug, PartialEq, Eq)]
pub enum Stop {
    /// The instruction calls the environment.
    Ecall,
    /// The instruction calls the debugger.
    Break,
    /// The word is no instruction.
    Illegal,
    /// The program counter is at no code word, or a byte of a load or a store is no data.
    AccessFault,
    /// An address is no multiple of its size.
    Misaligned,
    /// As many steps were made as were allowed.
    Budget,
    /// The recorder refused what the instruction shows, and the instruction was not executed.
    RecorderRefused,
}

impl Stop {
    /// The name of the stop, as listings give it.
    pub fn name(self) -> &'static str
        ensures { result.now ≡ stop_name self }
    {
        match self {
            Stop::Ecall => "Ecall",
            Stop::Break => "Break",
            Stop::Illegal => "Illegal",
            Stop::AccessFault => "AccessFault",
            Stop::Misaligned => "Misaligned",
            Stop::Budget => "Budget",
            Stop::RecorderRefused => "RecorderRefused",
        }
    }
}

impl fmt::Display for Stop {
    ghost use Rattle.std.specs.Prelude.{Some};

    ghost output = { λ stop. Some (stop_name stop) };

    fn fmt<W: fmt::Write>(&self, f: &mut fmt::Formatter<W>) -> fmt::Result {
        f.write_str(self.name())
    }
}
