ghost use Rattle.std.specs.Prelude.{◌≡◌, ◌≤◌};
ghost use Rattle.std.specs.String.{string_bytes};

/// The exit status of what is done, that of what is refused, that of a run that may show a secret, and that of a run
/// that stops otherwise than by ECALL.
pub const DONE: u8 = 0;

pub const REFUSED: u8 = 1;

pub const MAY_DIFFER: u8 = 1;

pub const STOPPED: u8 = 5;

/// What answers a request that is done: the text that is printed, and the exit status.
#[derive(Drop)]
pub struct Answer {
    pub text: Vec<u8>,
    pub status: u8,
    ghost known: { status ≤ 5 },
}

impl Answer {
    /// These bytes.
    pub fn of_bytes(text: Vec<u8>) -> Answer
        ensures text { result.text.items ≡ text.items }
        ensures status { result.status ≡ 0 }
    {
        Answer { text, status: DONE }
    }

    /// The same of a string.
    pub fn of_text(text: String) -> Answer
        ensures text { result.text.items ≡ string_bytes text }
        ensures status { result.status ≡ 0 }
    {
        Answer::of_bytes(text.into_bytes())
    }
}
