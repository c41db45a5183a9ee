ghost use Rattle.std.specs.Prelude.{◌≡◌};

use language::Refusal;

/// Why a text was not built from a source to a sink.
#[derive(Clone, Copy, Debug)]
pub enum BuildFault<R = Refusal> {
    /// A call of the source failed.
    Read,
    /// The bytes are no text.
    NotUtf8,
    /// The text is too long, or it is refused as `build` refuses it.
    Refused(R),
    /// A call of the sink failed.
    Write,
}

impl From<Refusal> for BuildFault<Refusal> {
    ghost use Rattle.input_files.specs.declared.stream_build.fault.BuildFault.TheVariants.{Refused};

    ghost from_gives = { λ refusal fault. fault ≡ Refused refusal };

    fn from(refusal: Refusal) -> Self {
        BuildFault::Refused(refusal)
    }
}

/// Why a text was not built from a source to a sink, with the text itself where it is refused: for who explains that.
#[derive(Debug, Drop)]
pub enum Unbuilt<R = Refusal> {
    /// No text was had of the source.
    Unread(BuildFault<R>),
    /// This text is refused as `build` refuses it.
    NotAccepted(R, String),
    /// A call of the sink failed.
    Unwritten,
}
