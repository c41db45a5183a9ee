ghost use Rattle.std.specs.Prelude.{◌≡◌};
ghost use Rattle.commands.specs.Unread.{IsOutOfMemory};
ghost use Rattle.commands.specs.declared.fault.Fault.TheVariants.{Text, Image, Run, Eval, Plan, Harts, Vectors, Elf};
ghost use Rattle.commands.specs.declared.fault.Fault.TheVariants.{File};

use elf::{ElfFault, ElfRule};
use harts::HartsFault;
use hepurita::RunFault;
use image::ImageFault;
use image_reports::source_places::Standing;
use image_reports::vectors::VectorsFault;
use input_files::harts_file::PlanFault;
use input_files::wrapping::CodeRule;
use language::arguments::ArgumentFault;
use language::{Refusal, Rule};
use source_eval::EvalFault;
use std::alloc::{AllocError, AllocFailed};
use std::fmt;
use thiserror::Error;

/// What a file failed by, with its path; that of standard output is `-`.
#[derive(Clone, Copy, Debug, Error)]
pub enum FileFault<'a> {
    #[error("cannot read {0}")]
    CannotRead(&'a str),
    #[error("cannot write {0}")]
    CannotWrite(&'a str),
    #[error("not UTF-8 {0}")]
    NotUtf8(&'a str),
    #[error("an ELF file, which elf certify takes: {0}")]
    IsElf(&'a str),
}

/// Why a command was not done.
#[derive(Debug, Drop)]
pub enum Fault<'a> {
    Text(Refusal),
    /// A refusal with the lines that explain it, without the last one's end.
    Explained(Refusal, String),
    /// A refusal of what stands in a library, with its path; the place is that in the library.
    InLibrary(&'a str, Refusal),
    /// The same with the lines that explain it.
    ExplainedInLibrary(&'a str, Refusal, String),
    Image(ImageFault),
    Run(RunFault),
    Eval(EvalFault),
    Plan(PlanFault),
    Harts(HartsFault),
    Vectors(VectorsFault),
    Code(CodeRule),
    /// The export has a name that C or an assembler cannot take; it stands there.
    Name(Standing<'a>),
    /// A file is no executable.
    Elf(ElfFault),
    /// What is asked of a run of a function breaks this rule, by this word.
    Unmet { rule: ElfRule, word: String },
    File(FileFault<'a>),
}

impl Fault<'_> {
    ghost use Rattle.std.specs.Prelude.{◌≤◌, ◌<◌};
    ghost use Rattle.commands.specs.FaultText.{fault_status};

    /// The exit status: 1 refused by a rule, 3 a file failed, 4 memory, 5 stopped otherwise than by
    /// ECALL.
    pub fn status(&self) -> u8
        ensures status { result ≡ fault_status self.now }
        ensures low { 0 < result }
        ensures high { result ≤ 5 }
    {
        match self {
            Fault::Text(refusal)
            | Fault::Explained(refusal, _)
            | Fault::InLibrary(_, refusal)
            | Fault::ExplainedInLibrary(_, refusal, _) => {
                if refusal.rule == Rule::OutOfMemory {
                    4
                } else {
                    1
                }
            }
            Fault::Image(ImageFault::Field { .. }) => 1,
            Fault::Image(ImageFault::Memory) => 4,
            Fault::Run(RunFault::Argument { .. }) => 1,
            Fault::Run(RunFault::Memory) => 4,
            Fault::Run(RunFault::Stopped(_)) => 5,
            Fault::Eval(EvalFault::Memory) => 4,
            Fault::Eval(EvalFault::Argument(_)) => 1,
            Fault::Eval(EvalFault::NoMeaning(_)) => 1,
            Fault::Eval(EvalFault::Budget) => 1,
            Fault::Plan(PlanFault::Line { .. }) => 1,
            Fault::Plan(PlanFault::Memory) => 4,
            Fault::Harts(HartsFault::Schedule { .. }) => 1,
            Fault::Harts(HartsFault::Argument { .. }) => 1,
            Fault::Harts(HartsFault::Memory) => 4,
            Fault::Vectors(VectorsFault::Line { .. } | VectorsFault::TooLong) => 1,
            Fault::Vectors(VectorsFault::Memory) => 4,
            Fault::Code(_) => 1,
            Fault::Name(_) => 1,
            Fault::Elf(ElfFault::File { .. }) => 1,
            Fault::Elf(ElfFault::Memory) => 4,
            Fault::Unmet { .. } => 1,
            Fault::File(_) => 3,
        }
    }
}

/// A refusal of what stands in a library.
#[derive(Clone, Copy)]
struct InLibrary<'a> {
    path: &'a str,
    refusal: &'a Refusal,
}

/// The refusal, with the path before the place.
impl fmt::Display for InLibrary<'_> {
    ghost use Rattle.std.specs.Prelude.{Some};
    ghost use Rattle.commands.specs.FaultText.{library_text};

    ghost output = { λ told. Some (library_text told.path.now told.refusal.now.rule told.refusal.now.place) };

    fn fmt<W: fmt::Write>(&self, f: &mut fmt::Formatter<W>) -> fmt::Result {
        let path = self.path;
        let refusal = *self.refusal;
        let (rule, name) = (refusal.rule, refusal.name);
        match refusal.place {
            Some(place) => write!(f, "{rule} at {path}:{place}: {name}"),
            None => write!(f, "{refusal}"),
        }
    }
}

/// Its lines for standard error, without the last one's end. Those of a file's fault are written out here, since what
/// is derived has no contract.
impl fmt::Display for Fault<'_> {
    ghost use Rattle.std.specs.Prelude.{Some};
    ghost use Rattle.commands.specs.FaultText.{fault_line};

    ghost output = { λ fault. Some (fault_line fault) };

    fn fmt<W: fmt::Write>(&self, f: &mut fmt::Formatter<W>) -> fmt::Result {
        match self {
            Fault::Text(refusal) => write!(f, "refused: {refusal}"),
            Fault::Explained(refusal, lines) => write!(f, "refused: {refusal}\n{lines}"),
            Fault::InLibrary(path, refusal) => {
                let told = InLibrary { path, refusal };
                write!(f, "refused: {told}")
            }
            Fault::ExplainedInLibrary(path, refusal, lines) => {
                let told = InLibrary { path, refusal };
                write!(f, "refused: {told}\n{lines}")
            }
            Fault::Image(fault) => write!(f, "refused: {fault}"),
            Fault::Run(RunFault::Stopped(stop)) => write!(f, "stopped: {stop}"),
            Fault::Run(fault) => write!(f, "refused: {fault}"),
            Fault::Eval(fault) => write!(f, "refused: {fault}"),
            Fault::Plan(fault) => write!(f, "refused: {fault}"),
            Fault::Harts(HartsFault::Schedule { rule, at }) => {
                let code = rule.code();
                let name = rule.name();
                write!(f, "refused: {code} at turn {at}: {name}")
            }
            Fault::Harts(HartsFault::Argument { rule, index, .. }) => {
                let fault = ArgumentFault {
                    rule: *rule,
                    index: *index,
                };
                write!(f, "refused: {fault}")
            }
            Fault::Harts(HartsFault::Memory) => write!(f, "refused: {}", Refusal::memory()),
            Fault::Vectors(fault) => write!(f, "refused: {fault}"),
            Fault::Code(rule) => write!(f, "refused: {rule}"),
            Fault::Name(standing) => write!(f, "refused: F1 at {standing}: name"),
            Fault::Elf(fault) => write!(f, "refused: {fault}"),
            Fault::Unmet { rule, word } => {
                let name = rule.name();
                write!(f, "refused: {rule}: {name}: {word}")
            }
            Fault::File(FileFault::CannotRead(path)) => write!(f, "file: cannot read {path}"),
            Fault::File(FileFault::CannotWrite(path)) => write!(f, "file: cannot write {path}"),
            Fault::File(FileFault::NotUtf8(path)) => write!(f, "file: not UTF-8 {path}"),
            Fault::File(FileFault::IsElf(path)) => {
                write!(f, "file: an ELF file, which elf certify takes: {path}")
            }
        }
    }
}

impl From<Refusal> for Fault<'_> {
    ghost from_gives = { λ inner fault. fault ≡ Text inner };

    fn from(refusal: Refusal) -> Self {
        Fault::Text(refusal)
    }
}

impl From<ImageFault> for Fault<'_> {
    ghost from_gives = { λ inner fault. fault ≡ Image inner };

    fn from(fault: ImageFault) -> Self {
        Fault::Image(fault)
    }
}

impl From<RunFault> for Fault<'_> {
    ghost from_gives = { λ inner fault. fault ≡ Run inner };

    fn from(fault: RunFault) -> Self {
        Fault::Run(fault)
    }
}

impl From<EvalFault> for Fault<'_> {
    ghost from_gives = { λ inner fault. fault ≡ Eval inner };

    fn from(fault: EvalFault) -> Self {
        Fault::Eval(fault)
    }
}

impl From<PlanFault> for Fault<'_> {
    ghost from_gives = { λ inner fault. fault ≡ Plan inner };

    fn from(fault: PlanFault) -> Self {
        Fault::Plan(fault)
    }
}

impl From<HartsFault> for Fault<'_> {
    ghost from_gives = { λ inner fault. fault ≡ Harts inner };

    fn from(fault: HartsFault) -> Self {
        Fault::Harts(fault)
    }
}

impl From<VectorsFault> for Fault<'_> {
    ghost from_gives = { λ inner fault. fault ≡ Vectors inner };

    fn from(fault: VectorsFault) -> Self {
        Fault::Vectors(fault)
    }
}

impl From<ElfFault> for Fault<'_> {
    ghost from_gives = { λ inner fault. fault ≡ Elf inner };

    fn from(fault: ElfFault) -> Self {
        Fault::Elf(fault)
    }
}

impl<'a> From<FileFault<'a>> for Fault<'a> {
    ghost from_gives = { λ inner fault. fault ≡ File inner };

    fn from(fault: FileFault<'a>) -> Self {
        Fault::File(fault)
    }
}

impl From<AllocError> for Fault<'_> {
    ghost from_gives = { λ _ fault. IsOutOfMemory fault };

    fn from(_: AllocError) -> Self {
        Fault::Text(Refusal::memory())
    }
}

impl<T: Drop> From<AllocFailed<T>> for Fault<'_> {
    ghost from_gives = { λ _ fault. IsOutOfMemory fault };

    fn from(_: AllocFailed<T>) -> Self {
        Fault::Text(Refusal::memory())
    }
}
