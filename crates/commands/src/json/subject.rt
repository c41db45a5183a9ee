// The commands that answer in JSON.

ghost use Rattle.std.specs.Prelude.{◌≡◌};
ghost use Rattle.commands.specs.json.Faults.{out_of_memory};
ghost use Rattle.commands.specs.json.Names.{command_name};
ghost use Rattle.json_lines.specs.Lines.{line_of};

/// A command that answers in JSON where that is asked for.
#[derive(Clone, Copy, Debug, PartialEq, Eq)]
pub enum JsonCommand {
    Check,
    Build,
    Function,
    Stat,
    Eval,
    Pair,
    Certify,
    Vectors,
}

impl JsonCommand {
    /// Its word in the command line.
    pub fn name(self) -> &'static str
        ensures { result.now ≡ command_name self }
    {
        match self {
            JsonCommand::Check => "check",
            JsonCommand::Build => "build",
            JsonCommand::Function => "function",
            JsonCommand::Stat => "stat",
            JsonCommand::Eval => "eval",
            JsonCommand::Pair => "pair",
            JsonCommand::Certify => "certify",
            JsonCommand::Vectors => "vectors",
        }
    }

    /// The line that says that there is no memory, of which none is needed for it.
    pub fn no_memory_line(self) -> &'static str
        ensures { result.now ≡ line_of (out_of_memory self) }
    {
        match self {
            JsonCommand::Check => {
                "{\"code\":\"M1\",\"command\":\"check\",\"name\":\"memory\",\"result\":\"refused\",\"status\":4}\n"
            }
            JsonCommand::Build => {
                "{\"code\":\"M1\",\"command\":\"build\",\"name\":\"memory\",\"result\":\"refused\",\"status\":4}\n"
            }
            JsonCommand::Function => {
                "{\"code\":\"M1\",\"command\":\"function\",\"name\":\"memory\",\"result\":\"refused\",\"status\":4}\n"
            }
            JsonCommand::Stat => {
                "{\"code\":\"M1\",\"command\":\"stat\",\"name\":\"memory\",\"result\":\"refused\",\"status\":4}\n"
            }
            JsonCommand::Eval => {
                "{\"code\":\"M1\",\"command\":\"eval\",\"name\":\"memory\",\"result\":\"refused\",\"status\":4}\n"
            }
            JsonCommand::Pair => {
                "{\"code\":\"M1\",\"command\":\"pair\",\"name\":\"memory\",\"result\":\"refused\",\"status\":4}\n"
            }
            JsonCommand::Certify => {
                "{\"code\":\"M1\",\"command\":\"certify\",\"name\":\"memory\",\"result\":\"refused\",\"status\":4}\n"
            }
            JsonCommand::Vectors => {
                "{\"code\":\"M1\",\"command\":\"vectors\",\"name\":\"memory\",\"result\":\"refused\",\"status\":4}\n"
            }
        }
    }
}

/// What an answer is about: the command, its FILE or IMAGE, and the file whose lines a fault may count, which of all
/// but `vectors` is the same.
#[derive(Clone, Copy, Debug)]
pub struct Subject<'a> {
    pub command: JsonCommand,
    pub file: &'a str,
    pub list: &'a str,
}

impl<'a> Subject<'a> {
    /// A command and its file.
    pub fn of(command: JsonCommand, file: &'a str) -> Subject<'a>
        ensures { result ≡ record { command = command; file = file.entry; list = file.entry } }
    {
        Subject {
            command,
            file,
            list: file,
        }
    }
}
