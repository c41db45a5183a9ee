// The table of commands: each with its name, what it does, and the words that it takes.

/// A word that a command takes, with its name where it has one, and its line in the help.
pub(crate) enum CommandWord {
    /// The path of a file, required, by its place.
    Path(&'static str, &'static str),
    /// The code of an error or the name of a stop, required, by its place.
    Code(&'static str, &'static str),
    /// A number, required, after its name.
    Number(&'static str, &'static str),
    /// A number after its name, at most so large; and the text of the number that it is where it is not given.
    NumberUpTo(&'static str, u64, &'static str, &'static str),
    /// A text after its name, which is empty where it is not given, and what it is called in the help.
    Text(&'static str, &'static str, &'static str),
    /// A text after its name, which may be given several times, and what it is called in the help.
    Texts(&'static str, &'static str, &'static str),
    /// The observer's profile.
    Profile,
    /// Whether optimised code is asked for.
    Optimisation,
    /// Whether it is to be small.
    SmallCode,
    /// How the answer is printed.
    Format(&'static str),
    /// A flag that is given or not.
    Flag(&'static str, &'static str),
    /// All further words: arguments of a run.
    Arguments(&'static str),
    /// All further words that are no options: arguments of a function.
    Operands(&'static str),
}

/// A command, and the words that it takes, in their order.
pub(crate) struct CommandRow {
    pub name: &'static str,
    pub about: &'static str,
    pub words: &'static [CommandWord],
}

/// What arguments of a run are.
const ARGUMENTS: &str =
    "One for each parameter: a number (decimal, or hexadecimal after 0x), for a bool 0 or 1, for an array its \
                         numbers separated by `,` without spaces";

/// What `--all` does.
const ALL: &str =
    "Prints all violations that the pass finds that refuses the source, in order of place, on standard output";

/// What `--explain` does where a source is refused.
const EXPLAIN: &str =
    "If the source is refused, also shows the line of the error, and says what the rule is, what usually violates \
                       it and what to do";

/// The same of a command that takes arguments.
const EXPLAIN_FIRST: &str =
    "If the source is refused, also shows the line of the error, and says what the rule is, what usually violates \
                             it and what to do; must come before FILE";

/// What `--progress` does.
const PROGRESS: &str =
    "Prints a line to standard error after each 134217728 steps, as long as the run goes on; must come before IMAGE";

/// The same of a command whose options may stand anywhere.
const PROGRESS_ANYWHERE: &str =
    "Prints a line to standard error after each 134217728 steps, as long as the run goes on";

/// What `--format` does.
const FORMAT: &str =
    "How the answer is printed: as text, or as one object of JSON on a line of standard output, also if the command is \
     refused or fails";

/// The same of a command that takes arguments.
const FORMAT_FIRST: &str =
    "How the answer is printed: as text, or as one object of JSON on a line of standard output, also if the command is \
     refused or fails; must come before FILE or IMAGE";

/// The libraries of a source.
const LIBRARIES: CommandWord = CommandWord::Texts(
    "with",
    "LIB",
    "A source that is read before FILE, as if FILE began with its text and a line feed; may be given several times",
);

/// The most steps that a run of a function may be allowed.
pub(crate) const MOST_STEPS: u64 = (1 << 62) - 1;

/// The commands that judge and compile a source, in the order of the help. Each group of commands is a table of its
/// own, since what a table costs to prove grows with the square of its size.
static COMPILING: [CommandRow; 3] = [
    CommandRow {
        name: "check",
        about: "Says whether a source is accepted, or names the first rule that it violates",
        words: &[
            CommandWord::Path("FILE", "The source to check"),
            LIBRARIES,
            CommandWord::Profile,
            CommandWord::Format(FORMAT),
            CommandWord::Flag("all", ALL),
            CommandWord::Flag("explain", EXPLAIN),
        ],
    },
    CommandRow {
        name: "build",
        about: "Compiles a source to an image, or names the first rule that it violates",
        words: &[
            CommandWord::Path("FILE", "The source to compile"),
            CommandWord::Path(
                "IMAGE",
                "Where to write the image; it stays as it was if FILE is refused",
            ),
            LIBRARIES,
            CommandWord::Profile,
            CommandWord::Optimisation,
            CommandWord::SmallCode,
            CommandWord::Format(FORMAT),
            CommandWord::Flag("explain", EXPLAIN),
        ],
    },
    CommandRow {
        name: "function",
        about: "Compiles a source to a function that C can call: an assembly file and a C header",
        words: &[
            CommandWord::Path(
                "FILE",
                "The source to compile; the function has the name of its export",
            ),
            CommandWord::Path(
                "ASM",
                "Where to write the function, for a GNU or LLVM assembler; it stays as it was if FILE is refused",
            ),
            CommandWord::Path(
                "HEADER",
                "Where to write the C header, after ASM; it stays as it was if FILE is refused",
            ),
            LIBRARIES,
            CommandWord::Text(
                "prefix",
                "NAME",
                "Puts NAME before the name of the function and of its macros: letters, digits and `_`, no digit first",
            ),
            CommandWord::Flag(
                "mnemonics",
                "Writes instructions in place of numbers, each behind a label; assemblers make the same bytes of them",
            ),
            CommandWord::Profile,
            CommandWord::Optimisation,
            CommandWord::SmallCode,
            CommandWord::Format(FORMAT),
            CommandWord::Flag("explain", EXPLAIN),
        ],
    },
];

/// The commands that measure and evaluate a source, which come next.
static MEASURING: [CommandRow; 2] = [
    CommandRow {
        name: "stat",
        about: "Says what an accepted source or an image costs: the size of its code and of its frame, and how many \
                instructions a run executes at most; for a source its nodes and its work too",
        words: &[
            CommandWord::Path("FILE", "The source, or the image"),
            CommandWord::Texts(
                "with",
                "LIB",
                "A source that is read before FILE, as for `build`; FILE is a source then, whatever it begins with",
            ),
            CommandWord::Profile,
            CommandWord::Optimisation,
            CommandWord::SmallCode,
            CommandWord::Format(FORMAT),
        ],
    },
    CommandRow {
        name: "eval",
        about: "Evaluates an accepted source on arguments, without an image",
        words: &[
            CommandWord::Path("FILE", "The source"),
            CommandWord::Texts(
                "with",
                "LIB",
                "A source that is read before FILE, as for `build`; may be given several times; must come before FILE",
            ),
            CommandWord::Flag("explain", EXPLAIN_FIRST),
            CommandWord::Format(FORMAT_FIRST),
            CommandWord::Arguments(ARGUMENTS),
        ],
    },
];

/// The commands that run an image on values, which come next.
static RUNNING: [CommandRow; 3] = [
    CommandRow {
        name: "run",
        about: "Runs an image on arguments and prints its outcome",
        words: &[
            CommandWord::Path("IMAGE", "An image that `build` or `wrap` wrote"),
            CommandWord::Flag("progress", PROGRESS),
            CommandWord::Flag(
                "steps",
                "Prints to standard error how many steps the run has made, once it has stopped; must come before IMAGE",
            ),
            CommandWord::Arguments(ARGUMENTS),
        ],
    },
    CommandRow {
        name: "leak",
        about: "Runs an image on arguments and lists what an observer sees, and how the run stops",
        words: &[
            CommandWord::Path("IMAGE", "An image that `build` or `wrap` wrote"),
            CommandWord::Arguments(ARGUMENTS),
        ],
    },
    CommandRow {
        name: "pair",
        about: "Runs an image twice and says whether an observer sees the same in both runs, or where they begin to \
                differ",
        words: &[
            CommandWord::Path("IMAGE", "An image that `build` or `wrap` wrote"),
            CommandWord::Flag(
                "explain",
                "If the runs differ, shows the last instruction that both reach before that, the registers that it \
                 reads in each run, and what each run shows then; must come before IMAGE",
            ),
            CommandWord::Flag(
                "progress",
                "Prints a line to standard error after each 134217728 steps of both runs, as long as both go on; must \
                 come before IMAGE",
            ),
            CommandWord::Format(FORMAT_FIRST),
            CommandWord::Arguments(
                "Those of the first run, one for each parameter and as for `run`, then those of the second",
            ),
        ],
    },
];

/// The commands that show an image whole, which come next.
static SHOWING: [CommandRow; 3] = [
    CommandRow {
        name: "certify",
        about: "Runs an image once for all values of its secrets, and says that an observer sees the same for all, or \
                from where on that is not shown, which is no proof of a leak",
        words: &[
            CommandWord::Path("IMAGE", "An image that `build` or `wrap` wrote"),
            CommandWord::Flag(
                "shifts",
                "Counts the amounts of shifts by a register as visible, for cores that shift bit by bit; must come \
                 before IMAGE",
            ),
            CommandWord::Flag(
                "explain",
                "If runs may differ, names the unknown registers that the instruction there reads, and the load that \
                 each of them comes from; must come before IMAGE",
            ),
            CommandWord::Flag("progress", PROGRESS),
            CommandWord::Format(FORMAT_FIRST),
            CommandWord::Arguments(
                "One for each parameter, as for `run`; for a secret one `?` stands for every value of its type",
            ),
        ],
    },
    CommandRow {
        name: "picture",
        about: "Prints an HTML page with a picture of what an observer sees of one run or of two: steps to the right, \
                addresses upwards",
        words: &[
            CommandWord::Path("IMAGE", "An image that `build` or `wrap` wrote"),
            CommandWord::Flag(
                "progress",
                "Prints a line to standard error after each 134217728 steps of each pass over the runs, as long as it \
                 goes on; must come before IMAGE",
            ),
            CommandWord::Arguments(
                "As for `certify`, for a picture of one run, with 0 for each `?`; or as for `pair`, for a picture of \
                 two runs, one over the other",
            ),
        ],
    },
    CommandRow {
        name: "list",
        about: "Lists the code of an image: each word with its address and its instruction",
        words: &[CommandWord::Path("IMAGE", "An image that `build` or `wrap` wrote")],
    },
];

/// The commands that take other files than sources and images, which come next.
static COMPOSING: [CommandRow; 2] = [
    CommandRow {
        name: "wrap",
        about: "Makes an image from code that another compiler made, to run, list and certify it",
        words: &[
            CommandWord::Path(
                "FILE",
                "A source whose export has the parameters and the result that the code has",
            ),
            CommandWord::Path(
                "CODE",
                "The code's words, little-endian, as `objcopy -O binary` writes them",
            ),
            CommandWord::Path(
                "IMAGE",
                "Where to write the image; it stays as it was if anything is refused",
            ),
            CommandWord::Number(
                "frame",
                "The size of the frame in bytes; parameters and result are at its start, laid out as `build` does it",
            ),
            CommandWord::Number("steps", "How many instructions a run executes at most"),
            CommandWord::Profile,
        ],
    },
    CommandRow {
        name: "harts",
        about: "Runs several images side by side on one memory, and lists what an observer sees of each",
        words: &[CommandWord::Path(
            "FILE",
            "Lines `hart PATH ARG ..`, one for each image, then `turns K N` for N turns of hart K, counted from 0, \
             and `round N` for N times one turn of each",
        )],
    },
];

/// The commands that come last.
static TRYING: [CommandRow; 2] = [
    CommandRow {
        name: "vectors",
        about: "Tries test vectors on a source: whether it gives the outcome of each, and whether an observer sees the \
                same for all secrets",
        words: &[
            CommandWord::Path("FILE", "The source"),
            CommandWord::Path(
                "VECTORS",
                "Lines `NAME: ARG .. = OUTCOME ..`: the arguments as for `run`, and after `=` the result and then each \
                 `mut` array; bytes may be written `hex:00ff..`",
            ),
            LIBRARIES,
            CommandWord::Profile,
            CommandWord::Optimisation,
            CommandWord::SmallCode,
            CommandWord::Format(FORMAT),
        ],
    },
    CommandRow {
        name: "explain",
        about: "Explains the code of an error, or the name of a stop: the rule, a source that violates it, and the \
                same source corrected",
        words: &[CommandWord::Code(
            "CODE",
            "The code that comes after `refused: `, or the name after `stop `",
        )],
    },
];

/// All commands but those on executables, in the order of the help.
pub(crate) fn commands() -> [&'static [CommandRow]; 6] {
    [
        compiling(),
        measuring(),
        running(),
        showing(),
        composing(),
        trying(),
    ]
}

fn compiling() -> &'static [CommandRow] {
    &COMPILING
}

fn measuring() -> &'static [CommandRow] {
    &MEASURING
}

fn running() -> &'static [CommandRow] {
    &RUNNING
}

fn showing() -> &'static [CommandRow] {
    &SHOWING
}

fn composing() -> &'static [CommandRow] {
    &COMPOSING
}

fn trying() -> &'static [CommandRow] {
    &TRYING
}

/// What the commands on executables are together.
pub(crate) const ELF_ABOUT: &str =
    "Commands on functions of a linked RISC-V program, an ELF file as compilers and linkers make it";

/// The program that has the function.
const ELF: CommandWord = CommandWord::Path(
    "ELF",
    "A linked program for RV32 with a symbol table; nothing of it is run but the function",
);

/// The function's name.
const FUNCTION: CommandWord = CommandWord::Path(
    "FUNCTION",
    "The name of the function in the symbol table",
);

/// The function's arguments.
const FUNCTION_ARGUMENTS: CommandWord = CommandWord::Operands(
    "The function's arguments, one for each register or word of the stack: a number (decimal, or hexadecimal after \
     0x), `?` for any word, NAME for the address of a symbol, or NAME+N for N bytes behind it",
);

/// What is secret.
const SECRETS: CommandWord = CommandWord::Texts(
    "secret",
    "NAME",
    "An object of the program of which no byte is known; may be given several times",
);

/// The size of the stack.
const STACK: CommandWord = CommandWord::NumberUpTo(
    "stack",
    u32::MAX as u64,
    "65536",
    "The size of the stack in bytes, a multiple of 16",
);

/// The most steps of a run.
const STEPS: CommandWord = CommandWord::NumberUpTo(
    "steps",
    MOST_STEPS,
    "100000000",
    "How many instructions a run executes at most",
);

/// What is set, of a command that takes secrets too.
const SETTINGS: CommandWord = CommandWord::Texts(
    "set",
    "NAME=hex:BYTES",
    "Bytes that an object of the program begins with in place of the file's, two hexadecimal digits each; what is also \
     secret stays unknown; may be given several times",
);

/// The first command on executables.
static ELF_CERTIFY: [CommandRow; 1] = [CommandRow {
    name: "certify",
    about: "Runs a function of a program once for all values of what is not known when it begins, and says that \
                an observer sees the same for all, or from where on that is not shown, which is no proof of a leak",
    words: &[
        ELF,
        FUNCTION,
        FUNCTION_ARGUMENTS,
        SECRETS,
        SETTINGS,
        STACK,
        STEPS,
        CommandWord::Profile,
        CommandWord::Flag(
            "shifts",
            "Counts the amounts of shifts by a register as visible, for cores that shift bit by bit",
        ),
        CommandWord::Flag(
            "explain",
            "If runs may differ, names the unknown registers that the instruction there reads, and the load that \
                 each of them comes from",
        ),
        CommandWord::Flag("progress", PROGRESS_ANYWHERE),
    ],
}];

/// The second.
static ELF_LEAK: [CommandRow; 1] = [CommandRow {
    name: "leak",
    about: "Runs a function of a program and lists what an observer sees, and how the run stops; what is not set \
                is as the file has it, and what the file does not have is 0",
    words: &[
        ELF,
        FUNCTION,
        FUNCTION_ARGUMENTS,
        CommandWord::Texts(
            "set",
            "NAME=hex:BYTES",
            "Bytes that an object of the program begins with in place of the file's, two hexadecimal digits each, \
                 as those of a secret; may be given several times",
        ),
        STACK,
        STEPS,
        CommandWord::Profile,
    ],
}];

/// The third.
static ELF_WITNESS: [CommandRow; 1] = [CommandRow {
    name: "witness",
    about: "Looks for two runs of a function of a program that differ in what is secret alone, and of which an \
                observer sees different things; that none is found is no proof that there is none",
    words: &[
        ELF,
        FUNCTION,
        FUNCTION_ARGUMENTS,
        SECRETS,
        SETTINGS,
        STACK,
        STEPS,
        CommandWord::Profile,
        CommandWord::NumberUpTo(
            "tries",
            u32::MAX as u64,
            "100",
            "How many pairs of runs are made at most, each on other pseudo-random secrets; they are the same ones \
                 each time",
        ),
    ],
}];

/// The commands on executables, in the order of the help.
pub(crate) fn elf_commands() -> [&'static [CommandRow]; 3] {
    [elf_certify(), elf_leak(), elf_witness()]
}

fn elf_certify() -> &'static [CommandRow] {
    &ELF_CERTIFY
}

fn elf_leak() -> &'static [CommandRow] {
    &ELF_LEAK
}

fn elf_witness() -> &'static [CommandRow] {
    &ELF_WITNESS
}
