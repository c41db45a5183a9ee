// Names that a function for C, or a parameter of one, cannot have.

ghost use Rattle.std.specs.Prelude.{◌≡◌, IfOk};
ghost use Rattle.std.specs.String.{string_bytes};
ghost use Rattle.functions.specs.function_text.Names.{is_c_word, is_cpp_word, is_register, is_other_word, is_compilers};
ghost use Rattle.functions.specs.function_text.Names.{is_integers, is_format, is_taken_name, is_library_name};
ghost use Rattle.functions.specs.function_text.Names.{is_taken_function, guard_name, stack_name, is_taken_in};
ghost use Rattle.functions.specs.function_text.Names.{written_name};

use crate::library_names::{
    is_macro_name, is_number_name, is_system_name, is_text_name, is_thread_name,
};
use std::alloc::{AllocError, Global};

/// Keywords of C11, those that GNU C adds, and what `<stdbool.h>` defines.
const C_WORDS: [&str; 39] = [
    "auto", "break", "case", "char", "const", "continue", "default", "do", "double", "else",
    "enum", "extern", "float", "for", "goto", "if", "inline", "int", "long", "register",
    "restrict", "return", "short", "signed", "sizeof", "static", "struct", "switch", "typedef",
    "union", "unsigned", "void", "volatile", "while", "asm", "typeof", "bool", "true", "false",
];

/// Keywords that C++20 has beside these.
const CPP_WORDS: [&str; 55] = [
    "alignas",
    "alignof",
    "and",
    "and_eq",
    "bitand",
    "bitor",
    "catch",
    "char8_t",
    "char16_t",
    "char32_t",
    "class",
    "co_await",
    "co_return",
    "co_yield",
    "compl",
    "concept",
    "const_cast",
    "consteval",
    "constexpr",
    "constinit",
    "decltype",
    "delete",
    "dynamic_cast",
    "explicit",
    "export",
    "friend",
    "mutable",
    "namespace",
    "new",
    "noexcept",
    "not",
    "not_eq",
    "nullptr",
    "operator",
    "or",
    "or_eq",
    "private",
    "protected",
    "public",
    "reinterpret_cast",
    "requires",
    "static_assert",
    "static_cast",
    "template",
    "this",
    "thread_local",
    "throw",
    "try",
    "typeid",
    "typename",
    "using",
    "virtual",
    "wchar_t",
    "xor",
    "xor_eq",
];

/// The registers of RV32, by number and by use.
const REGISTERS: [&str; 66] = [
    "x0", "x1", "x2", "x3", "x4", "x5", "x6", "x7", "x8", "x9", "x10", "x11", "x12", "x13", "x14",
    "x15", "x16", "x17", "x18", "x19", "x20", "x21", "x22", "x23", "x24", "x25", "x26", "x27",
    "x28", "x29", "x30", "x31", "zero", "ra", "sp", "gp", "tp", "fp", "pc", "t0", "t1", "t2", "t3",
    "t4", "t5", "t6", "s0", "s1", "s2", "s3", "s4", "s5", "s6", "s7", "s8", "s9", "s10", "s11",
    "a0", "a1", "a2", "a3", "a4", "a5", "a6", "a7",
];

/// The function that a program begins with, names that compilers for Unix define, and limits of `<stdint.h>`.
const OTHER_WORDS: [&str; 12] = [
    "main",
    "linux",
    "unix",
    "PTRDIFF_MIN",
    "PTRDIFF_MAX",
    "SIG_ATOMIC_MIN",
    "SIG_ATOMIC_MAX",
    "SIZE_MAX",
    "WCHAR_MIN",
    "WCHAR_MAX",
    "WINT_MIN",
    "WINT_MAX",
];

/// Whether C has a name as a word.
#[tactic(auto, unfolding(crate::specs::function_text::Names::is_c_word))]
fn is_c_word(name: &str) -> bool
    ensures { result ≡ is_c_word name.now }
{
    C_WORDS.contains(&name)
}

/// Whether C++ has it.
#[tactic(auto, unfolding(crate::specs::function_text::Names::is_cpp_word))]
fn is_cpp_word(name: &str) -> bool
    ensures { result ≡ is_cpp_word name.now }
{
    CPP_WORDS.contains(&name)
}

/// Whether it is a register's name.
#[tactic(auto, unfolding(crate::specs::function_text::Names::is_register))]
fn is_register(name: &str) -> bool
    ensures { result ≡ is_register name.now }
{
    REGISTERS.contains(&name)
}

/// Whether it is a name of the other words.
#[tactic(auto, unfolding(crate::specs::function_text::Names::is_other_word))]
fn is_other_word(name: &str) -> bool
    ensures { result ≡ is_other_word name.now }
{
    OTHER_WORDS.contains(&name)
}

/// Whether it is `_` and a capital letter, or two `_`, which are the compiler's own, and what follows.
#[tactic(auto, unfolding(crate::specs::function_text::Names::is_compilers))]
fn is_compilers(name: &[u8]) -> bool
    ensures { result ≡ is_compilers name.now }
{
    name.len() >= 2 && name[0] == b'_' && (name[1] == b'_' || name[1].is_ascii_uppercase())
}

/// Whether `<stdint.h>` may define it: `intN_t` and `uintN_t` in all their forms, and their limits.
#[tactic(auto, unfolding(crate::specs::function_text::Names::is_integers))]
fn is_integers(name: &[u8]) -> bool
    ensures { result ≡ is_integers name.now }
{
    let is_type = name.starts_with(b"int") || name.starts_with(b"uint");
    let is_limit = name.starts_with(b"INT") || name.starts_with(b"UINT");
    (is_type && name.ends_with(b"_t"))
        || (is_limit
            && (name.ends_with(b"_MIN") || name.ends_with(b"_MAX") || name.ends_with(b"_C")))
}

/// Whether `<inttypes.h>` defines it as a format of integers, as `PRIx32`.
#[tactic(auto, unfolding(crate::specs::function_text::Names::is_format))]
fn is_format(name: &[u8]) -> bool
    ensures { result ≡ is_format name.now }
{
    name.len() >= 4
        && (name.starts_with(b"PRI") || name.starts_with(b"SCN"))
        && (name[3].is_ascii_lowercase() || name[3] == b'X')
}

/// Whether C, C++ or an assembler cannot take a name, be it a function's or a parameter's.
#[tactic(auto, unfolding(crate::specs::function_text::Names::is_taken_name))]
fn is_taken_name(name: &str) -> bool
    ensures { result ≡ is_taken_name name.now }
{
    is_c_word(name)
        || is_cpp_word(name)
        || is_register(name)
        || is_other_word(name)
        || is_compilers(name.as_bytes())
        || is_integers(name.as_bytes())
        || is_format(name.as_bytes())
        || is_macro_name(name)
}

/// Whether C's library has a name, other than as a macro without arguments.
#[tactic(auto, unfolding(crate::specs::function_text::Names::is_library_name))]
fn is_library_name(name: &str) -> bool
    ensures { result ≡ is_library_name name.now }
{
    is_number_name(name) || is_text_name(name) || is_system_name(name) || is_thread_name(name)
}

/// Whether C, its library, C++ or an assembler cannot take a name for a function.
#[tactic(auto, unfolding(crate::specs::function_text::Names::is_taken_function))]
pub fn is_taken_function(name: &str) -> bool
    ensures { result ≡ is_taken_function name.now }
{
    is_taken_name(name) || is_library_name(name)
}

/// The macros that the header of a function defines.
#[derive(Drop)]
pub(crate) struct Macros<'a> {
    pub function: &'a str,
    pub guard: String,
    pub stack: String,
    ghost guards: { string_bytes guard ≡ guard_name function.now },
    ghost stacks: { string_bytes stack ≡ stack_name function.now },
}

/// Those of the function of a name.
pub(crate) fn macros_of<'a>(alloc: Global, function: &'a str) -> Result<Macros<'a>, AllocError>
    ensures { IfOk result (λ macros. macros.function.now ≡ function.now) }
{
    let guard = format!(in alloc; "FACT_{function}_H")?;
    let stack = format!(in alloc; "{function}_STACK_BYTES")?;
    Ok(Macros {
        function,
        guard,
        stack,
    })
}

/// Whether a parameter of the function with these macros cannot have a name.
fn is_taken_in(macros: &Macros<'_>, name: &str) -> bool
    ensures { result ≡ is_taken_in macros.now.function.now name.now }
{
    is_taken_name(name) || macros.guard.as_str() == name || macros.stack.as_str() == name
}

/// The name that is written for a parameter of the function with these macros: with `_` behind where it is taken or
/// ends in one, so that different names are written differently.
pub(crate) fn written_name(
    alloc: Global,
    macros: &Macros<'_>,
    name: &str,
) -> Result<String, AllocError>
    ensures { IfOk result (λ written. string_bytes written ≡ written_name macros.now.function.now name.now) }
{
    let mut written = String::from_str(alloc, name)?;
    if is_taken_in(macros, name) || name.as_bytes().ends_with(b"_") {
        written.push_str("_")?;
    }
    Ok(written)
}
