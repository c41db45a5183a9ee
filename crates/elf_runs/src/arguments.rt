// The arguments of a function.

ghost use Rattle.std.specs.Prelude.{◌≡◌, None, IfOk, IfErr};
ghost use Rattle.elf_memory.specs.Arguments.{is_found, moved, word_of, words_of};
ghost use Rattle.elf_runs.specs.Needs.{Meets, IsTold, argument_needs, each_from, first_unmet};

use crate::fault::{Part, StartFault, Unmet};
use crate::needs::require;
use elf::{ElfRule, Program};
use elf_memory::{Argument, Word};
use std::alloc::Global;

/// So far behind an address, modulo 2^32.
fn moved(address: Option<u32>, offset: u32) -> Word
    ensures { result ≡ moved offset address }
{
    match address {
        Some(address) => Word::known(address.wrapping_add(offset)),
        None => Word::anything(),
    }
}

/// What an argument is.
fn word_of(program: &Program<'_>, argument: &Argument) -> Word
    ensures { result ≡ word_of program.now argument.now }
{
    match argument {
        Argument::Number(n) => Word::known(*n),
        Argument::Unknown => Word::anything(),
        Argument::Address { symbol, offset } => moved(program.address(symbol), *offset),
    }
}

/// Whether what an argument names has an address.
fn is_found(program: &Program<'_>, argument: &Argument) -> bool
    ensures { result ≡ is_found program.now argument.now }
{
    match argument {
        Argument::Number(_) | Argument::Unknown => true,
        Argument::Address { symbol, .. } => program.address(symbol).is_some(),
    }
}

/// Checks an argument.
fn check_argument(program: &Program<'_>, k: usize, argument: &Argument) -> Result<(), Unmet>
    ensures { Meets result (argument_needs program.now k argument.now) }
{
    require(
        ElfRule::Symbol,
        Part::Argument(k),
        is_found(program, argument),
    )
}

/// What arguments are.
pub(crate) fn words_of(
    alloc: Global,
    program: &Program<'_>,
    arguments: &[Argument],
) -> Result<Vec<Word>, StartFault>
    ensures met { IfOk result (λ _. first_unmet (each_from (argument_needs program.now) 0 arguments.now) ≡ None) }
    ensures words { IfOk result (λ words. words.items ≡ words_of program.now arguments.now) }
    ensures fault { IfErr result (λ fault. IsTold fault (each_from (argument_needs program.now) 0 arguments.now)) }
{
    let mut words = Vec::new(alloc);
    'arguments: for (k, argument) in arguments.iter().enumerate() {
        check_argument(program, k, argument)?;
        words.push(word_of(program, argument))?;
    }
    Ok(words)
}
