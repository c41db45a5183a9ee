ghost use Rattle.std.specs.Prelude.{◌≡◌, ℕ, ◌<◌, List, length, Contains, IfOk, IfErr, IsErrAnd, MatchResult};
ghost use Rattle.syntax.specs.Below.{IsGrammatical, origin, Plain, ProcedureTree, program_tree, ProgramTree};
ghost use Rattle.tokens.specs.Limits.{source_limit};
ghost use Rattle.tokens.specs.Lexeme.{lexemes};
ghost use Rattle.syntax.specs.private.Machine.{program as program_state};
ghost use Rattle.syntax.specs.private.ParserViews.{ahead, FaultIs};
ghost use Rattle.syntax.specs.Reading.{IsParseAnswer, Reads, IsRefusedAs, OneProgram, OneAnswer, accepted, refused};
ghost use Rattle.tokens.specs.Tokens.{ending};

mod declaration;
mod expression;
mod procedure;
mod right_side;
mod statement;
mod step;

use crate::{ListEnd, Place, Procedure, Program, Refusal, Rule, Token, lex};
use std::alloc::{AllocError, AllocFailed, Global};
use tokens::Nesting;

/// Why the parser stops.
#[derive(Clone, Copy)]
enum ParseFault {
    Refused(Rule, Place),
    Memory,
}

impl From<AllocError> for ParseFault {
    ghost use Rattle.syntax.specs.declared.parser.ParseFault.TheVariants.{Memory};

    ghost from_gives = { λ _ fault. fault ≡ Memory };

    fn from(_: AllocError) -> Self {
        ParseFault::Memory
    }
}

impl<T: Drop> From<AllocFailed<T>> for ParseFault {
    ghost use Rattle.syntax.specs.declared.parser.ParseFault.TheVariants.{Memory};

    ghost from_gives = { λ _ fault. fault ≡ Memory };

    fn from(_: AllocFailed<T>) -> Self {
        ParseFault::Memory
    }
}

/// What is left to read, and what the tokens before it say of it.
#[derive(Drop)]
struct Parser<'t> {
    alloc: Global,
    rest: &'t [Token<'t>],
    end: ListEnd,
    nesting: Nesting,
}

impl<'t> Parser<'t> {
    fn procedures(&mut self) -> Result<Vec<Procedure>, ParseFault>
        ensures leads { MatchResult result
            (λ procedures. ahead program_state self.old ≡ accepted (program_tree procedures.items))
            (λ f. FaultIs f (ahead program_state self.old)) }
    {
        let mut procedures = Vec::new(self.alloc);
        while !self.rest.is_empty() {
            let procedure = self.procedure()?;
            procedures.push(procedure)?;
        }
        match self.end {
            ListEnd::TextEnd(_) => Ok(procedures),
            ListEnd::Fault(rule, place) => Err(ParseFault::Refused(rule, place)),
        }
    }
}

/// The procedures of the program that the tokens are.
fn parse_tokens<'t>(
    alloc: Global,
    tokens: &'t [Token<'t>],
    end: ListEnd,
) -> Result<Vec<Procedure>, Refusal>
    ensures accepted { IfOk result (λ procedures.
        IsParseAnswer (lexemes tokens.entry.now) (ending end) (accepted (program_tree procedures.items))) }
    ensures refused { IfErr result (IsRefusedAs (IsParseAnswer (lexemes tokens.entry.now) (ending end))) }
{
    let mut parser = Parser {
        alloc,
        rest: tokens,
        end,
        nesting: Nesting::new(alloc),
    };
    match parser.procedures() {
        Ok(procedures) => Ok(procedures),
        Err(ParseFault::Refused(rule, place)) => Err(Refusal::at(rule, place)),
        Err(ParseFault::Memory) => Err(Refusal::memory()),
    }
}

/// The program of a source, or the first refusal. A place is named for all refusals but running out of
/// memory. A source that is too long is refused as that whatever memory there is.
pub fn parse(alloc: Global, source: &str) -> Result<Program, Refusal>
    ensures too_long { source_limit < length source.now
        → IsErrAnd result (λ r. (r.rule ≡ Rule.TextTooLong) × (r.place ≡ Some origin) × (r.why ≡ Plain)) }
    ensures accepted { IfOk result (λ p. Reads source.now (accepted (program_tree p))) }
    ensures refused { IfErr result (IsRefusedAs (Reads source.now)) }
{
    let lexed = lex(alloc, source)?;
    let procedures = parse_tokens(alloc, lexed.tokens.as_slice(), lexed.end)?;
    Ok(Program::new(procedures))
}

/// Tokens are one program at most.
pub fn one_program_for_tokens()
    ensures { OneProgram }
{}

/// A source has one answer at most: it is not both accepted and refused, and not accepted with two
/// trees.
pub fn one_answer_for_a_source()
    ensures { OneAnswer }
{}

/// Whatever their types, the procedures of a source are as the grammar has them.
pub fn sources_are_grammatical()
    ensures { (source : List ℕ) (program : ProgramTree) (p : ProcedureTree) → Reads source (accepted program)
        → Contains program.procedures p → IsGrammatical p }
{}
