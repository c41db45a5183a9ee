// The language's text as tokens: how they are spelled, how deeply they are nested, and what they are in expressions.
// It passes on what its contracts name of `language`, on whose definitions it stands.
#![tactic(auto)]

mod lexer;
mod nesting;
mod operators;
mod token;

pub use language::{BinaryOperator, Kind, Place, PrefixOperator, Refusal, Rule};
pub use lexer::{
    Lexed, ListEnd, SOURCE_LIMIT, lex, one_list_for_a_source, source_limit_is_as_stated,
};
pub use nesting::{NESTING_LIMIT, Nesting, nesting_limit_is_as_stated};
pub use operators::{
    Link, OPERAND_LEVEL, OperandStart, PREFIX_LEVEL, begins_of, level_of, link_of, suffix_kind,
};
pub use token::{Keyword, Sign, Suffix, Token, TokenKind};
