// The one tree of a text, or the first refusal and its place.
// It passes on the tokens of `tokens`, and the trees, types and refusals of `language`, on whose definitions it stands.
#![tactic(auto)]

mod parser;

pub use language::{
    Arg, Args, ArrayDeclaration, Assignment, BinaryOperator, Call, Counter, Declaration,
    ElementAssignment, Expr, Form, Kind, Label, Name, Outcome, Param, Parameter, Place,
    PrefixOperator, Procedure, Program, Refusal, Return, RightSide, Rule, Statement, WordType,
};
pub use parser::{one_answer_for_a_source, one_program_for_tokens, parse, sources_are_grammatical};
pub use tokens::{
    Keyword, Lexed, ListEnd, NESTING_LIMIT, SOURCE_LIMIT, Sign, Suffix, Token, TokenKind, lex,
    nesting_limit_is_as_stated, one_list_for_a_source, source_limit_is_as_stated,
};
