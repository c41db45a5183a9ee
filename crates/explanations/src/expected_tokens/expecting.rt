// What may stand behind the beginning of a source.

ghost use Rattle.std.specs.Prelude.{◌≡◌, length, map, IfOk};
ghost use Rattle.explanations.specs.expected_tokens.Candidates.{candidates};
ghost use Rattle.explanations.specs.expected_tokens.Expected.{MayFollow, Expects, lacks_tokens};

use crate::expected_tokens::candidates::candidates;
use language::Rule;
use std::alloc::{AllocError, Global};
use syntax::parse;

/// What the kinds of tokens are called that may stand behind the beginning of a source, in the order of their list.
pub fn expected(alloc: Global, front: &str) -> Result<Vec<&'static str>, AllocError>
    ensures { IfOk result (λ names. Expects front.now candidates (map (λ name. name.now) names.items)) }
{
    let mut names = Vec::new(alloc);
    for (name, token) in candidates() {
        if may_stand(alloc, front, token)? {
            names.push(*name)?;
        }
    }
    Ok(names)
}

/// Whether this token may stand behind the beginning of a source; of an empty one, whether the source may end there.
fn may_stand(alloc: Global, front: &str, token: &str) -> Result<bool, AllocError>
    ensures { IfOk result (MayFollow front.now token.now) }
{
    let text = format!(in alloc; "{front}\n{token}")?;
    match parse(alloc, text.as_str()) {
        Ok(_) => Ok(true),
        Err(refusal) => match refusal.place {
            Some(place) => Ok(lacks_tokens(refusal.rule, place.offset, text.as_str(), token)),
            None => Err(AllocError),
        },
    }
}

/// Whether a text with this last token, refused by a rule behind so many bytes, lacks nothing but more tokens.
fn lacks_tokens(rule: Rule, offset: u32, text: &str, token: &str) -> bool
    ensures { result ≡ lacks_tokens rule offset text.now token.now }
{
    match rule {
        Rule::UnexpectedToken => !token.is_empty() && offset as usize == text.len(),
        _ => false,
    }
}
