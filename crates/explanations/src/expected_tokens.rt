// Which tokens may stand where a source has another one, or ends too early.
//
// It promises of each kind of token whether a program begins with the tokens before that place and one of that kind
// (`specs/expected_tokens/Expected.antt`): it asks the parser of `syntax`, on whose definition of what is read it
// stands.

mod candidates;
mod expecting;

pub use expecting::expected;
