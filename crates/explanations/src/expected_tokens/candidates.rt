// The tokens that are tried, one of each kind.

ghost use Rattle.std.specs.Prelude.{◌≡◌, map};
ghost use Rattle.explanations.specs.expected_tokens.Candidates.{candidates};

/// What each kind of token is called, and one of that kind; operators of a kind may stand in the same places. The empty
/// text is the end of the source.
const CANDIDATES: [(&str, &str); 33] = [
    ("`;`", ";"),
    ("`,`", ","),
    ("`)`", ")"),
    ("`]`", "]"),
    ("`{`", "{"),
    ("`}`", "}"),
    ("`(`", "("),
    ("`[`", "["),
    ("`=`", "="),
    ("a name", "x"),
    ("a number", "1"),
    ("`true` or `false`", "true"),
    ("`select`", "select"),
    ("an operator before its operand", "!"),
    ("an arithmetic operator", "+"),
    ("a bitwise operator", "&"),
    ("a comparison", "=="),
    ("a logical operator", "&&"),
    ("`public` or `secret`", "public"),
    ("`mut`", "mut"),
    ("`bool`", "bool"),
    ("`uint8`", "uint8"),
    ("`uint16`", "uint16"),
    ("`uint32`", "uint32"),
    ("`void`", "void"),
    ("`export`", "export"),
    ("`if`", "if"),
    ("`else`", "else"),
    ("`for`", "for"),
    ("`from`", "from"),
    ("`to`", "to"),
    ("`return`", "return"),
    ("the end", ""),
];

/// The tokens that are tried, in the order in which they are listed.
pub(crate) fn candidates() -> &'static [(&'static str, &'static str)]
    ensures { map (λ both. (both.0.now, both.1.now)) result.now ≡ candidates }
{
    &CANDIDATES
}
