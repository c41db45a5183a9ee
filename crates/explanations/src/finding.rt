ghost use Rattle.std.specs.Prelude.{◌≡◌, map, IfSome, IsTrue};
ghost use Rattle.std.specs.List.{find};
ghost use Rattle.std.specs.Str.{bytes_eq};
ghost use Rattle.explanations.specs.private.Names.{have_names};
ghost use Rattle.explanations.specs.private.RowsFound.{IsRowOf};

use crate::row::Explanation;

/// The first row of a code: there is one exactly if a row has this code.
pub fn row_of(rows: &[Explanation], code: &str) -> Option<Explanation>
    requires { IsTrue (have_names rows.now) }
    ensures { IsRowOf (map (λ row. row.code.now) rows.now)
        (map (λ row. (row.code.now, row.rule.now)) rows.now) code.now result }
{
    first_of(rows, code)
}

/// The first row that has a code.
fn first_of(rows: &[Explanation], code: &str) -> Option<Explanation>
    ensures first { result ≡ find (λ row. bytes_eq row.code.now code.now) rows.now }
    ensures asked { IfSome result (λ row. row.code.now ≡ code.now) }
{
    rows.iter().copied().find(|row| row.code == code)
}
