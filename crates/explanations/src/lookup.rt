ghost use Rattle.std.specs.Prelude.{◌≡◌, ◌↔◌, map, IfSome, IsSome, Contains};
ghost use Rattle.std.specs.List.{IsDistinct};
ghost use Rattle.std.specs.Option.{option_map};
ghost use Rattle.std.specs.Str.{bytes_eq};
ghost use Rattle.explanations.specs.Listed.{listed};
ghost use Rattle.explanations.specs.Table.{HasItsName, text_of};

use crate::row::Explanation;
use crate::rows::{executables, inputs, limits, names, reading, runs, secrecy, types};

/// All codes, in the order of the tables.
const CODES: [&str; 64] = [
    "X1",
    "X2",
    "X3",
    "X4",
    "X5",
    "N1",
    "N2",
    "N3",
    "N4",
    "T1",
    "T2",
    "T3",
    "T4",
    "T5",
    "T6",
    "T7",
    "T8",
    "T9",
    "L1",
    "L2",
    "L3",
    "L4",
    "L5",
    "L6",
    "L7",
    "S1",
    "S2",
    "I1",
    "I2",
    "S3",
    "M1",
    "B1",
    "B2",
    "B3",
    "B4",
    "B5",
    "B6",
    "A1",
    "A2",
    "A3",
    "H1",
    "H2",
    "H3",
    "H4",
    "V1",
    "V2",
    "C1",
    "C2",
    "C3",
    "G1",
    "G2",
    "G3",
    "G4",
    "G5",
    "F1",
    "E1",
    "E2",
    "Ecall",
    "Break",
    "Illegal",
    "AccessFault",
    "Misaligned",
    "Budget",
    "RecorderRefused",
];

/// What a code means, with the table's text of it and, of a rule, its name: there is an answer exactly for the codes
/// that are listed.
pub fn explanation(code: &str) -> Option<Explanation>
    ensures text { option_map (λ row. row.rule.now) result ≡ text_of code.now }
    ensures asked { IfSome result (λ row. row.code.now ≡ code.now) }
    ensures named { IfSome result HasItsName }
    ensures listed { IsSome result ↔ (Contains listed code.now) }
{
    reading::row(code)
        .or(names::row(code))
        .or(types::row(code))
        .or(secrecy::row(code))
        .or(limits::row(code))
        .or(inputs::row(code))
        .or(executables::row(code))
        .or(runs::row(code))
}

/// The codes that are explained, each once.
pub fn codes() -> &'static [&'static str]
    ensures all { map (λ code. code.now) result.now ≡ listed }
    ensures once { IsDistinct bytes_eq listed }
{
    &CODES
}
