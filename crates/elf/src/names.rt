// Names among the strings, each of which ends at a byte 0.

ghost use Rattle.std.specs.Prelude.{◌≡◌, ◌++◌, ◌∷◌, [], nat_eq};
ghost use Rattle.std.specs.List.{starts_with};
ghost use Rattle.elf.specs.Lookup.{up_to_zero};

/// Whether the strings begin with this name, and a byte 0 behind it.
#[tactic(auto, using(crate::proofs::NameLemmas::named_on, crate::proofs::NameLemmas::named_off, crate::proofs::NameLemmas::named_end, crate::proofs::NameLemmas::too_short))]
pub(crate) fn is_name(strings: &[u8], name: &[u8]) -> bool
    ensures { result ≡ starts_with nat_eq strings.now (name.now ++ 0 ∷ []) }
{
    if strings.len() <= name.len() {
        return false;
    }
    'bytes: for (i, byte) in name.iter().enumerate() {
        if strings[i] != *byte {
            return false;
        }
    }
    strings[name.len()] == 0
}

/// The name that the strings begin with.
#[tactic(auto, using(crate::proofs::NameLemmas::zero_on, crate::proofs::NameLemmas::zero_here, crate::proofs::NameLemmas::zero_done))]
pub(crate) fn first_name(strings: &[u8]) -> &[u8]
    ensures { result.now ≡ up_to_zero strings.now }
{
    'bytes: for (i, byte) in strings.iter().enumerate() {
        if *byte == 0 {
            return &strings[..i];
        }
    }
    strings
}
