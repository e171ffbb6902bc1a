// Making byte strings of limited length, reading and comparing them.
ghost use Rattle.std.specs.Prelude.{◌≡◌, ◌<◌, ◌≤◌, length, nat_eq, Decides, MatchOption};
ghost use Rattle.table.specs.Of.{string};
ghost use Rattle.std.specs.Cmp.{on_per, on_equiv, partial_equiv_from_equiv};
ghost use Rattle.std.specs.Cmp.Lexicographic.{pointwise};
ghost use Rattle.std.proofs.lemmas.Cmp.{nat_list_eq_equiv};

use crate::Bytes;

impl<const N: usize> Bytes<N> {
    // The string itself.
    pub fn as_slice(&self) -> &[u8]
        ensures { result.now ≡ string self.now }
    {
        &self.bytes[..self.len]
    }

    // The string, or none where it is longer than N bytes.
    pub fn new(s: &[u8]) -> Option<Bytes<N>>
        ensures { MatchOption result (N < length s.now) (λ b. (length s.now ≤ N) × (string b ≡ s.now)) }
    {
        if s.len() > N {
            return None;
        }
        let mut bytes = [0; N];
        bytes[..s.len()].copy_from_slice(s);
        Some(Bytes {
            bytes,
            len: s.len(),
        })
    }
}

// Equal exactly when the strings are. By hand, since no derive promises `decides`.
impl<const N: usize> PartialEq for Bytes<N> {
    ghost eq = { λ a b. pointwise nat_eq (string a) (string b) };

    ghost laws = { on_per string (partial_equiv_from_equiv nat_list_eq_equiv) };

    fn eq(&self, other: &Bytes<N>) -> bool
        ensures given { result ≡ pointwise nat_eq (string self.now) (string other.now) }
        ensures decides { Decides result (string self.now ≡ string other.now) }
    {
        self.as_slice() == other.as_slice()
    }
}

impl<const N: usize> Eq for Bytes<N> {
    ghost laws = { on_equiv string nat_list_eq_equiv };
}
