// What a node holds: entries of a table, or children.
ghost use Rattle.std.specs.Prelude.{◌≡◌, ℕ, ◌+◌, ◌^◌, ◌<◌, ◌≤◌, Bool, List, ◌++◌, length, MatchOption, ◌≢◌};
ghost use Rattle.digest.specs.Bytes.{Whole};
ghost use Rattle.table.specs.Of.{cell_bytes};
ghost use Rattle.tree_laws.specs.Layout.{sized};
ghost use Rattle.node.specs.Chunks.{written};
ghost use Rattle.table.specs.Texts.{same_string};
ghost use Rattle.tree_laws.proofs.Layouts.{same_sized};
ghost use Rattle.std.proofs.Common.{rules, arith};
ghost use Rattle.node.specs.Nodes.{entry_key, entry_value, leaf_level, child_key, child_value, inner_level};
ghost use Rattle.node.specs.Links.{link_length, same_link, whole_prop};
ghost use mathlib.Core.HLevel.{is_prop→PathP};
ghost use Rattle.std.proofs.Math.Bridge.{le_prop};

use crate::child::Child;
use crate::chunk::Chunk;
use digest::Address;
use table::{Cell, Entry, Key};

// An entry of a node, as the code for all levels sees it: a key, and the bytes that stand behind it.
pub trait Item<K: Key>: Copy {
    // The key.
    ghost named: { Self → K };

    // The bytes behind the key.
    ghost value: { Self → List ℕ };

    // The number of table entries at or below it.
    ghost below: { Self → ℕ };

    // The levels of nodes that hold such entries.
    ghost holds: { ℕ → Bool };

    fn key(&self) -> K
        ensures { result ≡ named self.now };

    fn count_below(&self) -> u32
        ensures { result ≡ below self.now };

    fn is_level(level: u8) -> bool
        ensures { result ≡ holds level };

    fn write_value(&self, chunk: &mut Chunk)
        requires { chunk.old.len + 41 ≤ 2488 }
        ensures text { written chunk.new ≡ written chunk.old ++ value self.now }
        ensures len { chunk.new.len ≡ chunk.old.len + length (value self.now) };

    // The entry with this key whose bytes behind the key are at the start of `s`, and the rest of `s`.
    fn read_value(key: K, s: &[u8]) -> Option<(Self, &[u8])>
        ensures { MatchOption result ((x : Self) (t : List ℕ) → named x ≡ key → s.now ≢ value x ++ t) (λ p. (named p.0 ≡ key) × (s.now ≡ value p.0 ++ p.1.now)) };

    ghost short: { (x : Self) → length (value x) ≤ 41 };

    ghost apart: { (x y : Self) (s t : List ℕ) → named x ≡ named y → value x ++ s ≡ value y ++ t → (x ≡ y) × (s ≡ t) };
}

// The bytes that stand behind their length at the start of `s`, and the rest of `s`; none where they are cut off.
pub(crate) fn read_sized(s: &[u8]) -> Option<(&[u8], &[u8])>
    ensures { MatchOption result ((a t : List ℕ) → s.now ≢ sized a ++ t) (λ p. s.now ≡ sized p.0.now ++ p.1.now) }
{
    let (len, rest) = s.split_first()?;
    rest.split_at_checked(usize::from(*len))
}

impl<K: Key> Item<K> for Entry<K> {
    ghost named = { entry_key };

    ghost value = { entry_value };

    ghost below = { λ _. 1 };

    ghost holds = { leaf_level };

    ghost short = { Prim.search rules };

    ghost apart = { λ x y s t k e.
        let h = same_sized (cell_bytes x.cell) (cell_bytes y.cell) s t e in
        let b = same_string x.cell.bytes y.cell.bytes h.0 in
        ((λ i. record { key = k i; cell = record { bytes = b i } }), h.1) };

    fn key(&self) -> K {
        self.key
    }

    fn count_below(&self) -> u32 {
        1
    }

    fn is_level(level: u8) -> bool {
        level == 0
    }

    fn write_value(&self, chunk: &mut Chunk) {
        chunk.append_sized(self.cell.as_slice());
    }

    fn read_value(key: K, s: &[u8]) -> Option<(Entry<K>, &[u8])> {
        let (bytes, rest) = read_sized(s)?;
        let cell = Cell::new(bytes).ok()?;
        Some((Entry { key, cell }, rest))
    }
}

impl<K: Key> Item<K> for Child<K> {
    ghost named = { child_key };

    ghost value = { child_value };

    ghost below = { λ c. c.below };

    ghost holds = { inner_level };

    ghost short = { λ x. omega (arith, link_length x.at x.below) };

    ghost apart = { λ x y s t k e.
        let h = same_link x.at y.at x.below y.below s t x.whole y.whole x.fits y.fits e in (
          (λ i. record {
            key = k i;
            at = h.0 i;
            below = h.1 i;
            whole = is_prop→PathP (λ j. Whole (h.0 j)) (λ j. whole_prop (h.0 j)) x.whole y.whole i;
            fits = is_prop→PathP (λ j. h.1 j < 2 ^ 32) (λ j. le_prop) x.fits y.fits i;
          }),
          h.2,
        ) };

    fn key(&self) -> K {
        self.key
    }

    fn count_below(&self) -> u32 {
        self.below
    }

    fn is_level(level: u8) -> bool {
        (1..=15).contains(&level)
    }

    fn write_value(&self, chunk: &mut Chunk) {
        let at = <[u8; 32]>::from(self.at);
        let below = self.below.to_be_bytes();
        chunk.append(&at);
        chunk.append(&below);
    }

    fn read_value(key: K, s: &[u8]) -> Option<(Child<K>, &[u8])> {
        let (at, rest) = s.split_first_chunk::<32>()?;
        let (below, rest) = rest.split_first_chunk::<4>()?;
        let at = Address::from(*at);
        let below = u32::from_be_bytes(*below);
        Some((Child { key, at, below }, rest))
    }
}
