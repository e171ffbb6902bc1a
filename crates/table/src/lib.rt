// Keys, cells and the entries of tables.
#![tactic(auto)]

mod bytes;
mod bytes_key;
mod cell;
mod entry;
mod int_key;
mod limit;
mod strings;

ghost use Rattle.std.specs.Prelude.{◌≡◌, ℕ, ◌<◌, ◌≤◌, Bool, true, false, List, length, MatchOption, ◌≢◌};
ghost use Rattle.table.specs.Of.{string};

pub use bytes::Bytes;
pub use bytes_key::BytesKey;
pub use cell::Cell;
pub use entry::{Entry, tables_equal_by_key};
pub use int_key::IntKey;
pub use limit::Limit;

// A lawful key kind: a number, a total order, and an encoding that tells keys apart. One trait has all laws of a kind, so `encode` and
// `decode` are no `From` and `TryFrom`. The order is no `Ord`: the theorems and the kinds that others add speak of `before`,
// and `Ord` would ask four impls of each kind, with their laws.
pub trait Key: Copy {
    // The number of the kind: a byte of the node format, so no enum.
    ghost kind: { ℕ };

    // The encoding.
    ghost code: { Self → List ℕ };

    // The order.
    ghost before: { Self → Self → Bool };

    fn number() -> u8
        ensures { result ≡ kind };

    // Whether this key comes before another.
    fn precedes(&self, other: &Self) -> bool
        ensures { result ≡ before self.now other.now };

    fn encode(&self) -> Bytes<32>
        ensures { string result ≡ code self.now };

    // The key with this encoding; none where no key has it.
    fn decode(s: &[u8]) -> Option<Self>
        ensures { MatchOption result ((x : Self) → code x ≢ s.now) (λ x. code x ≡ s.now) };

    ghost byte: { kind < 256 };

    ghost few: { (x : Self) → length (code x) ≤ 32 };

    ghost apart: { (x y : Self) → code x ≡ code y → x ≡ y };

    ghost strict: { (x : Self) → before x x ≡ false };

    ghost chain: { (x y z : Self) → before x y ≡ true → before y z ≡ true → before x z ≡ true };

    ghost total: { (x y : Self) → before x y ≡ false → before y x ≡ false → x ≡ y };
}
