// Digests: the address of 32 bytes that a byte string has, by SHA-256 or by FNV-1a.
#![tactic(auto)]

mod address;
mod fnv;
mod sha;

ghost use Rattle.std.specs.Prelude.{◌≡◌, ℕ, List};
ghost use Rattle.digest.specs.Bytes.{Whole};
ghost use Rattle.digest.specs.declared.address.Address.{Address};

pub use address::{Address, conversions_undo, equality_is_exact, order_is_bytewise};
pub use fnv::{Fnv64, FnvWord, fnv1a, fnv1a_from, fnv32_vectors_stand};
pub use sha::{Sha256, padding_fills};

// A digest, by the function from byte strings to addresses that it computes. Code that needs one has it as a type parameter.
pub trait Digest {
    ghost digests: { List ℕ → Address };

    fn digest(bytes: &[u8]) -> Address
        ensures { result ≡ digests bytes.now };
}

// A digest whose addresses are 32 bytes, also where the definition is asked of numbers that are no bytes.
pub trait WholeDigest: Digest {
    ghost whole: { (b : List ℕ) → Whole (Self.Digest.digests b) };
}
