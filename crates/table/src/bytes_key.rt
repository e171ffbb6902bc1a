// Kind 2: byte strings of 0 to 32 bytes in bytewise order, a prefix first.
ghost use Rattle.std.specs.Prelude.{◌≡◌, ◌<◌, ◌≤◌, length, MatchResult};
ghost use Rattle.table.specs.Codes.{lex_before};
ghost use Rattle.table.specs.Of.{key_bytes, string};
ghost use Rattle.table.specs.declared.limit.Limit.TheVariants.{LongKey};
ghost use Rattle.table.specs.Texts.{same_string, lex_strict, lex_chain, lex_total};
ghost use Rattle.std.proofs.Common.{rules};

use crate::{Bytes, Key, Limit};

// A byte string as a key. It is its own encoding.
#[derive(Clone, Copy, PartialEq, Eq)]
pub struct BytesKey {
    bytes: Bytes<32>,
}

impl BytesKey {
    // The key with these bytes; refused where there are more than 32. Apart from a cell's `new`: a shared one would have to be told what to refuse.
    pub fn new(s: &[u8]) -> Result<BytesKey, Limit>
        ensures { MatchResult result (λ k. (length s.now ≤ 32) × (key_bytes k ≡ s.now)) (λ e. (32 < length s.now) × (e ≡ LongKey)) }
    {
        let bytes = Bytes::new(s).ok_or(Limit::LongKey)?;
        Ok(BytesKey { bytes })
    }

    // Here and at cells, which are a type of their own so that none is taken for a key.
    pub fn as_slice(&self) -> &[u8]
        ensures { result.now ≡ key_bytes self.now }
    {
        self.bytes.as_slice()
    }
}

// The number of the kind: a byte of the node format, so no enum.
const BYTES_KIND: u8 = 2;

impl Key for BytesKey {
    ghost kind = { 2 };

    ghost code = { key_bytes };

    ghost before = { λ x y. lex_before (key_bytes x) (key_bytes y) };

    ghost byte = { Prim.search rules };

    ghost few = { Prim.search rules };

    ghost apart = { λ x y e i. record { bytes = same_string x.bytes y.bytes e i } };

    ghost strict = { λ x. lex_strict (string x.bytes) };

    ghost chain = { λ x y z. lex_chain (string x.bytes) (string y.bytes) (string z.bytes) };

    ghost total = { λ x y p q i. record { bytes = same_string x.bytes y.bytes (lex_total (string x.bytes) (string y.bytes) p q) i } };

    fn number() -> u8 {
        BYTES_KIND
    }

    fn precedes(&self, other: &BytesKey) -> bool {
        self.as_slice() < other.as_slice()
    }

    fn encode(&self) -> Bytes<32> {
        self.bytes
    }

    fn decode(s: &[u8]) -> Option<BytesKey> {
        BytesKey::new(s).ok()
    }
}
