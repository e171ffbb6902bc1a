// Kind 1: signed 64-bit integers in numeric order.
ghost use Rattle.std.specs.Prelude.{◌≡◌, ◌^◌, ◌<◌, length, int_lt};
ghost use Rattle.std.specs.Int.Signed.{mag};
ghost use Rattle.table.specs.Codes.{int_code};
ghost use Rattle.std.proofs.Common.{rules, arith};

use crate::{Bytes, Key};

// A signed integer. Its encoding is 8 bytes in two's complement.
#[derive(Clone, Copy, Debug, PartialEq, Eq)]
pub struct IntKey {
    value: i64,
    ghost fits: { mag value < 2 ^ 63 },
}

impl IntKey {
    pub fn new(value: i64) -> IntKey
        ensures { result.value ≡ value }
    {
        IntKey { value }
    }

    pub fn get(self) -> i64
        ensures { result ≡ self.value }
    {
        self.value
    }
}

// The number of the kind: a byte of the node format, so no enum.
const INT_KIND: u8 = 1;

impl Key for IntKey {
    ghost use Rattle.table.specs.Ints.{int_apart, int_total};

    ghost kind = { 1 };

    ghost code = { λ x. int_code x.value };

    ghost before = { λ x y. int_lt x.value y.value };

    ghost byte = { Prim.search rules };

    ghost few = { Prim.search rules };

    ghost apart = { int_apart };

    ghost strict = { Prim.search rules };

    ghost chain = { Prim.search rules };

    ghost total = { int_total };

    fn number() -> u8 {
        INT_KIND
    }

    fn precedes(&self, other: &IntKey) -> bool {
        self.get() < other.get()
    }

    fn encode(&self) -> Bytes<32> {
        Bytes::new(&self.value.to_be_bytes()).unwrap()
    }

    fn decode(s: &[u8]) -> Option<IntKey> {
        let bytes = <[u8; 8]>::try_from(s).ok()?;
        Some(IntKey::new(i64::from_be_bytes(bytes)))
    }
}
