// How the library's hash map hashes an address.
ghost use Rattle.std.specs.Prelude.{◌≡◌, ◌+◌, ◌*◌, ◌/◌, ◌%◌, ◌^◌, cond, ◌==◌};
ghost use Rattle.index.specs.Hashing.{word_of, hash_of};

use std::hash::{BuildHasher, Hasher};

// An odd number whose products spread over the highest bits.
const SPREAD: u64 = 0x9e37_79b9_7f4a_7c15;

// One past the 24 low bits of a hash.
const PLACES: u64 = 0x100_0000;

// The first eight bytes of what is written, as one number; 0 where there are fewer.
fn first_word(bytes: &[u8]) -> u64
    ensures { result ≡ word_of bytes.now }
{
    bytes
        .first_chunk()
        .map_or(0, |front| u64::from_le_bytes(*front))
}

// An address as far as it was written: its first word, or the first that is not zero, and the sum of its words.
#[derive(Clone, Copy)]
pub struct AddressHasher {
    first: u64,
    sum: u64,
}

impl Hasher for AddressHasher {
    ghost write = { λ s bytes. record { first = cond (s.first == 0) (word_of bytes) s.first; sum = (s.sum + word_of bytes) % 2 ^ 64 } };

    ghost finish = { λ s. hash_of s.first s.sum };

    // A digest has spread the words already, so a hash costs no more than one product. The map takes a key's place from as many of the low bits as
    // it has places for, and tells the keys near a place apart by the 8 bits above.
    fn finish(&self) -> u64 {
        let mark = self.sum.wrapping_mul(SPREAD) >> 56;
        self.first % PLACES + mark * PLACES
    }

    fn write(&mut self, bytes: &[u8]) {
        let word = first_word(bytes);
        if self.first == 0 {
            self.first = word;
        }
        self.sum = self.sum.wrapping_add(word);
    }
}

// Makes a hasher for each address.
#[derive(Clone, Copy)]
pub struct BuildAddressHasher;

impl BuildHasher for BuildAddressHasher {
    type Hasher = AddressHasher;

    ghost build_hasher = { λ _. record { first = 0; sum = 0 } };

    fn build_hasher(&self) -> AddressHasher {
        AddressHasher { first: 0, sum: 0 }
    }
}
