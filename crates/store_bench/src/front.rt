// A digest that costs nothing, so that a store is measured without one: the address is the chunk's first 32 bytes.
ghost use Rattle.std.specs.Prelude.{◌≡◌};
ghost use Rattle.store_bench.specs.Front.{front_address};

use digest::{Address, Digest};

pub struct Front;

// The first 32 bytes as an address, or zero where there are fewer.
pub fn address_of(bytes: &[u8]) -> Address
    ensures { result ≡ front_address bytes.now }
{
    bytes
        .first_chunk()
        .map_or(Address::ZERO, |front| Address::from(*front))
}

impl Digest for Front {
    ghost digests = { front_address };

    fn digest(bytes: &[u8]) -> Address {
        address_of(bytes)
    }
}
