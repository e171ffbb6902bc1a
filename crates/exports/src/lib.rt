// C entry points, for the measurements of bench/ to link.
#![tactic(auto)]

ghost use Rattle.std.specs.Prelude.{◌≡◌};
ghost use Rattle.digest.specs.Sha256.{sha256_address};

use digest::{Digest, Sha256};

// The highest eight bytes of the address, as a number.
#[unsafe(no_mangle)]
pub extern "C" fn prolly_sha256_high(bytes: &[u8]) -> u64
    ensures { result ≡ (sha256_address bytes.now).w0 }
{
    Sha256::digest(bytes).w0
}
