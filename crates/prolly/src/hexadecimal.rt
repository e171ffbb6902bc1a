// Byte strings in lowercase hexadecimal, two digits a byte. The library `hex` would take capital digits too.
ghost use Rattle.std.specs.Prelude.{◌≡◌, ◌<◌, MatchOption, MatchResult};
ghost use Rattle.prolly.specs.Hexadecimal.{digit_of, hex, NonDigit};
ghost use Rattle.prolly.specs.declared.hexadecimal.HexFault.TheVariants.{Memory};
ghost use Rattle.prolly.specs.Refusal.{Refuses};

use std::alloc::{AllocError, AllocFailed, Global};
use thiserror::Error;

// Why digits are not those of a byte string. A digit is named by its place, from 0.
#[derive(Clone, Copy, Debug, PartialEq, Eq, Error)]
pub enum HexFault {
    #[error("a byte string has two hexadecimal digits for each byte, but here their number is odd")]
    Odd,
    #[error("character {} of the byte string is not a lowercase hexadecimal digit", .0.saturating_add(1))]
    NoDigit(usize),
    #[error("out of memory")]
    Memory,
}

// By hand, and both, since the library has two errors: a clause of `decode` names the fault that a `?` makes.
impl From<AllocError> for HexFault {
    ghost from_gives = { λ _ r. r ≡ Memory };

    fn from(_: AllocError) -> HexFault {
        HexFault::Memory
    }
}

impl<T: Drop> From<AllocFailed<T>> for HexFault {
    ghost from_gives = { λ _ r. r ≡ Memory };

    fn from(_: AllocFailed<T>) -> HexFault {
        HexFault::Memory
    }
}

fn value_of(digit: u8) -> Option<u8>
    ensures { MatchOption result (NonDigit digit) (λ d. (d < 16) × (digit_of d ≡ digit)) }
{
    match digit {
        b'0'..=b'9' => Some(digit - b'0'),
        b'a'..=b'f' => Some(digit - b'a' + 10),
        _ => None,
    }
}

// The bytes that the digits spell.
pub fn decode(heap: Global, digits: &[u8]) -> Result<Vec<u8>, HexFault>
    ensures { MatchResult result (λ v. hex v.items ≡ digits.now) (λ e. Refuses e digits.now) }
{
    let (pairs, []) = digits.as_chunks::<2>() else {
        return Err(HexFault::Odd);
    };
    // A `for`: through `map` and `try_collect` it was not proved which place a refusal names.
    let mut bytes = Vec::new(heap);
    for (i, &[high, low]) in pairs.iter().enumerate() {
        let high = value_of(high).ok_or(HexFault::NoDigit(2 * i))?;
        let low = value_of(low).ok_or(HexFault::NoDigit(2 * i + 1))?;
        bytes.push(16 * high + low)?;
    }
    Ok(bytes)
}
