ghost use Rattle.std.specs.Prelude.{◌≡◌, ◌^◌, ◌<◌};
ghost use Rattle.digest.specs.Bytes.{Whole};

use digest::Address;
use std::alloc::AllocError;

// An entry of a higher node: the greatest key below, the address of the child's chunk, and the number of table entries below.
#[derive(Copy)]
pub struct Child<K> {
    pub key: K,
    pub at: Address,
    pub below: u32,
    ghost whole: { Whole at },
    ghost fits: { below < 2 ^ 32 },
}

// By hand: the derive refuses a generic struct with ghost fields.
impl<K: Copy> Clone for Child<K> {
    ghost is_clone = { λ x y. y ≡ x };

    ghost is_infallible = { λ _. Unit {0} };

    fn clone(&self) -> Result<Child<K>, AllocError> {
        Ok(*self)
    }
}
