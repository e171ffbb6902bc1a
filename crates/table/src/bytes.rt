ghost use Rattle.std.specs.Prelude.{◌≡◌, ◌≤◌, true, length, drop};
ghost use Rattle.table.specs.Codes.{zeros};

// A byte string of at most N bytes. The bytes behind its end are zero, so that equal strings are equal values.
// An array with a length, since keys and cells are `Copy` and use no heap: std has no such type, and an `ArrayVec` is not `Copy`.
#[derive(Clone, Copy)]
pub struct Bytes<const N: usize> {
    pub(crate) bytes: [u8; N],
    pub(crate) len: usize,
    ghost whole: { length bytes ≡ N },
    ghost short: { len ≤ N },
    ghost clear: { zeros (drop len bytes) ≡ true },
}
