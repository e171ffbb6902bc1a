// Chunks as they are written.
ghost use Rattle.std.specs.Prelude.{◌≡◌, ◌≤◌, length};

use store::LONGEST;

// The bytes of a chunk, written one behind the other in a place of fixed size. No chunk is longer. A buffer and its length by hand:
// a chunk is `Copy`, and the library's `ArrayVec` is not.
#[derive(Clone, Copy)]
pub struct Chunk {
    pub(crate) bytes: [u8; LONGEST],
    pub(crate) len: usize,
    ghost whole: { length bytes ≡ 2488 },
    ghost short: { len ≤ 2488 },
}
