// Chunk stores: what a store means to its callers, the calls that keep to it, and layers over any store.
#![tactic(auto)]

mod fallback;
mod fault;
mod laws;
mod puts;
mod reading;
mod verifying;

ghost use Rattle.std.specs.Prelude.{◌≡◌, ℕ, ◌≤◌, List, length};
ghost use Rattle.digest.specs.declared.address.Address.{Address};
ghost use Rattle.store.specs.Meaning.{Meaning, chunk, longest, most_units, put_answer, after_put, OrMemory, get_answer, get_buffer, Within, set_answer, after_set};

use digest::{Address, Digest};
pub use fallback::Fallback;
pub use fault::{Part, Put, StoreFault};
pub use laws::{costs_stand, puts_are_lawful};
pub use puts::{Stopped, put_all};
pub use reading::hand_out;
pub use verifying::Verifying;

// A chunk has at most so many bytes.
pub const LONGEST: usize = 2488;

// A chunk store for the digest D, by its meaning.
pub trait ChunkStore<D: Digest> {
    ghost meaning: { Self → Meaning };

    // The states that making a store and its calls lead to. In any other, calls promise nothing but that a get stays within its buffer.
    // Each promise has it as a premise: a type that held it would ask it of callers.
    ghost sound: { Self → Type 0 } = { λ _. Unit {0} };

    // Adds a chunk at its address, unless it is there already.
    fn put(&mut self, chunk: &[u8]) -> Result<Put, StoreFault>
        ensures kept { sound self.old → sound self.new }
        ensures answer { sound self.old → OrMemory (put_answer D.Digest.digests (meaning self.old) chunk.now) result }
        ensures after { sound self.old → meaning self.new ≡ after_put D.Digest.digests (meaning self.old) chunk.now result };

    // Writes the chunk at an address to the start of the buffer, and answers its length, as `Read::read` does: a get allocates nothing.
    // A layer may move its own copies, so it takes `&mut self`; the meaning stays.
    fn get(&mut self, address: Address, buffer: &mut [u8]) -> Result<usize, StoreFault>
        ensures within { Within result (length buffer.old) }
        ensures kept { sound self.old → sound self.new }
        ensures answer { sound self.old → result ≡ get_answer (meaning self.old) address (length buffer.old) }
        ensures written { sound self.old → buffer.new ≡ get_buffer (meaning self.old) address buffer.old }
        ensures same { sound self.old → meaning self.new ≡ meaning self.old };

    // The units that are free.
    fn free_units(&self) -> usize
        ensures { sound self.now → result ≡ (meaning self.now).free };

    ghost small: { (s : Self) (a : Address) (c : List ℕ) → (meaning s).at a ≡ chunk c → length c ≤ longest };

    ghost few: { (s : Self) → (meaning s).free ≤ most_units };
}

// A chunk store that also keeps one root. Changing it needs no memory.
pub trait RootedStore<D: Digest>: ChunkStore<D> {
    fn root(&self) -> Address
        ensures { Self.ChunkStore.sound self.now → result ≡ (Self.ChunkStore.meaning self.now).root };

    // Puts `new` in the place of `old`, for one unit.
    fn set_root(&mut self, old: Address, new: Address) -> Result<(), StoreFault>
        ensures kept { Self.ChunkStore.sound self.old → Self.ChunkStore.sound self.new }
        ensures answer { Self.ChunkStore.sound self.old → result ≡ set_answer (Self.ChunkStore.meaning self.old) old }
        ensures after { Self.ChunkStore.sound self.old → Self.ChunkStore.meaning self.new ≡ after_set (Self.ChunkStore.meaning self.old) new result };
}
