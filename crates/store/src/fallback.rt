// A layer that reads from the back what the front has not, and writes only the front.
ghost use Rattle.std.specs.Prelude.{◌≡◌, length};
ghost use Rattle.store.specs.Meaning.{fallen, get_answer, get_buffer, Within};
ghost use Rattle.std.proofs.Common.{rules};

use crate::{ChunkStore, LONGEST, Put, RootedStore, StoreFault};
use digest::{Address, Digest};

// A rooted front and any chunk store as back.
#[derive(Drop)]
pub struct Fallback<F, B> {
    pub front: F,
    pub back: B,
}

impl<F, B> Fallback<F, B> {
    // A get in the front and, where it has no chunk, in the back.
    fn look<D: Digest>(&mut self, address: Address, buffer: &mut [u8]) -> Result<usize, StoreFault>
    where
        F: ChunkStore<D>,
        B: ChunkStore<D>,
        ensures within { Within result (length buffer.old) }
        ensures kept { F.ChunkStore.sound self.old.front → B.ChunkStore.sound self.old.back → F.ChunkStore.sound self.new.front × B.ChunkStore.sound self.new.back }
        ensures answer { F.ChunkStore.sound self.old.front → B.ChunkStore.sound self.old.back → result ≡ get_answer (fallen (F.ChunkStore.meaning self.old.front) (B.ChunkStore.meaning self.old.back)) address (length buffer.old) }
        ensures written { F.ChunkStore.sound self.old.front → B.ChunkStore.sound self.old.back → buffer.new ≡ get_buffer (fallen (F.ChunkStore.meaning self.old.front) (B.ChunkStore.meaning self.old.back)) address buffer.old }
        ensures front_same { F.ChunkStore.sound self.old.front → F.ChunkStore.meaning self.new.front ≡ F.ChunkStore.meaning self.old.front }
        ensures back_same { B.ChunkStore.sound self.old.back → B.ChunkStore.meaning self.new.back ≡ B.ChunkStore.meaning self.old.back }
    {
        match self.front.get(address, buffer) {
            Err(StoreFault::Absent(_)) => self.back.get(address, buffer),
            Err(StoreFault::Bad(_)) => match self.back.get(address, buffer) {
                read @ (Ok(_) | Err(StoreFault::Short(_))) => read,
                Err(_) => Err(StoreFault::Bad(address)),
            },
            answer => answer,
        }
    }
}

impl<D: Digest, F: RootedStore<D>, B: ChunkStore<D>> ChunkStore<D> for Fallback<F, B> {
    ghost meaning = { λ s. fallen (F.ChunkStore.meaning s.front) (B.ChunkStore.meaning s.back) };

    ghost sound = { λ s. F.ChunkStore.sound s.front × B.ChunkStore.sound s.back };

    ghost small = { Prim.search rules };

    ghost few = { Prim.search rules };

    fn put(&mut self, chunk: &[u8]) -> Result<Put, StoreFault> {
        if chunk.len() > LONGEST {
            return Err(StoreFault::TooLong);
        }
        let address = D::digest(chunk);
        // Of fixed size, so that a layer allocates nothing.
        let mut kept = [0; LONGEST];
        match self.look::<D>(address, &mut kept) {
            Ok(n) if &kept[..n] == chunk => Ok(Put::Held(address)),
            Ok(_) => Err(StoreFault::Collision(address)),
            Err(StoreFault::Absent(_)) => self.front.put(chunk),
            // Made again, since the answer has another type.
            Err(other) => Err(other),
        }
    }

    fn get(&mut self, address: Address, buffer: &mut [u8]) -> Result<usize, StoreFault> {
        self.look::<D>(address, buffer)
    }

    fn free_units(&self) -> usize {
        self.front.free_units()
    }
}

impl<D: Digest, F: RootedStore<D>, B: ChunkStore<D>> RootedStore<D> for Fallback<F, B> {
    fn root(&self) -> Address {
        self.front.root()
    }

    fn set_root(&mut self, old: Address, new: Address) -> Result<(), StoreFault> {
        self.front.set_root(old, new)
    }
}
