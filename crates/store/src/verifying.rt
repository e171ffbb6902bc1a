// A layer that gives a chunk only if its digest is its address.
ghost use Rattle.std.specs.Prelude.{◌≡◌};
ghost use Rattle.digest.specs.Bytes.{same_address};
ghost use Rattle.store.specs.Meaning.{checked};
ghost use Rattle.std.proofs.Common.{rules};

use crate::{ChunkStore, LONGEST, Put, RootedStore, StoreFault, hand_out};
use digest::{Address, Digest};

// The store below, except that a chunk whose digest is not its address is bad.
#[derive(Drop)]
pub struct Verifying<S> {
    pub inner: S,
}

// Whether an address is that of the bytes.
fn verifies<D: Digest>(bytes: &[u8], address: Address) -> bool
    ensures { result ≡ same_address (D.Digest.digests bytes.now) address }
{
    D::digest(bytes) == address
}

impl<D: Digest, S: ChunkStore<D>> ChunkStore<D> for Verifying<S> {
    ghost meaning = { λ v. checked D.Digest.digests (S.ChunkStore.meaning v.inner) };

    ghost sound = { λ v. S.ChunkStore.sound v.inner };

    ghost small = { Prim.search rules };

    ghost few = { Prim.search rules };

    // A collision with a chunk that does not verify is a bad chunk.
    fn put(&mut self, chunk: &[u8]) -> Result<Put, StoreFault> {
        match self.inner.put(chunk) {
            Err(StoreFault::Collision(address)) => {
                // Of fixed size, here and in `get`, so that a layer allocates nothing.
                let mut kept = [0; LONGEST];
                let n = self.inner.get(address, &mut kept)?;
                if verifies::<D>(&kept[..n], address) {
                    Err(StoreFault::Collision(address))
                } else {
                    Err(StoreFault::Bad(address))
                }
            }
            answer => answer,
        }
    }

    // The chunk goes through a buffer of the layer's own, so that a bad one leaves the caller's as it was.
    fn get(&mut self, address: Address, buffer: &mut [u8]) -> Result<usize, StoreFault> {
        let mut kept = [0; LONGEST];
        let n = self.inner.get(address, &mut kept)?;
        if !verifies::<D>(&kept[..n], address) {
            return Err(StoreFault::Bad(address));
        }
        hand_out(&kept[..n], address, buffer)
    }

    fn free_units(&self) -> usize {
        self.inner.free_units()
    }
}

impl<D: Digest, S: RootedStore<D>> RootedStore<D> for Verifying<S> {
    fn root(&self) -> Address {
        self.inner.root()
    }

    fn set_root(&mut self, old: Address, new: Address) -> Result<(), StoreFault> {
        self.inner.set_root(old, new)
    }
}
