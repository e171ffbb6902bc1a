// What holds of every put and every cost. These functions compute nothing: each has the check ask for the proof of a theorem.
ghost use Rattle.store.specs.Costs.{Costs};
ghost use Rattle.store.specs.Laws.{PutLaws};

use digest::Digest;

// A put leaves every other address and the root; what is held stays held; puts of held chunks change nothing; two accepted puts
// give the same meaning in either order.
pub fn puts_are_lawful<D: Digest>()
    ensures { PutLaws D.Digest.digests }
{}

// The cost of a chunk at the edges.
pub fn costs_stand()
    ensures { Costs }
{}
