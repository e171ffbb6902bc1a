// What a table's tree is, and the laws of it. These functions compute nothing: each has the check ask for the proof of a theorem.
#![tactic(auto)]

ghost use Rattle.tree_laws.specs.Examples.{Examples};
ghost use Rattle.tree_laws.specs.Laws.{CutLaws, FewLevels, RootsTell, OneTable};
ghost use Rattle.tree_laws.specs.Tables.{RootLaws};

use digest::WholeDigest;
use table::Key;

// The nodes of a level are its entries; the rule fixes them; cutting starts again at each boundary, so that an edit reaches no
// further than the first boundary that the old and the new cut share; a node has 1 to 32 entries, and all but the last at least 2.
pub fn cutting_is_lawful<X>()
    ensures { CutLaws X }
{}

// A table of at most 65,536 rows has one root, of level 15 at most.
pub fn levels_are_few()
    ensures { FewLevels }
{}

// Equal roots mean equal rows, or two chunks, one of each tree, that differ and have one address.
pub fn roots_tell_rows<D: WholeDigest>()
    ensures { RootsTell D.Digest.digests }
{}

// In one store, which has one chunk at an address, equal roots mean equal rows.
pub fn one_store_one_table<D: WholeDigest>()
    ensures { OneTable D.Digest.digests }
{}

// Small tables, worked out: marks of keys, leaves, levels and chunks.
pub fn examples_stand()
    ensures { Examples }
{}

// What a root address tells of tables over one key kind: equal tables have one root; one root means equal tables, or two chunks,
// one of each tree, that differ and have one address; and in one store a root address has one table.
pub fn roots_tell_tables<K: Key, D: WholeDigest>()
    ensures { RootLaws D.Digest.digests K.Key.kind K.Key.code K.Key.before }
{}
