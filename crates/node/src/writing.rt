// Writing a chunk, and reading what was written.
ghost use Rattle.std.specs.Prelude.{◌≡◌, ◌+◌, ◌<◌, ◌≤◌, [], ◌∷◌, ◌++◌, length};
ghost use Rattle.tree_laws.specs.Layout.{sized};
ghost use Rattle.node.specs.Chunks.{written};

use crate::chunk::Chunk;
use store::LONGEST;

impl Chunk {
    // An empty one.
    pub fn new() -> Chunk
        ensures text { written result ≡ [] }
        ensures len { result.len ≡ 0 }
    {
        Chunk {
            bytes: [0; LONGEST],
            len: 0,
        }
    }

    // What was written.
    pub fn as_slice(&self) -> &[u8]
        ensures { result.now ≡ written self.now }
    {
        &self.bytes[..self.len]
    }

    // Takes back all that was written.
    pub(crate) fn clear(&mut self)
        ensures text { written self.new ≡ [] }
        ensures len { self.new.len ≡ 0 }
    {
        self.len = 0;
    }

    // One byte more. Here and below the room stays a `requires`: each caller shows it from the length of what it writes, so nothing can fail.
    pub(crate) fn push(&mut self, byte: u8)
        requires { self.old.len < 2488 }
        ensures text { written self.new ≡ written self.old ++ byte ∷ [] }
        ensures len { self.new.len ≡ self.old.len + 1 }
    {
        self.bytes[self.len] = byte;
        self.len += 1;
    }

    // These bytes more.
    pub(crate) fn append(&mut self, s: &[u8])
        requires { self.old.len + length s.now ≤ 2488 }
        ensures text { written self.new ≡ written self.old ++ s.now }
        ensures len { self.new.len ≡ self.old.len + length s.now }
    {
        let at = self.len;
        let end = at + s.len();
        self.bytes[at..end].copy_from_slice(s);
        self.len = end;
    }

    // These bytes more, behind their length.
    pub(crate) fn append_sized(&mut self, s: &[u8])
        requires short { length s.now < 256 }
        requires room { self.old.len + 1 + length s.now ≤ 2488 }
        ensures text { written self.new ≡ written self.old ++ sized s.now }
        ensures len { self.new.len ≡ self.old.len + 1 + length s.now }
    {
        self.push(s.len() as u8);
        self.append(s);
    }
}
