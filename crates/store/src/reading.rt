// What a get does once the chunk is found.
ghost use Rattle.std.specs.Prelude.{◌≡◌, length};
ghost use Rattle.store.specs.Meaning.{chunk as held, get_at, write_at};

use crate::StoreFault;
use digest::Address;

// Writes a chunk to the start of the buffer and answers its length, as `Read::read` does, so that nothing is allocated; refused, with the
// buffer as it was, where the buffer is shorter.
pub fn hand_out(chunk: &[u8], address: Address, buffer: &mut [u8]) -> Result<usize, StoreFault>
    ensures answer { result ≡ get_at (held chunk.now) address (length buffer.old) }
    ensures written { buffer.new ≡ write_at (held chunk.now) buffer.old }
{
    let n = chunk.len();
    if buffer.len() < n {
        return Err(StoreFault::Short(address));
    }
    buffer[..n].copy_from_slice(chunk);
    Ok(n)
}
