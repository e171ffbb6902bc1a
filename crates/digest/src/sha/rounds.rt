// The 64 rounds over one block, with sixteen words of the schedule held at a time.
ghost use Rattle.std.specs.Prelude.{◌≡◌, ◌+◌, ◌%◌, ◌<◌, ◌≤◌, length, slice_index};
ghost use Rattle.digest.specs.declared.sha.functions.Words.{Words};
ghost use Rattle.digest.specs.Sha256.{next_word, compress, words_of};
ghost use Rattle.digest.specs.Rounds.{Leads};

use super::constants::constant;
use super::functions::{Words, next_word, step, sum};

// What is held between two rounds: the working words, and sixteen words of the schedule, word t at place t % 16.
#[derive(Clone, Copy)]
pub struct Held {
    words: Words,
    window: [u32; 16],
}

// A round up to the sixteenth, T: its word is the block's own.
fn first<const T: usize>(held: &mut Held)
    requires { T < 16 }
    ensures { Leads T (T + 1) held.old held.new }
{
    let words = held.words;
    held.words = step(words, constant(T), held.window[T]);
}

// The word that is due at a place: from those that stand 2, 7, 15 and 16 words back, the last at the place itself.
fn due<const PLACE: usize>(window: [u32; 16]) -> u32
    requires { PLACE < 16 }
    ensures { result ≡ next_word (slice_index window ((PLACE + 14) % 16)) (slice_index window ((PLACE + 9) % 16)) (slice_index window ((PLACE + 1) % 16)) (slice_index window PLACE) }
{
    next_word(
        window[(PLACE + 14) % 16],
        window[(PLACE + 9) % 16],
        window[(PLACE + 1) % 16],
        window[PLACE],
    )
}

// A round past the sixteenth, t, at the place t % 16: its word is worked out as it comes, and takes the place of the oldest.
fn later<const PLACE: usize>(held: &mut Held, t: usize)
    requires { (16 ≤ t) × (t < 64) × (t % 16 ≡ PLACE) }
    ensures { Leads t (t + 1) held.old held.new }
{
    let x = due::<PLACE>(held.window);
    held.window[PLACE] = x;
    let words = held.words;
    held.words = step(words, constant(t), x);
}

// The rounds over the block's own words. They are written out one by one, so that each word has a fixed place: a loop over t was tried,
// and costs a fifth of the speed.
fn first_sixteen(held: &mut Held)
    ensures { Leads 0 16 held.old held.new }
{
    first::<0>(held);
    first::<1>(held);
    first::<2>(held);
    first::<3>(held);
    first::<4>(held);
    first::<5>(held);
    first::<6>(held);
    first::<7>(held);
    first::<8>(held);
    first::<9>(held);
    first::<10>(held);
    first::<11>(held);
    first::<12>(held);
    first::<13>(held);
    first::<14>(held);
    first::<15>(held);
}

// Sixteen rounds more, from t on, written out for the same reason.
fn sixteen_more(held: &mut Held, t: usize)
    requires { (16 ≤ t) × (t ≤ 48) × (t % 16 ≡ 0) }
    ensures { Leads t (t + 16) held.old held.new }
{
    later::<0>(held, t);
    later::<1>(held, t + 1);
    later::<2>(held, t + 2);
    later::<3>(held, t + 3);
    later::<4>(held, t + 4);
    later::<5>(held, t + 5);
    later::<6>(held, t + 6);
    later::<7>(held, t + 7);
    later::<8>(held, t + 8);
    later::<9>(held, t + 9);
    later::<10>(held, t + 10);
    later::<11>(held, t + 11);
    later::<12>(held, t + 12);
    later::<13>(held, t + 13);
    later::<14>(held, t + 14);
    later::<15>(held, t + 15);
}

// The 64 rounds over the block whose words are `m`, and the sums at their end.
fn compress_words(s: Words, m: [u32; 16]) -> Words
    ensures { result ≡ compress s m }
{
    let mut held = Held {
        words: s,
        window: m,
    };
    first_sixteen(&mut held);
    for group in 1..4 {
        sixteen_more(&mut held, 16 * group);
    }
    sum(s, held.words)
}

// The sixteen words of a block. A `for`: with `array::from_fn` the proof of what the words are did not close.
fn load(block: &[u8; 64]) -> [u32; 16]
    ensures { result ≡ words_of 16 block.now }
{
    let (words, _) = block.as_chunks::<4>();
    let mut w = [0u32; 16];
    for (i, word) in words.iter().enumerate() {
        w[i] = u32::from_be_bytes(*word);
    }
    w
}

// The hash value after one block more.
pub(super) fn take_block(s: Words, block: &[u8; 64]) -> Words
    ensures { result ≡ compress s (words_of 16 block.now) }
{
    compress_words(s, load(block))
}
