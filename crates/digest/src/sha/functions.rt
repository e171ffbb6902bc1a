// The eight working words, the standard's functions on words, and one round made of them.
ghost use Rattle.std.specs.Prelude.{◌≡◌, ◌/◌, ◌^◌, ◌<◌, bit_xor};
ghost use Rattle.digest.specs.Sha256.{ch, maj, rotr, t1, t2, round, next_word, plus};

// The working words of a block; between blocks, the hash value so far.
#[derive(Clone, Copy)]
pub struct Words {
    pub a: u32,
    pub b: u32,
    pub c: u32,
    pub d: u32,
    pub e: u32,
    pub f: u32,
    pub g: u32,
    pub h: u32,
}

// Where x has a one the bit of y, else that of z. With one `and`, where the definition has two.
fn choose(x: u32, y: u32, z: u32) -> u32
    ensures { result ≡ ch x y z }
{
    ((y ^ z) & x) ^ z
}

// The bit that at least two of the three have. The next round needs x ^ y again, as its y ^ z.
fn majority(x: u32, y: u32, z: u32) -> u32
    ensures { result ≡ maj x y z }
{
    ((x ^ y) & (y ^ z)) ^ y
}

// Three rotations to the right: the standard's Σ0 by 2, 13 and 22, and its Σ1 by 6, 11 and 25.
fn big_sigma<const A: u32, const B: u32, const C: u32>(x: u32) -> u32
    requires positive { (0 < A) × (0 < B) × (0 < C) }
    requires within { (A < 32) × (B < 32) × (C < 32) }
    ensures { result ≡ bit_xor (bit_xor (rotr A x) (rotr B x)) (rotr C x) }
{
    x.rotate_right(A) ^ x.rotate_right(B) ^ x.rotate_right(C)
}

// Two rotations and a shift: the standard's σ0 by 7, 18 and 3, and its σ1 by 17, 19 and 10.
fn small_sigma<const A: u32, const B: u32, const C: u32>(x: u32) -> u32
    requires positive { (0 < A) × (0 < B) }
    requires within { (A < 32) × (B < 32) × (C < 32) }
    ensures { result ≡ bit_xor (bit_xor (rotr A x) (rotr B x)) (x / 2 ^ C) }
{
    x.rotate_right(A) ^ x.rotate_right(B) ^ (x >> C)
}

// The schedule word that comes 2, 7, 15 and 16 places behind these four.
pub(super) fn next_word(back2: u32, back7: u32, back15: u32, back16: u32) -> u32
    ensures { result ≡ next_word back2 back7 back15 back16 }
{
    small_sigma::<17, 19, 10>(back2)
        .wrapping_add(back7)
        .wrapping_add(small_sigma::<7, 18, 3>(back15))
        .wrapping_add(back16)
}

// What a round adds to both halves, at the constant `k` and the schedule word `w`.
fn first_temporary(s: Words, k: u32, w: u32) -> u32
    ensures { result ≡ t1 k w s }
{
    s.h.wrapping_add(big_sigma::<6, 11, 25>(s.e))
        .wrapping_add(choose(s.e, s.f, s.g))
        .wrapping_add(k)
        .wrapping_add(w)
}

// What a round adds to the first word alone.
fn second_temporary(s: Words) -> u32
    ensures { result ≡ t2 s }
{
    big_sigma::<2, 13, 22>(s.a).wrapping_add(majority(s.a, s.b, s.c))
}

// One round, at the constant `k` and the schedule word `w`.
pub(super) fn step(s: Words, k: u32, w: u32) -> Words
    ensures { result ≡ round k w s }
{
    let t = first_temporary(s, k, w);
    Words {
        a: t.wrapping_add(second_temporary(s)),
        b: s.a,
        c: s.b,
        d: s.c,
        e: s.d.wrapping_add(t),
        f: s.e,
        g: s.f,
        h: s.g,
    }
}

// The sums, word by word.
pub(super) fn sum(s: Words, t: Words) -> Words
    ensures { result ≡ plus s t }
{
    Words {
        a: s.a.wrapping_add(t.a),
        b: s.b.wrapping_add(t.b),
        c: s.c.wrapping_add(t.c),
        d: s.d.wrapping_add(t.d),
        e: s.e.wrapping_add(t.e),
        f: s.f.wrapping_add(t.f),
        g: s.g.wrapping_add(t.g),
        h: s.h.wrapping_add(t.h),
    }
}
