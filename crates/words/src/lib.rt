// The components of an object, word by word: a row of words is divided by a relation of α until few are left, and those are summed and reduced.
#![tactic(auto)]

ghost use Rattle.std.specs.Prelude.{◌≡◌, ℕ, ◌+◌, ◌*◌, ◌≤◌, ◌<◌, List, ◌∷◌, length};
ghost use Rattle.std.proofs.Common.{lit≤};
ghost use Rattle.field.specs.Field.{GF16, α, ◌⊕◌, product, power};
ghost use Rattle.field.specs.Field.{reduced as field_reduced};
ghost use Rattle.components.specs.Objects.{low_first};
ghost use Rattle.components.specs.Components.{signature};
ghost use Rattle.components.specs.Relations.{Relation, Holds, own, third as by_third};
ghost use Rattle.components.specs.Words.{of_word, of_words};
ghost use Rattle.words.specs.Rows.{two, four, Stands};

use std::array;

// Components 1 and 2. A type beside `Four`, and no array: `two` and `four`, which are promised of `first_two` and `first_four`, have these fields.
#[derive(Clone, Copy)]
pub struct Two {
    pub s1: u16,
    pub s2: u16,
}

// Components 1 to 4.
#[derive(Clone, Copy)]
pub struct Four {
    pub s1: u16,
    pub s2: u16,
    pub s3: u16,
    pub s4: u16,
}

pub fn first(object: &[u8]) -> u16
    ensures { result ≡ signature GF16 2 object.now 1 }
{
    let r: Row = left(object);
    reduced(few_words(&r, 1))
}

pub fn first_two(object: &[u8]) -> Two
    ensures { result ≡ two object.now }
{
    let r: Row = left(object);
    Two {
        s1: reduced(few_words(&r, 1)),
        s2: reduced(few_words(&r, 2)),
    }
}

pub fn first_four(object: &[u8]) -> Four
    ensures { result ≡ four object.now }
{
    let long: LongRow = left(object);
    let r: Row = left(object);
    Four {
        s1: reduced(few_words(&r, 1)),
        s2: reduced(few_words(&r, 2)),
        s3: third(long),
        s4: fourth(r),
    }
}

// ---- The object is divided from its last word down.

// What a relation of α leaves of an object: words of four symbols, the lowest first.
trait Remainder {
    ghost relation: { Relation };

    ghost words: { Self → List ℕ };

    ghost BYTES: { ℕ };

    const BYTES: usize;

    // An object of no more bytes is its own remainder.
    fn whole(object: &[u8]) -> Self
        requires { length object.now ≤ BYTES }
        ensures { (j : ℕ) → of_words j (words result) ≡ signature GF16 2 object.now j };

    // A word below the others, and the last of them, which they then have too many, at the places of the relation.
    fn divided(self, word: u64) -> Self
        ensures { (j : ℕ) → Holds relation j → of_words j (words result) ≡ of_words j (word ∷ words self) };

    ghost a_word_at_least: { 8 ≤ BYTES };
}

// By x^16 = 1 + x + x^3 + x^12, the field's own polynomial.
type Row = [u64; 4];

impl Remainder for Row {
    ghost relation = { own };

    ghost words = { λ r. r };

    ghost BYTES = { 32 };

    ghost a_word_at_least = { lit≤ tt };

    const BYTES: usize = 32;

    // As in the other: a body in the trait would know no length.
    fn whole(object: &[u8]) -> Self {
        words_of(object)
    }

    fn divided(self, word: u64) -> Self {
        let [w0, w1, w2, t] = self;
        [
            word ^ t ^ (t << 16) ^ (t << 48),
            w0 ^ (t >> 48) ^ (t >> 16),
            w1,
            w2 ^ t,
        ]
    }
}

// By x^40 = 1 + x^7 + x^28 + x^32 + x^36.
type LongRow = [u64; 10];

impl Remainder for LongRow {
    ghost relation = { by_third };

    ghost words = { λ r. r };

    ghost BYTES = { 80 };

    ghost a_word_at_least = { lit≤ tt };

    const BYTES: usize = 80;

    // As in the other: a body in the trait would know no length.
    fn whole(object: &[u8]) -> Self {
        words_of(object)
    }

    fn divided(self, word: u64) -> Self {
        let [w0, w1, w2, w3, w4, w5, w6, w7, w8, t] = self;
        [
            word ^ t,
            w0 ^ (t << 48),
            w1 ^ (t >> 16),
            w2,
            w3,
            w4,
            w5,
            w6 ^ t,
            w7 ^ t,
            w8 ^ t,
        ]
    }
}

// The last words are a remainder as they stand, and those below are taken in one by one.
fn left<R: Remainder>(object: &[u8]) -> R
    ensures { (j : ℕ) → Holds R.relation j → of_words j (R.words result) ≡ signature GF16 2 object.now j }
{
    let at = object.len().saturating_sub(R::BYTES).next_multiple_of(8);
    let (below, last) = object.split_at(at);
    let mut r = R::whole(last);
    for bytes in below.as_chunks::<8>().0.iter().rev() {
        r = r.divided(u64::from_le_bytes(*bytes));
    }
    r
}

// ---- Words of an object, low byte first.

// So many words as hold an object.
fn words_of<const W: usize>(object: &[u8]) -> [u64; W]
    requires { length object.now ≤ 8 * W }
    ensures { (j : ℕ) → of_words j result ≡ signature GF16 2 object.now j }
{
    array::from_fn(|i| word_at(object, i))
}

// Past the end of an object there are zeros.
fn word_at(object: &[u8], i: usize) -> u64
    ensures { result ≡ low_first 8 object.now (i * 8) }
{
    let (whole, cut) = object.as_chunks::<8>();
    match whole.get(i) {
        Some(bytes) => u64::from_le_bytes(*bytes),
        None if i == whole.len() => cut_word(cut),
        None => 0,
    }
}

// Byte by byte, from the last one down: by `from_le_bytes` of a copy in eight zeros, signing 131 bytes takes a tenth longer.
fn cut_word(bytes: &[u8]) -> u64
    requires { length bytes.now ≤ 8 }
    ensures { result ≡ low_first 8 bytes.now 0 }
{
    bytes.iter().rev().fold(0, |x, b| (x << 8) + u64::from(*b))
}

// ---- The components of a few words.

// Component 3 of ten words, from the last ones down.
fn third(r: LongRow) -> u16
    ensures { result ≡ of_words 3 r }
{
    let last = reduced(few_words(&r[8..], 3));
    let high = reduced(third_below(last, &r[4..8]));
    reduced(third_below(high, &r[..4]))
}

// Component 3 of four words below others, of which it is known.
fn third_below(above: u16, words: &[u64]) -> u64
    requires { length words.now ≡ 4 }
    ensures { Stands (of_words 3 words.now ⊕ product GF16 above (power GF16 α 48)) 64 result }
{
    (u64::from(above) << 48) ^ few_words(words, 3)
}

// Component 4 of four words: they do not fit 64 digits, and so the last three are reduced by themselves.
fn fourth(r: Row) -> u16
    ensures { result ≡ of_words 4 r }
{
    let above = reduced(few_words(&r[1..], 4));
    reduced((u64::from(above) << 16) ^ one_word(r[0], 4))
}

// Words whose sum fits 64 digits, from the last one down.
fn few_words(words: &[u64], j: u64) -> u64
    requires { (1 ≤ j) × (j ≤ 4) × (j * (4 * length words.now) ≤ 48) }
    ensures { Stands (of_words j words.now) (16 + j * (4 * length words.now)) result }
{
    let mut s = 0;
    for word in words.iter().rev() {
        s = (s << (4 * j)) ^ one_word(*word, j);
    }
    s
}

// Four symbols, summed by shifts.
fn one_word(word: u64, j: u64) -> u64
    requires { (1 ≤ j) × (j ≤ 4) }
    ensures { Stands (of_word j word) (16 + 3 * j) result }
{
    let high = ((word >> 48) << j) ^ (word >> 32) % 65536;
    let low = ((word >> 16) % 65536 << j) ^ word % 65536;
    (high << (2 * j)) ^ low
}

// The sum modulo 1100B hex. How often that goes off is found first: what stands from x^16 on, times the inverse of 1 + x^-4 + x^-13 + x^-15 + x^-16.
fn reduced(s: u64) -> u16
    ensures { result ≡ field_reduced GF16 48 s }
{
    let a = s >> 16;
    let b = a ^ (a >> 4) ^ (a >> 13) ^ (a >> 15) ^ (a >> 16);
    let c = b ^ (b >> 8) ^ (b >> 26) ^ (b >> 30) ^ (b >> 32);
    let d = c ^ (c >> 16);
    let q = d ^ (d >> 32);
    ((s ^ q ^ (q << 1) ^ (q << 3) ^ (q << 12)) % 65536) as u16
}
