// Pages of a bucket, and what is written of a map: the header, one entry, and the whole map.
ghost use Rattle.std.specs.Prelude.{◌≡◌, ◌*◌, ◌≤◌, length};
ghost use Rattle.units.specs.Writing.{written};
ghost use Rattle.units.specs.Filling.{outcome_of};
ghost use Rattle.signature.specs.Signatures.{handed};
ghost use Rattle.map.specs.Buckets.{page_at};
ghost use Rattle.map.specs.Files.{entries, entry_put, file_bytes};
ghost use Rattle.map.specs.Files.{header as file_header, components as file_components, pages as header_pages};
ghost use Rattle.map.specs.Making.{made_entry, making};

use crate::{
    BUCKET_TAG, ENTRY_TAG, Entry, HEADER_BYTES, Header, N_TAG, PAGE_TAG, pages, place_within,
};
use signature::Signature;
use units::{Bytes, Refusal};

// Page k of a bucket. Past the bucket's end it is empty, and stands at the start.
pub fn page_at<'a>(page: Bytes, bucket: &'a [u8], k: usize) -> &'a [u8]
    ensures { result.now ≡ page_at page.count bucket.now k }
{
    let size = page.count;
    let start = k.saturating_mul(size).min(bucket.len());
    let end = start.saturating_add(size).min(bucket.len());
    if start == end {
        return &bucket[..0];
    }
    &bucket[start..end]
}

// The three fields before the first entry: of each the tag, the length of its value, and the value.
fn header(h: Header) -> [u8; HEADER_BYTES]
    ensures { result ≡ file_header h }
{
    let [n, ..] = h.n.to_le_bytes();
    let [p0, p1, p2, p3, ..] = h.page.count.to_le_bytes();
    let [b0, b1, b2, b3, ..] = h.bucket.count.to_le_bytes();
    [
        N_TAG, 1, 0, n, // components
        PAGE_TAG, 4, 0, p0, p1, p2, p3, // bytes of a page
        BUCKET_TAG, 4, 0, b0, b1, b2, b3, // bytes of the bucket
    ]
}

// Component j of a signature as it is handed over.
pub fn component(s: Signature, j: usize) -> u16
    ensures { result ≡ handed s j }
{
    match j {
        1 => s.s1,
        2 => s.s2,
        3 => s.s3,
        4 => s.s4,
        _ => 0,
    }
}

// By index: over its `chunks_exact_mut` the proof did not close, since nothing is known of what the output then holds.
fn put_components(s: Signature, output: &mut [u8])
    requires { length output.old ≡ 2 * s.n }
    ensures { output.new ≡ file_components s.n (handed s) }
{
    for j in 0..s.n {
        output[2 * j..2 * j + 2].copy_from_slice(&component(s, j + 1).to_le_bytes());
    }
}

// The entry of page k, written over what stood there. Where the map has no room for one it stays as it was.
pub fn put_entry(e: Entry, map: &mut [u8], k: usize)
    ensures { map.new ≡ entry_put e map.old k }
{
    let s = e.signature;
    let at = place_within(s.n, k, map.len());
    let room = map.len() - at;
    if room < 3 || s.n > (room - 3) / 2 {
        return;
    }
    let value = at + 3;
    let [low, high, ..] = (2 * s.n).to_le_bytes();
    map[at..value].copy_from_slice(&[e.tag, low, high]);
    put_components(s, &mut map[value..value + 2 * s.n]);
}

// The entry that a map made from the bucket has for page k.
fn made_entry(h: Header, bucket: &[u8], k: usize) -> Entry
    ensures { result ≡ made_entry h.n h.page.count bucket.now k }
{
    Entry {
        tag: ENTRY_TAG,
        signature: signature::own(h.n, page_at(h.page, bucket, k)),
    }
}

fn put_entries(h: Header, bucket: &[u8], output: &mut [u8])
    requires { file_bytes h.n (header_pages h) ≤ length output.old }
    ensures { output.new ≡ written output.old 18 (entries (made_entry h.n h.page.count bucket.now) 0 (header_pages h)) }
{
    for k in 0..pages(h) {
        put_entry(made_entry(h, bucket, k), output, k);
    }
}

// The map of a bucket, written to the start of the output.
pub fn make(n: usize, page: Bytes, bucket: &[u8], output: &mut [u8]) -> Result<Bytes, Refusal>
    ensures { outcome_of result output.new ≡ making n page.count bucket.now output.old }
{
    if !units::n_allowed(n) {
        return Err(Refusal::Size);
    }
    if !units::page_allowed(page) {
        return Err(Refusal::Page);
    }
    let all = Bytes {
        count: bucket.len(),
    };
    let count = units::pages_of(page, all);
    if !units::bucket_allowed(all, count) {
        return Err(Refusal::Long);
    }
    let needed = HEADER_BYTES + count * (3 + 2 * n);
    if output.len() < needed {
        return Err(Refusal::Room(needed));
    }
    let h = Header {
        n,
        page,
        bucket: all,
    };
    output[..HEADER_BYTES].copy_from_slice(&header(h));
    put_entries(h, bucket, output);
    Ok(Bytes { count: needed })
}
