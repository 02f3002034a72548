// The signature map of a bucket: its file read field by field, one entry read and written, and the whole map made.
#![tactic(auto)]

mod making;

ghost use Rattle.std.specs.Prelude.{◌≡◌, ◌&&◌, ◌+◌, ◌*◌, ◌^◌, ◌≤◌, ◌<◌, min, length, Some};
ghost use Rattle.units.specs.Refusals.{first};
ghost use Rattle.units.specs.declared.Refusal.TheVariants.{Map};
ghost use Rattle.signature.specs.Objects.{low_first};
ghost use Rattle.signature.specs.Signatures.{up_to};
ghost use Rattle.map.specs.Files.{pages as header_pages, place as file_place};
ghost use Rattle.reader.specs.Fields.{field_at, is_due};
ghost use Rattle.map.specs.Reading.{header_of, header_tests, entry_tests, told, reading, entry_at, shown};

pub use making::{component, make, page_at, put_entry};
pub use reader::ENTRY_TAG;
use reader::{BUCKET_TAG, N_TAG, PAGE_TAG, Reader, Tagged};
use signature::Signature;
use std::error::Error;
use std::{array, fmt};
use units::{Bytes, Refusal};

// The three fields before the first entry.
pub const HEADER_BYTES: usize = 18;

#[derive(Clone, Copy, Debug, PartialEq, Eq, Hash)]
pub struct Header {
    pub n: usize,
    pub page: Bytes,
    pub bucket: Bytes,
}

// One page's field: its tag, and the page's components.
#[derive(Clone, Copy, Debug, PartialEq, Eq, Hash)]
pub struct Entry {
    pub tag: u8,
    pub signature: Signature,
}

// Where a map first breaks a rule.
#[derive(Clone, Copy, Debug, PartialEq, Eq, Hash)]
pub struct Break {
    pub place: usize,
}

impl fmt::Display for Break {
    ghost output = { λ b. Some (shown b) };

    fn fmt<W: fmt::Write>(&self, f: &mut fmt::Formatter<W>) -> fmt::Result {
        let place = self.place;
        write!(f, "map refused at {place}")
    }
}

impl Error for Break {}

impl From<Break> for Refusal {
    ghost from_gives = { λ b r. r ≡ Map b.place };

    fn from(b: Break) -> Refusal {
        Refusal::Map(b.place)
    }
}

// Past the map's end there are zeros. The format gives the place: a `Reader` for one call would be no plainer.
fn four_bytes(map: &[u8], at: usize) -> usize
    requires { at + 3 < 2 ^ 64 }
    ensures { result ≡ low_first 4 map.now at }
{
    // `as`, since there is no `From<u32>` for `usize`
    u32::from_le_bytes(array::from_fn(|i| signature::byte(map, Bytes { count: at + i }))) as usize
}

// Whether a field that was read keeps its rule and has the tag that is due there.
fn due(tag: u8, field: Option<Tagged>) -> bool
    ensures { result ≡ is_due tag field }
{
    field.is_some_and(|field| field.tag == tag)
}

// Whether the field at a place is due there, and its value is allowed. The format gives the place: a `Reader` for one call would be no plainer.
fn keeps_rule(tag: u8, map: &[u8], at: usize, allowed: bool) -> bool
    ensures { result ≡ (is_due tag (field_at 0 map.now at) && allowed) }
{
    due(tag, reader::read_field(0, map, at)) && allowed
}

// What stands in the places of the header's three values.
fn header_of(map: &[u8]) -> Header
    ensures { result ≡ header_of map.now }
{
    Header {
        n: usize::from(signature::byte(map, Bytes { count: 3 })),
        page: Bytes {
            count: four_bytes(map, 7),
        },
        bucket: Bytes {
            count: four_bytes(map, 14),
        },
    }
}

pub fn pages(h: Header) -> usize
    ensures { result ≡ header_pages h }
{
    units::pages_of(h.page, h.bucket)
}

// Not inlined, as `read` is not: among other code the loop over the entries takes up to 1.7 times as long, by where the linker puts it.
#[inline(never)]
fn read_header(map: &[u8]) -> Result<Header, Break>
    ensures { result ≡ told (first (header_tests map.now)) (header_of map.now) }
{
    let h = header_of(map);
    if !keeps_rule(N_TAG, map, 0, units::n_allowed(h.n)) {
        return Err(Break { place: 0 });
    }
    if !keeps_rule(PAGE_TAG, map, 4, units::page_allowed(h.page)) {
        return Err(Break { place: 4 });
    }
    if !keeps_rule(
        BUCKET_TAG,
        map,
        11,
        units::bucket_allowed(h.bucket, pages(h)),
    ) {
        return Err(Break { place: 11 });
    }
    Ok(h)
}

// One entry a page, and nothing after the last.
#[tactic(auto, using(crate::proofs::Entries::ends_kept, crate::proofs::Entries::ends_broken))]
fn read_entries(h: Header, map: &[u8]) -> Result<Header, Break>
    requires { h.n ≤ 4 }
    ensures { result ≡ told (first (entry_tests h.n map.now (header_pages h) 18)) h }
{
    let mut fields = Reader::new(map, HEADER_BYTES);
    for k in 0..pages(h) {
        let place = fields.place;
        if !due(ENTRY_TAG, fields.next(h.n)) {
            return Err(Break { place });
        }
    }
    let place = fields.place;
    if place < map.len() {
        return Err(Break { place });
    }
    Ok(h)
}

// The whole map: the place of its first break, or what its header holds.
#[tactic(auto, using(crate::proofs::Headers::read_broken, crate::proofs::Headers::read_on))]
#[inline(never)]
pub fn read(map: &[u8]) -> Result<Header, Break>
    ensures { result ≡ reading map.now }
{
    let h = read_header(map)?;
    read_entries(h, map)
}

// The entry of page k, in a map of n components. Past the map's end there are zeros.
pub fn entry_at(n: usize, map: &[u8], k: usize) -> Entry
    ensures { result ≡ entry_at n map.now k }
{
    let at = place_within(n, k, map.len());
    Entry {
        tag: signature::byte(map, Bytes { count: at }),
        signature: Signature {
            n,
            s1: component_at(n, 1, map, at),
            s2: component_at(n, 2, map, at),
            s3: component_at(n, 3, map, at),
            s4: component_at(n, 4, map, at),
        },
    }
}

// Where the entry of page k begins, or `most` where that is past it. No product wraps on the way.
fn place_within(n: usize, k: usize, most: usize) -> usize
    ensures { result ≡ min (file_place n k) most }
{
    let size = n.saturating_mul(2).saturating_add(3);
    k.saturating_mul(size)
        .saturating_add(HEADER_BYTES)
        .min(most)
}

// Component j of the entry at a place; zero above n. The format gives the place: a `Reader` for one call would be no plainer.
fn component_at(n: usize, j: usize, map: &[u8], at: usize) -> u16
    requires { (j ≤ 4) × (at ≤ length map.now) }
    ensures { result ≡ up_to n j (low_first 2 map.now (at + 1 + 2 * j)) }
{
    if n < j {
        return 0;
    }
    signature::pair(map, at + 1 + 2 * j)
}
