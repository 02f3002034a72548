// Counts that carry their own name, the sizes that are allowed, the table's refusals, and a part put into a buffer.
#![tactic(auto)]

ghost use Rattle.std.specs.Prelude.{◌≡◌, Some};
ghost use Rattle.units.specs.Counts.{symbols_in, bytes_in, pages_in, exponent_at, exponent_back};
ghost use Rattle.units.specs.Sizes.{n_allowed, page_allowed, object_allowed, bucket_allowed, caption_allowed};
ghost use Rattle.units.specs.Writing.{part_put};
ghost use Rattle.units.specs.Refusals.{number, value, shown};

use std::error::Error;
use std::fmt;

#[derive(Clone, Copy, Debug, PartialEq, Eq, Hash)]
pub struct Bytes {
    pub count: usize,
}

#[derive(Clone, Copy, Debug, PartialEq, Eq, Hash)]
pub struct Symbols {
    pub count: usize,
}

// An exponent of α. Whole rounds of α^65535 = 1 need not be kept in it.
#[derive(Clone, Copy, Debug, PartialEq, Eq, Hash)]
pub struct Exponent {
    pub power: u16,
}

// A byte left over counts as a whole symbol. A function and no `From`: `symbols_of_one_answer` is promised of it, as `bytes_of_one_answer` is of the next.
pub fn symbols_of(b: Bytes) -> Symbols
    ensures { result.count ≡ symbols_in 2 b.count }
{
    Symbols {
        count: b.count.div_ceil(2),
    }
}

// A number of bytes that no machine word holds is given as the largest word, which is above every limit.
pub fn bytes_of(s: Symbols) -> Bytes
    ensures { result.count ≡ bytes_in 2 s.count }
{
    Bytes {
        count: s.count.saturating_mul(2),
    }
}

// The last page may be short. Where a page has no bytes there are no pages.
pub fn pages_of(page: Bytes, bucket: Bytes) -> usize
    ensures { result ≡ pages_in page.count bucket.count }
{
    if page.count == 0 {
        return 0;
    }
    bucket.count.div_ceil(page.count)
}

// The exponent of α at a position in a component's sum.
pub fn exponent_of(component: usize, position: Symbols) -> Exponent
    ensures { result.power ≡ exponent_at component position.count }
{
    let j = component % 65535;
    let i = position.count % 65535;
    Exponent {
        power: (j * i % 65535) as u16,
    }
}

// The exponent that undoes a position's: α to the one, times α to the other, is 1.
pub fn exponent_back(position: Symbols) -> Exponent
    ensures { result.power ≡ exponent_back position.count }
{
    Exponent {
        power: (65535 - position.count % 65535) as u16,
    }
}

pub const N_MOST: usize = 4;

pub const PAGE_BYTES_LEAST: usize = 2;

pub const PAGE_BYTES_MOST: usize = 65_536;

pub const OBJECT_SYMBOLS_MOST: usize = 65_534;

pub const BUCKET_BYTES_MOST: usize = 16_777_216;

pub const BUCKET_PAGES_MOST: usize = 4_096;

pub const CAPTION_SYMBOLS_MOST: usize = 32_768;

pub fn n_allowed(n: usize) -> bool
    ensures { result ≡ n_allowed n }
{
    (1..=N_MOST).contains(&n)
}

pub fn page_allowed(page: Bytes) -> bool
    ensures { result ≡ page_allowed page.count }
{
    page.count % 2 == 0 && (PAGE_BYTES_LEAST..=PAGE_BYTES_MOST).contains(&page.count)
}

pub fn object_allowed(object: Symbols) -> bool
    ensures { result ≡ object_allowed object.count }
{
    object.count <= OBJECT_SYMBOLS_MOST
}

pub fn bucket_allowed(bucket: Bytes, pages: usize) -> bool
    ensures { result ≡ bucket_allowed bucket.count pages }
{
    bucket.count <= BUCKET_BYTES_MOST && pages <= BUCKET_PAGES_MOST
}

pub fn caption_allowed(caption: Symbols) -> bool
    ensures { result ≡ caption_allowed caption.count }
{
    caption.count <= CAPTION_SYMBOLS_MOST
}

// Why a call is turned down. Beside three of the reasons the table gives a value.
#[derive(Clone, Copy, Debug, PartialEq, Eq, Hash)]
pub enum Refusal {
    // n outside 1 to 4
    Size,
    // page bytes not allowed
    Page,
    // a size is passed
    Long,
    // an odd byte length where whole symbols are due
    Odd,
    // the map breaks a rule, first at this place
    Map(usize),
    // two lengths, or two n, that belong together differ
    Match,
    // an output is shorter than needed, which is so much
    Room(usize),
    // the pattern has no symbol
    Empty,
    // page number not allowed
    PageNo,
    // this page's image signature is not its entry
    Damaged(usize),
    // one component tells no position
    Thin,
}

impl Refusal {
    // Its number in the table.
    pub fn number(self) -> u32
        ensures { result ≡ number self }
    {
        match self {
            Refusal::Size => 1,
            Refusal::Page => 2,
            Refusal::Long => 3,
            Refusal::Odd => 4,
            Refusal::Map(_) => 5,
            Refusal::Match => 6,
            Refusal::Room(_) => 7,
            Refusal::Empty => 8,
            Refusal::PageNo => 9,
            Refusal::Damaged(_) => 10,
            Refusal::Thin => 14,
        }
    }

    // The value that the table gives beside it.
    pub fn value(self) -> usize
        ensures { result ≡ value self }
    {
        match self {
            Refusal::Map(x) | Refusal::Room(x) | Refusal::Damaged(x) => x,
            _ => 0,
        }
    }
}

impl fmt::Display for Refusal {
    ghost output = { λ r. Some (shown r) };

    fn fmt<W: fmt::Write>(&self, f: &mut fmt::Formatter<W>) -> fmt::Result {
        let number = self.number();
        let value = self.value();
        write!(f, "refused {number} {value}")
    }
}

impl Error for Refusal {}

// A part written over what stood there. Where there is no room for it, all stays as it was.
#[tactic(auto, using(crate::proofs::Writing::part_passed))]
pub fn put_part(part: &[u8], buffer: &mut [u8], at: usize)
    ensures { buffer.new ≡ part_put part.now buffer.old at }
{
    if buffer.len() < at || buffer.len() - at < part.len() {
        return;
    }
    // Not `copy_from_slice`: by it the archive for C would need `memmove` too.
    for (i, x) in part.iter().enumerate() {
        buffer[at + i] = *x;
    }
}
