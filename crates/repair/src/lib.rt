// Repair: a page of the image with one damaged symbol is put right from its map entry.
#![tactic(auto)]

ghost use Rattle.std.specs.Prelude.{◌≡◌, false, ◌<◌, eqb, length, Ok};
ghost use Rattle.units.specs.Naming.{lowest_named};
ghost use Rattle.field.specs.Field.{GF16, α};
ghost use Rattle.field.specs.Field.{product as field_product, power as field_power};
ghost use Rattle.signature.specs.Kinds.{wide};
ghost use Rattle.signature.specs.Objects.{Octets, low_bytes, symbol as object_symbol, symbols as object_symbols};
ghost use Rattle.signature.specs.Operations.{own as object_own};
ghost use Rattle.map.specs.Reading.{reading};
ghost use Rattle.backup.specs.Backups.{same};
ghost use Rattle.repair.specs.Changes.{Tells, changed, fits as change_fits};
ghost use Rattle.repair.specs.Repairs.{put as page_put, mended as page_mended, page_left, outcome_of, open_repair, repairing};

use map::{Entry, Header};
use signature::Signature;
use units::{Bytes, Refusal, Symbols};

// One symbol of a page, counted from 0.
#[derive(Clone, Copy, Debug, PartialEq, Eq, Hash)]
pub struct Change {
    pub position: Symbols,
    pub old: u16,
    pub new: u16,
    // With two components two damaged symbols may pass for one: 8, 6, 0 over three zeros becomes 8, 6, 1.
    pub marked: bool,
}

// What a repair found.
#[derive(Clone, Copy, Debug, PartialEq, Eq, Hash)]
pub enum Repair {
    Whole,
    Repaired(Change),
    // no change of one symbol gives the entry's signature
    Beyond,
}

// Page k of the image, by its entry.
pub fn repair_page(image: &mut [u8], map: &[u8], k: usize) -> Result<Repair, Refusal>
    ensures { outcome_of result image.new ≡ repairing image.old map.now k }
{
    let length = Bytes { count: image.len() };
    let h = backup::open(length, length, map)?;
    repair_on(h, image, map, k)
}

// The same on a backup that was opened: this one function has its parts, and a struct for them would be no plainer.
#[tactic(auto, using(crate::proofs::Mending::open_thin_as))]
fn repair_on(h: Header, image: &mut [u8], map: &[u8], k: usize) -> Result<Repair, Refusal>
    requires { (reading map.now ≡ Ok h) × (length image.old ≡ h.bucket.count) }
    ensures { outcome_of result image.new ≡ open_repair h image.old map.now k }
{
    if k >= map::pages(h) {
        return Err(Refusal::PageNo);
    }
    if h.n < 2 {
        return Err(Refusal::Thin);
    }
    let entry = map::entry_at(h.n, map, k);
    let start = k * h.page.count;
    let end = start + map::page_at(h.page, image, k).len();
    Ok(mend(entry, &mut image[start..end]))
}

// A page by its entry.
fn mend(entry: Entry, page: &mut [u8]) -> Repair
    requires { Tells wide entry.signature page.old }
    ensures { (result ≡ page_mended entry page.old) × (page.new ≡ page_left result page.old) }
{
    let repair = diagnose(entry, page);
    let Repair::Repaired(c) = repair else {
        return repair;
    };
    put_symbol(c.new, page, c.position);
    repair
}

// What is wrong with a page. Every entry that was read has the tag 04; one with another tag would make its page beyond, here and nowhere else.
fn diagnose(entry: Entry, page: &[u8]) -> Repair
    requires { Tells wide entry.signature page.now }
    ensures { result ≡ page_mended entry page.now }
{
    let s = entry.signature;
    let own = signature::own(s.n, page);
    if backup::same(own, s) {
        return Repair::Whole;
    }
    let signed = Signed { page, s, own };
    signed.find()
}

// A page, the signature that its entry holds, which tells where it is wrong, and its own.
#[derive(Clone, Copy)]
struct Signed<'a> {
    page: &'a [u8],
    s: Signature,
    own: Signature,
    // a slice's elements are bytes by its type, a field's are where this says so
    ghost octets: { Octets page.now },
    ghost tells: { Tells wide s page.now },
    ghost signed: { own ≡ object_own wide s.n page.now },
}

impl<'a> Signed<'a> {
    // How the first two components differ names one position and one value there. Whether that fits, the signature of the page changed so decides.
    fn find(&self) -> Repair
        requires { same self.now.own self.now.s ≡ false }
        ensures { result ≡ page_put self.now.s self.now.page.now }
    {
        let d = field::sum(self.own.s1, self.s.s1);
        let count = signature::symbols_in(self.page).count;
        let Some(i) = power_between(d, field::sum(self.own.s2, self.s.s2), count) else {
            return Repair::Beyond;
        };
        let position = Symbols { count: i };
        let old = signature::symbol(self.page, position);
        let new = field::sum(old, field::times_power(d, units::exponent_back(position)));
        if !self.fits(position, new) {
            return Repair::Beyond;
        }
        Repair::Repaired(Change {
            position,
            old,
            new,
            marked: self.s.n == 2,
        })
    }

    // Whether x in the place of symbol i gives the page the signature of its entry. The bound on i stands in three functions as it is: a name for it would be no shorter.
    fn fits(&self, i: Symbols, x: u16) -> bool
        requires { i.count < object_symbols 2 self.now.page.now }
        ensures { result ≡ change_fits wide self.now.s self.now.page.now i.count x }
    {
        if !stays(self.page, i, x) {
            return false;
        }
        let old = low_bytes(signature::symbol(self.page, i));
        let new = low_bytes(x);
        let Ok(t) = signature::edit(self.own, i, &old, &new) else {
            return false;
        };
        backup::same(t, self.s)
    }
}

// The lowest i below m for which a · α^i is b. Not inlined: as a part of `find` the loop takes up to 1.5 times as long, by where the linker puts it.
#[inline(never)]
fn power_between(a: u16, b: u16, m: usize) -> Option<usize>
    ensures { result ≡ lowest_named (λ i. eqb (field_product GF16 a (field_power GF16 α i)) b) m }
{
    let mut x = a;
    for i in 0..m {
        if x == b {
            return Some(i);
        }
        x = field::double(x);
    }
    None
}

// Whether the page holds all of x in the place of symbol i: the byte that completes a page is zero.
fn stays(page: &[u8], i: Symbols, x: u16) -> bool
    requires { i.count < object_symbols 2 page.now }
    ensures { result ≡ eqb (object_symbol 2 (changed wide page.now i.count x) i.count) x }
{
    page.len() - units::bytes_of(i).count > 1 || x < 256
}

fn low_bytes(x: u16) -> [u8; 2]
    ensures { result ≡ low_bytes 2 x }
{
    x.to_le_bytes()
}

// x in the place of symbol i. The byte that completes a page is not in it.
fn put_symbol(x: u16, page: &mut [u8], i: Symbols)
    requires { i.count < object_symbols 2 page.old }
    ensures { page.new ≡ changed wide page.old i.count x }
{
    let at = units::bytes_of(i).count;
    if page.len() - at > 1 {
        signature::put_two_bytes(usize::from(x), page, at);
        return;
    }
    let [low, _] = low_bytes(x);
    page[at] = low;
}
