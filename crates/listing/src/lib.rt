// The listing of a map as text: what it holds, line by line, or where it is refused.
#![tactic(auto)]

ghost use Rattle.std.specs.Prelude.{◌≡◌, ◌∷◌, ◌++◌, ◌+◌, ◌*◌, ◌<◌, ◌≤◌, length, Ok};
ghost use Rattle.units.specs.Filling.{outcome_of};
ghost use Rattle.signature.specs.Signatures.{handed};
ghost use Rattle.units.specs.Runs.{end_to_end};
ghost use Rattle.map.specs.Files.{pages as header_pages};
ghost use Rattle.listing.specs.Digits.{digits, decimal, hex};
ghost use Rattle.listing.specs.Digits.{digit as digits_digit, width as digits_width};
ghost use Rattle.listing.specs.Writers.{HasRoom, Puts};
ghost use Rattle.listing.specs.Lines.{named, two_named, header_line, columns, page_line, refused_line, line_of, listed, listing, text_out};

use map::Header;
use signature::Signature;
use units::{Bytes, Refusal};

// No listing is longer.
pub const LISTING_BYTES_MOST: usize = 168_040;

fn digit(d: usize) -> u8
    requires { d < 16 }
    ensures { result ≡ digits_digit d }
{
    b"0123456789abcdef"[d]
}

// How many decimal digits x has.
fn width(x: usize) -> usize
    ensures { result ≡ digits_width x }
{
    // `as`, since there is no `From<u32>` for `usize`
    x.max(1).ilog10() as usize + 1
}

// The last digits of x in all the places, from the lowest up.
// By index: over `iter_mut().rev()` the proof did not close, since an invariant cannot name what is written.
fn fill_digits(base: usize, x: usize, places: &mut [u8])
    requires { (1 ≤ base) × (base ≤ 16) }
    ensures { places.new ≡ digits base (length places.old) x }
{
    let mut rest = x;
    for i in (0..places.len()).rev() {
        places[i] = digit(rest % base);
        rest /= base;
    }
}

// An output, and how far it is written.
#[derive(Drop)]
struct Writer<'a> {
    output: &'a mut [u8],
    at: usize,
}

impl<'a> Writer<'a> {
    fn new(output: &'a mut [u8]) -> Self
        ensures same_output { result.output.ghost_name ≡ output.entry.ghost_name }
        ensures empty { (result.output.now ≡ output.old) × (result.at ≡ 0) }
    {
        Writer { output, at: 0 }
    }

    fn text(&mut self, text: &[u8])
        requires { HasRoom text.now self.old }
        ensures { Puts text.now self.old self.new }
    {
        self.output[self.at..self.at + text.len()].copy_from_slice(text);
        self.at += text.len();
    }

    #[tactic(auto, using(crate::proofs::Digits::digits_length))]
    fn digits(&mut self, base: usize, count: usize, x: usize)
        requires { (1 ≤ base) × (base ≤ 16) × HasRoom (digits base count x) self.old }
        ensures { Puts (digits base count x) self.old self.new }
    {
        fill_digits(base, x, &mut self.output[self.at..self.at + count]);
        self.at += count;
    }

    // Not by `write!`: no clause says that it succeeds where there is room, which `list` promises.
    fn decimal(&mut self, x: usize)
        requires { HasRoom (decimal x) self.old }
        ensures { Puts (decimal x) self.old self.new }
    {
        self.digits(10, width(x), x);
    }

    #[tactic(auto, using(crate::proofs::Digits::digits_length), unfolding(crate::specs::Digits::hex))]
    fn hex(&mut self, x: usize)
        requires { HasRoom (hex x) self.old }
        ensures { Puts (hex x) self.old self.new }
    {
        self.digits(16, 4, x);
    }

    // A word, and a number after it.
    fn named(&mut self, word: &[u8], x: usize)
        requires { HasRoom (named word.now x) self.old }
        ensures { Puts (named word.now x) self.old self.new }
    {
        self.text(word);
        self.decimal(x);
    }

    fn two_named(&mut self, one: &[u8], x: usize, two: &[u8], y: usize)
        requires { HasRoom (two_named one.now x two.now y) self.old }
        ensures { Puts (two_named one.now x two.now y) self.old self.new }
    {
        self.named(one, x);
        self.named(two, y);
    }

    fn header_line(&mut self, h: Header)
        requires { HasRoom (header_line h) self.old }
        ensures { Puts (header_line h) self.old self.new }
    {
        self.two_named(b"n ", h.n, b" page ", h.page.count);
        self.two_named(b" bucket ", h.bucket.count, b" pages ", map::pages(h));
        self.text(b"\n");
    }

    // A component, after a space.
    fn column(&mut self, x: usize)
        requires { HasRoom (32 ∷ hex x) self.old }
        ensures { Puts (32 ∷ hex x) self.old self.new }
    {
        self.text(b" ");
        self.hex(x);
    }

    // A signature's n components.
    fn columns(&mut self, s: Signature)
        requires { HasRoom (columns s.n (handed s)) self.old }
        ensures { Puts (columns s.n (handed s)) self.old self.new }
    {
        for j in 1..=s.n {
            self.column(usize::from(map::component(s, j)));
        }
    }

    fn page_line(&mut self, k: usize, s: Signature)
        requires { HasRoom (page_line s.n k (handed s)) self.old }
        ensures { Puts (page_line s.n k (handed s)) self.old self.new }
    {
        self.decimal(k);
        self.columns(s);
        self.text(b"\n");
    }

    // A line for each page, in page order.
    fn page_lines(&mut self, h: Header, map: &[u8])
        requires { HasRoom (end_to_end (line_of h.n map.now) 0 (header_pages h)) self.old }
        ensures { Puts (end_to_end (line_of h.n map.now) 0 (header_pages h)) self.old self.new }
    {
        for k in 0..map::pages(h) {
            self.page_line(k, map::entry_at(h.n, map, k).signature);
        }
    }
}

#[tactic(auto, using(crate::proofs::Digits::width_most, crate::proofs::Lengths::header_line_length))]
fn header_line_bytes(h: Header) -> usize
    ensures { result ≡ length (header_line h) }
{
    24 + width(h.n) + width(h.page.count) + width(h.bucket.count) + width(map::pages(h))
}

// Their lines' bytes, whatever the components: lines of zeros are as long.
#[tactic(auto, using(crate::proofs::Digits::width_most))]
fn page_lines_bytes(h: Header) -> usize
    requires { (h.n ≤ 4) × (header_pages h ≤ 4096) }
    ensures { result ≡ length (end_to_end (λ k. page_line h.n k (λ j. 0)) 0 (header_pages h)) }
{
    let mut total: usize = 0;
    for k in 0..map::pages(h) {
        total += width(k) + 5 * h.n + 1;
    }
    total
}

// The listing of a map that holds what its header says.
fn list_held(h: Header, map: &[u8], output: &mut [u8]) -> Result<Bytes, Refusal>
    requires { (h.n ≤ 4) × (header_pages h ≤ 4096) }
    ensures { outcome_of result output.new ≡ text_out (listed map.now (Ok h)) output.old }
{
    let needed = header_line_bytes(h) + page_lines_bytes(h);
    if output.len() < needed {
        return Err(Refusal::Room(needed));
    }
    let mut lines = Writer::new(output);
    lines.header_line(h);
    lines.page_lines(h, map);
    Ok(Bytes { count: needed })
}

fn list_refused(at: usize, output: &mut [u8]) -> Result<Bytes, Refusal>
    ensures { outcome_of result output.new ≡ text_out (refused_line at) output.old }
{
    let needed = 16 + width(at);
    if output.len() < needed {
        return Err(Refusal::Room(needed));
    }
    let mut line = Writer::new(output);
    line.named(b"map refused at ", at);
    line.text(b"\n");
    Ok(Bytes { count: needed })
}

// The whole listing of any bytes, put at the start of the output.
pub fn list(map: &[u8], output: &mut [u8]) -> Result<Bytes, Refusal>
    ensures { outcome_of result output.new ≡ text_out (listing map.now) output.old }
{
    match map::read(map) {
        Err(b) => list_refused(b.place, output),
        Ok(h) => list_held(h, map, output),
    }
}
