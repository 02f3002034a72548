// What the programs share: their input and output, what they print of an answer, and a buffer of which a part is lent. A function that prints answers
// nothing, and its contract says so: what was printed is compared when the program is run.
#![tactic(auto)]

ghost use Rattle.std.specs.Prelude.{◌≡◌, ◌≤◌, length, min, replicate, slice_set, take};

use signature::Signature;
use std::fmt::{self, Display, Write};
use units::{Bytes, Refusal};

// The numbers of standard input and output.
const STDIN: i32 = 0;

const STDOUT: i32 = 1;

// The bucket of the scope's case 12.
pub const CASE_12: &[u8] = b"\x01\x00\x02\x00\x03\x00";

// What stands on standard input, or as much of it as there is room for.
pub fn input(room: &mut [u8]) -> &[u8]
    ensures { length result.now ≤ length room.old }
{
    let got = io::read_full(STDIN, room);
    &room[..got]
}

// A buffer, and how much of it is lent: all of it where it is shorter.
#[derive(Drop)]
pub struct Buffer<T, const N: usize> {
    pub all: [T; N],
    pub lent: usize,
}

impl<T: Copy, const N: usize> Buffer<T, N> {
    // Each element is x, and nothing is lent.
    pub fn new(x: T) -> Buffer<T, N>
        ensures { (result.all ≡ replicate N x) × (result.lent ≡ 0) }
    {
        Buffer {
            all: [x; N],
            lent: 0,
        }
    }

    // Sets one element, where there is one.
    pub fn set(&mut self, i: usize, x: T)
        ensures { (self.new.all ≡ slice_set self.old.all i x) × (self.new.lent ≡ self.old.lent) }
    {
        if i < N {
            self.all[i] = x;
        }
    }
}

impl<T, const N: usize> Buffer<T, N> {
    // The part that is lent.
    pub fn part(&self) -> &[T]
        ensures { result.now ≡ take (min self.now.lent N) self.now.all }
    {
        start(&self.all, self.lent)
    }

    // The same, to write in. What becomes of the buffer is not said: no proof is made of a `Lends` clause for a part of a field.
    pub fn part_mut(&mut self) -> &mut [T]
        ensures { result.now ≡ take (min self.old.lent N) self.old.all }
    {
        let most = within(self.lent, N);
        &mut self.all[..most]
    }
}

// As much as a buffer has: the library's `min`; this stays for what is promised of it, `within_one_answer`.
pub fn within(x: usize, most: usize) -> usize
    ensures { (result ≡ min x most) × (result ≤ most) }
{
    x.min(most)
}

// The first elements, at most so many.
pub fn start<T>(all: &[T], most: usize) -> &[T]
    ensures { result.now ≡ take (min most (length all.now)) all.now }
{
    &all[..within(most, all.len())]
}

pub fn text(t: &[u8])
    ensures { result ≡ tt }
{
    io::write_all(STDOUT, t);
}

// Standard output, as a writer that never fails: what a write leaves out is missed when the output is compared.
// A format hands over its pieces one by one. They wait here, so that many go on by one write.
#[derive(Drop)]
struct Output {
    waiting: Buffer<u8, WAITING>,
}

const WAITING: usize = 256;

impl Output {
    fn new() -> Output {
        Output {
            waiting: Buffer::new(0),
        }
    }

    // What waits goes on.
    fn send(&mut self) {
        text(self.waiting.part());
        self.waiting.lent = 0;
    }
}

impl Write for Output {
    fn write_str(&mut self, s: &str) -> fmt::Result {
        let piece = s.as_bytes();
        let after = self.waiting.lent.saturating_add(piece.len());
        if after <= WAITING {
            units::put_part(piece, &mut self.waiting.all, self.waiting.lent);
            self.waiting.lent = after;
            return Ok(());
        }
        self.send();
        text(piece);
        Ok(())
    }
}

pub fn print<D: Display + Drop>(what: D)
    ensures { result ≡ tt }
{
    let mut output = Output::new();
    let _ = output.write(what);
    output.send();
}

pub fn print_line<D: Display + Drop>(what: D)
    ensures { result ≡ tt }
{
    let mut output = Output::new();
    let _ = output.writeln(what);
    output.send();
}

// What a line is about. A label is bytes, here and wherever one is taken, as it was: a `&str` would ask more of callers.
pub fn about(what: &[u8])
    ensures { result ≡ tt }
{
    text(what);
    text(b": ");
}

// A line of a word and a number.
pub fn line(word: &[u8], x: usize)
    ensures { result ≡ tt }
{
    text(word);
    print_line(x);
}

// A line of bytes, two hex digits each.
pub fn bytes(b: &[u8])
    ensures { result ≡ tt }
{
    let mut output = Output::new();
    for x in b {
        let _ = output.write(format_args!("{x:02x}"));
    }
    let _ = output.writeln("");
    output.send();
}

// A line for each number.
pub fn numbers(l: &[usize])
    ensures { result ≡ tt }
{
    for x in l {
        print_line(x);
    }
}

pub fn refused(r: Refusal)
    ensures { result ≡ tt }
{
    print_line(r);
}

pub fn filled(a: Result<Bytes, Refusal>)
    ensures { result ≡ tt }
{
    listed(b"bytes ", a.map(|b| b.count));
}

// The word says what was counted.
pub fn listed(word: &[u8], a: Result<usize, Refusal>)
    ensures { result ≡ tt }
{
    match a {
        Ok(count) => line(word, count),
        Err(r) => refused(r),
    }
}

// What a load of a page would say.
pub fn asked(v: Result<(), Refusal>)
    ensures { result ≡ tt }
{
    match v {
        Ok(()) => print_line("loaded"),
        Err(r) => refused(r),
    }
}

// Signs, and prints the answer.
pub fn sign(what: &[u8], n: usize, object: &[u8])
    ensures { result ≡ tt }
{
    about(what);
    signed(signature::sign(n, object));
}

// n and four components.
pub fn signed(a: Result<Signature, Refusal>)
    ensures { result ≡ tt }
{
    match a {
        Ok(Signature { n, s1, s2, s3, s4 }) => {
            print_line(format_args!("n {n}, {s1:04x} {s2:04x} {s3:04x} {s4:04x}"));
        }
        Err(r) => refused(r),
    }
}
