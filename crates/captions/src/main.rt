// Runs a script on one caption field. A command on standard input is four bytes: a letter and a number of three bytes, low byte first. Each that asks
// something of the library prints the answer and two parts of the buffer that was written, its start and where the field or the count ends.
// Of a buffer that is shorter than asked for, all is lent.
#![tactic(auto)]

use program::Buffer;
use units::{Bytes, Refusal};

#[derive(Drop)]
struct Desk<'a> {
    caption: &'a mut Buffer<u8, 65_538>,
    pattern: &'a mut Buffer<u8, 200_000>,
    output: &'a mut Buffer<u8, 65_538>,
    list: &'a mut Buffer<usize, 32_770>,
}

fn main() {
    let mut room = [0u8; 16_384];
    let (commands, _) = program::input(&mut room).as_chunks::<4>();
    // Each where it is to stand, and the list filled there: as parts of the desk, or made of 99s, they would be made elsewhere first, and the stack would hold them twice.
    let mut caption = Buffer {
        all: [0; 65_538],
        lent: 0,
    };
    let mut pattern = Buffer {
        all: [0; 200_000],
        lent: 0,
    };
    let mut output = Buffer {
        all: [0xEE; 65_538],
        lent: 0,
    };
    let mut list = Buffer {
        all: [0; 32_770],
        lent: 0,
    };
    list.all.fill(99);
    let mut desk = Desk {
        caption: &mut caption,
        pattern: &mut pattern,
        output: &mut output,
        list: &mut list,
    };
    for [letter, low, middle, high] in commands {
        desk.command(*letter, u16::from_le_bytes([*low, *middle]), *high);
    }
}

impl Desk<'_> {
    // The number is x and 65,536 times high; where a byte is set, x is its place and high the byte.
    fn command(&mut self, letter: u8, x: u16, high: u8) {
        let place = usize::from(x);
        let n = place + usize::from(high) * 65_536;
        // A match and no table of closures: each command takes its own part of the desk.
        match letter {
            b'C' => self.caption.set(place, high),
            b'P' => self.pattern.set(place, high),
            b'F' => fill(&mut self.caption.all, high),
            b'G' => fill(&mut self.pattern.all, high),
            b'B' => self.caption.all = self.output.all,
            b'c' => self.caption.lent = n,
            b'p' => self.pattern.lent = n,
            b'o' => self.output.lent = n,
            b'l' => self.list.lent = n,
            b'e' => self.recode(caption::encode),
            b'd' => self.recode(caption::decode),
            b's' => self.search(),
            _ => {}
        }
    }

    fn recode<F: Fn(&[u8], &mut [u8]) -> Result<Bytes, Refusal>>(&mut self, recode: F)
        requires { F.IsAlwaysCallable recode }
    {
        let caption = self.caption.part();
        program::filled(recode(caption, self.output.part_mut()));
        ends(&self.output.all, caption.len());
    }

    fn search(&mut self) {
        let caption = self.caption.part();
        let answer = caption::search(caption, self.pattern.part(), self.list.part_mut());
        program::listed(b"places ", answer);
        program::numbers(part(&self.list.all, 0, 6));
        let count = answer.unwrap_or(0);
        program::numbers(part(&self.list.all, count.saturating_sub(4), 6));
    }
}

// Each byte is five times the one before it and 77 more, modulo 256.
fn fill(b: &mut [u8], first: u8) {
    let mut x = first;
    for y in b {
        *y = x;
        x = x.wrapping_mul(5).wrapping_add(77);
    }
}

fn ends(output: &[u8], written: usize) {
    program::bytes(part(output, 0, 24));
    program::bytes(part(output, written.saturating_sub(20), 24));
}

// At most so many, from a place on.
fn part<T>(all: &[T], from: usize, most: usize) -> &[T] {
    program::start(&all[from.min(all.len())..], most)
}
