// Runs a script on one small backup. A command on standard input is three bytes, a letter and two numbers; each that asks something of the library prints
// the answer and what the buffers hold then, those parts too that were not lent. Of a buffer that is shorter than asked for, all is lent.
#![tactic(auto)]

use program::Buffer;
use store::{Answer, Place};
use units::{Bytes, Refusal};

// The buffers of the backup.
#[derive(Drop)]
struct Desk {
    table: Buffer<u8, 12>,
    image: Buffer<u8, 12>,
    map: Buffer<u8, 96>,
    list: Buffer<usize, 8>,
}

fn main() {
    let mut room = [0u8; 6144];
    let (commands, _) = program::input(&mut room).as_chunks::<3>();
    let mut desk = Desk {
        table: Buffer::new(0),
        image: Buffer::new(0),
        map: Buffer::new(0),
        list: Buffer::new(99),
    };
    for [letter, a, b] in commands {
        desk.command(*letter, *a, *b);
    }
}

impl Desk {
    fn command(&mut self, letter: u8, a: u8, b: u8) {
        let x = usize::from(a);
        let y = usize::from(b);
        // A match and no table of closures: each command takes its own part of the desk.
        match letter {
            b'T' => self.table.set(x, b),
            b'I' => self.image.set(x, b),
            b'M' => self.map.set(x, b),
            b'i' => self.image.lent = x,
            b'm' => self.map.lent = x,
            b'n' => self.make(x, y),
            b's' => self.store(x, y),
            b't' => self.step(x, y),
            b'p' => self.load_page(x),
            b'b' => self.load_bucket(x),
            _ => {}
        }
    }

    // The map of the image, with n components and pages of so many bytes.
    fn make(&mut self, n: usize, page: usize) {
        let page = Bytes { count: page };
        program::filled(map::make(n, page, self.image.part(), self.map.part_mut()));
        program::bytes(&self.map.all);
    }

    fn store(&mut self, x: usize, y: usize) {
        self.table.lent = x;
        self.list.lent = y;
        let answer = store::store(
            self.table.part(),
            self.image.part_mut(),
            self.map.part_mut(),
            self.list.part_mut(),
        );
        program::listed(b"pages ", answer);
        program::bytes(&self.image.all);
        program::bytes(&self.map.all);
        program::numbers(&self.list.all);
    }

    fn step(&mut self, page: usize, y: usize) {
        self.table.lent = y;
        let place = Place { page };
        let step = place.step(
            self.table.part(),
            self.image.part_mut(),
            self.map.part_mut(),
        );
        stepped(step.answer);
        program::line(b"next ", step.next.page);
        program::bytes(&self.image.all);
        program::bytes(&self.map.all);
    }

    fn load_page(&self, k: usize) {
        let image = self.image.part();
        let map = self.map.part();
        program::asked(load::ask_page(image, map, k));
        program::bytes(load::load_page(image, map, k));
    }

    fn load_bucket(&mut self, x: usize) {
        self.table.lent = x;
        let answer = load::load_bucket(self.image.part(), self.map.part(), self.table.part_mut());
        program::filled(answer);
        program::bytes(&self.table.all);
    }
}

fn stepped(a: Result<Answer, Refusal>) {
    match a {
        Ok(Answer::Kept(k)) => program::line(b"kept ", k),
        Ok(Answer::Written(k)) => program::line(b"written ", k),
        Ok(Answer::Finished) => program::print_line("finished"),
        Err(r) => program::refused(r),
    }
}
