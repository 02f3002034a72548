// Makes maps, two lines each: the bytes written, or a refusal's number and value, and then the output's first 40 bytes, which were EE hex.
// The file `stdout` beside this has what they should be, from a program with tables of logarithms.
#![tactic(auto)]

use program::Buffer;
use units::Bytes;

fn main() {
    case_12();
    for (what, n, page, bytes, room) in [
        ("n 0, page 3", 0, 3, 8_193, 0),
        ("n 5, page 2", 5, 2, 8_193, 0),
        ("page 0", 1, 0, 8_193, 0),
        ("page 3", 1, 3, 8_193, 0),
        ("page 65538", 1, 65_538, 8_193, 0),
        ("8193 bytes in pages of 2", 1, 2, 8_193, 0),
        (
            "8192 bytes in pages of 2, short by one",
            4,
            2,
            8_192,
            45_073,
        ),
        ("8192 bytes in pages of 2", 4, 2, 8_192, 45_074),
        ("65536 bytes in a page of 65536", 3, 65_536, 65_536, 27),
        ("65537 bytes in pages of 65536", 3, 65_536, 65_537, 45_074),
        ("no bytes", 4, 65_536, 0, 18),
    ] {
        make(what, n, page, bytes, room);
    }
}

// As `cases` has it, but for label and room: a function for both would bring `map` into `program`.
fn case_12() {
    let mut output = [0xEE; 40];
    program::about(b"case 12");
    program::filled(map::make(2, Bytes { count: 4 }, program::CASE_12, &mut output));
    program::bytes(&output);
}

// A map of so many bytes of 5A hex, for an output of so much room.
fn make(what: &str, n: usize, page: usize, bytes: usize, room: usize) {
    let bucket = Buffer {
        all: [0x5A; 65_537],
        lent: bytes,
    };
    let mut output = Buffer {
        all: [0xEE; 45_074],
        lent: room,
    };
    let page = Bytes { count: page };
    program::about(what.as_bytes());
    program::filled(map::make(n, page, bucket.part(), output.part_mut()));
    program::bytes(program::start(&output.all, 40));
}
