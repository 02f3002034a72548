// Runs the edges of signing, joining and editing, a line each: n and four components, or a refusal's number and value.
// The file `stdout` beside this has what they should be, from a program with tables of logarithms.
#![tactic(auto)]

use signature::Signature;
use units::Symbols;

fn main() {
    signed();
    joined();
    edited();
}

fn signed() {
    program::print_line("signed");
    program::sign(
        b"a sentence",
        4,
        b"Deaf callers sign and read through a relay.",
    );
    program::sign(b"n 0", 0, b"");
    program::sign(b"n 5", 5, b"");
    limits();
}

fn limits() {
    let long = [0x5A; 131_069];
    program::sign(b"131068 bytes of 5A", 4, &long[..131_068]);
    program::sign(b"131069 bytes of 5A", 4, &long);
}

fn joined() {
    program::print_line("joined");
    let one = signature::own(2, b"\x01\x00");
    let two = signature::own(2, b"\x02\x00");
    join(b"65534 symbols and none", one, 65_534, two, 0);
    join(b"65534 symbols and one", one, 65_534, two, 1);
    join(
        b"as many symbols as a word holds, and two",
        one,
        usize::MAX,
        two,
        2,
    );
    join(b"n 2 and 1", one, 1, signature::own(1, b""), 1);
    join(b"n 2 and 0", one, 65_535, signature::own(0, b""), 1);
}

fn join(what: &[u8], one: Signature, a: usize, two: Signature, b: usize) {
    program::about(what);
    program::signed(signature::join(one, Symbols { count: a }, two, Symbols { count: b }));
}

fn edited() {
    program::print_line("edited");
    let s = signature::own(2, b"\x01\x00\x02\x00");
    edit(b"n 0", signature::own(0, b""), 65_535, b"", b"");
    edit(b"nothing at 65534", s, 65_534, b"", b"");
    edit(b"nothing at 65535", s, 65_535, b"", b"");
    edit(b"an odd old piece", s, 1, b"\x02", b"\x03\x00");
    edit(b"an odd new piece", s, 1, b"\x02\x00", b"\x03\x00\x04");
    edit(
        b"pieces of 2 and 4 bytes",
        s,
        1,
        b"\x02\x00",
        b"\x03\x00\x04\x00",
    );
    let junk = Signature {
        n: 1,
        s1: 5,
        s2: 0xFFFF,
        s3: 0xFFFF,
        s4: 0xFFFF,
    };
    edit(b"n 1 with junk above it", junk, 1, b"\x02\x00", b"\x03\x00");
}

fn edit(what: &[u8], s: Signature, r: usize, old: &[u8], new: &[u8]) {
    program::about(what);
    program::signed(signature::edit(s, Symbols { count: r }, old, new));
}
