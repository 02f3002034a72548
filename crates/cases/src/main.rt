// Runs the scope's twelve cases: what was answered, or a refusal's number and value, and then what the output or the list holds.
// The file `stdout` beside this has what the scope says they should be.
#![tactic(auto)]

use units::{Bytes, Symbols};

fn main() {
    cases_1_to_4();
    case_5();
    case_6();
    case_7();
    case_8();
    case_9();
    case_10();
    case_11();
    case_12();
}

fn cases_1_to_4() {
    program::sign(b"case 1, no symbols", 2, b"");
    program::sign(b"case 2, 0001 0002", 2, b"\x01\x00\x02\x00");
    program::sign(b"case 3, 0000 8000", 2, b"\x00\x00\x00\x80");
    program::sign(b"case 4, byte 41", 2, b"\x41");
    program::sign(b"case 4, bytes 41 00", 2, b"\x41\x00");
}

fn case_5() {
    program::sign(b"case 5, 0002 0000", 1, b"\x02\x00\x00\x00");
    program::sign(b"case 5, 0000 0001", 1, b"\x00\x00\x01\x00");
    program::sign(b"case 5, 0002 0000", 2, b"\x02\x00\x00\x00");
    program::sign(b"case 5, 0000 0001", 2, b"\x00\x00\x01\x00");
}

fn case_6() {
    program::sign(b"case 6, 0008 0006 0001", 2, b"\x08\x00\x06\x00\x01\x00");
    program::sign(b"case 6, 0000 0000 0000", 2, b"\x00\x00\x00\x00\x00\x00");
    program::sign(b"case 6, 0008 0006 0001", 3, b"\x08\x00\x06\x00\x01\x00");
}

fn case_7() {
    let one = signature::own(2, b"\x01\x00");
    let two = signature::own(2, b"\x02\x00");
    program::about(b"case 7, 0001 and 0002");
    program::signed(signature::join(one, Symbols { count: 1 }, two, Symbols { count: 1 }));
}

fn case_8() {
    let s = signature::own(2, b"\x01\x00\x02\x00");
    program::about(b"case 8, 0002 at 1 to 0003");
    program::signed(signature::edit(s, Symbols { count: 1 }, b"\x02\x00", b"\x03\x00"));
}

fn case_9() {
    encode(b"case 9, 0001 0002 0003", b"\x01\x00\x02\x00\x03\x00");
}

fn encode(what: &[u8], caption: &[u8]) {
    let mut output = [0xEE; 8];
    program::about(what);
    program::filled(caption::encode(caption, &mut output));
    program::bytes(&output);
}

fn case_10() {
    search(
        b"case 10, 0002 0003 in 0001 0005 0009",
        b"\x01\x00\x05\x00\x09\x00",
        b"\x02\x00\x03\x00",
    );
}

fn case_11() {
    encode(b"case 11, 0002 0000", b"\x02\x00\x00\x00");
    search(
        b"case 11, 0000 0001 in 0002 0002",
        b"\x02\x00\x02\x00",
        b"\x00\x00\x01\x00",
    );
}

fn search(what: &[u8], caption: &[u8], pattern: &[u8]) {
    let mut list = [99usize; 3];
    program::about(what);
    program::listed(b"places ", caption::search(caption, pattern, &mut list));
    program::numbers(&list);
}

// The map is made, and damaged ones are asked for their first page.
fn case_12() {
    make(b"case 12, 0001 0002 0003 in pages of 4");
    ask(
        b"case 12",
        b"\x01\x01\x00\x02\x02\x04\x00\x04\x00\x00\x00\x03\x04\x00\x06\x00\x00\x00\x04\x04\x00\x05\x00\x09\x00\x04\x04\x00\x03\x00\x03\x00",
    );
    ask(
        b"case 12, 31 bytes",
        b"\x01\x01\x00\x02\x02\x04\x00\x04\x00\x00\x00\x03\x04\x00\x06\x00\x00\x00\x04\x04\x00\x05\x00\x09\x00\x04\x04\x00\x03\x00\x03",
    );
    ask(
        b"case 12, 33 bytes",
        b"\x01\x01\x00\x02\x02\x04\x00\x04\x00\x00\x00\x03\x04\x00\x06\x00\x00\x00\x04\x04\x00\x05\x00\x09\x00\x04\x04\x00\x03\x00\x03\x00\x00",
    );
    ask(
        b"case 12, page 3",
        b"\x01\x01\x00\x02\x02\x04\x00\x03\x00\x00\x00\x03\x04\x00\x06\x00\x00\x00\x04\x04\x00\x05\x00\x09\x00\x04\x04\x00\x03\x00\x03\x00",
    );
    ask(b"case 12, no bytes", b"");
}

fn make(what: &[u8]) {
    let mut output = [0xEE; 34];
    program::about(what);
    program::filled(map::make(2, Bytes { count: 4 }, program::CASE_12, &mut output));
    program::bytes(&output);
}

fn ask(what: &[u8], map: &[u8]) {
    program::about(what);
    program::asked(load::ask_page(program::CASE_12, map, 0));
}
