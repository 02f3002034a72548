// Runs worked numbers of counts and of the field, a line each. The file `stdout` beside this has what they should be: the scope's own figures,
// the constants of the PAR2 specification, and products taken by logarithms.
#![tactic(auto)]

use program::print_line;
use std::fmt::Display;
use units::{Bytes, Refusal, Symbols};

fn main() {
    sizes();
    refusals();
    products();
    powers();
    order();
}

fn sizes() {
    print_line("sizes");
    for n in [0, 1, 4, 5] {
        allowed(format_args!("n {n}"), units::n_allowed(n));
    }
    for bytes in [0, 1, 2, 3, 65_536, 65_538] {
        let yes = units::page_allowed(Bytes { count: bytes });
        allowed(format_args!("page of {bytes} bytes"), yes);
    }
    for bytes in [131_068, 131_069] {
        let symbols = symbols_of(bytes);
        counted("object", bytes, symbols, units::object_allowed(symbols));
    }
    for (bytes, pages) in [
        (16_777_216, 4_096),
        (16_777_217, 1),
        (8_192, 4_096),
        (8_193, 4_097),
    ] {
        let yes = units::bucket_allowed(Bytes { count: bytes }, pages);
        allowed(format_args!("bucket of {bytes} bytes, {pages} pages"), yes);
    }
    for bytes in [65_535, 65_536, 65_537] {
        let symbols = symbols_of(bytes);
        counted("caption", bytes, symbols, units::caption_allowed(symbols));
    }
}

fn symbols_of(bytes: usize) -> Symbols {
    units::symbols_of(Bytes { count: bytes })
}

fn counted(what: &str, bytes: usize, symbols: Symbols, yes: bool) {
    let count = symbols.count;
    allowed(
        format_args!("{what} of {bytes} bytes, {count} symbols"),
        yes,
    );
}

fn allowed<D: Display + Drop>(what: D, yes: bool) {
    let word = if yes { "allowed" } else { "not allowed" };
    print_line(format_args!("{what}: {word}"));
}

fn refusals() {
    print_line("refusals");
    for (name, refusal) in [
        ("SIZE", Refusal::Size),
        ("PAGE", Refusal::Page),
        ("LONG", Refusal::Long),
        ("ODD", Refusal::Odd),
        ("MAP", Refusal::Map(0)),
        ("MATCH", Refusal::Match),
        ("ROOM", Refusal::Room(0)),
        ("EMPTY", Refusal::Empty),
        ("PAGENO", Refusal::PageNo),
        ("DAMAGED", Refusal::Damaged(0)),
        ("THIN", Refusal::Thin),
    ] {
        let number = refusal.number();
        print_line(format_args!("{number} {name}"));
    }
}

fn products() {
    print_line("products");
    for (a, b) in [
        (0x0002, 0x8000),
        (0x0002, 0x4000),
        (0x8000, 0x8000),
        (0x0000, 0x1234),
        (0x0001, 0xBEEF),
        (0x1234, 0x5678),
        (0xCAFE, 0xF00D),
        (0xFFFF, 0xFFFF),
        (0x8805, 0x0002),
    ] {
        let c = field::product(a, b);
        print_line(format_args!("{a:04x} * {b:04x} = {c:04x}"));
    }
}

// The exponents from 1 to 22 are those of the first constants that the PAR2 specification lists.
fn powers() {
    print_line("powers");
    for (component, position) in [
        (1, 1),
        (1, 2),
        (1, 4),
        (1, 7),
        (1, 8),
        (1, 11),
        (1, 13),
        (1, 14),
        (1, 16),
        (1, 19),
        (1, 22),
        (1, 65_534),
        (1, 65_535),
        (4, 65_534),
        (3, 21_845),
        (1, 21_845),
    ] {
        let e = units::exponent_of(component, Symbols { count: position });
        let power = field::times_power(1, e);
        print_line(format_args!("alpha^({component} * {position}) = {power:04x}"));
    }
}

fn order() {
    if let Some(power) = return_of_alpha() {
        print_line(format_args!("alpha is 1 again at its power {power}"));
    }
}

// The first power of α above 0 that is 1, below 70,000.
fn return_of_alpha() -> Option<usize> {
    let mut s: u16 = 2;
    for k in 1..70_000 {
        if s == 1 {
            return Some(k);
        }
        s = field::double(s);
    }
    None
}
