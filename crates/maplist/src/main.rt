// Lists the map that stands on standard input: one byte more than the longest map is enough for any verdict.
#![tactic(auto)]

// The longest map has 45,074 bytes.
const INPUT: usize = 45_075;

fn main() {
    let mut room = [0u8; INPUT];
    let map = program::input(&mut room);
    let mut output = [0u8; listing::LISTING_BYTES_MOST];
    let Ok(text) = listing::list(map, &mut output) else {
        return;
    };
    let end = text.count;
    program::text(&output[..end]);
}
