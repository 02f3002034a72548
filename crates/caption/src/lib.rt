// Caption fields in the cumulative code: a field encoded, decoded, and searched for a plain pattern as it stands, without decoding.
#![tactic(auto)]

ghost use Rattle.std.specs.Prelude.{Bool, false, List, ◌≡◌, ℕ, ◌+◌, ◌-◌, ◌*◌, ◌≤◌, ◌<◌, length, get_or, set};
ghost use Rattle.units.specs.Filling.{outcome_of};
ghost use Rattle.units.specs.Refusals.{first};
ghost use Rattle.units.specs.Writing.{written};
ghost use Rattle.units.specs.Refusals.{allowed};
ghost use Rattle.field.specs.Field.{GF16, ◌⊕◌};
ghost use Rattle.signature.specs.Objects.{symbols as object_symbols};
ghost use Rattle.caption.specs.Codes.{coded, plain, previous as code_previous, places as code_places};
ghost use Rattle.caption.specs.Pairs.{symbol_in, found_in};
ghost use Rattle.caption.specs.Recoding.{bytes, too_long, recode_tests, encoding, decoding};
ghost use Rattle.caption.specs.Searches.{searched_of, search_unless, search_tests, searching};

use units::{Bytes, Refusal, Symbols};

// The code of a plain field, written to the start of the output. Three lines as in `decode`: one function for both would need a longer contract, on what it is to put.
pub fn encode(caption: &[u8], output: &mut [u8]) -> Result<Bytes, Refusal>
    ensures { outcome_of result output.new ≡ encoding 0 caption.now output.old }
{
    recode_verdict(caption, output)?;
    put_code(caption.as_chunks().0, output);
    Ok(Bytes {
        count: caption.len(),
    })
}

// The plain field of a code, written to the start of the output.
pub fn decode(caption: &[u8], output: &mut [u8]) -> Result<Bytes, Refusal>
    ensures { outcome_of result output.new ≡ decoding 0 caption.now output.old }
{
    recode_verdict(caption, output)?;
    put_plain(caption.as_chunks().0, output);
    Ok(Bytes {
        count: caption.len(),
    })
}

fn recode_verdict(caption: &[u8], output: &[u8]) -> Result<(), Refusal>
    ensures { result ≡ first (recode_tests caption.now output.now) }
{
    if too_long(caption) {
        return Err(Refusal::Long);
    }
    if caption.len() % 2 != 0 {
        return Err(Refusal::Odd);
    }
    if output.len() < caption.len() {
        return Err(Refusal::Room(caption.len()));
    }
    Ok(())
}

fn too_long(caption: &[u8]) -> bool
    ensures { result ≡ too_long caption.now }
{
    !units::caption_allowed(signature::symbols_in(caption))
}

// Upward, a block at a time: the sum is the code's last symbol so far.
fn put_code(symbols: &[[u8; 2]], output: &mut [u8])
    requires { length symbols.now * 2 ≤ length output.old }
    ensures { output.new ≡ written output.old 0 (bytes (length symbols.now) (coded GF16 0 (symbol_in symbols.now))) }
{
    let mut weights = [0u16; 16];
    weights::put_weights(1, &mut weights);
    let mut block = [0u16; 16];
    let mut sum: u16 = 0;
    for (k, part) in symbols.chunks(16).enumerate() {
        let n = part.len();
        read_symbols(part, &mut block[..n]);
        weights::weigh(&mut block, &mut weights);
        sum = put_sums(&block[..n], sum, k * 16, output);
    }
}

// The first symbols, as many as the block takes.
fn read_symbols(symbols: &[[u8; 2]], block: &mut [u16])
    requires { length block.old ≤ length symbols.now }
    ensures { (l : ℕ) → l < length block.old → get_or block.new l 0 ≡ symbol_in symbols.now l }
{
    // By places, not `block.iter_mut().zip(symbols)`: of what an `iter_mut` in a `zip` writes, the proof knows nothing at the end.
    for (l, symbol) in block.iter_mut().enumerate() {
        *symbol = u16::from_le_bytes(symbols[l]);
    }
}

// The code from place i on, by the weighed symbols that each add to the sum. Its last symbol is the answer.
fn put_sums(block: &[u16], start: u16, i: usize, output: &mut [u8]) -> u16
    requires { (i + length block.now) * 2 ≤ length output.old }
    ensures { (code : ℕ → ℕ) (old : List ℕ) → length old ≡ length output.old → start ≡ code_previous code i → ((l : ℕ) → l < length block.now → code_previous code (i + l) ⊕ get_or block.now l 0 ≡ code (i + l)) → output.old ≡ written old 0 (bytes i code) → (result ≡ code_previous code (i + length block.now)) × (output.new ≡ written old 0 (bytes (i + length block.now) code)) }
{
    let mut sum = start;
    for (l, weighed) in block.iter().enumerate() {
        sum = field::sum(sum, *weighed);
        // Not `output.as_chunks_mut().0[i + l] = sum.to_le_bytes()`: nothing is said of what the output of an `as_chunks_mut` then holds.
        signature::put_two_bytes(usize::from(sum), output, (i + l) * 2);
    }
    sum
}

// Downward, a block at a time: what undoes the weights is then doubled from place to place as weights are.
fn put_plain(symbols: &[[u8; 2]], output: &mut [u8])
    requires { length symbols.now * 2 ≤ length output.old }
    ensures { output.new ≡ written output.old 0 (bytes (length symbols.now) (plain GF16 0 (symbol_in symbols.now))) }
{
    let all = Symbols {
        count: symbols.len(),
    };
    let mut unweights = [0u16; 16];
    weights::put_weights(
        field::double(field::times_power(1, units::exponent_back(all))),
        &mut unweights,
    );
    let mut block = [0u16; 16];
    let mut i = symbols.len();
    // Not `for done in (0..symbols.len()).step_by(16)`: with it decoding takes 7 % longer. Nor `rchunks`: a change takes the symbol before the part too.
    while i > 0 {
        let n = weights::least(16, i);
        read_changes(&symbols[..i], &mut block[..n]);
        weights::weigh(&mut block, &mut unweights);
        put_symbols(&block[..n], i, output);
        i -= n;
    }
}

// What each of the last symbols adds to the code, downward, as many as the block takes.
fn read_changes(symbols: &[[u8; 2]], block: &mut [u16])
    requires { length block.old ≤ length symbols.now }
    ensures { (l : ℕ) → l < length block.old → get_or block.new l 0 ≡ symbol_in symbols.now (length symbols.now - 1 - l) ⊕ code_previous (symbol_in symbols.now) (length symbols.now - 1 - l) }
{
    // By a counted place, not `zip` with the places from the last down: as in `read_symbols`.
    for (l, change) in block.iter_mut().enumerate() {
        let here = symbols.len() - 1 - l;
        *change = field::sum(u16::from_le_bytes(symbols[here]), previous(symbols, here));
    }
}

// Symbol i - 1 of a code, where symbol -1 is 0.
fn previous(symbols: &[[u8; 2]], i: usize) -> u16
    requires { i ≤ length symbols.now }
    ensures { result ≡ code_previous (symbol_in symbols.now) i }
{
    if i == 0 {
        return 0;
    }
    u16::from_le_bytes(symbols[i - 1])
}

// The symbols of the block below place i, downward.
fn put_symbols(block: &[u16], i: usize, output: &mut [u8])
    requires { (i * 2 ≤ length output.old) × (length block.now ≤ i) }
    ensures { (s : ℕ → ℕ) → ((l : ℕ) → l < length block.now → get_or block.now l 0 ≡ s (i - 1 - l)) → written output.new 0 (bytes (i - length block.now) s) ≡ written output.old 0 (bytes i s) }
{
    for (l, symbol) in block.iter().enumerate() {
        // At a counted place, as in `put_sums`.
        signature::put_two_bytes(usize::from(*symbol), output, (i - 1 - l) * 2);
    }
}

// The places where a plain pattern hits in a code, written to the start of the list, upward.
pub fn search(caption: &[u8], pattern: &[u8], list: &mut [usize]) -> Result<usize, Refusal>
    ensures { searched_of result list.new ≡ searching 0 caption.now pattern.now list.old }
{
    search_verdict(caption, pattern, list)?;
    find(caption.as_chunks().0, pattern, list)
}

fn search_verdict(caption: &[u8], pattern: &[u8], list: &[usize]) -> Result<(), Refusal>
    ensures { result ≡ first (search_tests caption.now pattern.now list.now) }
{
    if too_long(caption) {
        return Err(Refusal::Long);
    }
    if caption.len() % 2 != 0 || pattern.len() % 2 != 0 {
        return Err(Refusal::Odd);
    }
    let needed = places(
        signature::symbols_in(caption).count,
        signature::symbols_in(pattern).count,
    );
    if list.len() < needed {
        return Err(Refusal::Room(needed));
    }
    if pattern.is_empty() {
        return Err(Refusal::Empty);
    }
    Ok(())
}

// How many places there are for a pattern of l symbols in a field of m.
fn places(m: usize, l: usize) -> usize
    ensures { result ≡ code_places m l }
{
    if 1 <= l && l <= m { m - l + 1 } else { 0 }
}

// One comparison a place: what it is compared with is the pattern's signature, weighted as symbols are. A pattern with no place is not signed.
fn find(symbols: &[[u8; 2]], pattern: &[u8], list: &mut [usize]) -> Result<usize, Refusal>
    requires { code_places (length symbols.now) (object_symbols 2 pattern.now) ≤ length list.old }
    ensures { searched_of result list.new ≡ search_unless allowed (found_in symbols.now pattern.now) list.old }
{
    let l = signature::symbols_in(pattern).count;
    let count = places(symbols.len(), l);
    if count == 0 {
        return Ok(0);
    }
    let mut weighed = [0u16; 16];
    weights::put_weights(signature::own(1, pattern).s1, &mut weighed);
    let mut hits = Hits { list, found: 0 };
    let mut i: usize = 0;
    // Not `for i in (0..count).step_by(16)`: with it a search takes 7 % longer, as a step looks for the end twice.
    while i < count {
        let n = weights::least(16, count - i);
        let block = Block {
            symbols,
            l,
            i,
            weighed: &weighed[..n],
        };
        if block.may_hit() {
            block.note(&mut hits);
        }
        weights::move_on(&mut weighed);
        i += n;
    }
    Ok(hits.found)
}

// A block of a code's places, from i on and as many as are weighed: where the pattern hits, the l symbols there add up to what is weighed for the place.
#[derive(Clone, Copy)]
struct Block<'a> {
    symbols: &'a [[u8; 2]],
    l: usize,
    i: usize,
    weighed: &'a [u16],
    ghost inside: { i + length weighed.now + l ≤ length symbols.now + 1 },
}

impl Block<'_> {
    ghost use Rattle.caption.specs.Blocks.{after, summed, hit_at, Notes};

    // Whether some place may be hit. Before place 0 there is no symbol to read, so that all may be.
    fn may_hit(&self) -> bool
        ensures { result ≡ false → (k : ℕ) → k < length self.now.weighed.now → hit_at self.now k ≡ false }
    {
        if self.i == 0 {
            return true;
        }
        // Every place is looked at: with no early way out, many are compared at once. By a counted place: the code is read at two.
        let mut some = false;
        for (k, weighed) in self.weighed.iter().enumerate() {
            some |= field::sum(
                u16::from_le_bytes(self.symbols[self.i + k + self.l - 1]),
                u16::from_le_bytes(self.symbols[self.i + k - 1]),
            ) == *weighed;
        }
        some
    }

    // The hits among the places, listed after those before them.
    fn note(&self, hits: &mut Hits<'_>)
        requires { (after self.now ≤ length hits.old.list.now) × (hits.old.found ≤ self.now.i) }
        ensures noted { (test : ℕ → Bool) (old : List ℕ) → length old ≡ length hits.old.list.now → ((k : ℕ) → k < length self.now.weighed.now → test (self.now.i + k) ≡ hit_at self.now k) → Notes test old self.now.i hits.old → Notes test old (after self.now) hits.new }
        ensures same_list { hits.new.list.ghost_name ≡ hits.old.list.ghost_name }
    {
        for (k, weighed) in self.weighed.iter().enumerate() {
            if self.summed(k) == *weighed {
                hits.push(self.i + k);
            }
        }
    }

    // What the l symbols at place i + k add up to, weighted as they are in the code.
    fn summed(&self, k: usize) -> u16
        requires { k < length self.now.weighed.now }
        ensures { result ≡ summed self.now k }
    {
        let i = self.i + k;
        field::sum(
            previous(self.symbols, i + self.l),
            previous(self.symbols, i),
        )
    }
}

// A list, and how many places stand at its start: those where the pattern hits.
#[derive(Drop)]
struct Hits<'a> {
    list: &'a mut [usize],
    found: usize,
}

impl Hits<'_> {
    fn push(&mut self, place: usize)
        requires { self.old.found < length self.old.list.now }
        ensures pushed { (self.new.list.now ≡ set self.old.list.now self.old.found place) × (self.new.found ≡ self.old.found + 1) }
        ensures same_list { self.new.list.ghost_name ≡ self.old.list.ghost_name }
    {
        self.list[self.found] = place;
        self.found += 1;
    }
}
