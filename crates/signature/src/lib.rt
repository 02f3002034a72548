// The algebraic signature of an object: signing it, joining the signatures of its two parts, and editing a signature where bytes were replaced.
#![tactic(auto)]

ghost use Rattle.std.specs.Prelude.{◌≡◌, ◌+◌, ◌*◌, ◌<◌, get_or};
ghost use Rattle.units.specs.Sizes.{object_allowed};
ghost use Rattle.units.specs.Writing.{part_put};
ghost use Rattle.field.specs.Field.{GF16, α, ◌⊕◌};
ghost use Rattle.field.specs.Field.{product as field_product, power as field_power};
ghost use Rattle.signature.specs.Objects.{low_first, low_bytes, symbol as object_symbol, symbols as object_symbols};
ghost use Rattle.signature.specs.Signatures.{signature as object_signature, joined, handed, answered, up_to};
ghost use Rattle.signature.specs.Kinds.{wide};
ghost use Rattle.signature.specs.Operations.{own as object_own, signing, joining, editing};

use units::{Bytes, Refusal, Symbols};

// n and four components, by name and in no array: `handed` and `answered`, over which all is promised, have these fields. Those above n are ignored on entry, and zero in every answer.
#[derive(Clone, Copy, Debug, PartialEq, Eq, Hash)]
pub struct Signature {
    pub n: usize,
    pub s1: u16,
    pub s2: u16,
    pub s3: u16,
    pub s4: u16,
}

pub fn sign(n: usize, object: &[u8]) -> Result<Signature, Refusal>
    ensures { result ≡ signing wide n object.now }
{
    if !units::n_allowed(n) {
        return Err(Refusal::Size);
    }
    if !units::object_allowed(symbols_in(object)) {
        return Err(Refusal::Long);
    }
    Ok(own(n, object))
}

// The first part has a symbols, the second b.
pub fn join(
    first: Signature,
    a: Symbols,
    second: Signature,
    b: Symbols,
) -> Result<Signature, Refusal>
    ensures { result ≡ joining wide first a.count second b.count }
{
    if !units::n_allowed(first.n) || !units::n_allowed(second.n) {
        return Err(Refusal::Size);
    }
    if !fits(a, b) {
        return Err(Refusal::Long);
    }
    if first.n != second.n {
        return Err(Refusal::Match);
    }
    Ok(added_at(first, a, second))
}

// From symbol r on, the old bytes are replaced by the new ones.
pub fn edit(s: Signature, r: Symbols, old: &[u8], new: &[u8]) -> Result<Signature, Refusal>
    ensures { result ≡ editing wide s r.count old.now new.now }
{
    if !units::n_allowed(s.n) {
        return Err(Refusal::Size);
    }
    if !fits(r, symbols_in(old)) {
        return Err(Refusal::Long);
    }
    if old.len() % 2 != 0 || new.len() % 2 != 0 {
        return Err(Refusal::Odd);
    }
    if old.len() != new.len() {
        return Err(Refusal::Match);
    }
    Ok(added_at(s, r, change(s.n, old, new)))
}

pub fn symbols_in(object: &[u8]) -> Symbols
    ensures { result.count ≡ object_symbols 2 object.now }
{
    units::symbols_of(Bytes {
        count: object.len(),
    })
}

// Whether a symbols and b more are within the limit. Their sum might not fit a word.
fn fits(a: Symbols, b: Symbols) -> bool
    ensures { result ≡ object_allowed (a.count + b.count) }
{
    a.count <= units::OBJECT_SYMBOLS_MOST && b.count <= units::OBJECT_SYMBOLS_MOST - a.count
}

// An object's own signature, of any length. Components above n are not asked for.
pub fn own(n: usize, object: &[u8]) -> Signature
    ensures { result ≡ object_own wide n object.now }
{
    if n > 2 {
        return own_four(n, object);
    }
    if n == 2 {
        return own_two(object);
    }
    Signature {
        n,
        s1: up_to(n, 1, fold::first(object)),
        s2: 0,
        s3: 0,
        s4: 0,
    }
}

fn own_two(object: &[u8]) -> Signature
    ensures { result ≡ object_own wide 2 object.now }
{
    let two = fold::first_two(object);
    Signature {
        n: 2,
        s1: two.s1,
        s2: two.s2,
        s3: 0,
        s4: 0,
    }
}

fn own_four(n: usize, object: &[u8]) -> Signature
    requires { 2 < n }
    ensures { result ≡ object_own wide n object.now }
{
    let s = fold::first_four(object);
    Signature {
        n,
        s1: s.s1,
        s2: s.s2,
        s3: s.s3,
        s4: up_to(n, 4, s.s4),
    }
}

fn up_to(n: usize, j: usize, x: u16) -> u16
    ensures { result ≡ up_to n j x }
{
    if n < j { 0 } else { x }
}

// The sum of two objects' own signatures.
fn change(n: usize, old: &[u8], new: &[u8]) -> Signature
    ensures { result ≡ answered n (λ j. object_signature GF16 2 old.now j ⊕ object_signature GF16 2 new.now j) }
{
    let x = own(n, old);
    let y = own(n, new);
    Signature {
        n,
        s1: field::sum(x.s1, y.s1),
        s2: field::sum(x.s2, y.s2),
        s3: field::sum(x.s3, y.s3),
        s4: field::sum(x.s4, y.s4),
    }
}

// The signature s, and t moved up to symbol `at` added to it.
fn added_at(s: Signature, at: Symbols, t: Signature) -> Signature
    ensures { result ≡ answered s.n (joined GF16 (handed s) at.count (handed t)) }
{
    Signature {
        n: s.n,
        s1: component_added(s.n, 1, s.s1, at, t.s1),
        s2: component_added(s.n, 2, s.s2, at, t.s2),
        s3: component_added(s.n, 3, s.s3, at, t.s3),
        s4: component_added(s.n, 4, s.s4, at, t.s4),
    }
}

fn component_added(n: usize, j: usize, x: u16, at: Symbols, y: u16) -> u16
    ensures { result ≡ up_to n j (x ⊕ field_product GF16 y (field_power GF16 α (j * at.count))) }
{
    if n < j {
        0
    } else {
        field::sum(x, field::times_power(y, units::exponent_of(j, at)))
    }
}

// The symbol at a place, and zero past the end.
pub fn symbol(object: &[u8], at: Symbols) -> u16
    ensures { result ≡ object_symbol 2 object.now at.count }
{
    pair(object, units::bytes_of(at).count)
}

// The number that two bytes make, low byte first. Past the end there are zeros.
pub fn two_bytes(object: &[u8], at: usize) -> usize
    ensures { result ≡ low_first 2 object.now at }
{
    usize::from(pair(object, at))
}

// The same as a symbol.
pub fn pair(object: &[u8], at: usize) -> u16
    ensures { result ≡ low_first 2 object.now at }
{
    if at >= object.len() {
        return 0;
    }
    let second = at + 1;
    let low = byte(object, Bytes { count: at });
    let high = byte(object, Bytes { count: second });
    u16::from_le_bytes([low, high])
}

// The byte at a place, and zero past the end.
pub fn byte(object: &[u8], at: Bytes) -> u8
    ensures { result ≡ get_or object.now at.count 0 }
{
    object.get(at.count).copied().unwrap_or(0)
}

// A number's two low bytes, low byte first, written over what stood there. Where there is no room for them, all stays as it was. Not by `units::put_part`: with it encoding takes 14 % longer.
pub fn put_two_bytes(x: usize, output: &mut [u8], at: usize)
    ensures { output.new ≡ part_put (low_bytes 2 x) output.old at }
{
    if output.len() < 2 || at > output.len() - 2 {
        return;
    }
    let [low, high, ..] = x.to_le_bytes();
    output[at] = low;
    output[at + 1] = high;
}
