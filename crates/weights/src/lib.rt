// Blocks of 16 symbols and their weights. As a symbol has 16 digits, the doublings that multiply by a block's weights make them the next block's.
#![tactic(auto)]

ghost use Rattle.std.specs.Prelude.{◌≡◌, min, length, get_or};
ghost use Rattle.weights.specs.Blocks.{Set};
ghost use Rattle.field.specs.Field.{GF16, α};
ghost use Rattle.field.specs.Field.{product as field_product, power as field_power};

// The library's `min`, by the name that is promised.
pub fn least(a: usize, b: usize) -> usize
    ensures { result ≡ min a b }
{
    a.min(b)
}

// The weights of a block, each the double of the one before.
pub fn put_weights(first: u16, weights: &mut [u16])
    ensures { Set (λ l. field_product GF16 first (field_power GF16 α l)) weights.old (length weights.old) weights.new }
{
    let mut next = first;
    for weight in weights.iter_mut() {
        *weight = next;
        next = field::double(next);
    }
}

// Each symbol of a block times its weight, as many as there are of both. The weights become those of 16 symbols on.
pub fn weigh(block: &mut [u16], weights: &mut [u16])
    ensures product { Set (λ l. field_product GF16 (get_or block.old l 0) (get_or weights.old l 0)) block.old (min (length block.old) (length weights.old)) block.new }
    ensures weight { Set (λ l. field_product GF16 (get_or weights.old l 0) (field_power GF16 α 16)) weights.old (min (length block.old) (length weights.old)) weights.new }
{
    // By places: over a `zip` of two `iter_mut` the proof did not close, since it knows no more than the lengths of what is written.
    for l in 0..least(block.len(), weights.len()) {
        let (product, next) = weighed(block[l], weights[l]);
        block[l] = product;
        weights[l] = next;
    }
}

// A symbol times its weight, and the weight 16 symbols on. A digit of the symbol a turn, and no branch: so many symbols are weighed at once.
fn weighed(symbol: u16, weight: u16) -> (u16, u16)
    ensures product { result.0 ≡ field_product GF16 symbol weight }
    ensures weight { result.1 ≡ field_product GF16 weight (field_power GF16 α 16) }
{
    let mut r: u16 = 0;
    let mut x = weight;
    let mut y = symbol;
    for _ in 0..u16::BITS {
        r = field::sum(y % 2 * x, r);
        x = field::double(x);
        y /= 2;
    }
    (r, x)
}

// Weights 16 symbols on.
pub fn move_on(weights: &mut [u16])
    ensures { Set (λ l. field_product GF16 (get_or weights.old l 0) (field_power GF16 α 16)) weights.old (length weights.old) weights.new }
{
    for weight in weights.iter_mut() {
        *weight = moved(*weight);
    }
}

// At 16 digits, where `words` reduces 64: so many symbols are moved at once as stand in a vector. How often 1100B hex goes off is found first: the weight, times the inverse of 1 + x^-4 + x^-13 + x^-15 + x^-16.
fn moved(weight: u16) -> u16
    ensures { result ≡ field_product GF16 weight (field_power GF16 α 16) }
{
    let b = weight ^ (weight >> 4) ^ (weight >> 13) ^ (weight >> 15);
    let q = b ^ (b >> 8);
    q ^ (q << 1) ^ (q << 3) ^ (q << 12)
}
