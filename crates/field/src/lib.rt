// The arithmetic of GF(2^16): a symbol is a binary polynomial, and products are reduced by 1100B hex.
#![tactic(auto)]

ghost use Rattle.std.specs.Prelude.{◌≡◌, ◌<◌};
ghost use Rattle.field.specs.Field.{GF16, α, ◌⊕◌};
ghost use Rattle.field.specs.Field.{doubled as field_doubled, scaled as field_scaled, product as field_product, power as field_power};

use units::Exponent;

pub fn sum(a: u16, b: u16) -> u16
    ensures { result ≡ a ⊕ b }
{
    a ^ b
}

// The shift drops x^16, and what the polynomial has below x^16 stands for it.
pub fn double(a: u16) -> u16
    ensures { result ≡ field_doubled GF16 a }
{
    if a < 0x8000 {
        a << 1
    } else {
        (a << 1) ^ 0x100B
    }
}

// A digit of b a turn, as long as there are any.
pub fn product(a: u16, b: u16) -> u16
    ensures { result ≡ field_product GF16 a b }
{
    let mut r: u16 = 0;
    let mut x = a;
    let mut y = b;
    while y > 0 {
        r = sum(scaled(y % 2, x), r);
        x = double(x);
        y /= 2;
    }
    r
}

// A digit times a symbol.
fn scaled(d: u16, a: u16) -> u16
    ensures { result ≡ field_scaled d a }
{
    if d == 0 { 0 } else { a }
}

// a · α^e. A digit of e a turn, as long as there are any; in turn, s is α to each power of two.
pub fn times_power(a: u16, e: Exponent) -> u16
    ensures { result ≡ field_product GF16 a (field_power GF16 α e.power) }
{
    let mut r = a;
    let mut s: u16 = 2;
    let mut left = e.power;
    while left > 0 {
        r = raised(left % 2, r, s);
        s = product(s, s);
        left /= 2;
    }
    r
}

// a · s^d, for a digit d.
fn raised(d: u16, a: u16, s: u16) -> u16
    requires { d < 2 }
    ensures { result ≡ field_product GF16 a (field_power GF16 s d) }
{
    if d == 0 { a } else { product(a, s) }
}
