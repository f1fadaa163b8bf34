#![tactic(auto)]

// Whole numbers: the tests and divisions that every crate above makes. The laws stand in specs/.
ghost use Rattle.std.specs.Prelude.{◌<◌, ◌≡◌};
ghost use Rattle.whole.specs.Plain.{true, T, pos, nat_abs, non_neg, lt_z, quot_z, up_to, every};
ghost use Rattle.whole.specs.Ranges.{room_of};
ghost use Rattle.whole.specs.Rounding.{nearest};
ghost use Rattle.whole.specs.Floor.{high, low};

// |x|, also of the least number, which has no negative of its own.
pub fn magnitude(x: i64) -> u64
    ensures { result ≡ nat_abs x }
{
    x.unsigned_abs()
}

// What is left of `most` over |x|; below 0 where |x| is more.
fn room(x: i64, most: i64) -> i64
    requires { T (non_neg most) }
    ensures { result ≡ room_of most x }
{
    if x < 0 { most + x } else { most - x }
}

// Whether |x| is at most `most`.
pub fn within(x: i64, most: i64) -> bool
    requires { T (non_neg most) }
    ensures { result ≡ up_to (nat_abs most) x }
{
    0 <= room(x, most)
}

// Whether each word's magnitude is at most `most`. One pass, which goes on to the end whatever it meets and gathers the sign alone: it has no
// branch to guess, and several words are judged at once.
pub fn all_within(xs: &[i64], most: i64) -> bool
    requires { T (non_neg most) }
    ensures { result ≡ every (up_to (nat_abs most)) xs.now }
{
    let mut all: i64 = 0;
    for &x in xs {
        let left = room(x, most);
        all = all | left;
    }
    0 <= all
}

// Whether each word is zero: their bits, taken together.
pub fn all_zero(xs: &[i64]) -> bool
    ensures { result ≡ every (up_to 0) xs.now }
{
    let mut all: i64 = 0;
    for &x in xs {
        all = all | x;
    }
    all == 0
}

// a / b to the nearest, halves up: by the rest, so that nothing is doubled and every a is taken.
pub fn nearest_quotient(a: u64, b: u64) -> u64
    requires { 0 < b }
    ensures { result ≡ nearest a b }
{
    let whole = a / b;
    let rest = a % b;
    if rest < b - rest { whole } else { whole + 1 }
}

// a / b rounded toward zero.
pub fn toward_zero(a: i64, b: i64) -> i64
    requires { lt_z (pos 0) b ≡ true }
    ensures { result ≡ quot_z a b }
{
    a / b
}

// x is high(x) * 2^32 + low(x), with low(x) from 0 below 2^32.
pub fn high(x: i64) -> i64
    ensures { result ≡ high x }
{
    x >> 32
}

pub fn low(x: i64) -> i64
    ensures { result ≡ pos (low x) }
{
    x & 0xffff_ffff
}
