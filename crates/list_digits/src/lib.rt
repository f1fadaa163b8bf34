#![tactic(auto)]

// Up to eight digits, put into a lent buffer from a place on, two at a time; each function answers the next place.
ghost use Rattle.std.specs.Prelude.{◌+◌, ◌/◌, ◌%◌, ◌^◌, ◌≤◌, ◌<◌, ◌≡◌};
ghost use Rattle.whole.specs.Plain.{length};
ghost use Rattle.paper.specs.Listing.{shown_nat};
ghost use Rattle.list_digits.specs.Puts.{Puts};
ghost use Rattle.list_digits.specs.Decimal.{fixed};
ghost use Rattle.list_digits.specs.Pairs.{tens};

// Both digits of 0 to 99, to look them up.
static PAIRS: [u8; 200] = *b"00010203040506070809\
       10111213141516171819\
       20212223242526272829\
       30313233343536373839\
       40414243444546474849\
       50515253545556575859\
       60616263646566676869\
       70717273747576777879\
       80818283848586878889\
       90919293949596979899";

fn tens_of(n: u64) -> u8
    requires { n < 10 ^ 2 }
    ensures { result ≡ 48 + n / 10 }
{
    PAIRS[2 * n as usize]
}

fn ones_of(n: u64) -> u8
    requires { n < 10 ^ 2 }
    ensures { result ≡ 48 + n % 10 }
{
    PAIRS[2 * n as usize + 1]
}

// ---- quotients, by a product and a shift: 5243 / 2^19 is more than 1 / 100 by too little to be seen below 10^4

fn hundreds(n: u64) -> u64
    requires { n < 10 ^ 4 }
    ensures { result ≡ n / 10 ^ 2 }
{
    (n * 5_243) >> 19
}

fn ten_thousands(n: u64) -> u64
    requires { n < 10 ^ 8 }
    ensures { result ≡ n / 10 ^ 4 }
{
    (n * 109_951_163) >> 40
}

// ---- so many digits, zeros in front too

fn put_digit(out: &mut [u8], at: usize, n: u64) -> usize
    requires { (n < 10) × (at + 1 ≤ length out.old) }
    ensures { Puts out.old at (fixed 1 n) result out.new }
{
    out[at] = 48 + n as u8;
    at + 1
}

fn put_pair(out: &mut [u8], at: usize, n: u64) -> usize
    requires { (n < 10 ^ 2) × (at + 2 ≤ length out.old) }
    ensures { Puts out.old at (fixed 2 n) result out.new }
{
    let first = tens_of(n);
    let second = ones_of(n);
    out[at] = first;
    out[at + 1] = second;
    at + 2
}

fn put_four(out: &mut [u8], at: usize, n: u64) -> usize
    requires { (n < 10 ^ 4) × (at + 4 ≤ length out.old) }
    ensures { Puts out.old at (fixed 4 n) result out.new }
{
    let lead = hundreds(n);
    let next = put_pair(out, at, lead);
    put_pair(out, next, n - 100 * lead)
}

pub fn put_eight(out: &mut [u8], at: usize, n: u64) -> usize
    requires { (n < 10 ^ 8) × (at + 8 ≤ length out.old) }
    ensures { Puts out.old at (fixed 8 n) result out.new }
{
    let lead = ten_thousands(n);
    let next = put_four(out, at, lead);
    put_four(out, next, n - 10_000 * lead)
}

// ---- a number without zeros in front

// the first of two digits, or none
fn put_tens(out: &mut [u8], at: usize, n: u64) -> usize
    requires { (n < 10 ^ 2) × (at + length (tens n) ≤ length out.old) }
    ensures { Puts out.old at (tens n) result out.new }
{
    if n < 10 {
        return at;
    }
    out[at] = tens_of(n);
    at + 1
}

// as nodes and branches have
pub fn put_small(out: &mut [u8], at: usize, n: u64) -> usize
    requires { (n < 10 ^ 2) × (at + length (shown_nat n) ≤ length out.old) }
    ensures { Puts out.old at (shown_nat n) result out.new }
{
    let next = put_tens(out, at, n);
    out[next] = ones_of(n);
    next + 1
}

fn put_under_four(out: &mut [u8], at: usize, n: u64) -> usize
    requires { (n < 10 ^ 3) × (at + length (shown_nat n) ≤ length out.old) }
    ensures { Puts out.old at (shown_nat n) result out.new }
{
    if n < 100 {
        return put_small(out, at, n);
    }
    let lead = hundreds(n);
    let next = put_digit(out, at, lead);
    put_pair(out, next, n - 100 * lead)
}

fn put_to_four(out: &mut [u8], at: usize, n: u64) -> usize
    requires { (n < 10 ^ 4) × (at + length (shown_nat n) ≤ length out.old) }
    ensures { Puts out.old at (shown_nat n) result out.new }
{
    if n < 1_000 {
        return put_under_four(out, at, n);
    }
    put_four(out, at, n)
}

pub fn put_to_eight(out: &mut [u8], at: usize, n: u64) -> usize
    requires { (n < 10 ^ 8) × (at + length (shown_nat n) ≤ length out.old) }
    ensures { Puts out.old at (shown_nat n) result out.new }
{
    if n < 10_000 {
        return put_to_four(out, at, n);
    }
    let lead = ten_thousands(n);
    let next = put_to_four(out, at, lead);
    put_four(out, next, n - 10_000 * lead)
}
