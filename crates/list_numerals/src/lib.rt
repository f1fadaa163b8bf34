#![tactic(auto)]

// A number's digits, however many, and its sign, put into a lent buffer from a place on, eight at a time; each function answers the next place.
ghost use Rattle.std.specs.Prelude.{◌+◌, ◌^◌, ◌≤◌, ◌<◌, ◌≡◌};
ghost use Rattle.whole.specs.Plain.{length};
ghost use Rattle.paper.specs.Listing.{shown_nat, shown};
ghost use Rattle.list_digits.specs.Puts.{Puts};

// what eight digits count up to
const EIGHT: u64 = 100_000_000;

// A number of up to sixteen digits, without zeros in front.
fn put_to_sixteen(out: &mut [u8], at: usize, n: u64) -> usize
    requires { (n < 10 ^ 16) × (at + length (shown_nat n) ≤ length out.old) }
    ensures { Puts out.old at (shown_nat n) result out.new }
{
    if n < EIGHT {
        return list_digits::put_to_eight(out, at, n);
    }
    let lead = n / EIGHT;
    let next = list_digits::put_to_eight(out, at, lead);
    list_digits::put_eight(out, next, n - EIGHT * lead)
}

pub fn put_natural(out: &mut [u8], at: usize, n: u64) -> usize
    requires { at + length (shown_nat n) ≤ length out.old }
    ensures { Puts out.old at (shown_nat n) result out.new }
{
    if n < EIGHT * EIGHT {
        return put_to_sixteen(out, at, n);
    }
    let lead = n / EIGHT;
    let next = put_to_sixteen(out, at, lead);
    list_digits::put_eight(out, next, n - EIGHT * lead)
}

pub fn put_number(out: &mut [u8], at: usize, x: i64) -> usize
    requires { at + length (shown x) ≤ length out.old }
    ensures { Puts out.old at (shown x) result out.new }
{
    let n = whole::magnitude(x);
    if 0 <= x {
        return put_natural(out, at, n);
    }
    out[at] = b'-';
    put_natural(out, at + 1, n)
}
