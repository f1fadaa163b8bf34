#![tactic(auto)]

// The numbers layer for programs in C. No function requires anything: what a callee requires is tested here.
ghost use Rattle.std.specs.Prelude.{◌≡◌};
ghost use Rattle.paper.specs.Doubles.{double, nearest_of};
ghost use Rattle.num_c.specs.Outcomes.{words_judged, quotient_of, part_of, out, rounded, solution};

use paper::Node;
use step_factors::{ByFree, Matrix};

#[unsafe(no_mangle)]
pub extern "C" fn numbers_all_within(xs: &[i64], most: i64) -> bool
    ensures { result ≡ words_judged most xs.now }
{
    if 0 <= most {
        return whole::all_within(xs, most);
    }
    false
}

#[unsafe(no_mangle)]
pub extern "C" fn numbers_nearest_quotient(a: u64, b: u64) -> u64
    ensures { result ≡ quotient_of a b }
{
    if b == 0 {
        return 0;
    }
    whole::nearest_quotient(a, b)
}

#[unsafe(no_mangle)]
pub extern "C" fn numbers_toward_zero(a: i64, b: i64) -> i64
    ensures { result ≡ part_of a b }
{
    if 0 < b {
        return whole::toward_zero(a, b);
    }
    0
}

#[unsafe(no_mangle)]
pub extern "C" fn numbers_to_double(x: i64) -> f64
    ensures { result ≡ double x }
{
    num_double::to_double(x)
}

// Whether x is within the voltage range; if so, its nearest whole number is written.
#[unsafe(no_mangle)]
pub extern "C" fn numbers_nearest(x: f64, whole: &mut i64) -> bool
    ensures { out result whole.new ≡ rounded whole.old (nearest_of x) }
{
    let r = num_double::nearest(x);
    match r {
        Some(good) => {
            let v = good.tenths;
            *whole = v;
            true
        }
        None => false,
    }
}

// Whether n is at most 32; if so, x has the solution of the first n rows, and from its place n on the words of rights.
#[unsafe(no_mangle)]
pub extern "C" fn numbers_solve(a: &Matrix, rights: &ByFree, n: usize, x: &mut ByFree) -> bool
    ensures { out result x.new ≡ solution a.now rights.now n x.old }
{
    if (Node::MAX as usize) < n {
        return false;
    }
    let mut factors = *a;
    step_factors::factor(&mut factors, 0, n);
    *x = *rights;
    step_factors::substitute(&factors, 0, x, n);
    true
}
