#![tactic(auto)]

// Whole numbers to doubles and back, each operation rounded once.
ghost use Rattle.std.specs.Prelude.{◌≤◌, ◌≡◌};
ghost use Rattle.whole.specs.Plain.{true};
ghost use Rattle.std.specs.Float.Ieee.Positive.{num, den};
ghost use Rattle.whole.specs.Rounding.{nearest};
ghost use Rattle.paper.specs.Doubles.{double, in_range, whole_of, nearest_of};
ghost use Rattle.paper.specs.Limits.{voltage_end};
ghost use Rattle.num_double.specs.Halves.{UpTo};

use num_quantity::Voltage;

// "the double of q, times 2^32, plus the double of r": both casts and the product are exact, and the sum is rounded.
pub fn to_double(x: i64) -> f64
    ensures { result ≡ double x }
{
    (whole::high(x) as f64) * 4294967296.0 + (whole::low(x) as f64)
}

// y to the nearest whole number, a half up: y + y is exact.
fn half_up(y: f64) -> u64
    requires { UpTo voltage_end y }
    ensures { (result ≡ nearest (num y) (den y)) × (result ≤ voltage_end) }
{
    (std::num::truncating_f64_to_u64(y + y) + 1) / 2
}

fn to_whole(x: f64) -> i64
    requires { in_range x ≡ true }
    ensures { result ≡ whole_of x }
{
    if x < 0.0 {
        0 - (half_up(-x) as i64)
    } else {
        half_up(x) as i64
    }
}

// A double as a voltage: x to the nearest whole number, halves away from zero, and refused where it is outside the voltage range.
pub fn nearest(x: f64) -> Option<Voltage>
    ensures { result ≡ nearest_of x }
{
    let most = Voltage::MAX as f64;
    if -most <= x {
        if x <= most {
            return Some(Voltage {
                tenths: to_whole(x),
            });
        }
    }
    None
}
