#![tactic(auto)]

// "A source before its start is 0; from start, with n steps since": what an area's sources hold and inject at one step.
ghost use Rattle.std.specs.Prelude.{◌-◌, ◌*◌, ◌≤◌, ◌≡◌};
ghost use Rattle.whole.specs.Plain.{true, pos, nat_abs, le_z, nat};
ghost use Rattle.paper.specs.Limits as Limits;
ghost use Rattle.step_legs.specs.Sums.{none};
ghost use Rattle.step_legs.specs.Free.{InjectsWithin};
ghost use Rattle.step_sources.specs.Table.{is_fixing, is_iS, ramp_of, swing_of, LineSound, Sources, Room, give, given};

use paper::{Kind, Node};
use step_legs::Source;

// "A source before its start is 0"; "it is peak · n / rise rounded toward zero while n < rise; at or after the rise it is the peak": a rise below 0 is over at once.
fn ramp(peak: i64, n: i64, rise: i64) -> i64
    requires { (nat_abs peak ≤ Limits.injection_end) × (le_z rise (pos Limits.rise_end) ≡ true) }
    ensures { result ≡ ramp_of peak n rise }
{
    if n < 0 {
        return 0;
    }
    if n < rise {
        return peak * n / rise;
    }
    peak
}

// The parts of a turn, and the phase of one: a whole turn is 10^12.
const PARTS: usize = 1_024;

const PART: usize = 976_562_500;

// What a cosine of 1 is in the table.
const ONE: i64 = 1_073_741_824;

// "the phase is n · step · frequency modulo 10^12, and the index is 1024 times that over 10^12, rounded down"; "the value is peak · cosine / 2^30 rounded toward zero"
fn swing(peak: i64, n: i64, pace: usize) -> i64
    requires peak_bound { (nat_abs peak ≤ Limits.voltage_end) × (pace ≤ Limits.step_length_end * Limits.frequency_end) }
    requires n_bound { nat n ≤ Limits.steps_end }
    ensures { result ≡ swing_of peak n pace }
{
    if 0 <= n {
        let index = (n as usize) * pace / PART % PARTS;
        return peak * num_cosine::cosine(index) / ONE;
    }
    0
}

// A source's part: a VS or a VC holds its node at its value, an IS injects its value into its node. What swings has its whole peak from the ramp.
fn drive_one(s: Source, k: usize, v: &mut [i64; Node::PLACES], inject: &mut [i64; Node::PLACES])
    requires sound { LineSound s × (k ≤ Limits.steps_end) }
    requires room { Room (Limits.source_end - 1) v.old × Room (Limits.source_end - 1) inject.old }
    ensures v_value { v.new ≡ give is_fixing k v.old s }
    ensures inject_value { inject.new ≡ give is_iS k inject.old s }
{
    let n = (k as i64) - s.start;
    let x = ramp(s.peak, n, s.pace);
    match s.kind {
        Kind::Vs => step_legs::add(v, s.node, x),
        Kind::Is => step_legs::add(inject, s.node, x),
        // a VC
        _ => {
            let swung = swing(x, n, whole::magnitude(s.pace) as usize);
            step_legs::add(v, s.node, swung);
        }
    }
}

// What the area's VS and VC hold and what its IS inject, by node, at step k.
pub fn drive(
    sources: &[Source],
    k: usize,
    v: &mut [i64; Node::PLACES],
    inject: &mut [i64; Node::PLACES],
)
    requires sources { Sources sources.now × (k ≤ Limits.steps_end) }
    requires none_yet { (v.old ≡ none) × (inject.old ≡ none) }
    ensures v_value { v.new ≡ given is_fixing k sources.now }
    ensures inject_value { inject.new ≡ given is_iS k sources.now }
    ensures injects_within { InjectsWithin inject.new }
{
    for source in sources {
        drive_one(*source, k, v, inject);
    }
}
