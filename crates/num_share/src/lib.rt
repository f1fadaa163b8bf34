#![tactic(auto)]

// What lies between steps: a value between two others, rounded down once, also below zero: "the value sent at step k - q plus (that of step k - q - 1 minus it) · r / step, rounded
// down". The product has up to 78 bits; its quotient is worked out by parts that fit a word.
ghost use Rattle.std.specs.Prelude.{◌+◌, ◌*◌, ◌/◌, ◌≤◌, ◌<◌, ◌≡◌};
ghost use Rattle.whole.specs.Plain.{cond, eqb};
ghost use Rattle.whole.specs.Mixing as Mixing;
ghost use Rattle.paper.specs.Limits as Limits;
ghost use Rattle.num_share.specs.Mixed.{Shared, Mixable};

// How many values older than that of step k - q a line's end reads: one "where r is not 0".
pub fn older(rest: u64) -> usize
    ensures { result ≡ cond (eqb rest 0) 0 1 }
{
    usize::from(rest != 0)
}

// (gap · weight + more) / step, rounded down: down with no more, up with one less than the step.
fn share(gap: u64, weight: u64, step: u64, more: u64) -> u64
    requires { Shared step weight × ((gap ≤ 2 * Limits.history_end) × (more < step)) }
    ensures { result ≡ (gap * weight + more) / step }
{
    let steps = gap / step;
    let rest = gap % step;
    steps * weight + (rest * weight + more) / step
}

// The newer value and a share `rest` of `step` of the way to the older one. On the way down the share is rounded up, so that the value is rounded down.
pub fn mixed(newer: i64, older: i64, rest: u64, step: u64) -> i64
    requires { Shared step rest × Mixable newer older }
    ensures { result ≡ Mixing.mixed step rest newer older }
{
    let gap = older - newer;
    let size = whole::magnitude(gap);
    if gap < 0 {
        return newer - share(size, rest, step, step - 1) as i64;
    }
    newer + share(size, rest, step, 0) as i64
}
