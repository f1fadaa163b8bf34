#![tactic(auto)]

// One right side for the factors that an area keeps: what its legs draw, the equations' right sides as doubles, and the voltages of its free nodes, or
// refusal 15 with the lowest node whose double is outside the range.
ghost use Rattle.std.specs.Prelude.{◌+◌, ◌≤◌, ◌<◌, ◌≡◌};
ghost use Rattle.whole.specs.Plain.{suc, map, length, word};
ghost use Rattle.paper.specs.Limits as Limits;
ghost use Rattle.paper.specs.Solve.{proposed};
ghost use Rattle.step_legs.specs.Wires.{legs_in, Sized};
ghost use Rattle.step_legs.specs.Shares.{Volts, drawn};
ghost use Rattle.step_legs.specs.Sums.{Sums, none, Near};
ghost use Rattle.step_legs.specs.Free.{Free, InjectsWithin};
ghost use Rattle.step_factors.specs.Factors.{Serves};
ghost use Rattle.step_factors.specs.Positions.{bare};
ghost use Rattle.step_factors.specs.Proposed.{matrix_of};
ghost use Rattle.step_solve.specs.Rights.{Rights};
ghost use Rattle.step_solve.specs.Settling.{refusal_of, Solved, rounded};

use paper::{Node, Refusal};
use step_factors::{ByFree, Matrix};
use step_legs::Wire;

// the lowest node whose double is outside the range: 15
#[derive(Clone, Copy)]
pub struct OutOfRange {
    pub node: usize,
}

impl From<OutOfRange> for Refusal {
    ghost from_gives = { λ out refusal. refusal ≡ refusal_of out };

    fn from(out: OutOfRange) -> Refusal {
        Refusal::Range(out.node as u64)
    }
}

// by node, what its legs would draw with the node at 0
fn draws(legs: &[Wire], still: &[i64; Node::PLACES]) -> [i64; Node::PLACES]
    requires { Sized legs.now × Volts still.now }
    ensures { Sums none (drawn still.now) (legs_in legs.now) result }
{
    let mut sums = [0; Node::PLACES];
    for leg in legs {
        sums[leg.near] += leg.drawn(still);
    }
    sums
}

// "The right side is injection minus histories .. plus conductance times fixed neighbour voltages, summed in whole numbers"
fn right_sides(
    free: &[usize],
    inject: &[i64; Node::PLACES],
    drawn: &[i64; Node::PLACES],
    b: &mut ByFree,
)
    requires free { Free free.now × Near (suc Limits.node_end) inject.now drawn.now }
    requires b_long { length b.old ≡ Limits.node_end }
    ensures { Rights (length free.now) free.now inject.now drawn.now b.new }
{
    for (i, &p) in free.iter().enumerate() {
        b[i] = num_double::to_double(inject[p] - drawn[p]);
    }
}

// "Each x within the voltage range goes to the nearest whole number .. one that isn't within it, not-a-number included, is RANGE.": the lowest such node.
fn put_all(xs: &ByFree, free: &[usize], v: &mut [i64; Node::PLACES]) -> Result<(), OutOfRange>
    requires { Free free.now × (length free.now ≤ length xs.now) }
    ensures { Solved free.now (rounded (length free.now) xs.now) v.old v.new result }
{
    for (i, &p) in free.iter().enumerate() {
        let Some(near) = num_double::nearest(xs[i]) else {
            return Err(OutOfRange { node: p });
        };
        v[p] = near.tenths;
    }
    Ok(())
}

// v has the fixed nodes' voltages at entry, and all the area's where none is refused.
pub fn solve(
    legs: &[Wire],
    free: &[usize],
    inject: &[i64; Node::PLACES],
    a: &Matrix,
    base: usize,
    v: &mut [i64; Node::PLACES],
) -> Result<(), OutOfRange>
    requires sized { Sized legs.now × Volts v.old × InjectsWithin inject.now × Free free.now }
    requires free_bound { base + length free.now ≤ Limits.node_end }
    requires serves { Serves base (length free.now) (matrix_of (map bare (legs_in legs.now)) free.now) a.now }
    ensures { Solved free.now (proposed (legs_in legs.now) free.now v.old (λ p. word inject.now p))
        v.old v.new result }
{
    let drawn = draws(legs, v);
    let mut b = [0.0; Node::MAX as usize];
    right_sides(free, inject, &drawn, &mut b);
    step_factors::substitute(a, base, &mut b, free.len());
    put_all(&b, free, v)
}
