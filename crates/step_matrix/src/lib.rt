#![tactic(auto)]

// From an area's legs to the factors of its block of the table that all areas share: once for each position of the area's switches. A sum of at most
// 64 conductances is exact in doubles, so that each leg goes straight into the matrix.
ghost use Rattle.std.specs.Prelude.{◌+◌, ◌≤◌, ◌<◌, ◌≡◌};
ghost use Rattle.whole.specs.Plain.{map, length};
ghost use Rattle.paper.specs.Limits as Limits;
ghost use Rattle.step_legs.specs.Wires.{legs_in, Wires};
ghost use Rattle.step_legs.specs.Free.{Free};
ghost use Rattle.step_factors.specs.Factors.{Square, Serves};
ghost use Rattle.step_factors.specs.Blocks.{Renewed};
ghost use Rattle.step_factors.specs.Positions.{bare};
ghost use Rattle.step_factors.specs.Proposed.{matrix_of};
ghost use Rattle.step_matrix.specs.Placed.{Placed};
ghost use Rattle.step_matrix.specs.Joined.{line_joined, joined};
ghost use Rattle.step_matrix.specs.Cleared.{Cleared};
ghost use Rattle.step_matrix.specs.Block.{Block};

use paper::Node;
use step_factors::{ByFree, Matrix};
use step_legs::Wire;

// by node its place among the free nodes; 32 for a node that is none of them
fn places(free: &[usize]) -> [usize; Node::PLACES]
    requires { Free free.now }
    ensures { Placed free.now result (length free.now) }
{
    let mut place = [Node::MAX as usize; Node::PLACES];
    for (i, &k) in free.iter().enumerate() {
        place[k] = i;
    }
    place
}

// Whole lines: the cells past the block take no part.
fn clear(a: &mut Matrix, base: usize, n: usize)
    requires { (base + n ≤ Limits.node_end) × Square a.old }
    ensures { Cleared base n n a.old a.new }
{
    for p in 0..n {
        a[base + p] = [0.0; Node::MAX as usize];
    }
}

// A leg of conductance g from place p to place q. The pivot is written last, so that a leg back to its own node only adds to it.
fn join_line(line: &mut ByFree, n: usize, p: usize, q: usize, g: f64)
    requires { (n ≤ Limits.node_end) × (p < n) }
    ensures { line.new ≡ line_joined n p q g line.old }
{
    let pivot = line[p] + g;
    if q < n {
        line[q] -= g;
    }
    line[p] = pivot;
}

// A leg from ground or a fixed node has no line.
fn join(a: &mut Matrix, base: usize, n: usize, p: usize, q: usize, g: f64)
    requires { base + n ≤ Limits.node_end }
    ensures { a.new ≡ joined base n p q g a.old }
{
    if p < n {
        join_line(&mut a[base + p], n, p, q, g);
    }
}

// the block, leg by leg
fn fill(legs: &[Wire], free: &[usize], place: &[usize; Node::PLACES], base: usize, a: &mut Matrix)
    requires wires { Wires legs.now × Free free.now × Placed free.now place.now (length free.now) }
    requires free_bound { (base + length free.now ≤ Limits.node_end) × Square a.old }
    ensures { Block (legs_in legs.now) free.now base a.old a.new }
{
    let n = free.len();
    clear(a, base, n);
    for l in legs {
        join(a, base, n, place[l.near], place[l.far], l.g as f64);
    }
}

// Lines base .. base + n of the table become the factors of the matrix of these legs; what they held does not matter.
pub fn prepare(legs: &[Wire], free: &[usize], base: usize, a: &mut Matrix)
    requires { Wires legs.now × Free free.now × (base + length free.now ≤ Limits.node_end) × Square a.old }
    ensures serves { Serves base (length free.now) (matrix_of (map bare (legs_in legs.now)) free.now) a.new }
    ensures renewed { Renewed base (length free.now) a.old a.new }
{
    let n = free.len();
    let place = places(free);
    fill(legs, free, &place, base, a);
    step_factors::factor(a, base, n);
}
