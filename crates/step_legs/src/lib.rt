#![tactic(auto)]

// An area's legs as a step keeps them, one for each end of its own, in table order. Of a leg the first five words are the network's, g is the position of
// the switches, h the step; the last two are what the step found: the current, and what the leg passes on to the next step.
ghost use Rattle.std.specs.Prelude.{◌+◌, ◌<◌, ◌≡◌, ◌+ℤ◌};
ghost use Rattle.whole.specs.Plain.{set, word};
ghost use Rattle.std.specs.Int.{w64};
ghost use Rattle.std.proofs.Common.{SFits};
ghost use Rattle.paper.specs.Limits as Limits;
ghost use Rattle.paper.specs.Legs.{through};
ghost use Rattle.paper.specs.Sides.{side_by};
ghost use Rattle.step_legs.specs.Wires.{leg_of, Wired, Carries};
ghost use Rattle.step_legs.specs.Shares.{Volts, drawn};

use paper::{Kind, Node, Side};

// One end of a row: from its node to another, with conductance g and history h; and which row's end it is, 1 the from end and 2 the to end. C lends the
// table of these as nine words each, in this order, so the end and the kind stay numbers in it.
#[derive(Clone, Copy)]
#[repr(C)]
pub struct Wire {
    pub near: usize,
    pub far: usize,
    pub row: usize,
    pub end: usize,
    pub kind: usize,
    pub g: i64,
    pub h: i64,
    pub current: i64,
    pub passed: i64,
}

impl Wire {
    pub const NONE: Wire = Wire {
        near: 0,
        far: 0,
        row: 0,
        end: 0,
        kind: 0,
        g: 0,
        h: 0,
        current: 0,
        passed: 0,
    };

    pub fn side(self) -> Side
        ensures { result ≡ side_by self.end }
    {
        if self.end == 1 { Side::From } else { Side::To }
    }

    // g·u
    pub fn through(self, v: &[i64; Node::PLACES]) -> i64
        requires { Wired self × Volts v.now }
        ensures { result ≡ through v.now (leg_of self) }
    {
        self.g * (v[self.near] - v[self.far])
    }

    // what would leave by the leg with its near node at 0: "histories" less "conductance times fixed neighbour voltages"
    pub fn drawn(self, still: &[i64; Node::PLACES]) -> i64
        requires { Carries self × Volts still.now }
        ensures { result ≡ drawn still.now (leg_of self) }
    {
        self.h - self.g * still[self.far]
    }
}

// A source of an area: its kind, its node, its peak, its start, and its rise, or minus a VC's pace.
#[derive(Clone, Copy)]
pub struct Source {
    pub kind: Kind,
    pub node: usize,
    pub peak: i64,
    pub start: i64,
    pub pace: i64,
}

impl Source {
    pub const NONE: Source = Source {
        kind: Kind::Study,
        node: 0,
        peak: 0,
        start: 0,
        pace: 0,
    };
}

// x more at node p
pub fn add(sums: &mut [i64; Node::PLACES], p: usize, x: i64)
    requires { (p < Limits.node_end + 1) × SFits w64 (word sums.old p) × SFits w64 (word sums.old p +ℤ x) }
    ensures { sums.new ≡ set sums.old p (word sums.old p +ℤ x) }
{
    sums[p] += x;
}
