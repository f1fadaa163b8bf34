#![tactic(auto)]

// What flows once the voltages are known: each leg's current and i + g·u are worked out once and kept in the leg. The balance at the free nodes (16)
// is judged by the sums of these currents, and the values that are passed on (17) by what is kept.
ghost use Rattle.std.specs.Prelude.{◌<◌, ◌≡◌};
ghost use Rattle.whole.specs.Plain.{drop, map, T, non_neg, nat};
ghost use Rattle.whole.specs.Named.{named, placed};
ghost use Rattle.paper.specs.Limits as Limits;
ghost use Rattle.paper.specs.Legs.{current};
ghost use Rattle.step_legs.specs.Wires.{Carries, Wires, Sized, legs_in};
ghost use Rattle.step_legs.specs.Shares.{Volts};
ghost use Rattle.step_legs.specs.Sums.{Sums, Near, none};
ghost use Rattle.step_legs.specs.Free.{Free};
ghost use Rattle.step_flow.specs.Flown.{Small, passed_by, flown};
ghost use Rattle.step_flow.specs.Past.{first_past};
ghost use Rattle.step_flow.specs.Beyond.{first_row};

use num_quantity::History;
use paper::{Node, kinds};
use step_legs::Wire;

// L: "next h is i + g·u"; C: "next h is -i - g·u"; LINE: "It then sends -(g·v + i)." Of i + g·u, by the row's kind.
fn passed_on(kind: usize, echo: i64) -> i64
    requires { Small echo }
    ensures { result ≡ passed_by kind echo }
{
    match kind {
        kinds::L => echo,
        kinds::C | kinds::LINE => -echo,
        _ => 0,
    }
}

// The leg with what the step finds of it: i = g·u + h, and what it passes on of i + g·u, by one product.
fn carried(l: Wire, v: &[i64; Node::PLACES]) -> Wire
    requires { Carries l × Volts v.now }
    ensures { result ≡ flown v.now l }
{
    let gu = l.through(v);
    let current = gu + l.h;
    let passed = passed_on(l.kind, current + gu);
    Wire {
        current,
        passed,
        ..l
    }
}

// Each leg's current and what it passes on, into the leg. The currents that leave each node, summed.
pub fn flow(legs: &mut [Wire], v: &[i64; Node::PLACES]) -> [i64; Node::PLACES]
    requires { Sized legs.old × Volts v.now }
    ensures sums { Sums none (current v.now) (legs_in legs.old) result }
    ensures legs_value { legs.new ≡ map (flown v.now) legs.old }
{
    let mut leaving = [0; Node::PLACES];
    for leg in legs.iter_mut() {
        *leg = carried(*leg, v);
        leaving[leg.near] += leg.current;
    }
    leaving
}

// "At each free node the exact whole-number sum of currents leaving, minus injection, has magnitude at most the limit.": the lowest at which it has
// not. What is injected stands by node, that of node 1 in the place `one`: the edit change_for_balance of step_try hands in another table.
pub fn balance(
    leaving: &[i64; Node::PLACES],
    injected: &[i64],
    one: usize,
    free: &[usize],
    limit: i64,
) -> Option<usize>
    requires free { Free free.now × T (non_neg limit) }
    requires near { Near Limits.node_end (drop 1 leaving.now) (drop one injected.now) }
    ensures { result ≡ named (first_past (nat limit) (drop 1 leaving.now) (drop one injected.now) free.now) }
{
    for &p in free {
        let at = one + (p - 1);
        if !whole::within(leaving[p] - injected[at], limit) {
            return Some(p);
        }
    }
    None
}

// 17 HISTORY, "a next history or sent value beyond 10^17": the place of the first row of which a leg passes on so much.
pub fn first_beyond(legs: &[Wire]) -> Option<usize>
    requires { Wires legs.now }
    ensures { result ≡ placed (first_row legs.now) }
{
    for l in legs {
        if History::new(l.passed).is_none() {
            return Some(l.row);
        }
    }
    None
}
