#![tactic(auto)]

// One step of one area, from what is kept for it: 15 to 17 in turn, or the step is taken and written.
ghost use Rattle.std.specs.Prelude.{◌≡◌};
ghost use Rattle.paper.specs.Advance.{memory};
ghost use Rattle.step_take.specs.Stepping.{at_of, Movable, Moves};

use paper::{Node, Refusal};
use plan_own::Own;
use plan_rows::Table;
use step_factors::Matrix;
use step_legs::{Source, Wire};
use step_try::At;

// Whose step it is, which, and the limit of what may be out of balance.
#[derive(Clone, Copy)]
pub struct Turn {
    pub area: usize,
    pub k: usize,
    pub limit: i64,
}

// What the step is tried at.
fn at_of(o: Own, turn: Turn) -> At
    ensures { result ≡ at_of o turn }
{
    At {
        base: o.base,
        k: turn.k,
        limit: turn.limit,
    }
}

// The step, from what is kept for it: where the area's own stands is `o`. Whether a breaker of the area parted in it. "Every refusal leaves all lent
// memory unchanged."
pub fn stepped(
    plan: &Table,
    legs: &mut [Wire],
    nodes: &[usize],
    sources: &[Source],
    factors: &Matrix,
    records: &mut [i64],
    froms: &mut [i64],
    tos: &mut [i64],
    o: Own,
    turn: Turn,
) -> Result<bool, Refusal>
    requires { Movable plan.now legs.old nodes.now sources.now factors.now records.old froms.old
        tos.old o turn }
    ensures { Moves plan.now nodes.now sources.now factors.now o turn legs.old
        (memory records.old froms.old tos.old) result legs.new (memory records.new froms.new tos.new) }
{
    let mut volts = [0; Node::PLACES];
    let tried = step_try::try_step(
        plan,
        &sources[o.sources..o.sources_end],
        &nodes[o.base..o.free_end],
        &mut legs[o.legs..o.legs_end],
        factors,
        records,
        froms,
        tos,
        at_of(o, turn),
        &mut volts,
    );
    tried?;
    let parted = step_commit::commit(
        plan,
        &legs[o.legs..o.legs_end],
        &nodes[o.base..o.nodes_end],
        &volts,
        records,
        froms,
        tos,
        turn.area,
        turn.k,
    );
    Ok(parted)
}
