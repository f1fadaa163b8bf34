#![tactic(auto)]

// The next piece of a listing, from tables that hold all areas: a call that is refused before does not pay for them.
ghost use Rattle.std.specs.Prelude.{Ok, ◌≤◌};
ghost use Rattle.whole.specs.Plain.{length};
ghost use Rattle.paper.specs.Limits as Limits;
ghost use Rattle.paper.specs.Pieces.{steps_taken, piece_of};
ghost use Rattle.paper.specs.Advance.{memory};
ghost use Rattle.laws_facts.specs.Nets.{net_in};
ghost use Rattle.plan_record.specs.Mapped.{Mapped};
ghost use Rattle.plan_net.specs.Of.{Of};
ghost use Rattle.list_round.specs.Round.{InStep};
ghost use Rattle.list_pieces.specs.Sofar.{Gives};

use list_pieces::Piece;
use paper::{Node, Room};
use plan_own::Own;
use plan_record::Record;
use plan_rows::{Table, Totals};
use step_legs::{Source, Wire};

// Of a state in step.
pub fn onward(
    net: &[i64],
    plan: &Table,
    area: &[usize; Node::PLACES],
    totals: Totals,
    records: &mut [i64],
    froms: &mut [i64],
    tos: &mut [i64],
    out: &mut [u8],
) -> Piece
    requires of { Of (net_in net.now) plan.now totals × Mapped (net_in net.now) area.now }
    requires in_step { InStep net.now (steps_taken (net_in net.now) records.old) (memory records.old froms.old tos.old) }
    requires in_bounds { Limits.step_bytes ≤ length out.old }
    ensures { Gives (piece_of net.now (net_in net.now) (memory records.old froms.old tos.old) (length out.old)) out.old
        (Ok result.pause) result.count out.new (memory records.new froms.new tos.new) }
{
    let net = Record { words: net };
    let fixed = plan_lay::fixed_nodes(net, totals.rows);
    let mut legs = [Wire::NONE; 2 * Room::ROWS];
    let mut nodes = [0; Node::MAX as usize];
    let mut sources = [Source::NONE; Room::SOURCES];
    let mut owns = [Own::NOTHING; Node::PLACES];
    plan_own::lay_all(
        net,
        plan,
        area,
        &fixed,
        totals,
        &mut legs,
        &mut nodes,
        &mut sources,
        &mut owns,
    );
    list_pieces::steps_on(
        plan, totals, &mut owns, &mut legs, &nodes, &sources, records, froms, tos, out,
    )
}
