#![tactic(auto)]

// A listing's last test, and the piece: 10, or the state is well formed and all areas have taken as many steps.
ghost use Rattle.std.specs.Prelude.{◌≤◌, ◌≡◌};
ghost use Rattle.whole.specs.Plain.{true, length};
ghost use Rattle.paper.specs.Limits as Limits;
ghost use Rattle.paper.specs.Network.{is_network};
ghost use Rattle.paper.specs.Pieces.{on_level};
ghost use Rattle.paper.specs.Advance.{memory};
ghost use Rattle.laws_facts.specs.Nets.{net_in};
ghost use Rattle.call_state.specs.Judged.{Long};
ghost use Rattle.list_pieces.specs.Answered.{answer_of, count_of};
ghost use Rattle.list_pieces.specs.Sofar.{Gives};

use list_pieces::Piece;
use paper::{Node, Room, Unlisted};
use plan_rows::Row;

// 10, or the piece, of a network that passes.
pub fn on_network(
    net: &[i64],
    records: &mut [i64],
    froms: &mut [i64],
    tos: &mut [i64],
    out: &mut [u8],
) -> Result<Piece, Unlisted>
    requires net_value { (is_network net.now ≡ true) × Long records.old froms.old tos.old }
    requires in_bounds { Limits.step_bytes ≤ length out.old }
    ensures { Gives (on_level net.now (net_in net.now) (memory records.old froms.old tos.old) (length out.old)) out.old
        (answer_of result) (count_of result) out.new (memory records.new froms.new tos.new) }
{
    let mut area = [0; Node::PLACES];
    let mut plan = [Row::NONE; Room::ROWS];
    let totals = plan_rows::make(net, &mut area, &mut plan);
    if !call_state::in_step(&plan, &area, totals, records, froms, tos) {
        return Err(Unlisted::State);
    }
    Ok(call_piece::onward(net, &plan, &area, totals, records, froms, tos, out))
}
