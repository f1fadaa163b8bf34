#![tactic(auto)]

// The listing, on all inputs: 9, 8, then 10, and the next piece of the listing in a lent buffer. A refused call writes nothing.
ghost use Rattle.paper.specs.Pieces.{Lists};
ghost use Rattle.paper.specs.Advance.{memory};
ghost use Rattle.list_pieces.specs.Answered.{answer_of, count_of};

use list_pieces::Piece;
use paper::{Room, Unlisted};

// Advances all areas in rising order, full step after full step, and lists each, until the next might not fit, one is refused or all are done.
pub fn list(
    network: &[i64],
    records: &mut [i64],
    froms: &mut [i64],
    tos: &mut [i64],
    out: &mut [u8],
) -> Result<Piece, Unlisted>
    ensures { Lists network.now (memory records.old froms.old tos.old) out.old (answer_of result) (count_of result)
        out.new (memory records.new froms.new tos.new) }
{
    call_lent::admit(network, records, froms, tos)?;
    if out.len() < Room::STEP_BYTES {
        return Err(Unlisted::Store);
    }
    call_network::admit(network)?;
    call_level::on_network(network, records, froms, tos, out)
}
