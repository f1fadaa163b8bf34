#![tactic(auto)]

// The listing of a study, piece after piece, each handed over to the output before the next is made.
ghost use Rattle.paper.specs.Advance.{memory};
ghost use Rattle.run_pieces.specs.Pieces.{Goes, Hands};

use paper::{Listing, Pause, Steps};
use std::io;
use std::io::{Error, Write};

// How many pieces were handed over, and what the last of them answered: there is more only where there are as many pieces as a study may have steps.
#[derive(Clone, Copy)]
pub struct Ended {
    pub pieces: u64,
    pub last: Listing,
}

// How many pieces were made, of which the output did not take the last, and why.
#[derive(Clone, Copy)]
pub struct Unwritten {
    pub pieces: u64,
    pub error: Error,
}

// The next piece of the listing, handed over at once: its answer, or why the output did not take it.
fn list_piece<W: Write>(
    writer: &mut W,
    network: &[i64],
    records: &mut [i64],
    froms: &mut [i64],
    tos: &mut [i64],
    out: &mut [u8],
) -> io::Result<Listing>
    ensures { Goes network.now (memory records.old froms.old tos.old) out.old result out.new (memory records.new froms.new tos.new) }
{
    match emt::list(network, records, froms, tos, out) {
        Ok(piece) => {
            run_bytes::write_all(writer, &out[..piece.count])?;
            Ok(Ok(piece.pause))
        }
        Err(unlisted) => Ok(Err(unlisted)),
    }
}

// Piece after piece. Each lists one step at least, so that there are no more pieces than a study may have steps.
pub fn list_all<W: Write>(
    writer: &mut W,
    network: &[i64],
    records: &mut [i64],
    froms: &mut [i64],
    tos: &mut [i64],
    out: &mut [u8],
) -> Result<Ended, Unwritten>
    ensures { Hands network.now (memory records.old froms.old tos.old) out.old result out.new (memory records.new froms.new tos.new) }
{
    for before in 0..Steps::MAX as u64 {
        let pieces = before + 1;
        let last = match list_piece(writer, network, records, froms, tos, out) {
            Ok(last) => last,
            Err(error) => return Err(Unwritten { pieces, error }),
        };
        let Ok(pause) = last else {
            return Ok(Ended { pieces, last });
        };
        let Pause::More = pause else {
            return Ok(Ended { pieces, last });
        };
    }
    Ok(Ended {
        pieces: Steps::MAX as u64,
        last: Ok(Pause::More),
    })
}
