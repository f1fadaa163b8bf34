#![tactic(auto)]

// What becomes of a study text: a line that refuses it, or its listing from a reset. On slices and a writer; what is read comes from run_bytes.
ghost use Rattle.std.specs.Prelude.{◌≤◌, ◌≡◌};
ghost use Rattle.whole.specs.Plain.{true, length};
ghost use Rattle.paper.specs.Limits as Limits;
ghost use Rattle.paper.specs.Network.{is_network};
ghost use Rattle.paper.specs.Resetting.{fresh};
ghost use Rattle.list_digits.specs.Puts.{Puts};
ghost use Rattle.run_pieces.specs.Pieces.{Hand, out_bytes};
ghost use Rattle.run_study.specs.Runs.{bad_line, Answers};
ghost use Rattle.run_study.specs.declared.Unwritten.TheVariants.{Refusal, Listing};

use paper::{Room, Unread};
use run_pieces::Ended;
use std::io::{Error, Write};

// What became of a text: its listing, or why it is refused, which its `bad` line says.
pub type Outcome = Result<Ended, Unread>;

// What the output did not take, and why: the line that refuses the text, or a piece of its listing.
#[derive(Clone, Copy)]
pub enum Unwritten {
    Refusal(Error),
    Listing(run_pieces::Unwritten),
}

impl From<Error> for Unwritten {
    ghost from_gives = { λ error unwritten. unwritten ≡ Refusal error };

    fn from(error: Error) -> Unwritten {
        Unwritten::Refusal(error)
    }
}

impl From<run_pieces::Unwritten> for Unwritten {
    ghost from_gives = { λ cut unwritten. unwritten ≡ Listing cut };

    fn from(cut: run_pieces::Unwritten) -> Unwritten {
        Unwritten::Listing(cut)
    }
}

// Room to lend. What stands in it makes no difference: a reset writes the records and stores, a piece the buffer, a read the text.
fn record_room() -> [i64; Room::RECORDS]
    ensures { Limits.record_words ≡ length result }
{
    [0; Room::RECORDS]
}

fn store_room() -> [i64; Room::STORE]
    ensures { Limits.store_words ≡ length result }
{
    [0; Room::STORE]
}

// From a reset.
fn list_study<W: Write>(writer: &mut W, network: &[i64]) -> Result<Ended, run_pieces::Unwritten>
    requires { is_network network.now ≡ true }
    ensures { Hand network.now out_bytes fresh result }
{
    let mut records = record_room();
    let mut froms = store_room();
    let mut tos = store_room();
    let mut out = io::large_buffer();
    emt::reset(network, &mut records, &mut froms, &mut tos).unwrap();
    run_pieces::list_all(
        writer,
        network,
        &mut records,
        &mut froms,
        &mut tos,
        &mut out,
    )
}

fn put_refusal(unread: Unread, out: &mut [u8]) -> usize
    requires { 46 ≤ length out.old }
    ensures { Puts out.old 0 (bad_line unread) result out.new }
{
    list_ends::put_bad(
        out,
        0,
        call_answers::unread_line(unread),
        call_answers::unread_number(unread),
    )
}

fn refuse<W: Write>(writer: &mut W, unread: Unread) -> std::io::Result<()> {
    let mut out = [0; 46];
    let end = put_refusal(unread, &mut out);
    run_bytes::write_all(writer, &out[..end])
}

// An error is the output's, which did not take what was handed over.
pub fn run<W: Write>(writer: &mut W, text: &[u8]) -> Result<Outcome, Unwritten>
    ensures { Answers text.now result }
{
    let mut network = [0; Room::NETWORK];
    if let Err(unread) = emt::read(text, &mut network) {
        refuse(writer, unread)?;
        return Ok(Err(unread));
    }
    let ended = list_study(writer, &network)?;
    Ok(Ok(ended))
}
