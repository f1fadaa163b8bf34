#![tactic(auto)]

// "Reading: 9, 7, then the first faulty line, in it 1 to 6 in turn; the answer carries the line number (0 for 7 and 9)."
ghost use Rattle.paper.specs.One.{Reads};

use paper::{Reading, Room, Unread};

// The rows go into a record of the reader's own first: "Every refusal leaves all lent memory unchanged."
pub fn read(text: &[u8], network: &mut [i64]) -> Reading
    ensures { Reads text.now network.old result network.new }
{
    if network.len() != Room::NETWORK {
        return Err(Unread::Store);
    }
    if Room::TEXT < text.len() {
        return Err(Unread::Size);
    }
    let mut rows = [0; Room::NETWORK];
    if let Err(bad) = text_study::read_study(text, &mut rows) {
        return Err(Unread::Line(bad.line, bad.fault));
    }
    network.copy_from_slice(&rows);
    Ok(())
}
