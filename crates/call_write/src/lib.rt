#![tactic(auto)]

// "Write studies out again.", on all inputs: 9, then 8, or the study's text in a lent area. A refused call writes nothing.
ghost use Rattle.paper.specs.Writing.{Writes};

use paper::{Room, Unfit, Writing};

// "9 for an output area under 8,192 bytes or a wrong network length, then 8"; the rest of a longer area stays as it was.
pub fn write(network: &[i64], out: &mut [u8]) -> Writing
    ensures { Writes network.now out.old result out.new }
{
    if out.len() < Room::STUDY_BYTES {
        return Err(Unfit::Store);
    }
    call_network::admit(network)?;
    let bytes = text_write::put_study(network, out);
    Ok(bytes as u64)
}
