#![tactic(auto)]

// 9 STORE: "a lent length wrong: network 1,024 signed 64-bit words, .. line stores 4,096 each"; with peaks (02) "Records become 1,024 words"
ghost use Rattle.std.specs.Prelude.{◌≡◌};
ghost use Rattle.paper.specs.Advance.{memory};
ghost use Rattle.call_lent.specs.Lengths.{admitted};

use paper::{Room, Unfit};

#[tactic(auto, unfolding(paper::specs::Advance::fits))]
pub fn admit(network: &[i64], records: &[i64], froms: &[i64], tos: &[i64]) -> Result<(), Unfit>
    ensures { result ≡ admitted network.now (memory records.now froms.now tos.now) }
{
    let first = (network.len() == Room::NETWORK) & (records.len() == Room::RECORDS);
    let second = first & (froms.len() == Room::STORE);
    if second & (tos.len() == Room::STORE) {
        return Ok(());
    }
    Err(Unfit::Store)
}
