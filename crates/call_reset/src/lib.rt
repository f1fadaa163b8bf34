#![tactic(auto)]

// "Resetting gives 9 or 8, or writes the records and both line stores all zero and answers 0."
ghost use Rattle.paper.specs.One.{Resets};
ghost use Rattle.paper.specs.Advance.{memory};

use paper::Resetting;

pub fn reset(network: &[i64], records: &mut [i64], froms: &mut [i64], tos: &mut [i64]) -> Resetting
    ensures { Resets network.now (memory records.old froms.old tos.old) result (memory records.new froms.new tos.new) }
{
    call_lent::admit(network, records, froms, tos)?;
    call_network::admit(network)?;
    call_fresh::clear(records);
    call_fresh::clear(froms);
    call_fresh::clear(tos);
    Ok(())
}
