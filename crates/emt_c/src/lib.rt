#![tactic(auto)]

// The archive that C links, target/staticlib/libemt.a: one export for each of emt's functions in numbers, which promises what that one promises.
ghost use Rattle.paper.specs.Advance.{memory};
ghost use Rattle.call_shape.specs.Asked.{areas_asked, area_asked, row_asked};
ghost use Rattle.emt.specs.Numbered.{ReadsBy, ResetsBy, AdvancesBy, AdvancesIn, LooksBy, AsksBy, ListsBy, WritesBy};

use call_room::Legs;
use plan_rows::Table;
use step_factors::Matrix;

#[unsafe(no_mangle)]
pub extern "C" fn emt_read(text: &[u8], network: &mut [i64], line: &mut u64) -> u64
    ensures { ReadsBy text.now network.old result line.new network.new }
{
    emt::emt_read(text, network, line)
}

#[unsafe(no_mangle)]
pub extern "C" fn emt_reset(
    network: &[i64],
    records: &mut [i64],
    froms: &mut [i64],
    tos: &mut [i64],
) -> u64
    ensures { ResetsBy network.now (memory records.old froms.old tos.old) result (memory records.new froms.new tos.new) }
{
    emt::emt_reset(network, records, froms, tos)
}

#[unsafe(no_mangle)]
pub extern "C" fn emt_advance(
    network: &[i64],
    records: &mut [i64],
    froms: &mut [i64],
    tos: &mut [i64],
    area: usize,
    place: &mut u64,
) -> u64
    ensures { AdvancesBy network.now area (memory records.old froms.old tos.old) result place.new (memory records.new froms.new tos.new) }
{
    emt::emt_advance(network, records, froms, tos, area, place)
}

#[unsafe(no_mangle)]
pub extern "C" fn emt_advance_in_tables(
    network: &[i64],
    records: &mut [i64],
    froms: &mut [i64],
    tos: &mut [i64],
    area: usize,
    place: &mut u64,
    plan: &mut Table,
    legs: &mut Legs,
    factors: &mut Matrix,
    room: usize,
) -> u64
    ensures { AdvancesIn room network.now area (memory records.old froms.old tos.old) result place.new
        (memory records.new froms.new tos.new) }
{
    emt::emt_advance_in_tables(
        network, records, froms, tos, area, place, plan, legs, factors, room,
    )
}

#[unsafe(no_mangle)]
pub extern "C" fn emt_node(
    network: &[i64],
    records: &[i64],
    node: usize,
    voltage: &mut i64,
    peak: &mut u64,
    step: &mut u64,
) -> u64
    ensures { LooksBy network.now records.now node result voltage.new peak.new step.new }
{
    emt::emt_node(network, records, node, voltage, peak, step)
}

#[unsafe(no_mangle)]
pub extern "C" fn emt_areas(network: &[i64], count: &mut u64) -> u64
    ensures { AsksBy (areas_asked network.now) result count.new }
{
    emt::emt_areas(network, count)
}

#[unsafe(no_mangle)]
pub extern "C" fn emt_area(network: &[i64], node: usize, number: &mut u64) -> u64
    ensures { AsksBy (area_asked network.now node) result number.new }
{
    emt::emt_area(network, node, number)
}

#[unsafe(no_mangle)]
pub extern "C" fn emt_row(network: &[i64], branch: usize, place: &mut u64) -> u64
    ensures { AsksBy (row_asked network.now branch) result place.new }
{
    emt::emt_row(network, branch, place)
}

#[unsafe(no_mangle)]
pub extern "C" fn emt_list(
    network: &[i64],
    records: &mut [i64],
    froms: &mut [i64],
    tos: &mut [i64],
    out: &mut [u8],
    written: &mut u64,
    area: &mut u64,
    number: &mut u64,
    place: &mut u64,
) -> u64
    ensures { ListsBy network.now (memory records.old froms.old tos.old) out.old result written.new area.new number.new
        place.new out.new (memory records.new froms.new tos.new) }
{
    emt::emt_list(
        network, records, froms, tos, out, written, area, number, place,
    )
}

#[unsafe(no_mangle)]
pub extern "C" fn emt_write(network: &[i64], out: &mut [u8], written: &mut u64) -> u64
    ensures { WritesBy network.now out.old result written.new out.new }
{
    emt::emt_write(network, out, written)
}
