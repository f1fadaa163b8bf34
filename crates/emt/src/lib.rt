#![tactic(auto)]

// What a customer links: the calls over lent memory. None has a `requires`; each refuses instead. The calls for Rattle are those of the crates below, by one
// name; the functions whose names begin with `emt_` answer in numbers, for C, which links them from the archive of emt_c.
ghost use Rattle.std.specs.Prelude.{◌≡◌};
ghost use Rattle.paper.specs.Advance.{memory};
ghost use Rattle.call_shape.specs.Asked.{areas_asked, area_asked, row_asked};
ghost use Rattle.list_pieces.specs.Answered.{answer_of, count_of};
ghost use Rattle.emt.specs.Numbered.{ReadsBy, ResetsBy, AdvancesBy, AdvancesIn, LooksBy, AsksBy, ListsBy, WritesBy};

use call_room::Legs;
use paper::{Listing, Refusal, Unlisted};
use plan_rows::Table;
use step_factors::Matrix;

// "Reading: 9, 7, then the first faulty line, in it 1 to 6 in turn"; "An accepted reading writes all 1,024 words, unused ones 0, and answers 0".
pub use call_read::read;

// "the answer carries the line number (0 for 7 and 9)": it is written whatever the answer is.
pub fn emt_read(text: &[u8], network: &mut [i64], line: &mut u64) -> u64
    ensures { ReadsBy text.now network.old result line.new network.new }
{
    let answer = call_read::read(text, network);
    *line = call_answers::reading_line(answer);
    call_answers::reading_number(answer)
}

// "Resetting gives 9 or 8, or writes the records and both line stores all zero and answers 0."
pub use call_reset::reset;

pub fn emt_reset(network: &[i64], records: &mut [i64], froms: &mut [i64], tos: &mut [i64]) -> u64
    ensures { ResetsBy network.now (memory records.old froms.old tos.old) result (memory records.new froms.new tos.new) }
{
    call_answers::resetting_number(call_reset::reset(network, records, froms, tos))
}

// "Advancing: 9, 8, then 10 to 17"; "an accepted advance answers the area's new count". An area number of any size is answered.
pub use call_advance::advance;

// The new count of an area that has advanced, the node or branch that a refusal names, or 0: it is written whatever the answer is.
pub fn emt_advance(
    network: &[i64],
    records: &mut [i64],
    froms: &mut [i64],
    tos: &mut [i64],
    area: usize,
    place: &mut u64,
) -> u64
    ensures { AdvancesBy network.now area (memory records.old froms.old tos.old) result place.new (memory records.new froms.new tos.new) }
{
    let answer = call_advance::advance(network, records, froms, tos, area);
    *place = call_answers::place_or_count(answer);
    call_answers::advance_number(answer)
}

// The same with its tables lent, for a caller with little stack: what stands in them before the call counts for nothing, and what is left there is open.
pub use call_room::advance_in;

// 8 bytes for each word of the plan, of the legs and of the factors.
const ROOM_BYTES: usize = 28672;

// The caller states how many bytes the room has that it lends: "a lent length wrong" is 9 here too.
pub fn emt_advance_in_tables(
    network: &[i64],
    records: &mut [i64],
    froms: &mut [i64],
    tos: &mut [i64],
    area: usize,
    place: &mut u64,
    plan: &mut Table,
    legs: &mut Legs,
    factors: &mut Matrix,
    room: usize,
) -> u64
    ensures { AdvancesIn room network.now area (memory records.old froms.old tos.old) result place.new
        (memory records.new froms.new tos.new) }
{
    if room != ROOM_BYTES {
        *place = 0;
        return call_answers::advance_number(Err(Refusal::Store));
    }
    let told = call_room::advance_in(network, records, froms, tos, area, plan, legs, factors);
    *place = call_answers::place_or_count(told);
    call_answers::advance_number(told)
}

// A node's voltage, its largest magnitude and the first step where it came: "so that asking doesn't go through the listing".
pub use call_node::node;

// All three are written whatever the answer is: 0 of a refusal.
pub fn emt_node(
    network: &[i64],
    records: &[i64],
    node: usize,
    voltage: &mut i64,
    peak: &mut u64,
    step: &mut u64,
) -> u64
    ensures { LooksBy network.now records.now node result voltage.new peak.new step.new }
{
    let answer = call_node::node(network, records, node);
    *voltage = call_told::told_voltage(answer);
    *peak = call_told::told_peak(answer);
    *step = call_told::told_step(answer);
    call_told::looking_number(answer)
}

// How a network is laid out: how many areas it has; the area of a node; the row of a branch, from 1, as the study's line one further down has it. 9, 8, or 2
// where there is no such node or branch; the number told is 0 then.
pub use call_shape::{Asked, Unasked, area, areas, row};

pub fn emt_areas(network: &[i64], count: &mut u64) -> u64
    ensures { AsksBy (areas_asked network.now) result count.new }
{
    let answer = call_shape::areas(network);
    *count = call_shape::told_number(answer);
    call_shape::asked_number(answer)
}

pub fn emt_area(network: &[i64], node: usize, number: &mut u64) -> u64
    ensures { AsksBy (area_asked network.now node) result number.new }
{
    let answer = call_shape::area(network, node);
    *number = call_shape::told_number(answer);
    call_shape::asked_number(answer)
}

pub fn emt_row(network: &[i64], branch: usize, place: &mut u64) -> u64
    ensures { AsksBy (row_asked network.now branch) result place.new }
{
    let answer = call_shape::row(network, branch);
    *place = call_shape::told_number(answer);
    call_shape::asked_number(answer)
}

// Advances all areas in rising order, full step after full step, and lists each, until the next might not fit into the buffer, an area is refused or all
// steps are taken: 9, 8, 10, or what it came to and how many bytes it listed.
pub use call_list::list;
pub use list_pieces::Piece;

// What a listing comes to, beside the bytes.
fn answer_of(listed: Result<Piece, Unlisted>) -> Listing
    ensures { result ≡ answer_of listed }
{
    match listed {
        Ok(piece) => Ok(piece.pause),
        Err(unlisted) => Err(unlisted),
    }
}

// How many bytes it has: none where it is refused.
fn count_of(listed: Result<Piece, Unlisted>) -> u64
    ensures { result ≡ count_of listed }
{
    match listed {
        Ok(piece) => piece.count as u64,
        Err(_) => 0,
    }
}

// How many bytes are listed; and where an area's refusal stopped the listing, the area, the refusal's number and its place, else 0: all four are written
// whatever the answer is.
pub fn emt_list(
    network: &[i64],
    records: &mut [i64],
    froms: &mut [i64],
    tos: &mut [i64],
    out: &mut [u8],
    written: &mut u64,
    area: &mut u64,
    number: &mut u64,
    place: &mut u64,
) -> u64
    ensures { ListsBy network.now (memory records.old froms.old tos.old) out.old result written.new area.new number.new
        place.new out.new (memory records.new froms.new tos.new) }
{
    let listed = call_list::list(network, records, froms, tos, out);
    let answer = answer_of(listed);
    *written = count_of(listed);
    *area = call_told::stop_area(answer);
    *number = call_told::stop_number(answer);
    *place = call_told::stop_place(answer);
    call_told::listing_number(answer)
}

// "from an accepted network record to lines in table order": 9, 8, or how many bytes the study's text has.
pub use call_write::write;

// How many bytes are written, 0 where the call is refused: it is told whatever the answer is.
pub fn emt_write(network: &[i64], out: &mut [u8], written: &mut u64) -> u64
    ensures { WritesBy network.now out.old result written.new out.new }
{
    let answer = call_write::write(network, out);
    *written = call_told::writing_bytes(answer);
    call_told::writing_number(answer)
}
