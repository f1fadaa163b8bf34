#![tactic(auto)]

// 10 STATE: lent records and line stores, judged exactly, by the plan. No function has the network record: what is said is said of every network that the
// plan is of.
ghost use Rattle.std.specs.Prelude.{◌+◌, ◌≤◌, ◌<◌, ◌≡◌, ◌&&◌};
ghost use Rattle.whole.specs.Plain.{cond, T, nat_abs, non_neg, length, get_or, up_to, word, every, numbers};
ghost use Rattle.paper.specs.Limits as Limits;
ghost use Rattle.paper.specs.Areas.{Net};
ghost use Rattle.paper.specs.Records.{peak_formed, records_formed, well_formed};
ghost use Rattle.paper.specs.Pieces.{level};
ghost use Rattle.call_counts.specs.Counts.{CountIn, LineIn, BreakerIn, Counted};
ghost use Rattle.call_state.specs.Judged.{Long, MappedOf, MappedSome, part_formed, section_formed, counts_formed};
ghost use Rattle.call_state.specs.Judged.{words_formed, row_formed, planned_formed, tails_formed, nodes_formed};
ghost use Rattle.call_state.specs.Judged.{peaked_by, NodesCounted};

use paper::{Current, History, Node, Room, Voltage, kinds, sections};
use plan_rows::{Row, Table, Totals};

// Whether the words from..end are within `most`.
fn part(words: &[i64], from: usize, end: usize, most: i64) -> bool
    requires { (from ≤ end) × (end ≤ length words.now) × T (non_neg most) }
    ensures { result ≡ part_formed words.now from end (nat_abs most) }
{
    whole::all_within(&words[from..end], most)
}

// Whether the words from..end are zero.
fn unused(words: &[i64], from: usize, end: usize) -> bool
    requires { (from ≤ end) × (end ≤ length words.now) }
    ensures { result ≡ part_formed words.now from end 0 }
{
    whole::all_zero(&words[from..end])
}

// Whether the words from..end are, the first `used` of them, within `most`, and zero after that.
fn section(words: &[i64], from: usize, used: usize, end: usize, most: i64) -> bool
    requires { (from + used ≤ end) × (end ≤ length words.now) × T (non_neg most) }
    ensures { result ≡ section_formed words.now from used end (nat_abs most) }
{
    let mid = from + used;
    let taken = part(words, from, mid, most);
    let rest = unused(words, mid, end);
    taken & rest
}

// Whether no word is below zero.
fn none_negative(words: &[i64]) -> bool
    ensures { result ≡ every non_neg words.now }
{
    let mut all = true;
    for x in words {
        all = all & (0 <= *x);
    }
    all
}

// "counts are 0 to steps"
fn counts_formed(records: &[i64], areas: usize, steps: usize) -> bool
    requires { (areas ≤ Limits.node_end) × (steps ≤ Limits.steps_end) × (length records.now ≡ Limits.record_words) }
    ensures { result ≡ counts_formed records.now areas steps }
{
    let sign = none_negative(&records[sections::COUNTS..sections::VOLTS]);
    let size = section(
        records,
        sections::COUNTS,
        areas,
        sections::VOLTS,
        steps as i64,
    );
    sign & size
}

// Whether a word is within `most` where it is used, and zero where it is not.
fn held(words: &[i64], at: usize, used: bool, most: i64) -> bool
    requires { (at < length words.now) × T (non_neg most) }
    ensures { result ≡ up_to (cond used (nat_abs most) 0) (word words.now at) }
{
    let x = words[at];
    let end = if used { most } else { 0 };
    whole::within(x, end)
}

// The words of the row in place i: a branch has a current, a line one at its to end too, an L or a C a history, an SW a latch.
fn words_formed(kind: usize, records: &[i64], i: usize, steps: usize) -> bool
    requires { (i < Limits.row_end) × (length records.now ≡ Limits.record_words) × (steps ≤ Limits.steps_end) }
    ensures { result ≡ words_formed steps kind records.now i }
{
    let branch = kinds::is_branch(kind);
    let line = kind == kinds::LINE;
    let stores = (kind == kinds::L) | (kind == kinds::C);
    let current = held(records, sections::CURRENTS + i, branch, Current::MAX);
    let to_current = held(records, sections::TO_CURRENTS + i, line, Current::MAX);
    let history = held(records, sections::HISTORIES + i, stores, History::MAX);
    let latch = held(
        records,
        sections::LATCHES + i,
        kind == kinds::SW,
        steps as i64,
    );
    current & (to_current & (history & latch))
}

// Its words, the counts at a line's two ends, and an SW's latch against its area's count.
fn row_formed(r: Row, records: &[i64], i: usize, steps: usize) -> bool
    requires line_in { LineIn records.now r × BreakerIn records.now r }
    requires i_bound { (i < Limits.row_end) × (length records.now ≡ Limits.record_words) × (steps ≤ Limits.steps_end) }
    ensures { result ≡ row_formed steps records.now r i }
{
    let words = words_formed(r.kind, records, i, steps);
    let counts = call_counts::near(r, records);
    let latch = call_counts::latched(r, records, i);
    words & (counts & latch)
}

// The same of every row.
fn rows_formed(plan: &Table, records: &[i64], rows: usize, steps: usize) -> bool
    requires counted { Counted plan.now rows records.now }
    requires records_len { (length records.now ≡ Limits.record_words) × (steps ≤ Limits.steps_end) }
    ensures { result ≡ every (planned_formed steps plan.now records.now) (numbers 0 rows) }
{
    let mut all = true;
    for i in 0..rows {
        let good = row_formed(plan[i], records, i, steps);
        all = all & good;
    }
    all
}

// Whether the words past the last row's, and past the last section, are zero.
fn tails_formed(records: &[i64], rows: usize) -> bool
    requires { (rows ≤ Limits.row_end) × (length records.now ≡ Limits.record_words) }
    ensures { result ≡ tails_formed records.now rows }
{
    let currents = unused(records, sections::CURRENTS + rows, sections::TO_CURRENTS);
    let to_currents = unused(records, sections::TO_CURRENTS + rows, sections::HISTORIES);
    let histories = unused(records, sections::HISTORIES + rows, sections::PEAKS);
    let latches = unused(records, sections::LATCHES + rows, sections::END);
    let rest = unused(records, sections::END, Room::RECORDS);
    currents & (to_currents & (histories & (latches & rest)))
}

// The words of the nodes: voltages and peaks in range, a peak's step one of the study's.
fn nodes_formed(records: &[i64], nodes: usize, steps: usize) -> bool
    requires { (nodes ≤ Limits.node_end) × (steps ≤ Limits.steps_end) × (length records.now ≡ Limits.record_words) }
    ensures { result ≡ nodes_formed records.now nodes steps }
{
    let volts = section(
        records,
        sections::VOLTS,
        nodes,
        sections::CURRENTS,
        Voltage::MAX,
    );
    let peaks = section(
        records,
        sections::PEAKS,
        nodes,
        sections::PEAK_STEPS,
        Voltage::MAX,
    );
    let their_steps = section(
        records,
        sections::PEAK_STEPS,
        nodes,
        sections::LATCHES,
        steps as i64,
    );
    volts & (peaks & their_steps)
}

// Not "one below the voltage's magnitude, or a step past the count": of a node's voltage, its peak, the peak's step and its area's count.
fn peak_formed(volt: i64, peak: i64, step: i64, count: usize) -> bool
    requires { count ≤ Limits.steps_end }
    ensures { result ≡ peak_formed volt peak step count }
{
    if peak < 0 {
        return false;
    }
    if step < 0 {
        return false;
    }
    let reached = whole::within(volt, peak);
    let counted = whole::within(step, count as i64);
    reached & counted
}

// The same of node n, which is of an area that is counted.
fn node_formed(areas: &[usize; Node::PLACES], records: &[i64], n: usize) -> bool
    requires le_n { (1 ≤ n) × (n ≤ Limits.node_end) × (length records.now ≡ Limits.record_words) }
    requires count_in { CountIn records.now (get_or areas.now n 0) }
    ensures { result ≡ peaked_by areas.now records.now n }
{
    let count = call_counts::count_of(records, areas[n]);
    peak_formed(
        records[sections::VOLTS + n - 1],
        records[sections::PEAKS + n - 1],
        records[sections::PEAK_STEPS + n - 1],
        count,
    )
}

// The same of every node.
fn peaks_formed(areas: &[usize; Node::PLACES], records: &[i64], nodes: usize) -> bool
    requires { NodesCounted areas.now nodes records.now × (length records.now ≡ Limits.record_words) }
    ensures { result ≡ every (peaked_by areas.now records.now) (numbers 1 nodes) }
{
    let mut all = true;
    for n in 1..=nodes {
        let good = node_formed(areas, records, n);
        all = all & good;
    }
    all
}

// The records alone. Where the counts are no numbers of steps nothing goes by them.
pub fn records_formed(
    plan: &Table,
    areas: &[usize; Node::PLACES],
    totals: Totals,
    records: &[i64],
) -> bool
    requires { MappedSome plan.now areas.now totals × (length records.now ≡ Limits.record_words) }
    ensures { (N : Net) → MappedOf N plan.now areas.now totals → result ≡ records_formed N records.now }
{
    if !counts_formed(records, totals.areas, totals.steps) {
        return false;
    }
    let nodes = nodes_formed(records, totals.nodes, totals.steps);
    let rows = rows_formed(plan, records, totals.rows, totals.steps);
    let unused = tails_formed(records, totals.rows);
    let peaks = peaks_formed(areas, records, totals.nodes);
    nodes & (rows & (unused & peaks))
}

// All of it.
pub fn well_formed(
    plan: &Table,
    areas: &[usize; Node::PLACES],
    totals: Totals,
    records: &[i64],
    froms: &[i64],
    tos: &[i64],
) -> bool
    requires { MappedSome plan.now areas.now totals × Long records.now froms.now tos.now }
    ensures { (N : Net) → MappedOf N plan.now areas.now totals
        → result ≡ well_formed N records.now froms.now tos.now }
{
    let kept = records_formed(plan, areas, totals, records);
    let from = section(froms, 0, totals.slots, Room::STORE, History::MAX);
    let to = section(tos, 0, totals.slots, Room::STORE, History::MAX);
    kept & (from & to)
}

// The same for a listing: and all areas have taken as many steps.
pub fn in_step(
    plan: &Table,
    area: &[usize; Node::PLACES],
    totals: Totals,
    records: &[i64],
    froms: &[i64],
    tos: &[i64],
) -> bool
    requires { MappedSome plan.now area.now totals × Long records.now froms.now tos.now }
    ensures { (N : Net) → MappedOf N plan.now area.now totals → result
        ≡ (well_formed N records.now froms.now tos.now && level N records.now) }
{
    if !well_formed(plan, area, totals, records, froms, tos) {
        return false;
    }
    let taken = call_counts::steps_taken(records, totals.areas, totals.steps);
    call_counts::all_taken(records, totals.areas, taken)
}
