#![tactic(auto)]

// The lines of a full step: "`v`, step, node, voltage for each node, then `i`, step, branch, current for each branch".
ghost use Rattle.std.specs.Prelude.{◌+◌, ◌^◌, ◌≤◌, ◌<◌, ◌≡◌};
ghost use Rattle.whole.specs.Plain.{length};
ghost use Rattle.paper.specs.Limits as Limits;
ghost use Rattle.paper.specs.Areas.{Net};
ghost use Rattle.paper.specs.Listing.{step_lines};
ghost use Rattle.list_digits.specs.Puts.{Puts};
ghost use Rattle.plan_rows.specs.Planned.{row_in};
ghost use Rattle.plan_net.specs.Of.{Of, OfSome};
ghost use Rattle.list_step.specs.Joined.{volts_text};
ghost use Rattle.list_step.specs.ByPlan.{current_line_by, currents_text, Numbered};
ghost use Rattle.list_step.specs.Bounds.{Small};

use list_line::Lines;
use paper::{kinds, sections};
use plan_rows::{Table, Totals};

fn put_volts(lines: Lines, records: &[i64], nodes: usize, out: &mut [u8], at: usize) -> usize
    requires letter { lines.head.letter ≡ 118 }
    requires nodes_bound { (nodes ≤ Limits.node_end) × (length records.now ≡ Limits.record_words) }
    requires nodes_in_bounds { at + length (volts_text records.now lines.head.step nodes) ≤ length out.old }
    ensures { Puts out.old at (volts_text records.now lines.head.step nodes) result out.new }
{
    let mut next = at;
    for node in 1..=nodes {
        next = lines.put_row(node as u64, records[sections::VOLTS + node - 1], out, next);
    }
    next
}

// row i's line; a source has none
fn put_current(
    lines: Lines,
    plan: &Table,
    records: &[i64],
    i: usize,
    out: &mut [u8],
    at: usize,
) -> usize
    requires letter { lines.head.letter ≡ 105 }
    requires i_bound { (i < Limits.row_end) × ((row_in plan.now i).number < 10 ^ 2)
        × (length records.now ≡ Limits.record_words) }
    requires i_in_bounds { at + length (current_line_by plan.now records.now lines.head.step i) ≤ length out.old }
    ensures { Puts out.old at (current_line_by plan.now records.now lines.head.step i) result out.new }
{
    let r = plan[i];
    let number = r.number as u64;
    let from = records[sections::CURRENTS + i];
    if r.kind == kinds::LINE {
        return lines.put_line_row(number, from, records[sections::TO_CURRENTS + i], out, at);
    }
    if kinds::is_branch(r.kind) {
        return lines.put_row(number, from, out, at);
    }
    at
}

fn put_currents(
    lines: Lines,
    plan: &Table,
    records: &[i64],
    rows: usize,
    out: &mut [u8],
    at: usize,
) -> usize
    requires letter { lines.head.letter ≡ 105 }
    requires numbered { Numbered plan.now rows × (length records.now ≡ Limits.record_words) }
    requires rows_in_bounds { at + length (currents_text plan.now records.now lines.head.step rows) ≤ length out.old }
    ensures { Puts out.old at (currents_text plan.now records.now lines.head.step rows) result out.new }
{
    let mut next = at;
    for i in 0..rows {
        next = put_current(lines, plan, records, i, out, next);
    }
    next
}

// "v, step, node, voltage" of all nodes, then "i, step, branch, current" of all rows but sources.
pub fn put_step(
    plan: &Table,
    totals: Totals,
    records: &[i64],
    step: u64,
    out: &mut [u8],
    at: usize,
) -> usize
    requires of_some { OfSome plan.now totals × (step ≤ Limits.steps_end) }
    requires records_len { (length records.now ≡ Limits.record_words) × Small totals.nodes totals.rows records.now }
    requires at_in_bounds { at + Limits.step_bytes ≤ length out.old }
    ensures { (N : Net) → Of N plan.now totals
        → Puts out.old at (step_lines N records.now step) result out.new }
{
    let mut text = [0; 16];
    let size = list_line::spell(step, &mut text);
    let volts = list_line::head_of(&mut text, b'v', step, size);
    let lines = Lines { head: volts };
    let next = put_volts(lines, records, totals.nodes, out, at);
    let currents = list_line::head_of(&mut text, b'i', step, size);
    let lines = Lines { head: currents };
    put_currents(lines, plan, records, totals.rows, out, next)
}
