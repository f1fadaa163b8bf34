#![tactic(auto)]

// 8 NETWORK: "lent network record not one the reader could write". The rows are replayed through the one function of faults that the reader goes by.
ghost use Rattle.std.specs.Prelude.{◌≤◌, ◌≡◌, Some, None};
ghost use Rattle.whole.specs.Plain.{true, cond, length};
ghost use Rattle.paper.specs.Limits as Limits;
ghost use Rattle.paper.specs.Network.{is_network};
ghost use Rattle.text_faults.specs.Seen.{Held, seen_after};
ghost use Rattle.call_network.specs.Judged as Judged;
ghost use Rattle.call_network.specs.Judged.{rows_in, study_words, spare_zero, good_row, admitted};
ghost use Rattle.call_network.specs.Laws.{Sized, Replayed};

use paper::{Kind, Room, Unfit};
use text_faults::{Row, Seen};

// the record's rows, each its eight words
fn rows_in(net: &[i64; Room::NETWORK], rows: usize) -> &[[i64; 8]]
    requires { rows ≤ Limits.row_end }
    ensures { result.now ≡ rows_in net.now rows }
{
    let (places, _) = net[8..].as_chunks::<8>();
    &places[..rows]
}

fn study_row(net: &[i64; Room::NETWORK]) -> Row
    ensures { result.words ≡ study_words net.now }
{
    Row {
        words: [0, net[0], net[1], net[2], 0, 0, 0, 0],
        kind: Kind::Study,
    }
}

// "unused ones 0"
fn spare_zero(row: Row) -> bool
    ensures { result ≡ spare_zero row.words }
{
    whole::all_zero(&row.words[1 + text_kinds::fields(row.kind)..])
}

// What is seen with one row more, where the reader could have written it after those that are seen.
fn seen_with(seen: Seen, words: [i64; 8]) -> Option<Seen>
    requires { Held seen }
    ensures { result ≡ cond (good_row seen words) (Some (seen_after seen words)) None }
{
    let row = Row::of(words)?;
    if row.is_study() {
        return None;
    }
    if !spare_zero(row) {
        return None;
    }
    if text_faults::line_fault(seen, row).is_some() {
        return None;
    }
    Some(text_faults::seen_after(seen, row))
}

// the words that no row has
fn blank(net: &[i64; Room::NETWORK], rows: usize) -> bool
    requires { rows ≤ Limits.row_end }
    ensures { result ≡ Judged.blank net.now rows }
{
    let end = 8 + 8 * rows;
    whole::all_zero(&net[4..8]) & whole::all_zero(&net[end..])
}

// each row in turn, after the study's
fn rows_pass(net: &[i64; Room::NETWORK], rows: usize, first: Seen) -> bool
    requires sized { Sized net.now rows }
    requires rows_value { (Judged.blank net.now rows ≡ true) × Replayed net.now 0 first }
    ensures { result ≡ is_network net.now }
{
    let mut seen = first;
    for words in rows_in(net, rows) {
        let Some(next) = seen_with(seen, *words) else {
            return false;
        };
        seen = next;
    }
    true
}

// the study's row and then the others
fn table_passes(net: &[i64; Room::NETWORK], rows: usize) -> bool
    requires sized { Sized net.now rows }
    requires rows_value { Judged.blank net.now rows ≡ true }
    ensures { result ≡ is_network net.now }
{
    let none = text_faults::nothing_seen();
    let row = study_row(net);
    if text_faults::line_fault(none, row).is_some() {
        return false;
    }
    let first = text_faults::seen_after(none, row);
    rows_pass(net, rows, first)
}

pub fn is_network(net: &[i64; Room::NETWORK]) -> bool
    ensures { result ≡ is_network net.now }
{
    let Ok(rows) = usize::try_from(net[3]) else {
        return false;
    };
    if Room::ROWS < rows {
        return false;
    }
    if !blank(net, rows) {
        return false;
    }
    table_passes(net, rows)
}

// 9 for its length, then 8: for a call that goes on with `?`.
pub fn admit(network: &[i64]) -> Result<(), Unfit>
    ensures { result ≡ admitted network.now }
{
    let Ok(record) = <&[i64; Room::NETWORK]>::try_from(network) else {
        return Err(Unfit::Store);
    };
    if !is_network(record) {
        return Err(Unfit::Network);
    }
    Ok(())
}
