#![tactic(auto)]

// All lines of the study text, one after the other, into a network record; or the first faulty line and its fault.
ghost use Rattle.std.specs.Prelude.{◌≤◌, ◌<◌, ◌+◌, ◌≡◌};
ghost use Rattle.whole.specs.Plain.{false, bool_beq, pos, length, replicate};
ghost use Rattle.whole.specs.Plain.{sets};
ghost use Rattle.paper.specs.Limits as Limits;
ghost use Rattle.paper.specs.Rows.{kind, is_study};
ghost use Rattle.paper.specs.Reading.{lines_of};
ghost use Rattle.text_faults.specs.Seen.{Held};
ghost use Rattle.text_study.specs.Laid.{put_row, put_study, put_line};
ghost use Rattle.text_study.specs.States.{State, Ends, Rows, Next};

use paper::Fault;
use text_faults::{Row, Seen};
use text_line::Walk;

// As far as the text is read: the next byte, the number of the line that begins there, and what is seen of the lines before it.
#[derive(Clone, Copy)]
pub struct Progress {
    pub at: usize,
    pub line: u64,
    pub seen: Seen,
}

// The first faulty line, counted from 1, and its fault.
#[derive(Clone, Copy)]
pub struct BadLine {
    pub line: u64,
    pub fault: Fault,
}

// ---- a row into the record

fn lay(net: &mut [i64], place: usize, row: [i64; 8])
    requires { place + 8 ≤ length net.old }
    ensures { net.new ≡ sets net.old place row }
{
    net[place..place + 8].copy_from_slice(&row);
}

fn put_row(net: &mut [i64], n: usize, row: [i64; 8])
    requires { (length net.old ≡ Limits.network_words) × (n < Limits.row_end) }
    ensures { net.new ≡ put_row n row net.old }
{
    lay(net, 8 + 8 * n, row);
    net[3] = (n + 1) as i64;
}

#[tactic(auto, unfolding(crate::specs::Laid::put_study))]
fn put_study(net: &mut [i64], row: [i64; 8])
    requires { length net.old ≡ Limits.network_words }
    ensures { net.new ≡ put_study row net.old }
{
    net[0] = row[1];
    net[1] = row[2];
    net[2] = row[3];
}

#[tactic(auto, unfolding(crate::specs::Laid::put_line))]
fn put_line(net: &mut [i64], n: usize, row: Row)
    requires { (length net.old ≡ Limits.network_words) × (is_study row.words ≡ false → n < Limits.row_end) }
    ensures { net.new ≡ put_line n row.words net.old }
{
    if row.is_study() {
        put_study(net, row.words);
    } else {
        put_row(net, n, row.words);
    }
}

// ---- a line

// "The first line, and only it, is `study`."
fn in_place(row: Row, first: bool) -> bool
    ensures { result ≡ bool_beq first (is_study row.words) }
{
    first == row.is_study()
}

// The row of a well-formed line, in its place and without fault after those that are seen.
fn row_of(walk: Walk, seen: Seen, line: u64) -> Result<Row, BadLine>
    requires { (kind walk.row < 10) × Held seen }
    ensures { Rows walk seen line result }
{
    let form = BadLine {
        line,
        fault: Fault::Form,
    };
    let Some(row) = Row::of(walk.row) else {
        unreachable!()
    };
    if !in_place(row, line == 1) {
        return Err(form);
    }
    match text_faults::line_fault(seen, row) {
        Some(fault) => Err(BadLine { line, fault }),
        None => Ok(row),
    }
}

fn next_line(text: &[u8], p: Progress, net: &mut [i64]) -> Result<Progress, BadLine>
    requires { State text.now p net.old × (p.at < length text.now) }
    ensures { Next text.now p result net.new }
{
    let Ok(walk) = text_line::line_at(text, p.at) else {
        return Err(BadLine {
            line: p.line,
            fault: Fault::Form,
        });
    };
    let row = row_of(walk, p.seen, p.line)?;
    put_line(net, p.seen.branches + p.seen.sources, row);
    Ok(Progress {
        at: walk.at + 1,
        line: p.line + 1,
        seen: text_faults::seen_after(p.seen, row),
    })
}

// ---- the text

pub fn read_study(text: &[u8], net: &mut [i64]) -> Result<(), BadLine>
    requires { net.old ≡ replicate Limits.network_words (pos 0) }
    ensures { Ends (lines_of text.now) result net.new }
{
    let mut p = Progress {
        at: 0,
        line: 1,
        seen: text_faults::nothing_seen(),
    };
    while p.at < text.len() {
        p = next_line(text, p, net)?;
    }
    // "empty text (line 1)"
    if p.line == 1 {
        return Err(BadLine {
            line: 1,
            fault: Fault::Form,
        });
    }
    Ok(())
}
