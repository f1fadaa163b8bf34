#![tactic(auto)]

// A study's text from its network record, put into a lent buffer line by line, in table order; each function answers the next place. The words,
// and how many fields follow them, come from the table of kinds.
ghost use Rattle.std.specs.Prelude.{◌+◌, ◌≤◌, ◌<◌, ◌≡◌};
ghost use Rattle.whole.specs.Plain.{true, length};
ghost use Rattle.paper.specs.Kinds.{number};
ghost use Rattle.paper.specs.Rows.{word_of};
ghost use Rattle.paper.specs.Network.{is_network, table_of};
ghost use Rattle.paper.specs.Listing.{line_of};
ghost use Rattle.paper.specs.Writing.{row_line, text_of};
ghost use Rattle.laws_facts.specs.Nets.{net_in, row_at};
ghost use Rattle.list_digits.specs.Puts.{Puts};

use paper::Kind;
use plan_record::Record;

// ---- a line

fn put_line(kind: Kind, fields: &[i64], out: &mut [u8], at: usize) -> usize
    requires { at + length (line_of (word_of (number kind)) fields.now) ≤ length out.old }
    ensures { Puts out.old at (line_of (word_of (number kind)) fields.now) result out.new }
{
    list_ends::put_line(text_words::word_of(kind), fields, out, at)
}

// ---- all lines

// the line of row i
fn put_row(net: Record, i: usize, out: &mut [u8], at: usize) -> usize
    requires known { i < length (net_in net.words.now).rows }
    requires room { at + length (row_line (row_at (net_in net.words.now) i)) ≤ length out.old }
    ensures { Puts out.old at (row_line (row_at (net_in net.entry.words.now) i)) result out.new }
{
    let kind = net.kind(i);
    let first = 9 + 8 * i;
    let end = first + text_kinds::fields(kind);
    put_line(kind, &net.words[first..end], out, at)
}

fn put_rows(net: Record, out: &mut [u8], at: usize) -> usize
    requires { at + length (text_of (net_in net.words.now).rows) ≤ length out.old }
    ensures { Puts out.old at (text_of (net_in net.entry.words.now).rows) result out.new }
{
    let mut next = at;
    for row in 0..net.row_count() {
        next = put_row(net, row, out, next);
    }
    next
}

pub fn put_study(net: &[i64], out: &mut [u8]) -> usize
    requires { (is_network net.now ≡ true) × (length (text_of (table_of net.now)) ≤ length out.old) }
    ensures { Puts out.old 0 (text_of (table_of net.now)) result out.new }
{
    let next = put_line(Kind::Study, &net[..3], out, 0);
    put_rows(Record { words: net }, out, next)
}
