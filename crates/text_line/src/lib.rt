#![tactic(auto)]

// One line of the study text as a row: "Lines end in LF, the last one too; fields are parted by one tab."
ghost use Rattle.std.specs.Prelude.{◌≤◌, ◌<◌, ◌+◌, ◌≡◌, position};
ghost use Rattle.whole.specs.Plain.{length, drop};
ghost use Rattle.paper.specs.Kinds.{number};
ghost use Rattle.text_line.specs.Parts.{ends, field_of, starts_with};
ghost use Rattle.text_line.specs.Walks.{field_at, fields_at, line_at};

use paper::Kind;
use text_kinds::Range;

// A line as far as it is read: the next byte, and the row.
#[derive(Clone, Copy)]
pub struct Walk {
    pub at: usize,
    pub row: [i64; 8],
}

// The place of the first tab or LF.
#[tactic(auto, unfolding(crate::specs::Parts::ends))]
fn first_end(text: &[u8]) -> Option<usize>
    ensures { result ≡ position ends text.now }
{
    text.iter().position(|b| (*b == b'\t') | (*b == b'\n'))
}

// The next tab or LF, or the text's end.
fn end_of(text: &[u8], at: usize) -> usize
    requires { at ≤ length text.now }
    ensures { result ≡ at + length (field_of (drop at text.now)) }
{
    match first_end(&text[at..]) {
        Some(n) => at + n,
        None => text.len(),
    }
}

fn is_at(text: &[u8], at: usize, b: u8) -> bool
    ensures { result ≡ starts_with b (drop at text.now) }
{
    text.get(at) == Some(&b)
}

// The field i of a line, whose range is known: a tab and a number. A misspelt one is passed, and 0 in the row.
fn field_at(text: &[u8], range: Range, i: usize, walk: Walk) -> Result<Walk, Walk>
    requires { (i < 5) × (walk.at ≤ length text.now) }
    ensures { result ≡ field_at text.now range.low i walk }
{
    let Walk { at, mut row } = walk;
    if !is_at(text, at, b'\t') {
        return Err(walk);
    }
    let start = at + 1;
    let end = end_of(text, start);
    match text_words::read_number(&text[start..end], range.low < 0) {
        Some(number) => {
            row[1 + i] = number;
            Ok(Walk { at: end, row })
        }
        None => {
            row[1 + i] = 0;
            Err(Walk { at: end, row })
        }
    }
}

fn fields_at(text: &[u8], kind: Kind, first: Walk) -> Result<Walk, Walk>
    requires { first.at ≤ length text.now }
    ensures { result ≡ fields_at text.now (number kind) first }
{
    let mut walk = first;
    for (i, range) in text_kinds::ranges(kind).iter().enumerate() {
        walk = field_at(text, *range, i, walk)?;
    }
    Ok(walk)
}

// The line that begins at a place, up to its LF; of one that is not well formed, as far as it was read.
pub fn line_at(text: &[u8], at: usize) -> Result<Walk, Walk>
    requires { at ≤ length text.now }
    ensures { result ≡ line_at text.now at }
{
    let end = end_of(text, at);
    let mut row = [0; 8];
    let Some(kind) = text_words::kind_of(&text[at..end]) else {
        return Err(Walk { at, row });
    };
    row[0] = kind.number() as i64;
    let walk = fields_at(text, kind, Walk { at: end, row })?;
    if is_at(text, walk.at, b'\n') {
        Ok(walk)
    } else {
        Err(walk) // its LF is missing
    }
}
