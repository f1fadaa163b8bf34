#![tactic(auto)]

// One line of a full step: "`v`, step, node, voltage" or "`i`, step, branch, current". What the lines of a step begin with is the same in all of them, and is
// spelt once.
ghost use Rattle.std.specs.Prelude.{◌+◌, ◌^◌, ◌≤◌, ◌<◌, ◌≡◌};
ghost use Rattle.whole.specs.Plain.{length, sets};
ghost use Rattle.paper.specs.Limits as Limits;
ghost use Rattle.list_digits.specs.Puts.{Puts};
ghost use Rattle.list_line.specs.Quads.{four_of};
ghost use Rattle.list_line.specs.Heads.{text_of, Headed, Spelt};
ghost use Rattle.list_line.specs.Texts.{ended_text, start_text, row_text, line_text};

// ---- what all lines of a step begin with: their letter and the step, a tab behind each

// Of its 4 to 10 bytes the first four, the last four, and four between from `turn` on, so that it is put by three stores, however long it is.
#[derive(Clone, Copy)]
pub struct Head {
    pub letter: u8,
    pub step: u64,
    pub size: usize,
    pub turn: usize,
    pub first: [u8; 4],
    pub middle: [u8; 4],
    pub last: [u8; 4],
}

fn four_at(text: &[u8], at: usize) -> [u8; 4]
    requires { at + 4 ≤ length text.now }
    ensures { result ≡ four_of text.now at }
{
    [text[at], text[at + 1], text[at + 2], text[at + 3]]
}

fn put_four(out: &mut [u8], at: usize, four: [u8; 4])
    requires { at + 4 ≤ length out.old }
    ensures { out.new ≡ sets out.old at four }
{
    out[at..at + 4].copy_from_slice(&four);
}

// The head's text but for its letter, and how long it is with it.
pub fn spell(step: u64, text: &mut [u8]) -> usize
    requires { (step ≤ Limits.steps_end) × (10 ≤ length text.old) }
    ensures { Spelt text.new step result }
{
    text[1] = b'\t';
    let next = list_numerals::put_natural(text, 2, step);
    text[next] = b'\t';
    next + 1
}

pub fn head_of(text: &mut [u8], letter: u8, step: u64, size: usize) -> Head
    requires { Spelt text.old step size }
    ensures { Headed result × (result.letter ≡ letter) × (result.step ≡ step) × Spelt text.new step size }
{
    text[0] = letter;
    let turn = (size - 4) / 2;
    Head {
        letter,
        step,
        size,
        turn,
        first: four_at(text, 0),
        middle: four_at(text, turn),
        last: four_at(text, size - 4),
    }
}

fn put_head(head: Head, out: &mut [u8], at: usize) -> usize
    requires { Headed head × (at + length (text_of head) ≤ length out.old) }
    ensures { Puts out.old at (text_of head) result out.new }
{
    put_four(out, at, head.first);
    put_four(out, at + head.turn, head.middle);
    put_four(out, at + head.size - 4, head.last);
    at + head.size
}

// ---- one line

// a value, and the tab or the end of the line behind it
fn put_ended(x: i64, end: u8, out: &mut [u8], at: usize) -> usize
    requires { at + length (ended_text x end) ≤ length out.old }
    ensures { Puts out.old at (ended_text x end) result out.new }
{
    let next = list_numerals::put_number(out, at, x);
    out[next] = end;
    next + 1
}

// The lines of a step: what all of them begin with.
#[derive(Clone, Copy)]
pub struct Lines {
    pub head: Head,
    ghost spelt: { Headed head },
}

impl Lines {
    // up to its values: the head, the number of its node or branch, a tab
    fn put_start(self, number: u64, out: &mut [u8], at: usize) -> usize
        requires number_value { number < 10 ^ 2 }
        requires number_in_bounds { at + length (start_text self.head number) ≤ length out.old }
        ensures { Puts out.old at (start_text self.head number) result out.new }
    {
        let next = put_head(self.head, out, at);
        let last = list_digits::put_small(out, next, number);
        out[last] = b'\t';
        last + 1
    }

    pub fn put_row(self, number: u64, x: i64, out: &mut [u8], at: usize) -> usize
        requires number_value { number < 10 ^ 2 }
        requires x_in_bounds { at + length (row_text self.head number x) ≤ length out.old }
        ensures { Puts out.old at (row_text self.head number x) result out.new }
    {
        let next = self.put_start(number, out, at);
        put_ended(x, b'\n', out, next)
    }

    // "for a line a fifth field, the to-end current"
    pub fn put_line_row(self, number: u64, x: i64, y: i64, out: &mut [u8], at: usize) -> usize
        requires number_value { number < 10 ^ 2 }
        requires y_in_bounds { at + length (line_text self.head number x y) ≤ length out.old }
        ensures { Puts out.old at (line_text self.head number x y) result out.new }
    {
        let next = self.put_start(number, out, at);
        let last = put_ended(x, b'\t', out, next);
        put_ended(y, b'\n', out, last)
    }
}
