#![tactic(auto)]

// The lines of a text or a listing, put into a lent buffer from a place on; each function answers the next place.
ghost use Rattle.std.specs.Prelude.{◌≡◌, [], ◌∷◌, ◌+◌, ◌≤◌, ℤ, pos, length, map};
ghost use Rattle.paper.specs.Rows.{bytes};
ghost use Rattle.paper.specs.Listing.{shown, shown_all, line_of};
ghost use Rattle.list_digits.specs.Puts.{Puts};

// ---- parts of a line

// A number as a line has it, with a sign or without.
pub trait Number: Copy {
    ghost number: { Self → ℤ };

    fn put(self, out: &mut [u8], at: usize) -> usize
        requires { at + length (shown (number self)) ≤ length out.old }
        ensures { Puts out.old at (shown (number self)) result out.new };
}

impl Number for u64 {
    ghost number = { pos };

    #[tactic(auto, unfolding(paper::specs::Listing::shown))]
    fn put(self, out: &mut [u8], at: usize) -> usize {
        list_numerals::put_natural(out, at, self)
    }
}

impl Number for i64 {
    ghost number = { λ x. x };

    fn put(self, out: &mut [u8], at: usize) -> usize {
        list_numerals::put_number(out, at, self)
    }
}

pub fn put_byte(out: &mut [u8], at: usize, byte: u8) -> usize
    requires { at + 1 ≤ length out.old }
    ensures { Puts out.old at (byte ∷ []) result out.new }
{
    out[at] = byte;
    at + 1
}

pub fn put_word(out: &mut [u8], at: usize, word: &[u8]) -> usize
    requires { at + length word.now ≤ length out.old }
    ensures { Puts out.old at word.now result out.new }
{
    // byte by byte: a copy of a slice would have the archive ask for memmove from outside
    for i in 0..word.len() {
        out[at + i] = word[i];
    }
    at + word.len()
}

// all numbers of a line, a tab before each, and its end
fn put_numbers<N: Number>(numbers: &[N], out: &mut [u8], at: usize) -> usize
    requires { at + length (shown_all (map N.number numbers.now)) ≤ length out.old }
    ensures { Puts out.old at (shown_all (map N.number numbers.now)) result out.new }
{
    let mut next = at;
    for number in numbers {
        next = put_byte(out, next, b'\t');
        next = number.put(out, next);
    }
    put_byte(out, next, b'\n')
}

// ---- whole lines

// a word and its numbers
pub fn put_line<N: Number>(word: &[u8], numbers: &[N], out: &mut [u8], at: usize) -> usize
    requires { at + length (line_of word.now (map N.number numbers.now)) ≤ length out.old }
    ensures { Puts out.old at (line_of word.now (map N.number numbers.now)) result out.new }
{
    let next = put_word(out, at, word);
    put_numbers(numbers, out, next)
}

// "It ends with `done` and the step count"
#[tactic(auto, unfolding(paper::specs::Rows::bytes))]
pub fn put_done(out: &mut [u8], at: usize, steps: u64) -> usize
    requires { at + length (line_of (bytes "done") (pos steps ∷ [])) ≤ length out.old }
    ensures { Puts out.old at (line_of (bytes "done") (pos steps ∷ [])) result out.new }
{
    put_line(b"done", &[steps], out, at)
}

// "or `stop`, step, area, number, node-or-branch"
#[tactic(auto, unfolding(paper::specs::Rows::bytes))]
pub fn put_stop(out: &mut [u8], at: usize, step: u64, area: u64, number: u64, place: u64) -> usize
    requires { at + length (line_of (bytes "stop") (pos step ∷ pos area ∷ pos number ∷ pos place ∷ [])) ≤ length
        out.old }
    ensures { Puts out.old at
        (line_of (bytes "stop") (pos step ∷ pos area ∷ pos number ∷ pos place ∷ [])) result out.new }
{
    put_line(b"stop", &[step, area, number, place], out, at)
}

// "a refused text gives `bad`, line, number"
#[tactic(auto, unfolding(paper::specs::Rows::bytes))]
pub fn put_bad(out: &mut [u8], at: usize, line: u64, number: u64) -> usize
    requires { at + length (line_of (bytes "bad") (pos line ∷ pos number ∷ [])) ≤ length out.old }
    ensures { Puts out.old at (line_of (bytes "bad") (pos line ∷ pos number ∷ [])) result
        out.new }
{
    put_line(b"bad", &[line, number], out, at)
}
