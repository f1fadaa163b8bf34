#![tactic(auto)]

// A line's word as a kind, and a field as a number. "Numbers are decimal without leading zeros; a minus stands only before a nonzero peak";
// "a number however long is well spelt".
ghost use Rattle.std.specs.Prelude.{◌≤◌, ◌≡◌};
ghost use Rattle.whole.specs.Plain.{true};
ghost use Rattle.paper.specs.Kinds.{number, kind_by};
ghost use Rattle.paper.specs.Rows.{kinds, word_of};
ghost use Rattle.paper.specs.Text.{digit, place_of};
ghost use Rattle.text_words.specs.Words.{Only, number_or_none};
ghost use Rattle.text_words.specs.Numbers.{held, digits_of, plain_of, read_number};

use paper::Kind;

// ---- numbers, held at 10^16, past every end of a field

const MOST: u64 = 10_000_000_000_000_000;

// One digit more.
#[tactic(auto, unfolding(paper::specs::Text::digit, crate::specs::Numbers::held, crate::specs::Numbers::cap))]
fn push(v: u64, b: u8) -> u64
    requires { (v ≤ 10000000000000000) × (digit b ≡ true) }
    ensures { result ≡ held v b }
{
    (10 * v + u64::from(b - b'0')).min(MOST)
}

fn all_digits(s: &[u8]) -> Option<u64>
    ensures { result ≡ digits_of s.now }
{
    let mut v = 0;
    for b in s {
        if !b.is_ascii_digit() {
            return None;
        }
        v = push(v, *b);
    }
    Some(v)
}

// Digits without a leading zero, or 0 alone where it may stand.
#[tactic(auto, using(crate::specs::Numbers::plain_ways))]
fn plain(s: &[u8], zero: bool) -> Option<u64>
    ensures { result ≡ plain_of zero s.now }
{
    match s {
        [] => None,
        [b'0'] if zero => Some(0),
        [b'0', ..] => None,
        _ => all_digits(s),
    }
}

// A field's number where it is well spelt, with a minus where one may stand.
pub fn read_number(s: &[u8], signed: bool) -> Option<i64>
    ensures { result ≡ read_number signed s.now }
{
    if signed & s.starts_with(b"-") {
        let n = plain(&s[1..], false)?;
        return Some(-(n as i64));
    }
    let n = plain(s, true)?;
    Some(n as i64)
}

// ---- words

#[tactic(auto, unfolding(paper::specs::Rows::word_of, paper::specs::Rows::kinds, paper::specs::Rows::bytes))]
pub fn word_of(kind: Kind) -> &'static [u8]
    ensures { result.now ≡ word_of (number kind) }
{
    match kind {
        Kind::Study => b"study",
        Kind::R => b"R",
        Kind::L => b"L",
        Kind::C => b"C",
        Kind::Line => b"LINE",
        Kind::Sw => b"SW",
        Kind::Vs => b"VS",
        Kind::Is => b"IS",
        Kind::Vc => b"VC",
        Kind::Swt => b"SWT",
    }
}

// The one kind whose word may begin so; the second byte is 0 where there is none.
fn candidate(first: u8, second: u8, length: usize) -> Option<Kind>
    ensures { Only first second length (number_or_none result) }
{
    match first {
        b'R' => Some(Kind::R),
        b'L' => {
            if length == 1 {
                Some(Kind::L)
            } else {
                Some(Kind::Line)
            }
        }
        b'C' => Some(Kind::C),
        b'S' => {
            if length == 3 {
                Some(Kind::Swt)
            } else {
                Some(Kind::Sw)
            }
        }
        b'V' => {
            if second == b'C' {
                Some(Kind::Vc)
            } else {
                Some(Kind::Vs)
            }
        }
        b'I' => Some(Kind::Is),
        b'a'..=b'z' => Some(Kind::Study),
        _ => None,
    }
}

// The kind that a word names.
pub fn kind_of(word: &[u8]) -> Option<Kind>
    ensures { result ≡ kind_by (place_of 0 kinds word.now) }
{
    if word.is_empty() {
        return None;
    }
    let second = if word.len() < 2 { 0 } else { word[1] };
    let kind = candidate(word[0], second, word.len())?;
    if word_of(kind) == word {
        Some(kind)
    } else {
        None
    }
}
