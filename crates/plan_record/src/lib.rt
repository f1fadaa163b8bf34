#![tactic(auto)]

// A network record by its rows, in table order: the words of row i are its kind and then its fields as in the text.

ghost use Rattle.std.specs.Prelude.{◌<◌, ◌≡◌};
ghost use Rattle.whole.specs.Plain.{true, pos, length, word, nat};
ghost use Rattle.paper.specs.Rows as Rows;
ghost use Rattle.paper.specs.Kinds.{number};
ghost use Rattle.paper.specs.Network.{is_network};
ghost use Rattle.laws_facts.specs.Nets.{net_in, row_at};

use paper::Kind;

// A network record that passes refusal 8.
#[derive(Clone, Copy)]
pub struct Record<'a> {
    pub words: &'a [i64],
    ghost passes: { is_network words.now ≡ true },
}

impl Record<'_> {
    // how many rows there are
    pub fn row_count(self) -> usize
        ensures { result ≡ length (net_in self.entry.words.now).rows }
    {
        self.words[3] as usize
    }

    // word j of row i
    pub fn value(self, i: usize, j: usize) -> i64
        requires { (i < length (net_in self.words.now).rows) × (j < 8) }
        ensures { result ≡ word (row_at (net_in self.entry.words.now) i) j }
    {
        self.words[8 + 8 * i + j]
    }

    // word j of row i, where that is no negative number
    pub fn number(self, i: usize, j: usize) -> usize
        requires i_in_bounds { (i < length (net_in self.words.now).rows) × (j < 8) }
        requires j_value { word (row_at (net_in self.words.now) i) j
            ≡ pos (nat (word (row_at (net_in self.words.now) i) j)) }
        ensures { result ≡ nat (word (row_at (net_in self.entry.words.now) i) j) }
    {
        self.value(i, j) as usize
    }

    // row i's kind
    pub fn kind(self, i: usize) -> Kind
        requires { i < length (net_in self.words.now).rows }
        ensures { number result ≡ Rows.kind (row_at (net_in self.entry.words.now) i) }
    {
        match Kind::of(self.number(i, 0)) {
            Some(kind) => kind,
            None => unreachable!(),
        }
    }
}
