// A row of eight words whose first is the number of a kind, and that kind.
ghost use Rattle.std.specs.Prelude.{◌≡◌, ◌≤◌, ◌<◌, MatchOption};
ghost use Rattle.whole.specs.Plain.{nat_abs, word};
ghost use Rattle.paper.specs.Kinds.{number};
ghost use Rattle.paper.specs.Rows as Rows;

use paper::Kind;

#[derive(Clone, Copy)]
pub struct Row {
    pub words: [i64; 8],
    pub kind: Kind,
    ghost named: { number kind ≡ Rows.kind words },
}

impl Row {
    // None where the first word is the number of no kind.
    pub fn of(words: [i64; 8]) -> Option<Row>
        ensures { MatchOption result (10 ≤ Rows.kind words) (λ r. r.words ≡ words) }
    {
        let number = usize::try_from(words[0]).ok()?;
        let kind = Kind::of(number)?;
        Some(Row { words, kind })
    }

    // The magnitude of the word i.
    pub(crate) fn field(self, i: usize) -> u64
        requires { i < 8 }
        ensures { result ≡ nat_abs (word self.words i) }
    {
        whole::magnitude(self.words[i])
    }

    pub fn is_study(self) -> bool
        ensures { result ≡ Rows.is_study self.words }
    {
        matches!(self.kind, Kind::Study)
    }

    pub(crate) fn is_line(self) -> bool
        ensures { result ≡ Rows.is_line self.words }
    {
        matches!(self.kind, Kind::Line)
    }
}
