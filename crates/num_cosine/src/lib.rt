#![tactic(auto)]

// "The cosine comes from a quarter table of 257 entries scaled to 2^30, the other quarters by symmetry": of a turn's 1,024 parts.
ghost use Rattle.std.specs.Prelude.{◌≤◌, ◌<◌, ◌≡◌};
ghost use Rattle.num_cosine.specs.Quarter.{entry};
ghost use Rattle.num_cosine.specs.Cosine.{half, folded, cosine};

mod quarter;

fn quarter_at(j: usize) -> u32
    requires { j ≤ 256 }
    ensures { result ≡ entry j }
{
    quarter::QUARTER[j]
}

// Where the first half turn has the cosine of this part: past the half it is that of the rest.
fn in_half(index: usize) -> usize
    requires { index < 1024 }
    ensures { (result ≤ 512) × (half result ≡ cosine index) }
{
    if index <= 512 {
        return index;
    }
    1024 - index
}

// And where the quarter has it, but for the sign.
fn in_quarter(j: usize) -> usize
    requires { j ≤ 512 }
    ensures { (result ≤ 256) × (result ≡ folded j) }
{
    if j <= 256 {
        return j;
    }
    512 - j
}

// Of the whole turn.
pub fn cosine(index: usize) -> i64
    requires { index < 1024 }
    ensures { result ≡ cosine index }
{
    let j = in_half(index);
    let size = quarter_at(in_quarter(j)) as i64;
    if j <= 256 {
        return size;
    }
    -size
}
