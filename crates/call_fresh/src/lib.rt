#![tactic(auto)]

// "a table starts from all zeros"
ghost use Rattle.std.specs.Prelude.{◌≡◌, pos, length, replicate};

// Every word becomes zero.
pub fn clear(words: &mut [i64])
    ensures { words.new ≡ replicate (length words.old) (pos 0) }
{
    words.fill(0);
}
