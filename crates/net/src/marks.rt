//! Sets of nodes.
ghost use Rattle.std.specs.Prelude.{◌≡◌, ℕ, ◌*◌, ◌<◌, length};
ghost use Rattle.rounds.specs.Marks.{marked, count_marked};
ghost use Rattle.net.specs.Bits.{in_words};

/// A set of nodes below 256, a bit for each: the awaited nodes are to be counted by the bits that are set.
#[derive(Clone, Copy, Default)]
pub struct Marks {
    words: [u64; 4],
}

impl Marks {
    ghost use Rattle.net.specs.Marking.{has};

    /// Marks a node.
    pub fn set(&mut self, v: usize)
        requires { v < 256 }
        ensures { (w : ℕ) → w < 256 → has self.new w ≡ marked (has self.old) v w }
    {
        self.words[v / 64] |= 1 << (v % 64);
    }

    /// How many marks there are.
    pub fn count(&self) -> u32
        ensures { result ≡ count_marked (length self.now.words * 64) (has self.now) }
    {
        set_bits(&self.words)
    }
}

// How many bits of the words are set.
fn set_bits(words: &[u64]) -> u32
    requires { length words.now ≡ 4 }
    ensures { result ≡ count_marked (length words.now * 64) (in_words words.now) }
{
    words.iter().map(|word| word.count_ones()).sum()
}
