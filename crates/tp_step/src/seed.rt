// The choices of a seed.
ghost use Rattle.std.specs.Prelude.{◌≡◌, ◌<◌, ◌%◌, ℕ, suc};
ghost use Rattle.tp_step.specs.Seeds.{choice_at, choice_of, word_after, word_at};

/// Makes a choice among so many by a seed's word, which goes on to the next one.
pub fn choose_place(word: &mut u64, count: u64) -> u64
    requires some { 0 < count }
    ensures choice { result ≡ choice_of word.old % count }
    ensures word { word.new ≡ word_after word.old }
    ensures seed { (seed k : ℕ) → word.old ≡ word_at seed k
        → (result ≡ choice_at seed k % count) × (word.new ≡ word_at seed (suc k)) }
{
    let place = (*word >> 33) % count;
    *word = word
        .wrapping_mul(6364136223846793005)
        .wrapping_add(1442695040888963407);
    place
}
