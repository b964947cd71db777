//! What a stop leaves of a small file, in three examples.
ghost use Rattle.std.specs.Prelude.{[], ◌∷◌, ◌≡◌, ℕ, List};
ghost use Rattle.rio_host.specs.Host.{Leaves};
ghost use Rattle.rio_host.specs.Left.{zeros_after, three_written, failed, synced, word_written, said};

/// A stop before the sync may leave a part of a write, with other bytes in its range and a length
/// on the way. It is so too where the write failed. After the sync it leaves the write whole.
pub fn leaves_torn_writes()
    ensures part { Leaves (zeros_after three_written) (0 ∷ 0 ∷ 0 ∷ 9 ∷ 2 ∷ []) [] }
    ensures outside { (bytes : List ℕ) → ¬ Leaves (zeros_after three_written) (0 ∷ 5 ∷ bytes) [] }
    ensures failed { Leaves (zeros_after failed) (0 ∷ 0 ∷ 0 ∷ 9 ∷ 2 ∷ []) [] }
    ensures synced { (image : List ℕ)
        → Leaves (zeros_after synced) image [] → image ≡ 0 ∷ 0 ∷ 0 ∷ 1 ∷ 2 ∷ 3 ∷ [] }
{}

/// A stop leaves all of a word or nothing.
pub fn leaves_words_whole()
    ensures all { Leaves (zeros_after word_written) (1 ∷ 2 ∷ 3 ∷ 4 ∷ []) [] }
    ensures nothing { Leaves (zeros_after word_written) (0 ∷ 0 ∷ 0 ∷ 0 ∷ []) [] }
    ensures no_part { ¬ Leaves (zeros_after word_written) (1 ∷ 2 ∷ 0 ∷ 0 ∷ []) [] }
{}

/// A stop during a say leaves a front of its bytes, and one after it all of them.
pub fn leaves_says_cut_short()
    ensures part { (zeros_after said).left_since 0 (0 ∷ 0 ∷ 0 ∷ 0 ∷ []) (7 ∷ []) }
    ensures whole { (text : List ℕ)
        → Leaves (zeros_after said) (0 ∷ 0 ∷ 0 ∷ 0 ∷ []) text → text ≡ 7 ∷ 8 ∷ [] }
{}
