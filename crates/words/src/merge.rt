//! Two neighbouring words read as one, starting at an offset.
ghost use Rattle.std.specs.Prelude.{◌≡◌};
ghost use Rattle.words.specs.Flags.{word_flags};
ghost use Rattle.words.specs.Merge.{merged};

/// Returns the 64 flags that start at flag `offset` of `current` and continue in `next`. An offset of 0, or of 64 or more, returns
/// `current`.
#[tactic(auto, using(crate::proofs::merge::Merging::merge_none))]
pub fn merge_reversed(current: u64, next: u64, offset: usize) -> u64
    ensures { word_flags result ≡ merged (word_flags current) (word_flags next) offset }
{
    // two branches: the proof has a law for each
    if offset == 0 {
        return current;
    }
    if offset >= 64 {
        return current;
    }
    (current >> offset) | (next << (64 - offset))
}
