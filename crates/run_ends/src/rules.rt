//! The ends of runs: the positions that they stand for, and check 13, the rules on them.
ghost use Rattle.std.specs.Prelude.{◌≡◌, [], ◌∷◌};
ghost use Rattle.masks.specs.Checks.{check, first_failed};
ghost use Rattle.masks.specs.Refusal.{failure_of};
ghost use Rattle.run_ends.specs.Rules.{end_of, ends_hold, runs_hold};

use masks::refusal::{Refusal, check};

// Returns the position at which a run ends; 0, at which none does, for an end below 0.
pub(crate) fn end_of(end: i32) -> usize
    ensures { result ≡ end_of end }
{
    end.max(0) as usize
}

// Returns whether ends are positive and rise, and the last one is at least n; with no ends, whether n is 0.
#[tactic(auto, unfolding(crate::specs::Rules::ends_hold, crate::specs::Rules::rising_to), using(crate::proofs::rules::EndLaws::one_end))]
pub(crate) fn ends_hold(ends: &[i32], n: usize) -> bool
    ensures { result ≡ ends_hold n ends.now }
{
    let mut last = 0;
    for end in ends {
        let next = end_of(*end);
        if next <= last {
            return false;
        }
        last = next;
    }
    n <= last
}

// Makes check 13: the ends of a list of n flags hold, and there are as many as values.
pub(crate) fn check_runs(ends: &[i32], n: usize, values: usize) -> Result<(), Refusal>
    ensures refused { failure_of result ≡ first_failed (check 13 (runs_hold n ends.now values) ∷ []) }
{
    check(
        Refusal::BrokenRunEnds,
        ends_hold(ends, n) & (ends.len() == values),
    )
}
