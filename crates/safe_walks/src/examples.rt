//! Worked examples of the walk, each proved by computing. Nothing calls these functions.
ghost use Rattle.std.specs.Prelude.{◌≡◌, [], ◌∷◌, take, Some, true, false};
ghost use Rattle.flow_types.specs.Examples.{chain};
ghost use Rattle.run_history.specs.declared.options.Mode.TheVariants as modes;
ghost use Rattle.run_history.specs.declared.answers.Check.TheVariants as check;
ghost use Rattle.run_history.specs.Examples.{digest, local_run, moves_of, opened, started};
ghost use Rattle.run_history.specs.Answers.{end_of};
ghost use Rattle.safe_walks.specs.Walk.{blank, peak, standing, walk};
ghost use Rattle.safe_walks.specs.Safe.{is_admitted_course, is_safe, safely_admitted};
ghost use Rattle.safe_walks.specs.Examples.{both_made, both_resumed, lesser_pair, lost_and_again};
ghost use Rattle.safe_walks.specs.Examples.{one_by_one, one_runs, two_pairs};

/// The chain of three files of 40 bytes holds two at a time.
pub fn chain_in_80_bytes()
    ensures peak { peak chain ≡ 80 }
    ensures values { walk chain blank ≡ 0 ∷ 40 ∷ 80 ∷ 80 ∷ [] }
    ensures within { is_safe chain (opened 0 (Some 80) ∷ []) 80 ≡ true }
    ensures beyond { is_safe chain (opened 0 (Some 79) ∷ []) 79 ≡ false }
{}

/// Two pairs, one after the other, need 60 bytes. While the first maker runs the second isn't
/// admitted under 80; where both are done the walk passes 80, so all are admitted and the end is
/// want of room.
pub fn two_pairs_in_80_bytes()
    ensures peak { peak two_pairs ≡ 60 }
    ensures runs { walk two_pairs (standing two_pairs one_runs) ≡ 40 ∷ 50 ∷ 50 ∷ 60 ∷ [] }
    ensures held_back { safely_admitted two_pairs (local_run modes.RefCount) one_runs 2 ≡ false }
    ensures again { safely_admitted two_pairs (local_run modes.RefCount) one_runs 0 ≡ true }
    ensures never { safely_admitted two_pairs (local_run modes.Never) one_runs 2 ≡ true }
    ensures passes { walk two_pairs (standing two_pairs both_resumed) ≡ 80 ∷ 90 ∷ 60 ∷ [] }
    ensures all { safely_admitted two_pairs (local_run modes.RefCount) both_resumed 1 ≡ true }
    ensures end { end_of two_pairs (local_run modes.RefCount) (moves_of both_made) None
        ≡ check.NoRoom (record { 0 = 1 }) 10 80 80 }
{}

/// The pairs one by one are a course that starts only what is admitted, and it ends complete. Both
/// makers together aren't, and a lost one may start again.
pub fn pairs_one_by_one()
    ensures course { is_admitted_course two_pairs digest (local_run modes.RefCount)
        (opened 0 (Some 80) ∷ []) one_by_one ≡ true }
    ensures end { end_of two_pairs (local_run modes.RefCount)
        (moves_of (opened 0 (Some 80) ∷ take 10 one_by_one)) None ≡ check.Complete 2 }
    ensures both { is_admitted_course two_pairs digest (local_run modes.RefCount)
        (opened 0 (Some 80) ∷ []) (started 0 0 ∷ started 2 1 ∷ []) ≡ false }
    ensures never { is_admitted_course two_pairs digest (local_run modes.Never)
        (opened 0 (Some 80) ∷ []) (started 0 0 ∷ started 2 1 ∷ []) ≡ true }
    ensures lost { is_admitted_course two_pairs digest (local_run modes.RefCount)
        (opened 0 (Some 80) ∷ []) lost_and_again ≡ true }
{}

/// The outputs of a rule count as the lesser of its bound and the sum of their bounds: with one of
/// two dropped, the other's bound.
pub fn lesser_of_two_bounds()
    ensures values { walk lesser_pair blank ≡ 0 ∷ 67108864 ∷ 67108874 ∷ 60000020 ∷ [] }
{}
