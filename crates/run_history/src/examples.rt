//! Worked examples of the definitions, each proved by computing. Nothing calls these functions.
ghost use Rattle.std.specs.Prelude.{◌≡◌, [], ◌∷◌, ◌++◌, drop, take, replicate, pos, true, false};
ghost use Rattle.flow_types.specs.Examples.{chain};
ghost use Rattle.flow_types.specs.declared.job.Failure.TheVariants as failures;
ghost use Rattle.flow_types.specs.declared.numbers.Needs.TheVariants as needs;
ghost use Rattle.flow_types.specs.declared.records.Record.TheVariants as records;
ghost use Rattle.flow_types.specs.declared.records.EndKind.TheVariants as kinds;
ghost use Rattle.run_history.specs.declared.options.Mode.TheVariants as modes;
ghost use Rattle.run_history.specs.declared.answers.Check.TheVariants as check;
ghost use Rattle.run_history.specs.declared.answers.Nothing.TheVariants as nothing;
ghost use Rattle.run_history.specs.declared.answers.Stop.TheVariants as stops;
ghost use Rattle.run_history.specs.declared.links.JoinRefused.TheVariants as refused;
ghost use Rattle.run_history.specs.declared.states.RuleState.TheVariants as rule;
ghost use Rattle.run_history.specs.declared.states.FileState.TheVariants as file;
ghost use Rattle.run_history.specs.States.{rule_state, file_state};
ghost use Rattle.run_history.specs.Storage.{stored, reserved, least_free, wanted};
ghost use Rattle.run_history.specs.Legal.{is_allowed, is_legal, first_illegal};
ghost use Rattle.run_history.specs.Links.{has_room};
ghost use Rattle.run_history.specs.Moves.{join_refusal, next_link, serves};
ghost use Rattle.run_history.specs.Answers.{claim_of, end_of, logged_end, stop_of};
ghost use Rattle.run_history.specs.Examples.{digest, local_run, worker_run, moves_of, opened};
ghost use Rattle.run_history.specs.Examples.{resumed, started, started_on, done, failed, lost};
ghost use Rattle.run_history.specs.Examples.{dropped, ended, sized};
ghost use Rattle.run_history.specs.Examples.{collected_course, demanded_course, full_course};
ghost use Rattle.run_history.specs.Examples.{kept_course, resumed_course, tried_again, ended_again};
ghost use Rattle.run_history.specs.Examples.{failed_course};
ghost use Rattle.run_history.specs.Examples.{one_copy, three_cuts, two_makers, opened_narrow};
ghost use Rattle.run_history.specs.Examples.{cores, on_worker, two_started, joined, left, joins};
ghost use Rattle.run_history.specs.Examples.{wide_row, load};
ghost use Rattle.run_history.specs.Examples.{after_other, cleaned_course, dropped_later};
ghost use Rattle.run_history.specs.Examples.{halves_run, join_of, large_run, made, opened_later};
ghost use Rattle.run_history.specs.Examples.{roomless_course, three_inputs, two_halves, two_inputs};

/// One rule is started and done once, and the run ends complete. A second end answers the same,
/// also after a stop.
pub fn one_run_of_one_rule()
    ensures legal { is_legal one_copy digest (opened 0 None ∷ started 0 0 ∷ done 0 0
        ∷ ended kinds.Complete ∷ []) ≡ true }
    ensures claimed { claim_of one_copy (local_run modes.Never) (moves_of (opened 0 None ∷ [])) None
        0 ≡ Ok 0 }
    ensures runs { rule_state (opened 0 None ∷ started 0 0 ∷ []) 0
        ≡ rule.Running (record { 0 = 0 }) }
    ensures made { file_state one_copy (opened 0 None ∷ started 0 0 ∷ done 0 0 ∷ []) 1
        ≡ file.Present (sized 40) }
    ensures ends { end_of one_copy (local_run modes.Never)
        (moves_of (opened 0 None ∷ started 0 0 ∷ done 0 0 ∷ [])) None ≡ check.Complete 0 }
    ensures logs { logged_end one_copy (local_run modes.Never)
        (moves_of (opened 0 None ∷ started 0 0 ∷ done 0 0 ∷ [])) None ≡ Some kinds.Complete }
    ensures again { end_of one_copy (local_run modes.Never)
        (moves_of (opened 0 None ∷ started 0 0 ∷ done 0 0 ∷ ended kinds.Complete ∷ []))
        (Some stops.Halt) ≡ check.Complete 0 }
    ensures once { logged_end one_copy (local_run modes.Never)
        (moves_of (opened 0 None ∷ started 0 0 ∷ done 0 0 ∷ ended kinds.Complete ∷ [])) None
        ≡ None }
{}

/// The chain collected as soon as nothing needs a file: what is stored, reserved and wanted on the
/// way.
pub fn run_that_collects()
    ensures legal { is_legal chain digest collected_course ≡ true }
    ensures after_first { stored chain (take 3 collected_course) ≡ 40 }
    ensures second_runs { reserved chain (take 4 collected_course) ≡ 40 }
    ensures none_free { least_free chain (take 4 collected_course) ≡ None }
    ensures first_free { wanted chain modes.RefCount (take 5 collected_course) ≡ Some 0 }
    ensures after_second { stored chain (take 5 collected_course) ≡ 80 }
    ensures after_drop { stored chain (take 6 collected_course) ≡ 40 }
    ensures is_collected { file_state chain (take 6 collected_course) 0 ≡ file.Collected }
    ensures complete { end_of chain (local_run modes.RefCount) (moves_of (take 9 collected_course))
        None ≡ check.Complete 2 }
    ensures resumed { is_legal chain digest (take 6 collected_course ++ resumed 1 0 (Some 100)
        ∷ started 2 2 ∷ []) ≡ true }
{}

/// Without room for the third file: the mode that never collects ends for want of room, on demand
/// the first file is dropped. A resume under a limit below what is stored is not allowed.
pub fn runs_without_room()
    ensures claim { claim_of chain (local_run modes.Never) (moves_of full_course) None 0
        ≡ Err (nothing.NoStorage (record { 0 = 2 }) 40 80 0 100) }
    ensures end { end_of chain (local_run modes.Never) (moves_of full_course) None
        ≡ check.NoRoom (record { 0 = 2 }) 40 80 100 }
    ensures on_demand { claim_of chain (local_run modes.OnDemand) (moves_of full_course) None 0
        ≡ Err (nothing.CollectFirst (record { 0 = 0 })) }
    ensures dropped { claim_of chain (local_run modes.OnDemand) (moves_of (take 6 demanded_course))
        None 0 ≡ Ok 2 }
    ensures legal { is_legal chain digest demanded_course ≡ true }
    ensures complete { end_of chain (local_run modes.OnDemand) (moves_of (take 8 demanded_course))
        None ≡ check.Complete 1 }
    ensures above { is_allowed chain digest kept_course (resumed 1 0 (Some 100)) ≡ false }
    ensures within { is_allowed chain digest kept_course (resumed 1 0 (Some 120)) ≡ true }
    ensures reserved { claim_of two_makers (local_run modes.Never)
        (moves_of (opened_narrow ∷ started 0 0 ∷ [])) None 0
        ≡ Err (nothing.NoStorage (record { 0 = 1 }) 40 0 40 60) }
    ensures lost { claim_of two_makers (local_run modes.Never)
        (moves_of (opened_narrow ∷ started 0 0 ∷ lost 0 0 ∷ [])) None 0 ≡ Ok 0 }
    ensures again { is_allowed two_makers digest (opened_narrow ∷ started 0 0 ∷ lost 0 0 ∷ [])
        (started 0 1) ≡ true }
    ensures reused { is_allowed two_makers digest (opened_narrow ∷ started 0 0 ∷ lost 0 0 ∷ [])
        (started 0 0) ≡ false }
{}

/// What a desk may do with the chain in each mode. The mode that never collects drops nothing and
/// ends for want of room; as soon as nothing needs a file it is dropped before all else; on demand
/// it is dropped only where a ready rule has no room.
pub fn chain_in_each_mode()
    ensures never { serves chain digest (local_run modes.Never) [] (moves_of roomless_course)
        ≡ true }
    ensures never_logs { logged_end chain (local_run modes.Never) (moves_of full_course) None
        ≡ Some kinds.NoRoom }
    ensures never_drops { serves chain digest (local_run modes.Never) []
        (moves_of (take 6 collected_course)) ≡ false }
    ensures soon { serves chain digest (local_run modes.RefCount) [] (moves_of collected_course)
        ≡ true }
    ensures soon_first { claim_of chain (local_run modes.RefCount)
        (moves_of (take 5 collected_course)) None 0
        ≡ Err (nothing.CollectFirst (record { 0 = 0 })) }
    ensures soon_last { end_of chain (local_run modes.RefCount) (moves_of (take 8 collected_course))
        None ≡ check.Going }
    ensures soon_starts_none { serves chain digest (local_run modes.RefCount) []
        (moves_of (take 6 kept_course)) ≡ false }
    ensures on_demand { serves chain digest (local_run modes.OnDemand) [] (moves_of demanded_course)
        ≡ true }
    ensures on_demand_keeps { serves chain digest (local_run modes.OnDemand) []
        (moves_of kept_course) ≡ true }
    ensures on_demand_drops { serves chain digest (local_run modes.OnDemand) []
        (moves_of collected_course) ≡ false }
{}

/// After a resume the rule that ran waits, and its next attempt has the next number; what its old
/// attempt gives is stale, and a rule is done once.
pub fn resumed_run()
    ensures legal { is_legal chain digest resumed_course ≡ true }
    ensures waits { rule_state (take 5 resumed_course) 1 ≡ rule.Waiting }
    ensures runs_again { rule_state resumed_course 1 ≡ rule.Running (record { 0 = 2 }) }
    ensures stale { is_allowed chain digest resumed_course (done 1 1) ≡ false }
    ensures fresh { is_allowed chain digest resumed_course (done 1 2) ≡ true }
    ensures once { is_allowed chain digest (resumed_course ++ done 1 2 ∷ []) (done 1 2) ≡ false }
    ensures first_fault { first_illegal chain digest (resumed_course ++ done 1 1 ∷ done 1 2 ∷ [])
        ≡ Some 6 }
    ensures tried_again { is_legal one_copy digest tried_again ≡ true }
    ensures claims_again { claim_of one_copy (local_run modes.Never) (moves_of (take 3 tried_again))
        None 0 ≡ Ok 0 }
    ensures ended_again { is_legal one_copy digest ended_again ≡ true }
    ensures ends_again { end_of one_copy (local_run modes.Never) (moves_of (take 4 ended_again))
        None ≡ check.Complete 0 }
{}

/// A run cut short at its Done. Without the Done the rule is claimed again, under the next number
/// alone, and the run ends once that is done; with it nothing is left to claim.
pub fn resume_at_a_done()
    ensures goes_on { is_allowed one_copy digest (take 2 tried_again) (resumed 1 0 None) ≡ true }
    ensures run { is_allowed one_copy digest (take 2 tried_again) (resumed 0 0 None) ≡ false }
    ensures once_opened { is_allowed one_copy digest (take 2 tried_again) (opened_later 1) ≡ false }
    ensures going { end_of one_copy (local_run modes.Never) (moves_of (take 3 tried_again)) None
        ≡ check.Going }
    ensures numbered { is_allowed one_copy digest (take 3 tried_again) (started 0 0) ≡ false }
    ensures late { is_allowed one_copy digest (take 4 tried_again) (done 0 0) ≡ false }
    ensures ends { end_of one_copy (local_run modes.Never) (moves_of (take 5 tried_again)) None
        ≡ check.Complete 0 }
    ensures logs { logged_end one_copy (local_run modes.Never) (moves_of (take 5 tried_again)) None
        ≡ Some kinds.Complete }
    ensures nothing_left { claim_of one_copy (local_run modes.Never) (moves_of (take 4 ended_again))
        None 0 ≡ Err nothing.NoneReady }
    ensures still_there { file_state one_copy (take 4 ended_again) 1 ≡ file.Present (sized 40) }
    ensures served { serves one_copy digest (local_run modes.Never) (take 2 tried_again)
        (moves_of (drop 2 tried_again)) ≡ true }
    ensures served_at_once { serves one_copy digest (local_run modes.Never) (take 3 ended_again)
        (moves_of (drop 3 ended_again)) ≡ true }
{}

/// A cleaning ends a part: no file is there any more, rules wait, and runs and attempts are
/// numbered on. Of an earlier part, which may be of another plan, only the numbers count.
pub fn part_behind_a_cleaning()
    ensures legal { is_legal one_copy digest cleaned_course ≡ true }
    ensures absent { file_state one_copy (take 5 cleaned_course) 1 ≡ file.Absent }
    ensures waits { rule_state (take 6 cleaned_course) 0 ≡ rule.Waiting }
    ensures claims { claim_of one_copy (local_run modes.Never) (moves_of (take 6 cleaned_course))
        None 0 ≡ Ok 0 }
    ensures numbered { is_allowed one_copy digest (take 6 cleaned_course) (started 0 0) ≡ false }
    ensures opened { is_allowed one_copy digest (take 5 cleaned_course) (resumed 1 0 None) ≡ false }
    ensures empty { is_allowed one_copy digest (take 5 cleaned_course) (ended kinds.Cleaned)
        ≡ false }
    ensures other { is_legal two_makers digest (after_other 1) ≡ true }
    ensures misnumbered { first_illegal two_makers digest (after_other 0) ≡ Some 3 }
{}

/// One job takes 134,217,728 bytes and not one file more, each counted as often as the rule takes
/// it in.
pub fn inputs_of_one_job()
    ensures fits { claim_of (join_of two_inputs) (local_run modes.Never) (moves_of large_run) None 0
        ≡ Ok 0 }
    ensures starts { is_allowed (join_of two_inputs) digest large_run (started 0 0) ≡ true }
    ensures large { claim_of (join_of three_inputs) (local_run modes.Never) (moves_of large_run)
        None 0 ≡ Err (nothing.InputsTooLarge (record { 0 = 0 }) 201326592) }
    ensures starts_none { is_allowed (join_of three_inputs) digest large_run (started 0 0) ≡ false }
    ensures ends { end_of (join_of three_inputs) (local_run modes.Never) (moves_of large_run) None
        ≡ check.InputsTooLarge (record { 0 = 0 }) 201326592 }
    ensures logs { is_allowed (join_of three_inputs) digest large_run (ended kinds.InputsTooLarge)
        ≡ true }
    ensures not_so { is_allowed (join_of two_inputs) digest large_run (ended kinds.InputsTooLarge)
        ≡ false }
{}

/// What closes an attempt: one content for each output, each within the bound of its file and
/// together within that of the rule, or a failure at one of the outputs.
pub fn closing_of_an_attempt()
    ensures within { is_allowed two_halves digest halves_run (made 0 0 (67108863 ∷ 1 ∷ [])) ≡ true }
    ensures together { is_allowed two_halves digest halves_run (made 0 0 (67108864 ∷ 1 ∷ []))
        ≡ false }
    ensures few { is_allowed two_halves digest halves_run (made 0 0 (1 ∷ [])) ≡ false }
    ensures many { is_allowed two_halves digest halves_run (made 0 0 (1 ∷ 1 ∷ 1 ∷ [])) ≡ false }
    ensures bound { is_allowed chain digest (take 2 collected_course) (made 0 0 (41 ∷ [])) ≡ false }
    ensures other_rule { is_allowed chain digest (take 2 collected_course) (done 1 0) ≡ false }
    ensures last_output { is_allowed two_halves digest halves_run
        (records.Failed 0 (record { 0 = 0 }) (record { 0 = 0 }) (failures.MissingOutput 1)) ≡ true }
    ensures no_output { is_allowed two_halves digest halves_run
        (records.Failed 0 (record { 0 = 0 }) (record { 0 = 0 }) (failures.MissingOutput 2))
        ≡ false }
    ensures no_long_output { is_allowed two_halves digest halves_run
        (records.Failed 0 (record { 0 = 0 }) (record { 0 = 0 }) (failures.TooLong 2 67108865))
        ≡ false }
{}

/// A second end answers what the first did and logs nothing, whatever came between: a drop, a stop,
/// a link.
pub fn end_that_stays()
    ensures legal { is_legal chain digest dropped_later ≡ true }
    ensures before { end_of chain (local_run modes.RefCount) (moves_of (take 7 dropped_later)) None
        ≡ check.CommandFailed (record { 0 = 2 }) (failures.Status (pos 3)) }
    ensures after { end_of chain (local_run modes.RefCount) (moves_of dropped_later)
        (Some stops.Halt) ≡ check.CommandFailed (record { 0 = 2 }) (failures.Status (pos 3)) }
    ensures logs { logged_end chain (local_run modes.RefCount) (moves_of dropped_later) None
        ≡ None }
    ensures claims { claim_of chain (local_run modes.RefCount) (moves_of dropped_later) None 0
        ≡ Err nothing.Stopping }
    ensures waited { end_of (three_cuts (cores 2)) worker_run
        (moves_of (opened 0 None ∷ ended kinds.Waited ∷ []) ++ joined 1 1000 ∷ [])
        (Some (stops.Waited 3)) ≡ check.Waited (record { idles = 3; rule = record { 0 = 0 } }) }
{}

/// With one retry a rule has failed after its second failure, and nothing is started from then on.
pub fn failures_of_a_rule()
    ensures legal { is_legal one_copy digest failed_course ≡ true }
    ensures waits { rule_state (take 3 failed_course) 0 ≡ rule.Waiting }
    ensures fails { rule_state (take 5 failed_course) 0 ≡ rule.Failed }
    ensures stops { claim_of one_copy (local_run modes.Never) (moves_of (take 5 failed_course)) None
        0 ≡ Err nothing.Stopping }
    ensures goes_on { end_of one_copy (local_run modes.Never) (moves_of (take 3 failed_course)) None
        ≡ check.Going }
    ensures ends { end_of one_copy (local_run modes.Never) (moves_of (take 5 failed_course)) None
        ≡ check.CommandFailed (record { 0 = 0 }) (failures.Status (pos 3)) }
    ensures fresh { rule_state (failed_course ++ resumed 1 1 None ∷ []) 0 ≡ rule.Waiting }
{}

/// Rules of 3, 2 and 1 cores on a worker of 4: the second waits for the first. A rule that needs
/// the whole link waits until nothing runs there. A link takes 64 rules, none larger than its
/// largest place, and what its cache holds.
pub fn packing_of_a_link()
    ensures first { claim_of (three_cuts (cores 2)) worker_run (on_worker []) None 1 ≡ Ok 0 }
    ensures third { claim_of (three_cuts (cores 2)) worker_run (on_worker (take 1 two_started)) None
        1 ≡ Ok 2 }
    ensures second { claim_of (three_cuts (cores 2)) worker_run (on_worker two_started) None 1
        ≡ Err (nothing.NoFit (record { 0 = 1 })) }
    ensures after_done { claim_of (three_cuts (cores 2)) worker_run
        (on_worker (two_started ++ done 0 0 ∷ [])) None 1 ≡ Ok 1 }
    ensures whole { claim_of (three_cuts needs.Whole) worker_run
        (on_worker (two_started ++ done 0 0 ∷ [])) None 1 ≡ Err (nothing.NoFit (record { 0 = 1 })) }
    ensures empty { claim_of (three_cuts needs.Whole) worker_run
        (on_worker (two_started ++ done 0 0 ∷ done 2 1 ∷ [])) None 1 ≡ Ok 1 }
    ensures elsewhere { claim_of (three_cuts (cores 2)) worker_run (on_worker []) None 0
        ≡ Err nothing.NoneReady }
    ensures serves { serves (three_cuts (cores 2)) digest worker_run (opened 0 None ∷ [])
        (joined 1 1000 ∷ moves_of (started_on 1 0 0 ∷ lost 0 0 ∷ []) ++ left 1 ∷ joined 2 1000 ∷ [])
        ≡ true }
    ensures busy { serves (three_cuts (cores 2)) digest worker_run (opened 0 None ∷ [])
        (joined 1 1000 ∷ moves_of (started_on 1 0 0 ∷ []) ++ left 1 ∷ []) ≡ false }
    ensures few { has_room 1 wide_row (replicate 63 (load 1 0)) (load 1 0) ≡ true }
    ensures many { has_room 1 wide_row (replicate 64 (load 1 0)) (load 1 0) ≡ false }
    ensures larger { has_room 1 wide_row [] (load 3 0) ≡ false }
    ensures cached { has_room 1 wide_row (load 1 60 ∷ []) (load 1 40) ≡ true }
    ensures not_cached { has_room 1 wide_row (load 1 60 ∷ []) (load 1 41) ≡ false }
    ensures links { join_refusal worker_run (joins 31) ≡ None }
    ensures no_link { join_refusal worker_run (joins 32) ≡ Some refused.TooManyLinks }
    ensures numbered { next_link (joins 3 ++ left 2 ∷ []) ≡ 4 }
{}

/// A stop for waiting is set only where waiting is in vain, and the first stop stays.
pub fn stops_for_waiting()
    ensures set { stop_of (three_cuts (cores 2)) worker_run (moves_of (opened 0 None ∷ [])) None
        (stops.Waited 3) ≡ Some (stops.Waited 3) }
    ensures waited { end_of (three_cuts (cores 2)) worker_run (moves_of (opened 0 None ∷ []))
        (Some (stops.Waited 3)) ≡ check.Waited (record { idles = 3; rule = record { 0 = 0 } }) }
    ensures fits { stop_of (three_cuts (cores 2)) worker_run (on_worker []) None (stops.Waited 3)
        ≡ None }
    ensures runs { stop_of (three_cuts needs.Whole) worker_run (on_worker (two_started)) None
        (stops.Waited 3) ≡ None }
    ensures here { stop_of one_copy (local_run modes.Never) (moves_of (opened 0 None ∷ [])) None
        (stops.Waited 3) ≡ None }
    ensures first { stop_of one_copy (local_run modes.Never) (moves_of (opened 0 None ∷ []))
        (Some (stops.Waited 3)) stops.Halt ≡ Some (stops.Waited 3) }
    ensures halted { end_of one_copy (local_run modes.Never) (moves_of (opened 0 None ∷ []))
        (Some stops.Halt) ≡ check.Halted }
{}
