//! Worked worlds, each the contract of a function that does nothing.
ghost use Rattle.std.specs.Prelude.{◌≡◌, [], ◌∷◌, ◌++◌, codes, length};
ghost use Rattle.flow_types.specs.Examples.{chain};
ghost use Rattle.link_session.specs.Sessions.{State};
ghost use Rattle.world_laws.specs.declared.events.WorldEvent.TheVariants as events;
ghost use Rattle.world_laws.specs.Examples.{begun, claim, claimed_anew, collecting, cut_claim};
ghost use Rattle.world_laws.specs.Examples.{delivered, delivered_twice, done, drops, foreman_again};
ghost use Rattle.world_laws.specs.Examples.{foreman_gone, history, link_lost, lost, one_rule};
ghost use Rattle.world_laws.specs.Examples.{placed_anew, put_again, ran_below, remote, resumed};
ghost use Rattle.world_laws.specs.Examples.{run_once, starts, two_done, two_logged};

/// One rule on one worker: its Done is delivered twice, and the second time changes nothing.
pub fn job_delivered_twice()
    ensures ran { (fresh : State) → length (begun fresh one_rule remote run_once).bag ≡ 3 }
    ensures once { (fresh : State) → history (begun fresh one_rule remote delivered)
        ≡ codes "opened" ∷ starts 0 1 ∷ done 0 ∷ [] }
    ensures twice { (fresh : State) → begun fresh one_rule remote delivered_twice
        ≡ begun fresh one_rule remote delivered }
{}

/// A task that comes before its input: it is told as missing and put once more, and the attempt
/// goes on.
pub fn missing_input_is_put_again()
    ensures { (fresh : State) → history (begun fresh one_rule remote put_again)
        ≡ codes "opened" ∷ starts 0 1 ∷ done 0 ∷ codes "ended" ∷ [] }
{}

/// A crash while the worker runs: after the resume the rule starts with the next attempt, and the
/// old Done changes nothing.
pub fn old_done_is_stale()
    ensures next { (fresh : State) → history (begun fresh one_rule remote resumed)
        ≡ codes "opened" ∷ starts 0 1 ∷ codes "resumed" ∷ starts 1 1 ∷ [] }
    ensures stale { (fresh : State) → begun fresh one_rule remote (resumed ++ events.Deliver 2 ∷ [])
        ≡ begun fresh one_rule remote resumed }
{}

/// A start that a crash cut short was logged, and nothing was sent; its number isn't used again.
pub fn start_that_was_not_sent()
    ensures bag { (fresh : State) → (begun fresh one_rule remote cut_claim).bag ≡ [] }
    ensures records { (fresh : State) → history (begun fresh one_rule remote claimed_anew)
        ≡ codes "opened" ∷ starts 0 1 ∷ codes "resumed" ∷ starts 1 1 ∷ [] }
{}

/// A link is lost: what ran there is lost, and runs again over the next link.
pub fn lost_link_runs_again()
    ensures { (fresh : State) → history (begun fresh one_rule remote link_lost)
        ≡ codes "opened" ∷ starts 0 1 ∷ lost 0 ∷ starts 1 2 ∷ [] }
{}

/// A rule goes to a foreman, from there to a worker, and its Done comes back the same way.
pub fn done_goes_through_a_foreman()
    ensures { (fresh : State) → history (begun fresh one_rule remote ran_below)
        ≡ codes "opened" ∷ starts 0 1 ∷ done 0 ∷ [] }
{}

/// A foreman's worker is gone while it runs: the foreman hands the task to another one, and the
/// master's attempt goes on.
pub fn worker_of_a_foreman_is_gone()
    ensures { (fresh : State) → history (begun fresh one_rule remote placed_anew)
        ≡ codes "opened" ∷ starts 0 1 ∷ done 0 ∷ [] }
{}

/// A foreman is gone: what it had is lost, and what its worker tells it then is heard by nobody.
pub fn foreman_is_gone()
    ensures gone { (fresh : State) → history (begun fresh one_rule remote foreman_gone)
        ≡ codes "opened" ∷ starts 0 1 ∷ lost 0 ∷ [] }
    ensures unheard { (fresh : State)
        → length (begun fresh one_rule remote (foreman_gone ++ events.Deliver 6 ∷ [])).bag ≡ 7 }
{}

/// A crash while a foreman's worker runs: the foreman comes again, and what it tells of the old
/// attempt closes nothing.
pub fn old_done_of_a_foreman_is_stale()
    ensures told { (fresh : State) → length (begun fresh one_rule remote foreman_again).bag ≡ 10 }
    ensures stale { (fresh : State)
        → history (begun fresh one_rule remote (foreman_again ++ events.Deliver 9 ∷ []))
        ≡ codes "opened" ∷ starts 0 1 ∷ codes "resumed" ∷ starts 1 1 ∷ [] }
{}

/// Where files are collected as soon as nothing needs them, the third claim changes nothing until
/// the collection has come.
pub fn collection_comes_first()
    ensures done { (fresh : State) → history (begun fresh chain collecting two_done) ≡ two_logged }
    ensures waits { (fresh : State) → begun fresh chain collecting (two_done ++ claim 0 ∷ [])
        ≡ begun fresh chain collecting two_done }
    ensures goes { (fresh : State)
        → history (begun fresh chain collecting (two_done ++ events.Collect ∷ claim 0 ∷ []))
        ≡ two_logged ++ drops 0 ∷ starts 2 0 ∷ [] }
{}
