//! Worked examples of the definitions, each proved by computing. Nothing calls these functions.
ghost use Rattle.std.specs.Prelude.{◌≡◌, [], ◌∷◌, Some, None};
ghost use Rattle.flow_types.specs.declared.job.Outcome.TheVariants as outcomes;
ghost use Rattle.flow_types.specs.declared.messages.Message.TheVariants as messages;
ghost use Rattle.foreman_core.specs.Steps.{hears_down, hears_up, loses};
ghost use Rattle.foreman_core.specs.Examples.{alone, attempt, cores, crowd, fifth, greatest, hello, holds_one, link, placed, placed_alone, placed_anew, placed_once, put_down, reader, stated, up, down, wide, with_one, with_two};

/// Attempt 5 is placed at link 1 as attempt 0. Link 1 leaves, and it is placed at link 2 as attempt
/// 1, whose end is that of attempt 5.
pub fn attempt_that_is_placed_anew()
    ensures first { (hears_up with_two (messages.Task fifth)).acts.down ≡ placed 1 0 fifth ∷ [] }
    ensures anew { (loses placed_once (link 1)).acts.down ≡ placed 2 1 fifth ∷ [] }
    ensures totals { (loses placed_once (link 1)).acts.up ≡ stated 2 2 ∷ [] }
    ensures stale { (hears_down placed_anew (link 2)
        (messages.Done (attempt 0) (outcomes.Success []))).acts.up ≡ [] }
    ensures done { (hears_down placed_anew (link 2)
        (messages.Done (attempt 1) (outcomes.Success []))).acts.up
        ≡ messages.Done (attempt 5) (outcomes.Success []) ∷ [] }
{}

/// Without another worker it goes back as not run.
pub fn attempt_that_goes_back()
    ensures { (loses placed_alone (link 1)).acts.up
        ≡ stated 0 0 ∷ messages.Done (attempt 5) outcomes.NotRun ∷ [] }
{}

/// A content goes down once, and once more where it is missing.
pub fn content_goes_down_once()
    ensures first { (hears_up holds_one (messages.Task (reader 1))).acts.down
        ≡ put_down ∷ placed 1 0 (reader 1) ∷ [] }
    ensures second { (hears_up (up holds_one (messages.Task (reader 1)))
        (messages.Task (reader 2))).acts.down ≡ placed 1 1 (reader 2) ∷ [] }
    ensures again { (hears_down (up holds_one (messages.Task (reader 1))) (link 1)
        (messages.Missing (attempt 0) (record { 0 = 4 } ∷ []))).acts.down
        ≡ put_down ∷ placed 1 0 (reader 1) ∷ [] }
    ensures missing { (hears_up with_one (messages.Task (reader 1))).acts.up
        ≡ messages.Missing (attempt 1) (record { 0 = 4 } ∷ []) ∷ [] }
{}

/// What fits no worker is kept, and is placed once one joins that it fits. A worker that joins
/// later with a lower link comes first.
pub fn attempt_that_waits()
    ensures kept { (hears_up with_one (messages.Task wide)).acts.down ≡ [] }
    ensures placed { (hears_down (up with_one (messages.Task wide)) (link 2) (hello 4)).acts.down
        ≡ placed 2 0 wide ∷ [] }
    ensures least { (hears_up (down (down alone 2 (hello 2)) 1 (hello 2))
        (messages.Task fifth)).acts.down ≡ placed 1 0 fifth ∷ [] }
    ensures again { (hears_up placed_once (messages.Task fifth)).acts.down ≡ [] }
{}

/// A cancelled attempt goes back as not run, and is cancelled where it is placed. What the worker
/// tells of it later changes nothing.
pub fn attempt_that_is_cancelled()
    ensures up { (hears_up placed_once (messages.Cancel (attempt 5))).acts.up
        ≡ messages.Done (attempt 5) outcomes.NotRun ∷ [] }
    ensures down { (hears_up placed_once (messages.Cancel (attempt 5))).acts.down
        ≡ record { link = link 1; message = messages.Cancel (attempt 0) } ∷ [] }
    ensures stale { (hears_down (up placed_once (messages.Cancel (attempt 5))) (link 1)
        (messages.Done (attempt 0) (outcomes.Success []))).acts.up ≡ [] }
{}

/// Totals are sums, as far as they can be stated, and the greatest of what one job may take.
pub fn totals_of_workers()
    ensures one { (hears_down alone (link 1) (hello 2)).acts.up ≡ stated 2 2 ∷ [] }
    ensures two { (hears_down with_one (link 2) (hello 3)).acts.up ≡ stated 5 3 ∷ [] }
    ensures most { (hears_down with_one (link 2) greatest).acts.up
        ≡ stated 4294967295 4294967295 ∷ [] }
    ensures changed { (hears_down with_two (link 1)
        (messages.Totals (cores 7) (cores 4) 100)).acts.up ≡ stated 9 4 ∷ [] }
{}

/// A link is left where its first message isn't a hello, where it says hello again, and where it is
/// the thirty-third.
pub fn links_that_are_left()
    ensures first { (hears_down alone (link 1) (messages.Totals (cores 1) (cores 1) 0)).acts.leave
        ≡ Some (link 1) }
    ensures again { (hears_down with_one (link 1) (hello 2)).acts.leave ≡ Some (link 1) }
    ensures gone { (hears_down with_one (link 1) (hello 2)).acts.up ≡ stated 0 0 ∷ [] }
    ensures joins { (hears_down (crowd 31) (link 40) (hello 1)).acts.leave ≡ None }
    ensures full { (hears_down (crowd 32) (link 40) (hello 1)).acts.leave ≡ Some (link 40) }
    ensures quiet { (hears_down (crowd 32) (link 40) (hello 1)).acts.up ≡ [] }
{}
