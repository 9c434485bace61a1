//! Laws of the world, each the contract of a function that does nothing.
ghost use Rattle.world_laws.specs.Laws.{EventsCompose, EventsLeadOn, EveryAnswerIsOfItsJob};
ghost use Rattle.world_laws.specs.Laws.{EveryPeerRunsItsJobs, EveryReportFits, EveryWorldIsTrue};

use outside::Commands;

/// Whatever is dispatched, lost, repeated, late, evicted, crashed or resumed: the records are
/// legal, the master holds each present file with the serial run's content, every Done has a cause,
/// an attempt number has one job, a foreman hands on just what the master sent to it, under numbers
/// that each stand for one task, and what any peer tells of an attempt is an end of its job.
pub fn every_world_is_true<F: Commands>()
    ensures { EveryWorldIsTrue F.gives F.may_fail }
{}

/// What is told to the master of an attempt, by a worker or through a foreman, is what the commands
/// give for this attempt's job: another attempt's outputs are never told in their place.
pub fn every_answer_is_of_its_job<F: Commands>()
    ensures { EveryAnswerIsOfItsJob F.gives F.may_fail }
{}

/// The jobs that a worker has are those of the attempts that its machine runs, so that the least of
/// its jobs is the least attempt's.
pub fn every_peer_runs_its_jobs<F: Commands>()
    ensures { EveryPeerRunsItsJobs F.gives F.may_fail }
{}

/// Each list of events leads to some world, and lists compose.
pub fn events_lead_on<F: Commands>()
    ensures lead { EventsLeadOn F.gives F.may_fail }
    ensures compose { EventsCompose F.gives F.may_fail }
{}

/// Each message that a peer sent is the end of an attempt or tells missing inputs, and a frame takes
/// it.
pub fn every_report_fits_a_frame<F: Commands>()
    ensures { EveryReportFits F.gives F.may_fail }
{}
