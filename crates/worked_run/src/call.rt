//! The call over the flow.
ghost use Rattle.std.specs.Prelude.{◌≡◌, ◌<◌, [], List, ℕ, Option, length, map, string_bytes, None};
ghost use Rattle.flow_types.specs.declared.numbers.Content.{Content};
ghost use Rattle.flow_types.specs.Serial.{serial};
ghost use Rattle.outside.specs.Files.{Files};
ghost use Rattle.file_store.specs.Outputs.{file_name};
ghost use Rattle.run_history.specs.Laws.{IsPresent};
ghost use Rattle.local_run.specs.Moments.{IsMoment};
ghost use Rattle.local_run.specs.Runs.{Adds, SerialFits};
ghost use Rattle.mem_outside.specs.MemSite.{calls_of, files_of, images_of, leaves_of, moment_of};
ghost use Rattle.mem_outside.specs.MemSink.{calls_of as sink_calls};
ghost use Rattle.master_run.specs.Serves.{Completes, IsCut};
ghost use Rattle.mem_commands.specs.Joins.{FailsWith};
ghost use Rattle.worked_run.specs.Premises.{AreSure, ask, entry_sources};
ghost use Rattle.worked_run.specs.Worked.{call_words, entry_files, joins, log_name, plan};

use flow_types::Rows;
use log_recover::files_spell_one_list;
use master_run::{Ended, makeflow_top};
use mem_commands::JoinedRunner;
use mem_links::MemHall;
use mem_outside::{FixedClock, MemSink, MemSite};
use std::alloc::Global;
use std::sync::Wait;
use std::thread::Threads;
use worker_pool::OpenGate;

/// The call, by these runners: what `makeflow_top` promises of contents and of how a run ends, of
/// which all premises hold here. So each file that is present by the records has what the serial
/// run makes of the source, and where nothing fails every rule is complete, or memory is wanting.
pub fn call<W: Threads + Wait + Sync>(
    rt: &W,
    alloc: Global,
    words: &[String],
    site: MemSite,
    runners: &mut [JoinedRunner],
    out: &mut MemSink,
) -> Ended<MemSite>
    requires some { 0 < length runners.old }
    requires words { map string_bytes words.now ≡ call_words }
    requires files { files_of site ≡ entry_files }
    requires settled { (entry : Option (List ℕ)) → leaves_of site log_name entry → entry ≡ None }
    ensures contents { (image : Files) → images_of result.site (moment_of site) image
        → IsMoment (SerialFits joins entry_sources) ask.plan ask.log entry_files
        (leaves_of site) [] result.records (IsCut result.cause) image }
    ensures made { (IsCut result.cause → ⊥) → (f : ℕ) (content : Content)
        → IsPresent plan result.records f content
        → files_of result.site (file_name plan f) ≡ serial plan joins entry_sources f }
    ensures honest { Adds (Unit {0}) joins FailsWith entry_sources ask.plan [] result.records }
    ensures completes { AreSure runners.old
        → (calls_of result.site).faults ≡ (calls_of site).faults
        → (sink_calls out.new).faults ≡ (sink_calls out.old).faults
        → Completes None result.cause }
{
    files_spell_one_list();
    let env: Vec<(String, String)> = Vec::new(alloc);
    let mut hall = MemHall::new(alloc, Rows::new(alloc));
    makeflow_top(
        rt,
        alloc,
        words,
        env.as_slice(),
        site,
        &mut hall,
        runners,
        &OpenGate,
        &FixedClock(7),
        out,
    )
}
