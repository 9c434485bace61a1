//! The job of an attempt.
ghost use Rattle.std.specs.Prelude.{◌≡◌, ◌<◌, IfOk, IfErr, Some, length, true, slice_get, map};
ghost use Rattle.std.specs.List.{list_all};
ghost use Rattle.flow_types.specs.declared.plan.Rule.{Rule};
ghost use Rattle.flow_types.specs.Plans.{takes};
ghost use Rattle.flow_types.specs.Serial.{job_of, serial};
ghost use Rattle.run_history.specs.Links.{records_of};
ghost use Rattle.run_history.specs.Storage.{is_present};
ghost use Rattle.desk.specs.State.{IsFine};
ghost use Rattle.desk.specs.Tasks.{want_at};
ghost use Rattle.local_run.specs.Course.{LeavesAlone};
ghost use Rattle.local_run.specs.Jobs.{IsRefusedDamage, IsWholeInput, ReadsOver};

use crate::inputs::read_inputs;
use desk::{Attempt, Desk, InputRefused, Terms};
use flow_types::{Job, Task};
use outside::{Commands, Site};
use std::alloc::Global;
use task_core::Admission;

/// The job of an attempt, over its inputs as they were logged.
pub(crate) fn job_for<F: Commands, S: Site, T: Terms, A: Admission>(
    alloc: Global,
    desk: &mut Desk<F, S, T, A>,
    attempt: &Attempt,
) -> Result<Job, InputRefused>
    requires rule { attempt.now.rule.0 < length desk.old.plan.rules }
    requires present { list_all (is_present desk.old.plan (records_of desk.old.moves))
        (takes desk.old.plan attempt.now.rule.0) ≡ true }
    requires fine { IsFine desk.old.trouble }
    ensures reply { ReadsOver desk.old result desk.new }
    ensures wants { IfOk result (λ job. (row : Rule)
        → slice_get desk.old.plan.rules attempt.now.rule.0 ≡ Some row
        → job.outputs ≡ map (want_at desk.old.plan) row.outputs) }
    ensures due { IfOk result (λ job. S.tells → T.kept → T.trust → (row : Rule)
        → slice_get desk.old.plan.rules attempt.now.rule.0 ≡ Some row
        → job ≡ job_of desk.old.plan row (serial desk.old.plan F.gives T.sources)) }
    ensures damage { IfErr result (λ why. S.tells → IsRefusedDamage desk.new.plan
        (records_of desk.new.moves) (S.files desk.new.site) why) }
    ensures whole { IfErr result (λ why. S.tells → T.kept → IsWholeInput why) }
    ensures others { S.tells → LeavesAlone S.files S.may_leave S.moment S.images_since
        (λ _. Unit {0}) desk.old.site desk.new.site }
{
    let Ok(task) = desk.task(alloc, attempt) else {
        return Err(InputRefused::Memory);
    };
    let inputs = match read_inputs(alloc, desk, task.inputs.as_slice()) {
        Ok(inputs) => inputs,
        Err(why) => return Err(why),
    };
    let Task {
        attempt: _,
        run: _,
        command,
        needs: _,
        env,
        inputs: _,
        outputs,
    } = task;
    Ok(Job {
        command,
        env,
        inputs,
        outputs,
    })
}
