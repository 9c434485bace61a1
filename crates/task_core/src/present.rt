//! Outputs that become present.
ghost use Rattle.std.specs.Prelude.{◌≡◌, ◌<◌, ◌≤◌, ◌+◌, ◌*◌, ◌^◌, ℕ, All, length, true};
ghost use Rattle.std.specs.Prelude.{slice_set};
ghost use Rattle.flow_types.specs.Plans.{IsValid, files_of, makes, most_bytes, most_rules};
ghost use Rattle.flow_types.specs.Plans.{most_outputs};
ghost use Rattle.run_history.specs.declared.states.FileState.TheVariants.{Present};
ghost use Rattle.run_history.specs.Legal.{are_within};
ghost use Rattle.run_history.specs.States.{row_of};
ghost use Rattle.rule_progress.specs.Progress.{IsSame, Knows};
ghost use Rattle.task_core.specs.Accounts.{bytes_in, size_of, state_in, stored_in};
ghost use Rattle.task_core.specs.Stands.{made_or};

use file_states::FileStates;
use flow_types::{Content, FileNo, Plan, Port, RuleNo};
use rule_progress::Progress;
use run_history::FileState;
use storage_limit::Account;

// The outputs of a rule.
pub(crate) fn outputs_of(plan: &Plan, rule: RuleNo) -> &[Port]
    requires valid { IsValid plan.now }
    requires rule { rule.0 < length plan.now.rules }
    ensures files { files_of result.now ≡ makes plan.now rule.0 }
    ensures inside { All (λ port. port.file.0 < length plan.now.files) result.now }
    ensures few { length result.now ≤ most_outputs }
{
    plan.rules.as_slice()[rule.0 as usize].outputs.as_slice()
}

// The file is present with this content, and its bytes are stored.
fn put_file(files: &mut FileStates, account: &mut Account, file: FileNo, content: Content)
    requires inside { file.0 < length files.old }
    requires stored { bytes_in files.old file.0 ≤ account.old.stored }
    requires few { account.old.stored + content.size + account.old.reserved < 2 ^ 62 }
    ensures files { files.new ≡ slice_set files.old file.0 (Present content) }
    ensures stored { account.new.stored + bytes_in files.old file.0
        ≡ account.old.stored + content.size }
    ensures rest { account.new ≡ record account.old { stored = account.new.stored } }
{
    let before = files.size_of(file).unwrap_or(0);
    files.note(file, FileState::Present(content));
    account.remove(before);
    account.settle(0, content.size);
}

// Each output of the rule is present with its content, and the account stores what is present.
pub(crate) fn put_outputs(
    files: &mut FileStates,
    account: &mut Account,
    progress: &mut Progress,
    plan: &Plan,
    rule: RuleNo,
    outs: &[Content],
)
    requires valid { IsValid plan.now }
    requires rule { rule.0 < length plan.now.rules }
    requires outputs { are_within plan.now (makes plan.now rule.0) outs.now ≡ true }
    requires files { length files.old ≡ length plan.now.files }
    requires small { (f : ℕ) → bytes_in files.old f ≤ most_bytes }
    requires stored { account.old.stored ≡ stored_in plan.now files.old }
    requires reserved { account.old.reserved ≤ most_bytes * most_rules }
    requires known { Knows plan.now (size_of files.old) progress.old }
    ensures made { (f : ℕ)
        → state_in files.new f ≡ made_or (row_of f (makes plan.now rule.0) outs.now)
        (state_in files.old f) }
    ensures files { length files.new ≡ length plan.now.files }
    ensures small { (f : ℕ) → bytes_in files.new f ≤ most_bytes }
    ensures stored { account.new
        ≡ record account.old { stored = stored_in plan.now files.new } }
    ensures known { Knows plan.now (size_of files.new) progress.new }
    ensures rest { IsSame progress.old progress.new }
{
    let ports = outputs_of(plan, rule);
    let mut at = outs.len();
    'outputs: while at > 0 {
        at -= 1;
        let file = ports[at].file;
        let content = outs[at];
        progress.set_file(plan, files, file, content.size);
        put_file(files, account, file, content);
    }
}
