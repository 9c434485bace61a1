//! What the rules of a plan do, over the states of its files.
ghost use Rattle.std.specs.Prelude.{◌≡◌, ◌<◌, ◌≤◌, ◌+◌, ℕ, IfOk, None, Some, length};
ghost use Rattle.flow_types.specs.Plans.{IsValid, most_bytes};
ghost use Rattle.run_history.specs.declared.states.RuleState.{RuleState};
ghost use Rattle.run_history.specs.declared.states.RuleState.TheVariants.{Waiting};
ghost use Rattle.rule_progress.specs.Progress.{IsProgress, IsSame, Knows, bytes_by, first_sizes};
ghost use Rattle.rule_progress.specs.Progress.{sizes_in, with_size};

use crate::progress::Progress;
use file_states::FileStates;
use flow_types::{FileNo, Memory, Plan};
use run_history::Options;
use std::alloc::Global;

impl Progress {
    /// All rules of a plan wait, and its files are these. Conditions: the plan is valid, and no
    /// file is larger than it may be.
    pub fn over(
        alloc: Global,
        plan: &Plan,
        options: Options,
        files: &FileStates,
    ) -> Result<Progress, Memory>
        requires valid { IsValid plan.now }
        requires files { length files.now ≡ length plan.now.files }
        requires small { (f : ℕ) → bytes_by (sizes_in files.now) f ≤ most_bytes }
        ensures { IfOk result (λ progress. (states : ℕ → RuleState)
            → ((r : ℕ) → r < length plan.now.rules → states r ≡ Waiting)
            → IsProgress plan.now options states (sizes_in files.now) progress) }
    {
        let mut progress = Progress::new(alloc, plan, options)?;
        for file in 0..plan.files.len() as u32 {
            progress.add_file(plan, files, FileNo(file));
        }
        Ok(progress)
    }

    // The file is there, where it is present.
    fn add_file(&mut self, plan: &Plan, files: &FileStates, file: FileNo)
        requires valid { IsValid plan.now }
        requires inside { file.0 < length plan.now.files }
        requires files { length files.now ≡ length plan.now.files }
        requires small { (f : ℕ) → bytes_by (sizes_in files.now) f ≤ most_bytes }
        requires known { Knows plan.now (first_sizes files.now file.0) self.old }
        ensures known { Knows plan.now (first_sizes files.now (file.0 + 1)) self.new }
        ensures same { IsSame self.old self.new }
    {
        prove!((file.0 as usize) < plan.files.len());
        match files.size_of(file) {
            Some(size) => self.come(file, size),
            None => {}
        }
    }

    /// The file isn't there any more, where it was. Condition: the files are those that are known.
    pub fn clear_file(&mut self, plan: &Plan, files: &FileStates, file: FileNo)
        requires valid { IsValid plan.now }
        requires inside { file.0 < length plan.now.files }
        requires files { length files.now ≡ length plan.now.files }
        requires known { Knows plan.now (sizes_in files.now) self.old }
        ensures known { Knows plan.now (with_size (sizes_in files.now) file.0 None) self.new }
        ensures same { IsSame self.old self.new }
    {
        prove!((file.0 as usize) < plan.files.len());
        match files.size_of(file) {
            Some(size) => self.go(file, size),
            None => {}
        }
    }

    /// The file is there from now on, of so many bytes. Condition: the files are those that are
    /// known.
    pub fn set_file(&mut self, plan: &Plan, files: &FileStates, file: FileNo, size: u64)
        requires valid { IsValid plan.now }
        requires inside { file.0 < length plan.now.files }
        requires files { length files.now ≡ length plan.now.files }
        requires small { (f : ℕ) → bytes_by (sizes_in files.now) f ≤ most_bytes }
        requires few { size ≤ most_bytes }
        requires known { Knows plan.now (sizes_in files.now) self.old }
        ensures known { Knows plan.now (with_size (sizes_in files.now) file.0 (Some size)) self.new }
        ensures same { IsSame self.old self.new }
    {
        self.clear_file(plan, files, file);
        self.come(file, size);
    }
}
