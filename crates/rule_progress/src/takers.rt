//! Which rules take a file in.
ghost use Rattle.std.specs.Prelude.{◌≡◌, ◌<◌, ◌≤◌, ◌+◌, ◌++◌, ◌∷◌, ℕ, All, IfOk, OnOk, List, [], length};
ghost use Rattle.std.specs.Prelude.{map, replicate, slice_set};
ghost use Rattle.flow_types.specs.Plans.{IsValid, files_of, takes};
ghost use Rattle.ready_rules.specs.Lines.{number};
ghost use Rattle.ready_rules.specs.Takings.{AreTakers, takers_in, times};
ghost use Rattle.rule_progress.specs.Progress.{only};

use flow_types::{FileNo, Memory, Plan, Port, Rule, RuleNo};
use std::alloc::Global;
use std::marker::Model;

/// The rules that take one file in.
#[derive(Drop)]
pub(crate) struct FileTakers {
    rules: Vec<RuleNo>,
}

impl Model for FileTakers {
    ghost use Rattle.std.specs.Prelude.{List, map, ℕ};
    ghost use Rattle.ready_rules.specs.Lines.{number};

    ghost Value = { List ℕ };

    ghost view = { λ t. map number t.rules.items };
}

impl FileTakers {
    fn none(alloc: Global) -> FileTakers
        ensures { let none : List ℕ = [] in result ≡ none }
    {
        FileTakers {
            rules: Vec::new(alloc),
        }
    }

    fn push(&mut self, rule: RuleNo) -> Result<(), Memory>
        ensures { OnOk result (self.new ≡ self.old ++ (rule.0 ∷ [])) }
    {
        if self.rules.push(rule).is_err() {
            return Err(Memory);
        }
        Ok(())
    }

    fn as_slice(&self) -> &[RuleNo]
        ensures { map number result.now ≡ self.now }
    {
        self.rules.as_slice()
    }
}

/// The rules that take each file in, once for each port, and the greatest first: so they become
/// ready in an order in which none of them is moved.
#[derive(Drop)]
pub struct Takers {
    files: Vec<FileTakers>,
}

impl Model for Takers {
    ghost use Rattle.std.specs.Prelude.{List, ℕ};

    ghost Value = { List (List ℕ) };

    ghost view = { λ t. t.files.items };
}

fn no_takers(alloc: Global, count: usize) -> Result<Vec<FileTakers>, Memory>
    ensures { IfOk result (λ files. let none : List ℕ = [] in files.items ≡ replicate count none) }
{
    let mut files = Vec::new(alloc);
    for _ in 0..count {
        if files.push(FileTakers::none(alloc)).is_err() {
            return Err(Memory);
        }
    }
    Ok(files)
}

fn add_port(files: &mut Vec<FileTakers>, file: FileNo, rule: RuleNo) -> Result<(), Memory>
    requires { file.0 < length files.old.items }
    ensures { OnOk result (files.new.items ≡ slice_set files.old.items file.0
        (takers_in files.old.items file.0 ++ (rule.0 ∷ []))) }
{
    files[file.0 as usize].push(rule)
}

// The rule takes the files of these ports in.
fn add_ports(files: &mut Vec<FileTakers>, ports: &[Port], rule: RuleNo) -> Result<(), Memory>
    requires { All (λ port. port.file.0 < length files.old.items) ports.now }
    ensures same { OnOk result (length files.new.items ≡ length files.old.items) }
    ensures takers { OnOk result ((f r : ℕ)
        → times r (takers_in files.new.items f)
        ≡ times r (takers_in files.old.items f) + only rule.0 r (times f (files_of ports.now))) }
{
    for port in ports {
        add_port(files, port.file, rule)?;
    }
    Ok(())
}

fn rule_of(plan: &Plan, rule: RuleNo) -> &Rule
    requires valid { IsValid plan.now }
    requires inside { rule.0 < length plan.now.rules }
    ensures takes { files_of result.now.inputs ≡ takes plan.now rule.0 }
    ensures inputs { All (λ port. port.file.0 < length plan.now.files) result.now.inputs }
{
    &plan.rules.as_slice()[rule.0 as usize]
}

impl Takers {
    /// The takers of the files of a plan. Condition: the plan is valid.
    pub fn new(alloc: Global, plan: &Plan) -> Result<Takers, Memory>
        requires { IsValid plan.now }
        ensures { IfOk result (AreTakers plan.now) }
    {
        let mut files = no_takers(alloc, plan.files.len())?;
        let mut rule = plan.rules.len() as u32;
        'rules: while rule > 0 {
            rule -= 1;
            let ports = rule_of(plan, RuleNo(rule)).inputs.as_slice();
            add_ports(&mut files, ports, RuleNo(rule))?;
        }
        Ok(Takers { files })
    }

    /// The rules that take a file in.
    pub fn of(&self, file: FileNo) -> &[RuleNo]
        requires { file.0 < length self.now }
        ensures { map number result.now ≡ takers_in self.now file.0 }
    {
        self.files[file.0 as usize].as_slice()
    }
}
