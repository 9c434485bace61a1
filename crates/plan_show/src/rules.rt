//! The text of rules.
ghost use Rattle.std.specs.Prelude.{◌≡◌, ◌++◌, Some, None, IfOk, OnOk, codes, option_map};
ghost use Rattle.std.specs.Prelude.{slice_get, string_bytes};
ghost use Rattle.std.specs.List.{flat_map};
ghost use Rattle.flow_types.specs.Plans.{bound_of};
ghost use Rattle.plan_show.specs.Rules.{alias, file_name, port_text, output_line, input_line};
ghost use Rattle.plan_show.specs.Rules.{local_line, needed_text, needs_line, command_line};
ghost use Rattle.plan_show.specs.Rules.{files_lines, job_lines, numbered_blocks, rule_block};
ghost use Rattle.plan_show.specs.Rules.{rules_text, variable_line};

use crate::text::{add_number, add_quoted};
use flow_types::{FileNo, Memory, Needs, Pair, Plan, Port, Rows, Rule, RuleNo};
use std::alloc::{AllocError, Global};

/// The plan's name of a file; no bytes where the plan has no such file.
pub(crate) fn file_name(plan: &Plan, file: FileNo) -> &[u8]
    ensures { result.now ≡ file_name plan.now file.0 }
{
    match plan.files.get(file.0 as usize) {
        Some(row) => row.name.as_bytes(),
        None => b"",
    }
}

// The most bytes that a file may have; 0 where the plan has no such file.
fn bound_of(plan: &Plan, file: FileNo) -> u64
    ensures { result ≡ bound_of plan.now file.0 }
{
    match plan.files.get(file.0 as usize) {
        Some(row) => row.bound,
        None => 0,
    }
}

fn add_alias(out: &mut String, name: &[u8], remote: &[u8]) -> Result<(), AllocError>
    ensures { OnOk result (string_bytes out.new ≡ string_bytes out.old ++ alias name.now remote.now) }
{
    if name == remote {
        return Ok(());
    }
    out.push_str(" as ")?;
    add_quoted(out, remote)
}

fn add_port(out: &mut String, plan: &Plan, port: &Port) -> Result<(), AllocError>
    ensures { OnOk result (string_bytes out.new ≡ string_bytes out.old
        ++ port_text plan.now port.now) }
{
    let name = file_name(plan, port.file);
    add_quoted(out, name)?;
    add_alias(out, name, port.remote.as_bytes())
}

fn add_output(out: &mut String, plan: &Plan, port: &Port) -> Result<(), AllocError>
    ensures { OnOk result (string_bytes out.new ≡ string_bytes out.old
        ++ output_line plan.now port.now) }
{
    out.push_str("  output ")?;
    add_port(out, plan, port)?;
    out.push_str(", at most ")?;
    add_number(out, bound_of(plan, port.file))?;
    out.push_str(" bytes\n")
}

fn add_input(out: &mut String, plan: &Plan, port: &Port) -> Result<(), AllocError>
    ensures { OnOk result (string_bytes out.new ≡ string_bytes out.old
        ++ input_line plan.now port.now) }
{
    out.push_str("  input ")?;
    add_port(out, plan, port)?;
    out.push_str("\n")
}

fn add_outputs(out: &mut String, plan: &Plan, ports: &Rows<Port>) -> Result<(), AllocError>
    ensures { OnOk result (string_bytes out.new ≡ string_bytes out.old
        ++ flat_map (output_line plan.now) ports.now) }
{
    for port in ports.as_slice() {
        add_output(out, plan, port)?;
    }
    Ok(())
}

fn add_inputs(out: &mut String, plan: &Plan, ports: &Rows<Port>) -> Result<(), AllocError>
    ensures { OnOk result (string_bytes out.new ≡ string_bytes out.old
        ++ flat_map (input_line plan.now) ports.now) }
{
    for port in ports.as_slice() {
        add_input(out, plan, port)?;
    }
    Ok(())
}

fn add_command(out: &mut String, command: &str) -> Result<(), AllocError>
    ensures { OnOk result (string_bytes out.new ≡ string_bytes out.old
        ++ command_line command.now) }
{
    out.push_str("  command ")?;
    add_quoted(out, command.as_bytes())?;
    out.push_str("\n")
}

fn add_local(out: &mut String, local: bool) -> Result<(), AllocError>
    ensures { OnOk result (string_bytes out.new ≡ string_bytes out.old ++ local_line local) }
{
    if local {
        out.push_str("  local\n")
    } else {
        Ok(())
    }
}

fn add_needed(out: &mut String, needs: Needs) -> Result<(), AllocError>
    ensures { OnOk result (string_bytes out.new ≡ string_bytes out.old ++ needed_text needs) }
{
    match needs {
        Needs::Whole => out.push_str("a whole worker"),
        Needs::Stated(amounts) => {
            add_number(out, amounts.cores as u64)?;
            out.push_str(" cores, ")?;
            add_number(out, amounts.memory as u64)?;
            out.push_str(" MB of memory, ")?;
            add_number(out, amounts.disk as u64)?;
            out.push_str(" MB of disk")
        }
    }
}

fn add_needs(out: &mut String, needs: Needs) -> Result<(), AllocError>
    ensures { OnOk result (string_bytes out.new ≡ string_bytes out.old ++ needs_line needs) }
{
    out.push_str("  needs ")?;
    add_needed(out, needs)?;
    out.push_str("\n")
}

fn add_variable(out: &mut String, pair: &Pair) -> Result<(), AllocError>
    ensures { OnOk result (string_bytes out.new ≡ string_bytes out.old ++ variable_line pair.now) }
{
    out.push_str("  variable ")?;
    add_quoted(out, pair.name.as_str().as_bytes())?;
    out.push_str(" is ")?;
    add_quoted(out, pair.value.as_str().as_bytes())?;
    out.push_str("\n")
}

fn add_variables(out: &mut String, pairs: &Rows<Pair>) -> Result<(), AllocError>
    ensures { OnOk result (string_bytes out.new ≡ string_bytes out.old
        ++ flat_map variable_line pairs.now) }
{
    for pair in pairs.as_slice() {
        add_variable(out, pair)?;
    }
    Ok(())
}

// The lines of a rule's files.
fn add_files(out: &mut String, plan: &Plan, rule: &Rule) -> Result<(), AllocError>
    ensures { OnOk result (string_bytes out.new ≡ string_bytes out.old
        ++ files_lines plan.now rule.now) }
{
    add_outputs(out, plan, &rule.outputs)?;
    add_inputs(out, plan, &rule.inputs)
}

// The lines of what a rule runs, and by what.
fn add_job(out: &mut String, rule: &Rule) -> Result<(), AllocError>
    ensures { OnOk result (string_bytes out.new ≡ string_bytes out.old ++ job_lines rule.now) }
{
    add_command(out, rule.command.as_str())?;
    add_local(out, rule.local)?;
    add_needs(out, rule.needs)?;
    add_variables(out, &rule.env)
}

fn add_rule(out: &mut String, plan: &Plan, number: usize, rule: &Rule) -> Result<(), AllocError>
    ensures { OnOk result (string_bytes out.new ≡ string_bytes out.old
        ++ rule_block plan.now number rule.now) }
{
    out.push_str("rule ")?;
    add_number(out, number as u64)?;
    out.push_str(":\n")?;
    add_files(out, plan, rule)?;
    add_job(out, rule)
}

fn add_rules(out: &mut String, plan: &Plan, rules: &[Rule]) -> Result<(), AllocError>
    ensures { OnOk result (string_bytes out.new ≡ string_bytes out.old
        ++ numbered_blocks plan.now rules.now) }
{
    for (number, rule) in rules.iter().enumerate() {
        add_rule(out, plan, number, rule)?;
    }
    Ok(())
}

/// All rules, in the order of their numbers.
pub fn rules_text(alloc: Global, plan: &Plan) -> Result<String, Memory>
    ensures { IfOk result (λ text. string_bytes text ≡ rules_text plan.now) }
{
    let mut out = String::new(alloc);
    match add_rules(&mut out, plan, plan.rules.as_slice()) {
        Ok(()) => Ok(out),
        Err(_) => Err(Memory),
    }
}

/// The rule of this number, None where the plan has no such rule.
pub fn rule_text(alloc: Global, plan: &Plan, number: RuleNo) -> Result<Option<String>, Memory>
    ensures { IfOk result (λ text. option_map string_bytes text
        ≡ option_map (rule_block plan.now number.0) (slice_get plan.now.rules number.0)) }
{
    let Some(rule) = plan.rules.get(number.0 as usize) else {
        return Ok(None);
    };
    let mut out = String::new(alloc);
    match add_rule(&mut out, plan, number.0 as usize, rule) {
        Ok(()) => Ok(Some(out)),
        Err(_) => Err(Memory),
    }
}
