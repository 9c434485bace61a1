//! What a rule runs.
ghost use Rattle.std.specs.Prelude.{◌≡◌, ◌++◌, ◌≤◌, IfOk, OnOk, length, string_bytes};
ghost use Rattle.std.specs.List.{flat_map};
ghost use Rattle.flow_gen.specs.Generated.{command, makers, read_name, reading};

use crate::name::add_name;
use flow_types::{Memory, Text};
use std::alloc::{AllocError, Global};

// The files of these rules, a blank before each.
fn add_names(out: &mut String, rules: &[u32]) -> Result<(), AllocError>
    ensures { OnOk result (string_bytes out.new
        ≡ string_bytes out.old ++ flat_map read_name rules.now) }
{
    for rule in rules {
        out.push_str(" ")?;
        add_name(out, *rule)?;
    }
    Ok(())
}

// What prints the files of these rules, or an x where there are none.
fn add_reading(out: &mut String, rules: &[u32]) -> Result<(), AllocError>
    ensures { OnOk result (string_bytes out.new ≡ string_bytes out.old ++ reading rules.now) }
{
    if rules.is_empty() {
        return out.push_str("echo x");
    }
    out.push_str("cat")?;
    add_names(out, rules)
}

fn add_command(out: &mut String, rule: u32, from: &[u32]) -> Result<(), AllocError>
    requires { from.now ≡ makers rule }
    ensures { OnOk result (string_bytes out.new ≡ string_bytes out.old ++ command rule) }
{
    add_reading(out, from)?;
    out.push_str(" > ")?;
    add_name(out, rule)
}

/// The command of a rule that takes in the files of these.
pub(crate) fn command(alloc: Global, rule: u32, from: &[u32]) -> Result<Text, Memory>
    requires { from.now ≡ makers rule }
    ensures { IfOk result (λ text. text ≡ command rule) }
{
    let mut out = String::new(alloc);
    match add_command(&mut out, rule, from) {
        Ok(()) => Ok(Text::from_string(out)),
        Err(_) => Err(Memory),
    }
}
