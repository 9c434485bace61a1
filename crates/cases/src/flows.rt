//! Flows as text.
use crate::texts::shown;
use flow_types::{Needs, Pair, RawFile, RawFlow, RawRule, Rows};
use std::alloc::{AllocError, Global};

/// A flow as lines: each rule as `PLACE [OUTPUT].. <- [INPUT].. : [COMMAND]`, a file with a remote
/// name as `[LOCAL]->[REMOTE]`, and behind the command ` local`, ` CORES/MEMORY/DISK` where needs
/// are stated, and ` NAME=[VALUE]` for each variable of the environment; then `keep [NAME]` and
/// `bound [NAME] BYTES`.
pub fn flow_shown(alloc: Global, flow: &RawFlow) -> Result<String, AllocError> {
    let mut text = String::new(alloc);
    for rule in flow.rules.as_slice() {
        add_rule(alloc, &mut text, rule)?;
    }
    for name in flow.keep.as_slice() {
        text.push_str("keep ")?;
        add_bracketed(alloc, &mut text, name.as_str())?;
        text.push_str("\n")?;
    }
    for bound in flow.bounds.as_slice() {
        text.push_str("bound ")?;
        add_bracketed(alloc, &mut text, bound.name.as_str())?;
        let bytes = bound.bytes;
        let piece = format!(in alloc; " {bytes}\n")?;
        text.push_str(&piece)?;
    }
    Ok(text)
}

fn add_bracketed(alloc: Global, text: &mut String, name: &str) -> Result<(), AllocError> {
    let name = shown(alloc, name.as_bytes())?;
    let piece = format!(in alloc; "[{name}]")?;
    text.push_str(&piece)
}

fn add_rule(alloc: Global, text: &mut String, rule: &RawRule) -> Result<(), AllocError> {
    let place = rule.place;
    let piece = format!(in alloc; "{place}")?;
    text.push_str(&piece)?;
    add_files(alloc, text, &rule.outputs)?;
    text.push_str(" <-")?;
    add_files(alloc, text, &rule.inputs)?;
    text.push_str(" : ")?;
    add_bracketed(alloc, text, rule.command.as_str())?;
    if rule.local {
        text.push_str(" local")?;
    }
    add_needs(alloc, text, &rule.needs)?;
    add_pairs(alloc, text, &rule.env)?;
    text.push_str("\n")
}

fn add_files(alloc: Global, text: &mut String, files: &Rows<RawFile>) -> Result<(), AllocError> {
    for file in files.as_slice() {
        text.push_str(" ")?;
        add_bracketed(alloc, text, file.local.as_str())?;
        if let Some(remote) = &file.remote {
            text.push_str("->")?;
            add_bracketed(alloc, text, remote.as_str())?;
        }
    }
    Ok(())
}

fn add_needs(alloc: Global, text: &mut String, needs: &Needs) -> Result<(), AllocError> {
    if let Needs::Stated(amounts) = needs {
        let (cores, memory, disk) = (amounts.cores, amounts.memory, amounts.disk);
        let piece = format!(in alloc; " {cores}/{memory}/{disk}")?;
        text.push_str(&piece)?;
    }
    Ok(())
}

fn add_pairs(alloc: Global, text: &mut String, pairs: &Rows<Pair>) -> Result<(), AllocError> {
    for pair in pairs.as_slice() {
        let name = shown(alloc, pair.name.as_str().as_bytes())?;
        let piece = format!(in alloc; " {name}=")?;
        text.push_str(&piece)?;
        add_bracketed(alloc, text, pair.value.as_str())?;
    }
    Ok(())
}
