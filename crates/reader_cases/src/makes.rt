//! Makeflow texts.
use anyhow::{Result, bail};
use cases::{flow_shown, shown};
use mf_rules::read_make;
use std::alloc::Global;
use std::str;

/// The flow or the fault of lines `env NAME=VALUE`, a line `--` where there are any, and a Makeflow
/// text.
pub(crate) fn make_shown(alloc: Global, body: &[u8]) -> Result<String> {
    let mut env = Vec::new(alloc);
    let mut text = body;
    for _ in 0..body.len() {
        let Some(rest) = text.strip_prefix(b"env ") else {
            break;
        };
        let Some((line, below)) = cut_line(rest) else {
            bail!("bad case: an open line of an environment");
        };
        env.push(pair(alloc, line)?)?;
        text = below;
    }
    if !env.is_empty() {
        let Some(below) = text.strip_prefix(b"--\n") else {
            bail!("bad case: an environment without its end");
        };
        text = below;
    }
    match read_make(alloc, text, &env) {
        Ok(flow) => Ok(flow_shown(alloc, &flow)?),
        Err(fault) => {
            let fault = shown(alloc, fault.to_string(alloc)?.as_bytes())?;
            Ok(format!(in alloc; "! {fault}\n")?)
        }
    }
}

// The first line of a text, and what stands below it.
fn cut_line(text: &[u8]) -> Option<(&[u8], &[u8])> {
    let at = text.iter().position(|byte| *byte == b'\n')?;
    let (line, rest) = text.split_at_checked(at)?;
    let (_, below) = rest.split_first()?;
    Some((line, below))
}

fn pair(alloc: Global, line: &[u8]) -> Result<(String, String)> {
    let Ok(line) = str::from_utf8(line) else {
        bail!("bad case: a line of an environment that isn't UTF-8");
    };
    let Some((name, value)) = line.split_once("=") else {
        bail!("bad case: a line of an environment without its sign");
    };
    Ok((
        String::from_str(alloc, name)?,
        String::from_str(alloc, value)?,
    ))
}
