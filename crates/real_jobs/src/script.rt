//! Commands and variables too long to be handed to a program as they are.
use flow_types::{Job, Pair, Text};
use std::alloc::{AllocError, Global};
use std::fs::File;
use std::io;
use std::io::{ErrorKind, Write};
use std::rt::Files;

// The longest word that Linux hands to a program, with the NUL behind it.
const MOST_WORD: usize = 131_072;

// The file in the script's folder.
const FILE: &str = "command";

fn is_shell_name(name: &str) -> bool {
    !name.starts_with(|c: char| c.is_ascii_digit())
        && name
            .bytes()
            .all(|byte| byte.is_ascii_alphanumeric() || byte == b'_')
}

/// The variable can't be handed to a program, and a shell can set it.
pub fn is_long(pair: &Pair) -> bool {
    let (name, value) = (pair.name.as_str(), pair.value.as_str());
    value.len() >= MOST_WORD.saturating_sub(name.len() + 1) && is_shell_name(name)
}

/// The job can't be handed to a shell as it is.
pub fn needs_script(job: &Job) -> bool {
    job.command.as_str().len() >= MOST_WORD || job.env.as_slice().iter().any(is_long)
}

/// Writes a file into the script's folder that sets the long variables and goes on with the
/// command, byte for byte.
pub fn write_script<R: Files>(rt: &R, alloc: Global, folder: &str, job: &Job) -> io::Result<()> {
    let text = script_of(alloc, job)?;
    if text.as_str().contains('\0') {
        return Err(io::Error::from(ErrorKind::InvalidInput));
    }
    let path = format!(in alloc; "{folder}/{FILE}")?;
    let mut file = File::create_new(rt, path.as_str())?;
    file.write_all(text.as_str().as_bytes())
}

/// What a shell is told that runs beside the script's folder, whose name this is.
pub fn read_script(alloc: Global, name: &str) -> Result<String, AllocError> {
    format!(in alloc; ". '../{name}/{FILE}'")
}

fn script_of(alloc: Global, job: &Job) -> Result<String, AllocError> {
    let mut text = String::new(alloc);
    let env = job.env.as_slice();
    for (i, pair) in env.iter().enumerate() {
        if is_long(pair) && !is_named(&env[i + 1..], &pair.name) {
            set_variable(alloc, &mut text, pair)?;
        }
    }
    text.push_str(job.command.as_str())?;
    Ok(text)
}

fn is_named(env: &[Pair], name: &Text) -> bool {
    env.iter().any(|pair| pair.name.as_str() == name.as_str())
}

fn set_variable(alloc: Global, text: &mut String, pair: &Pair) -> Result<(), AllocError> {
    let (name, value) = (pair.name.as_str(), pair.value.as_str());
    let quoted = value.replace(alloc, '\'', "'\\''")?;
    let line = format!(in alloc; "{name}='{quoted}'; export {name}\n")?;
    text.push_str(line.as_str())
}
