//! Contents by the numbers of their files.
ghost use Rattle.std.specs.Prelude.{◌≡◌, ◌<◌, ◌==◌, ℕ, All, IfOk, Some, OnOk, if◌then◌else◌};
ghost use Rattle.std.specs.Prelude.{length, map};
ghost use Rattle.std.specs.Option.{option_copied};
ghost use Rattle.flow_types.specs.Plans.{files_of};
ghost use Rattle.flow_types.specs.Serial.{with_contents};
ghost use Rattle.world_contents.specs.Holdings.{held_in};
ghost use Rattle.world_laws.specs.Worlds.{without};

use flow_types::{Bytes, FileNo, Memory, Port};
use std::alloc::Global;

/// The content of a file, where there is one.
pub fn content_at(contents: &[Option<Bytes>], file: FileNo) -> Option<&Bytes>
    ensures { option_copied result ≡ held_in contents.now file.0 }
{
    match contents.get(file.0 as usize) {
        Some(Some(content)) => Some(content),
        Some(None) => None,
        None => None,
    }
}

// The file has this content from now on, where it has a place.
fn put(contents: &mut Vec<Option<Bytes>>, file: FileNo, content: Bytes)
    ensures places { length contents.new.items ≡ length contents.old.items }
    ensures put { file.0 < length contents.old.items → (f : ℕ) → held_in contents.new.items f
        ≡ (if file.0 == f then Some content else held_in contents.old.items f) }
{
    if let Some(place) = contents.get_mut(file.0 as usize) {
        *place = Some(content);
    }
}

/// The files of these ports.
pub fn files_of(alloc: Global, ports: &[Port]) -> Result<Vec<FileNo>, Memory>
    ensures { IfOk result (λ files. map (λ file. file.0) files.items ≡ files_of ports.now) }
{
    let mut files = Vec::new(alloc);
    for port in ports {
        if files.push(port.file).is_err() {
            return Err(Memory);
        }
    }
    Ok(files)
}

/// These files have copies of these contents from now on, one for each.
pub fn put_all(
    alloc: Global,
    contents: &mut Vec<Option<Bytes>>,
    files: &[FileNo],
    outs: &[Bytes],
) -> Result<(), Memory>
    requires { length outs.now ≡ length files.now }
    ensures places { length contents.new.items ≡ length contents.old.items }
    ensures put { OnOk result
        (All (λ file. file.0 < length contents.old.items) files.now
        → (f : ℕ) → held_in contents.new.items f ≡ with_contents (held_in contents.old.items)
        (map (λ file. file.0) files.now) outs.now f) }
{
    let mut at = files.len();
    'files: while at > 0 {
        at -= 1;
        let content = Bytes::of(alloc, outs[at].as_slice())?;
        put(contents, files[at], content);
    }
    Ok(())
}

/// The file has no content from now on.
pub fn take_away(contents: &mut Vec<Option<Bytes>>, file: FileNo)
    ensures places { length contents.new.items ≡ length contents.old.items }
    ensures away { (f : ℕ) → held_in contents.new.items f
        ≡ without (held_in contents.old.items) file.0 f }
{
    if let Some(place) = contents.get_mut(file.0 as usize) {
        *place = None;
    }
}
