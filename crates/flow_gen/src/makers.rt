//! What a rule takes in.
ghost use Rattle.std.specs.Prelude.{◌≡◌, IfOk, map};
ghost use Rattle.flow_gen.specs.Generated.{made_file, makers};

use crate::name::made_name;
use flow_types::{Memory, RawFile, Rows};
use std::alloc::{AllocError, Global};

/// The rules whose files a rule takes in: none, one, or two.
pub(crate) fn makers(alloc: Global, rule: u32) -> Result<Vec<u32>, AllocError>
    ensures { IfOk result (λ these. these.items ≡ makers rule) }
{
    let mut these = Vec::new(alloc);
    if rule == 0 {
        return Ok(these);
    }
    let near = (rule - 1) / 2;
    let far = rule / 3;
    these.push(near)?;
    if far != near {
        these.push(far)?;
    }
    Ok(these)
}

/// The file that a rule makes, under its own name.
pub(crate) fn made_file(alloc: Global, rule: u32) -> Result<RawFile, Memory>
    ensures { IfOk result (λ file. file ≡ made_file rule) }
{
    let local = made_name(alloc, rule)?;
    Ok(RawFile {
        local,
        remote: None,
    })
}

/// The files that these rules make.
pub(crate) fn made_files(alloc: Global, rules: &[u32]) -> Result<Rows<RawFile>, Memory>
    ensures { IfOk result (λ files. files ≡ map made_file rules.now) }
{
    let mut files = Rows::new(alloc);
    for rule in rules {
        let file = made_file(alloc, *rule)?;
        if files.push(file).is_err() {
            return Err(Memory);
        }
    }
    Ok(files)
}
