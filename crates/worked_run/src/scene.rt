//! What the call finds: its words and its files.
ghost use Rattle.std.specs.Prelude.{◌≡◌, List, ℕ, Option, map, string_bytes, Some, None, IfOk, OnOk};
ghost use Rattle.flow_types.specs.Names.{name_of};
ghost use Rattle.mem_outside.specs.Entries.{with_file};
ghost use Rattle.mem_outside.specs.MemSite.{IsKept, files_of, leaves_of};
ghost use Rattle.mem_outside.specs.declared.step.Change.TheVariants.{Put as PutChange};
ghost use Rattle.worked_run.specs.Worked.{call_words, entry_files, log_name};

use flow_types::{Memory, Name};
use mem_outside::MemSite;
use std::alloc::{AllocError, Global};

const FLOW: &[u8] = b"b: a\n\tde\nc: b\n\tfg\n";

/// The words of the call.
pub fn words_of(alloc: Global) -> Result<Vec<String>, AllocError>
    ensures { IfOk result (λ words. map string_bytes words.items ≡ call_words) }
{
    let program = String::from_str(alloc, "makeflow")?;
    let flow = String::from_str(alloc, "flow")?;
    let mut words = Vec::new(alloc);
    words.push(program)?;
    words.push(flow)?;
    Ok(words)
}

/// The flow and its source. There is no log.
pub fn site_of(alloc: Global) -> Result<MemSite, Memory>
    ensures files { IfOk result (λ site. files_of site ≡ entry_files) }
    ensures settled { IfOk result
        (λ site. (entry : Option (List ℕ)) → leaves_of site log_name entry → entry ≡ None) }
{
    let mut site = MemSite::new(alloc);
    put(alloc, &mut site, b"a", b"abc")?;
    put(alloc, &mut site, b"flow", FLOW)?;
    Ok(site)
}

// Puts a file under a name, which is in its one form.
fn put(alloc: Global, site: &mut MemSite, name: &[u8], content: &[u8]) -> Result<(), Memory>
    requires { name_of name.now ≡ Some name.now }
    ensures files { OnOk result (files_of site.new
        ≡ with_file name.now (Some content.now) (files_of site.old)) }
    ensures kept { IsKept result name.now (PutChange content.now) site.old site.new }
{
    let Ok(name) = Name::of(alloc, name) else {
        return Err(Memory);
    };
    site.put(&name, content)
}
