//! The files that a script names.
use crate::answers::shown_content;
use cases::shown;
use flow_types::Name;
use mem_outside::MemSite;
use std::alloc::{AllocError, Global};

// A file, and what it had last.
#[derive(Drop)]
struct Seen {
    name: Name,
    content: Option<Vec<u8>>,
}

/// Files by name, with what they had when they were put or shown last.
#[derive(Drop)]
pub struct Files {
    seen: Vec<Seen>,
}

impl Files {
    /// No files.
    pub fn new(alloc: Global) -> Files {
        Files {
            seen: Vec::new(alloc),
        }
    }

    /// A file has this content now, or is absent.
    pub fn note(&mut self, name: Name, content: Option<Vec<u8>>) -> Result<(), AllocError> {
        for file in self.seen.iter_mut() {
            if is_named(file, &name) {
                file.content = content;
                return Ok(());
            }
        }
        self.seen.push(Seen { name, content })?;
        Ok(())
    }

    /// A line for each file, as it stands in the site now.
    pub fn shown(&mut self, alloc: Global, site: &MemSite) -> Result<String, AllocError> {
        let mut text = String::new(alloc);
        for file in self.seen.iter_mut() {
            let line = shown_file(alloc, file, site)?;
            text.push_str(&line)?;
        }
        Ok(text)
    }

    /// The files that stand otherwise in the site than they were put or shown last.
    pub fn changes(&self, alloc: Global, site: &MemSite) -> Result<String, AllocError> {
        let mut text = String::new(alloc);
        for file in self.seen.iter() {
            let change = shown_change(alloc, file, site)?;
            text.push_str(&change)?;
        }
        Ok(text)
    }
}

fn is_named(file: &Seen, name: &Name) -> bool {
    file.name.as_bytes() == name.as_bytes()
}

fn shown_file(alloc: Global, file: &mut Seen, site: &MemSite) -> Result<String, AllocError> {
    let content = site.get(file.name.as_bytes());
    let name = shown(alloc, file.name.as_bytes())?;
    if file.content.as_deref() == content {
        return format!(in alloc; "{name} as it was\n");
    }
    let text = shown_content(alloc, content)?;
    file.content = copy_of(alloc, content)?;
    format!(in alloc; "{name} {text}\n")
}

fn shown_change(alloc: Global, file: &Seen, site: &MemSite) -> Result<String, AllocError> {
    let content = site.get(file.name.as_bytes());
    if file.content.as_deref() == content {
        return Ok(String::new(alloc));
    }
    let name = shown(alloc, file.name.as_bytes())?;
    let text = shown_content(alloc, content)?;
    format!(in alloc; ", {name} {text}")
}

fn copy_of(alloc: Global, content: Option<&[u8]>) -> Result<Option<Vec<u8>>, AllocError> {
    match content {
        Some(bytes) => Ok(Some(Vec::from_slice(alloc, bytes)?)),
        None => Ok(None),
    }
}
