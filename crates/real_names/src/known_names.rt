//! Which files stood under the names that a program asked for.
use real_files::FileId;
use std::alloc::{AllocError, Global};
use std::collections::BTreeMap;

/// The names under which a file was seen or put, and which file that was.
#[derive(Drop)]
pub struct KnownNames {
    files: BTreeMap<String, FileId>,
    names: BTreeMap<FileId, Vec<String>>,
}

impl KnownNames {
    /// No name.
    pub fn new(alloc: Global) -> Self {
        KnownNames {
            files: BTreeMap::new(alloc),
            names: BTreeMap::new(alloc),
        }
    }

    /// This file stands under the name.
    pub fn note(&mut self, alloc: Global, name: &str, file: FileId) -> Result<(), AllocError> {
        if self.stands(name, file) {
            return Ok(());
        }
        self.forget(name);
        let named = String::from_str(alloc, name)?;
        self.add_name(alloc, name, file)?;
        self.files.insert(named, file)?;
        Ok(())
    }

    fn stands(&self, name: &str, file: FileId) -> bool {
        match self.files.get(name) {
            Some(known) => *known == file,
            None => false,
        }
    }

    fn add_name(&mut self, alloc: Global, name: &str, file: FileId) -> Result<(), AllocError> {
        let named = String::from_str(alloc, name)?;
        if let Some(names) = self.names.get_mut(&file) {
            return names.push(named).map_err(AllocError::from);
        }
        let names = vec![in alloc; named]?;
        self.names.insert(file, names)?;
        Ok(())
    }

    /// Nothing that is known stands under the name.
    pub fn forget(&mut self, name: &str) {
        if let Some(file) = self.files.remove(name) {
            self.drop_name(name, file);
        }
    }

    fn drop_name(&mut self, name: &str, file: FileId) {
        if let Some(names) = self.names.get_mut(&file) {
            names.retain(|known| known.as_str() != name);
        }
        if self.names_of(file).is_empty() {
            self.names.remove(&file);
        }
    }

    /// The file that stands under the name.
    pub fn file_of(&self, name: &str) -> Option<FileId> {
        self.files.get(name).copied()
    }

    /// The names under which the file was seen last.
    pub fn names_of(&self, file: FileId) -> &[String] {
        match self.names.get(&file) {
            Some(names) => names.as_slice(),
            None => &[],
        }
    }
}
