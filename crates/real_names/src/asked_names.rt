//! The names that a program asked for, and whether two of them are one file.
use crate::free_names::FreeNames;
use crate::known_names::KnownNames;
use crate::places::{FolderPlaces, end_of_links};
use crate::sharing::{Sharing, is_shared, sharing_of};
use real_files::{FileId, Found};
use std::alloc::{AllocError, Global};
use std::collections::BTreeSet;
use std::io;
use std::io::ErrorKind;
use std::rt::Files;

/// The names that were asked for: which files have them, or to which places they lead.
#[derive(Drop)]
pub struct AskedNames {
    files: KnownNames,
    free: FreeNames,
    folders: FolderPlaces,
    // Of these nothing but the length was asked before the first change.
    lengths: BTreeSet<String>,
    // Nothing was logged before: each name of which only the length was asked will be written.
    is_first: bool,
    is_changing: bool,
}

impl AskedNames {
    /// No name, and nothing was changed.
    pub fn new(alloc: Global) -> Self {
        AskedNames {
            files: KnownNames::new(alloc),
            free: FreeNames::new(alloc),
            folders: FolderPlaces::new(alloc),
            lengths: BTreeSet::new(alloc),
            is_first: false,
            is_changing: false,
        }
    }

    /// This file stands under the name.
    pub fn note(&mut self, alloc: Global, name: &str, file: FileId) -> Result<(), AllocError> {
        self.files.note(alloc, name, file)
    }

    /// No file has the name, where that isn't what was found.
    pub fn note_free<R: Files + AllocGlobal>(
        &mut self,
        rt: &R,
        name: &str,
        found: &Found,
    ) -> io::Result<()> {
        self.files.forget(name);
        let place = match found {
            Found::File(_) => return Ok(()),
            Found::Nothing => self.folders.place_of(rt, name)?,
            Found::Link => {
                let end = end_of_links(rt, name)?;
                self.folders.place_of(rt, end.as_str())?
            }
        };
        self.free.note(rt.alloc(), name, place)?;
        Ok(())
    }

    /// The length of the file was asked. Where its bytes aren't asked too before the first change, it
    /// isn't one that is only read.
    pub fn note_length(&mut self, alloc: Global, name: &str) -> Result<(), AllocError> {
        if !self.is_changing && !self.lengths.contains(name) {
            let named = String::from_str(alloc, name)?;
            self.lengths.insert(named)?;
        }
        Ok(())
    }

    /// The bytes of the file were asked.
    pub fn note_bytes(&mut self, name: &str) {
        self.lengths.remove(name);
    }

    /// There is no log, or what isn't one is made durable: as before a first run, and no later one.
    pub fn note_first(&mut self) {
        self.is_first = true;
    }

    /// Nothing that is known stands under the name.
    pub fn forget(&mut self, name: &str) {
        self.files.forget(name);
    }

    /// Before each change: an error where nothing was changed yet and two names lead to one place, or,
    /// before a first run, to one file that is to be written.
    pub fn begin_change<R: Files + AllocGlobal>(&mut self, rt: &R) -> io::Result<()> {
        if !self.is_changing && !self.are_apart(rt)? {
            return Err(io::Error::from(ErrorKind::InvalidInput));
        }
        self.is_changing = true;
        self.lengths.clear();
        self.folders.clear();
        Ok(())
    }

    fn are_apart<R: Files + AllocGlobal>(&self, rt: &R) -> io::Result<bool> {
        if self.free.are_shared() {
            return Ok(false);
        }
        if !self.is_first {
            return Ok(true);
        }
        for name in self.lengths.iter() {
            if !self.is_apart(rt, name.as_str())? {
                return Ok(false);
            }
        }
        Ok(true)
    }

    fn is_apart<R: Files + AllocGlobal>(&self, rt: &R, name: &str) -> io::Result<bool> {
        match self.files.file_of(name) {
            Some(file) => Ok(self.sharing(rt, name, file)? != Sharing::One),
            None => Ok(true),
        }
    }

    /// Another name was seen to lead to the place of this one.
    pub fn shares_place(&self, name: &str) -> bool {
        self.free.is_shared(name)
    }

    /// How the file that stands under the name stands to the other names.
    pub fn sharing<R: Files + AllocGlobal>(
        &self,
        rt: &R,
        name: &str,
        file: FileId,
    ) -> io::Result<Sharing> {
        sharing_of(rt, &self.files, name, file)
    }

    /// The file stands under one of the names.
    pub fn has_file<R: Files>(&self, rt: &R, file: FileId) -> io::Result<bool> {
        is_shared(rt, &self.files, file)
    }
}
