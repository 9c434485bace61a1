//! Names that no file had when a program asked for them.
use crate::places::Place;
use std::alloc::{AllocError, Global};
use std::collections::{BTreeMap, BTreeSet};

/// The names that no file had, by the places to which they led.
#[derive(Drop)]
pub struct FreeNames {
    // Of each place the name that was asked for first.
    firsts: BTreeMap<Place, String>,
    // Those whose place another one had too.
    shared: BTreeSet<String>,
}

impl FreeNames {
    /// No name.
    pub fn new(alloc: Global) -> Self {
        FreeNames {
            firsts: BTreeMap::new(alloc),
            shared: BTreeSet::new(alloc),
        }
    }

    /// The name leads to this place.
    pub fn note(&mut self, alloc: Global, name: &str, place: Place) -> Result<(), AllocError> {
        let named = String::from_str(alloc, name)?;
        match self.other_at(alloc, &place, name)? {
            Some(other) => {
                self.shared.insert(other)?;
                self.shared.insert(named)?;
            }
            None => {
                self.firsts.insert(place, named)?;
            }
        }
        Ok(())
    }

    fn other_at(
        &self,
        alloc: Global,
        place: &Place,
        name: &str,
    ) -> Result<Option<String>, AllocError> {
        match self.firsts.get(place) {
            Some(first) if first.as_str() != name => {
                Ok(Some(String::from_str(alloc, first.as_str())?))
            }
            _ => Ok(None),
        }
    }

    /// Two names led to one place.
    pub fn are_shared(&self) -> bool {
        !self.shared.is_empty()
    }

    /// Another name led to the place of this one.
    pub fn is_shared(&self, name: &str) -> bool {
        self.shared.contains(name)
    }
}
