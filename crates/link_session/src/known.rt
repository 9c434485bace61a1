//! The keys that a peer was sent.
ghost use Rattle.std.specs.Prelude.{◌≡◌, [], ◌∷◌, ◌++◌, List, IfOk, OnOk, OnErr};
ghost use Rattle.flow_types.specs.declared.plan.Port.{Port as Input};
ghost use Rattle.link_session.specs.Keys.{contains_key, key_of, lacking, learned, forgotten, all_forgotten, Begins};

use flow_types::{FileNo, Key, Memory, Port, Rows};
use indexmap::IndexSet;
use std::alloc::Global;

/// Learns the keys of these inputs, and answers the files whose keys weren't known. Without memory
/// nothing changes.
pub(crate) fn learn_all(
    known: &mut IndexSet<Key>,
    alloc: Global,
    run: u64,
    inputs: &[Port],
) -> Result<Rows<FileNo>, Memory>
    ensures files { IfOk result (λ files. files ≡ lacking known.old.keys run inputs.now) }
    ensures ok { OnOk result (known.new.keys ≡ learned known.old.keys run inputs.now) }
    ensures err { OnErr result (known.new.keys ≡ known.old.keys) }
{
    let before = known.len();
    let mut files = Vec::new(alloc);
    for port in inputs {
        if learn(known, &mut files, run, port).is_err() {
            known.truncate(before);
            return Err(Memory);
        }
    }
    Ok(Rows::of(files))
}

// Learns the key of one input, and notes its file where it wasn't known.
fn learn(
    known: &mut IndexSet<Key>,
    files: &mut Vec<FileNo>,
    run: u64,
    port: &Port,
) -> Result<(), Memory>
    ensures files { OnOk result ((rest : List Input)
        → files.old.items ++ lacking known.old.keys run (port.now ∷ rest)
        ≡ files.new.items ++ lacking known.new.keys run rest) }
    ensures known { OnOk result ((rest : List Input)
        → learned known.old.keys run (port.now ∷ rest) ≡ learned known.new.keys run rest) }
    ensures begins { Begins known.old.keys known.new.keys }
{
    match known.insert(Key {
        run,
        file: port.file,
    }) {
        Ok(true) => match files.push(port.file) {
            Ok(()) => Ok(()),
            Err(_) => Err(Memory),
        },
        Ok(false) => Ok(()),
        Err(_) => Err(Memory),
    }
}

/// Forgets a key, and answers whether it was known.
pub(crate) fn forget(known: &mut IndexSet<Key>, run: u64, file: FileNo) -> bool
    ensures was { result ≡ contains_key (key_of run file) known.old.keys }
    ensures keys { known.new.keys ≡ forgotten known.old.keys (key_of run file) }
{
    known.swap_remove(&Key { run, file })
}

/// Forgets the keys of these files.
pub(crate) fn forget_all(known: &mut IndexSet<Key>, run: u64, files: &[FileNo])
    ensures { known.new.keys ≡ all_forgotten known.old.keys run files.now }
{
    for file in files {
        let _ = forget(known, run, *file);
    }
}

/// An equal set of keys.
pub(crate) fn copy_of(alloc: Global, known: &IndexSet<Key>) -> Result<IndexSet<Key>, Memory>
    ensures { IfOk result (λ copy. copy.keys ≡ known.now.keys) }
{
    let mut copy = IndexSet::new(alloc);
    for key in known.as_slice() {
        add_key(&mut copy, *key)?;
    }
    Ok(copy)
}

// Adds a key that isn't there.
fn add_key(known: &mut IndexSet<Key>, key: Key) -> Result<(), Memory>
    ensures { OnOk result (known.new.keys ≡ known.old.keys ++ key ∷ []) }
{
    match known.insert(key) {
        Ok(true) => Ok(()),
        Ok(false) => Err(Memory),
        Err(_) => Err(Memory),
    }
}
