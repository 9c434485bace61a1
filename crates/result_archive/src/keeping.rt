//! Keeping an entry: a closed gate, then all that stands behind it, then the open gate, each on the
//! disk before the next.
ghost use Rattle.std.specs.Prelude.{◌≡◌, ◌≢◌, ◌≤◌, ◌∷◌, ℕ, List, length};
ghost use Rattle.std.specs.Prelude.{Option, Some, OnOk};
ghost use Rattle.outside.specs.Causes.{HasCause};
ghost use Rattle.outside.specs.Disk.{IsTorn, IsStepped, LeavesOnly};
ghost use Rattle.outside.specs.Files.{content, written};
ghost use Rattle.result_archive.specs.Entries.{open_gate};
ghost use Rattle.result_archive.specs.Moments.{IsSettled, IsShut, IsShutOver, IsWhileKept};

use crate::entry::OPEN_GATE;
use crate::store::Store;
use flow_types::Name;
use outside::Fault;

/// The byte that is written as a closed gate.
const CLOSED_GATE: u8 = 0;

/// Writes over what is there and past the end, and syncs it. Two calls of the store.
fn write_synced<D: Store>(store: &mut D, name: &Name, at: u64, bytes: &[u8]) -> Result<(), Fault>
    requires { D.tells → at ≤ length (content (D.files store.old name.now)) }
    ensures done { OnOk result (D.tells → D.files store.new name.now
        ≡ Some (written at bytes.now (content (D.files store.old name.now)))) }
    ensures settled { OnOk result (D.tells
        → IsSettled name.now (D.files store.new) (D.may_leave store.new)) }
    ensures others { D.tells → (m : List ℕ) → m ≢ name.now
        → D.files store.new m ≡ D.files store.old m }
    ensures crash { D.tells → (m : List ℕ) (file : Option (List ℕ)) → m ≢ name.now
        → D.may_leave store.new m file → D.may_leave store.old m file }
    ensures any_moment { D.tells → LeavesOnly D.moment D.images_since store.old store.new
        (IsStepped name.now (IsTorn at (length bytes.now)) (D.may_leave store.old)) }
    ensures cause { HasCause (D.count store.old) (D.count store.new) result }
{
    store.write(name, at, bytes)?;
    store.sync(name)
}

/// Makes the name's file one with a closed gate, where it isn't. Three calls of the store.
fn close_gate<D: Store>(store: &mut D, name: &Name) -> Result<(), Fault>
    requires settled { D.tells → IsSettled name.now (D.files store.old) (D.may_leave store.old) }
    ensures shut { OnOk result (D.tells → IsShut (D.files store.new name.now)) }
    ensures settled { OnOk result (D.tells
        → IsSettled name.now (D.files store.new) (D.may_leave store.new)) }
    ensures others { D.tells → (m : List ℕ) → m ≢ name.now
        → D.files store.new m ≡ D.files store.old m }
    ensures crash { D.tells → (m : List ℕ) (file : Option (List ℕ)) → m ≢ name.now
        → D.may_leave store.new m file → D.may_leave store.old m file }
    ensures any_moment { D.tells → (entry : List ℕ) → LeavesOnly D.moment D.images_since
        store.old store.new (IsWhileKept name.now entry (D.may_leave store.old)) }
    ensures cause { HasCause (D.count store.old) (D.count store.new) result }
{
    let mut gate = [OPEN_GATE];
    let count = store.read(name, 0, &mut gate)?;
    if count == 1 && gate[0] != OPEN_GATE {
        return Ok(());
    }
    write_synced(store, name, 0, &[CLOSED_GATE])
}

/// Puts this, and no more, behind a closed gate. Three calls of the store.
fn put_rest<D: Store>(store: &mut D, name: &Name, rest: &[u8]) -> Result<(), Fault>
    requires shut { D.tells → IsShut (D.files store.old name.now) }
    requires settled { D.tells → IsSettled name.now (D.files store.old) (D.may_leave store.old) }
    ensures shut { OnOk result (D.tells → IsShutOver rest.now (D.files store.new name.now)) }
    ensures settled { OnOk result (D.tells
        → IsSettled name.now (D.files store.new) (D.may_leave store.new)) }
    ensures others { D.tells → (m : List ℕ) → m ≢ name.now
        → D.files store.new m ≡ D.files store.old m }
    ensures crash { D.tells → (m : List ℕ) (file : Option (List ℕ)) → m ≢ name.now
        → D.may_leave store.new m file → D.may_leave store.old m file }
    ensures any_moment { D.tells → (entry : List ℕ) → LeavesOnly D.moment D.images_since
        store.old store.new (IsWhileKept name.now entry (D.may_leave store.old)) }
    ensures cause { HasCause (D.count store.old) (D.count store.new) result }
{
    store.write(name, 1, rest)?;
    store.cut(name, 1 + rest.len() as u64)?;
    store.sync(name)
}

/// Opens a gate. Two calls of the store.
fn open_gate<D: Store>(store: &mut D, name: &Name) -> Result<(), Fault>
    requires shut { D.tells → IsShut (D.files store.old name.now) }
    requires settled { D.tells → IsSettled name.now (D.files store.old) (D.may_leave store.old) }
    ensures done { OnOk result (D.tells → (rest : List ℕ)
        → IsShutOver rest (D.files store.old name.now)
        → D.files store.new name.now ≡ Some (open_gate ∷ rest)) }
    ensures settled { OnOk result (D.tells
        → IsSettled name.now (D.files store.new) (D.may_leave store.new)) }
    ensures others { D.tells → (m : List ℕ) → m ≢ name.now
        → D.files store.new m ≡ D.files store.old m }
    ensures crash { D.tells → (m : List ℕ) (file : Option (List ℕ)) → m ≢ name.now
        → D.may_leave store.new m file → D.may_leave store.old m file }
    ensures any_moment { D.tells → (rest : List ℕ)
        → IsShutOver rest (D.files store.old name.now)
        → LeavesOnly D.moment D.images_since store.old store.new
        (IsWhileKept name.now (open_gate ∷ rest) (D.may_leave store.old)) }
    ensures cause { HasCause (D.count store.old) (D.count store.new) result }
{
    write_synced(store, name, 0, &[OPEN_GATE])
}

/// Makes the file an open gate with this, and no more, behind it. At every moment a crash leaves
/// what might have stood there, no entry, or just that. Before it the file is as the disk has it.
pub(crate) fn put_entry<D: Store>(store: &mut D, name: &Name, rest: &[u8]) -> Result<(), Fault>
    requires settled { D.tells → IsSettled name.now (D.files store.old) (D.may_leave store.old) }
    ensures done { OnOk result (D.tells
        → D.files store.new name.now ≡ Some (open_gate ∷ rest.now)) }
    ensures settled { OnOk result (D.tells
        → IsSettled name.now (D.files store.new) (D.may_leave store.new)) }
    ensures others { D.tells → (m : List ℕ) → m ≢ name.now
        → D.files store.new m ≡ D.files store.old m }
    ensures crash { D.tells → (m : List ℕ) (file : Option (List ℕ)) → m ≢ name.now
        → D.may_leave store.new m file → D.may_leave store.old m file }
    ensures any_moment { D.tells → LeavesOnly D.moment D.images_since store.old store.new
        (IsWhileKept name.now (open_gate ∷ rest.now) (D.may_leave store.old)) }
    ensures cause { HasCause (D.count store.old) (D.count store.new) result }
{
    close_gate(store, name)?;
    put_rest(store, name, rest)?;
    open_gate(store, name)
}
