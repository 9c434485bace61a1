//! The made files that are present.
ghost use Rattle.std.specs.Prelude.{◌≡◌, ◌<◌, ◌≤◌, ◌++◌, List, IfOk, OnOk, is_some, length, map};
ghost use Rattle.flow_types.specs.declared.records.Record.{Record as RecordValue};
ghost use Rattle.flow_types.specs.Plans.{IsValid, maker_of, most_files};
ghost use Rattle.file_store.specs.Outputs.{AreInside};
ghost use Rattle.run_history.specs.declared.moves.Move.TheVariants as moves;
ghost use Rattle.run_history.specs.Storage.{size_in};
ghost use Rattle.task_core.specs.States.{file_at};
ghost use Rattle.task_core.specs.Stands.{Stands};
ghost use Rattle.cleaning.specs.Cleanings.{numbers_of, present_made};
ghost use Rattle.cleaning.specs.Present.{is_there, put_where};

use flow_types::{FileNo, Memory, Plan, Rows};
use run_history::FileState;
use std::alloc::Global;
use task_core::Table;

fn file_count(plan: &Plan) -> u32
    requires { IsValid plan.now }
    ensures count { result ≡ length plan.now.files }
    ensures few { result ≤ most_files }
{
    plan.files.len() as u32
}

fn is_made(plan: &Plan, file: FileNo) -> bool
    requires { file.0 < length plan.now.files }
    ensures { result ≡ is_some (maker_of plan.now file.0) }
{
    plan.files.as_slice()[file.0 as usize].maker.is_some()
}

fn is_present(table: &Table, file: FileNo) -> bool
    requires { file.0 < length table.now.plan.files }
    ensures { result ≡ is_some (size_in (file_at table.now file.0)) }
{
    match table.file(file) {
        FileState::Present(_) => true,
        FileState::Absent | FileState::Collected => false,
    }
}

/// Puts a file behind the others where it is made and present.
fn put_present(table: &Table, file: FileNo, files: &mut Rows<FileNo>) -> Result<(), Memory>
    requires { file.0 < length table.now.plan.files }
    ensures { OnOk result (numbers_of files.new
        ≡ numbers_of files.old ++ put_where (is_there table.now file.0) file.0) }
{
    if is_made(table.plan(), file) && is_present(table, file) {
        if files.push(file).is_err() {
            return Err(Memory);
        }
    }
    Ok(())
}

/// The made files that are present, as the records say.
pub(crate) fn present_made(alloc: Global, table: &Table) -> Result<Rows<FileNo>, Memory>
    ensures these { IfOk result (λ files. (H : List RecordValue)
        → Stands table.now (map moves.Logged H)
        → numbers_of files ≡ present_made table.now.plan H) }
    ensures inside { IfOk result (λ files. AreInside table.now.plan (numbers_of files)) }
    ensures few { IfOk result (λ files. length files ≤ most_files) }
{
    let mut files = Rows::new(alloc);
    for file in 0..file_count(table.plan()) {
        put_present(table, FileNo(file), &mut files)?;
    }
    Ok(files)
}
