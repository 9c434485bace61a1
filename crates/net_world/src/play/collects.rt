//! Files that are collected.
ghost use Rattle.std.specs.Prelude.{◌≡◌, ◌∷◌, ◌++◌, [], IfOk, OnOk, filter, map};
ghost use Rattle.run_history.specs.Storage.{wanted};
ghost use Rattle.net_world.specs.Drops.{Drops};
ghost use Rattle.net_world.specs.Plays.{Turns};
ghost use Rattle.world_laws.specs.Worlds.{collects, drop_logged, forgets, knows, records_in};
ghost use Rattle.world_laws.specs.Worlds.{unlink_on, unlinks};

use crate::play::{Line, Play, note};
use flow_types::{FileNo, Key, Memory, Message, Record};
use world_contents::take_away;
use world_peers::{Party, Sent};

impl Play {
    // The wanted file is dropped, where the log has a place for that; answers it.
    fn drop_wanted(&mut self) -> Result<Option<FileNo>, Memory>
        ensures { IfOk result (λ file. Drops file self.old self.new) }
    {
        match self.table.collect() {
            Ok(Some(file)) => {
                take_away(&mut self.contents, file);
                note(&mut self.records, Record::Dropped { moment: 0, file })?;
                Ok(Some(file))
            }
            Ok(None) => Ok(None),
            Err(_) => Ok(None),
        }
    }

    // An Unlink of the file goes over each link on which it was sent.
    fn unlink(&mut self, file: FileNo) -> Result<(), Memory>
        ensures { OnOk result (Turns (λ P O w. unlinks w file) self.old self.new) }
    {
        unlink_on_lines(&mut self.lines, &mut self.bag, file)
    }

    /// The wanted file is collected, where the log has a place for that.
    pub(crate) fn collect(&mut self) -> Result<(), Memory>
        ensures { OnOk result
            (Turns (λ P O w. collects P w (wanted P O.mode (records_in w))) self.old self.new) }
    {
        match self.drop_wanted()? {
            Some(file) => self.unlink(file),
            None => Ok(()),
        }
    }

    /// What a collection logs, and nothing is sent.
    pub(crate) fn log_drop(&mut self) -> Result<(), Memory>
        ensures { OnOk result
            (Turns (λ P O w. drop_logged P w (wanted P O.mode (records_in w))) self.old self.new) }
    {
        self.drop_wanted()?;
        Ok(())
    }
}

// An Unlink of the file goes over each line on which it was sent.
fn unlink_on_lines(lines: &mut Vec<Line>, bag: &mut Vec<Sent>, file: FileNo) -> Result<(), Memory>
    ensures lines { OnOk result (lines.new.items ≡ map (forgets file) lines.old.items) }
    ensures sent { OnOk result (bag.new.items
        ≡ bag.old.items ++ map (unlink_on file) (filter (knows file) lines.old.items)) }
{
    for at in 0..lines.len() {
        unlink_on_line(&mut lines[at], bag, file)?;
    }
    Ok(())
}

// An Unlink of the file goes over the line, where it was sent there.
fn unlink_on_line(line: &mut Line, bag: &mut Vec<Sent>, file: FileNo) -> Result<(), Memory>
    ensures line { line.new ≡ forgets file line.old }
    ensures sent { OnOk result (bag.new.items
        ≡ bag.old.items ++ map (unlink_on file) (filter (knows file) (line.old ∷ []))) }
{
    let run = line.session.run();
    if !line.session.dropped(file) {
        return Ok(());
    }
    let sent = Sent {
        from: Party::Master,
        to: Party::Peer(line.peer),
        message: Message::Unlink {
            key: Key { run, file },
        },
    };
    match bag.push(sent) {
        Ok(()) => Ok(()),
        Err(_) => Err(Memory),
    }
}
