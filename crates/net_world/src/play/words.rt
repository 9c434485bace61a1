//! What the master makes of words.
ghost use Rattle.std.specs.Prelude.{ℕ, OnOk};
ghost use Rattle.link_session.specs.declared.word.Word.TheVariants as words;
ghost use Rattle.net_world.specs.Hearings.{Follows, LogsEnd};

use crate::play::Play;
use flow_types::{Amounts, AttemptNo, FileNo, LinkNo, Memory, Message, Outcome};
use link_session::Word;

impl Play {
    // The end of an attempt of which a word tells is logged.
    pub(crate) fn log_end(&mut self, message: &Message, word: &Word) -> Result<(), Memory>
        ensures { OnOk result (LogsEnd message.now word.now self.old self.new) }
    {
        match word {
            Word::Finish(attempt) => self.finish_by(*attempt, message),
            Word::Fail(attempt, why) => self.close(*attempt, &Outcome::Failed(*why)),
            Word::Lose(attempt) => self.close(*attempt, &Outcome::NotRun),
            Word::Joined { .. } => Ok(()),
            Word::Changed { .. } => Ok(()),
            Word::PutAgain { .. } => Ok(()),
            Word::Stale(_) => Ok(()),
        }
    }

    // An attempt ended as a message says.
    fn finish_by(&mut self, attempt: AttemptNo, message: &Message) -> Result<(), Memory>
        ensures { OnOk result (LogsEnd message.now (words.Finish attempt) self.old self.new) }
    {
        match message {
            Message::Done { outcome, .. } => self.close(attempt, outcome),
            _ => self.close(attempt, &Outcome::NotRun),
        }
    }

    // What else a word asks for is done.
    pub(crate) fn follow(&mut self, link: LinkNo, peer: u32, word: Word) -> Result<(), Memory>
        ensures { OnOk result (Follows link.0 peer word self.old self.new) }
    {
        match word {
            Word::Changed {
                total,
                largest,
                cache,
            } => {
                self.change(link, total, largest, cache);
                Ok(())
            }
            Word::PutAgain { attempt, files } => self.put_again(peer, attempt, files.as_slice()),
            Word::Joined { .. } => Ok(()),
            Word::Finish(_) => Ok(()),
            Word::Fail(_, _) => Ok(()),
            Word::Lose(_) => Ok(()),
            Word::Stale(_) => Ok(()),
        }
    }

    // A link offers something else from now on, where a change may be made.
    fn change(&mut self, link: LinkNo, total: Amounts, largest: Amounts, cache: u64)
        ensures { (peer : ℕ) → Follows link.0 peer (words.Changed total largest cache)
            self.old self.new }
    {
        if !self.table.lives(link) {
            return;
        }
        let _ = self.table.totals(link, total, largest, cache);
    }

    // Inputs are put once more, and the task is sent again.
    fn put_again(&mut self, peer: u32, attempt: AttemptNo, files: &[FileNo]) -> Result<(), Memory>
        ensures { OnOk result ((link : ℕ) → Follows link peer (words.PutAgain attempt files.now)
            self.old self.new) }
    {
        match self.task_at(attempt)? {
            Some(task) => self.send_task(peer, files, task),
            None => Ok(()),
        }
    }
}
