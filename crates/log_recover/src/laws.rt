//! Laws of the files of logs, each the contract of a function that does nothing.
ghost use Rattle.log_recover.specs.Laws.{SpellsOneList, HasAHeader, IsWhole};

/// A file spells one list of records at most, and what spells one isn't damaged.
pub fn files_spell_one_list()
    ensures one { SpellsOneList }
    ensures header { HasAHeader }
    ensures whole { IsWhole }
{}
