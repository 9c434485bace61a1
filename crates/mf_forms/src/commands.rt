//! The command of a rule, in its expanded text.
ghost use Rattle.std.specs.Prelude.{◌≡◌};
ghost use Rattle.mf_forms.specs.Commands.{is_local, command_in, is_no_command};

use crate::blanks::{split_word, without_front};

/// Whether the first word is `LOCAL`, which runs the rule on the local place.
pub fn is_local(text: &str) -> bool
    ensures { result ≡ is_local text.now }
{
    split_word(text).0 == "LOCAL"
}

/// The command without the word `LOCAL` at its front and the blanks behind it.
pub fn command_in(text: &str) -> &str
    ensures { result.now ≡ command_in text.now }
{
    let (word, rest) = split_word(text);
    if word == "LOCAL" {
        without_front(rest)
    } else {
        text
    }
}

/// Whether a text holds no command: nothing but blanks is left, or the first word is `MAKEFLOW`.
pub fn is_no_command(text: &str) -> bool
    ensures { result ≡ is_no_command text.now }
{
    let word = split_word(command_in(text)).0;
    word.is_empty() || word == "MAKEFLOW"
}
