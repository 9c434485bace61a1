//! What a text becomes, written part by part.
ghost use Rattle.std.specs.Prelude.{◌≡◌, ◌++◌, ◌+◌, ◌-◌, ◌<◌, [], List, length};
ghost use Rattle.std.specs.Prelude.{IfErr, OnOk, MatchResult, Ok, true, false, ℕ};
ghost use Rattle.std.specs.Prelude.{Option, string_bytes, if◌then◌else◌, nat_lt};
ghost use Rattle.std.specs.Option.{option_map};
ghost use Rattle.std.specs.FinMap as map;
ghost use Rattle.mf_text.specs.Answers.{Fails, Gives};
ghost use Rattle.mf_text.specs.Expansion.{Piece, value_in, front};
ghost use Rattle.mf_text.specs.Parts.{shown};
ghost use Rattle.mf_text.specs.Output.{HasRoom, outcome};

use crate::fault::MakeFault;
use crate::lines::MAX_TEXT;
use crate::names::is_variable;
use crate::parts::Part;
use crate::scope::Scope;
use flow_types::Text;
use std::alloc::Global;

/// A text after expansion. Its values have at most 16,777,216 bytes together, and what passes
/// them is left out; the text is then too large.
#[derive(Drop)]
pub struct Expanded {
    pub text: Text,
    pub is_too_large: bool,
}

/// What was written so far, how many bytes the values to come may have, whether one of them had
/// more, and whether a mark stayed open.
#[derive(Drop)]
pub(crate) struct Output {
    text: String,
    room: usize,
    is_shortened: bool,
    is_open: bool,
}

impl Output {
    pub(crate) fn new(alloc: Global) -> Output
        ensures text { string_bytes result.text ≡ [] }
        ensures room { result.room ≡ 16777216 }
        ensures is_shortened { result.is_shortened ≡ false }
        ensures is_open { result.is_open ≡ false }
    {
        Output {
            text: String::new(alloc),
            room: MAX_TEXT as usize,
            is_shortened: false,
            is_open: false,
        }
    }

    /// Writes what a part becomes.
    pub(crate) fn add(
        &mut self,
        alloc: Global,
        scope: &Scope,
        line: u32,
        part: Part<'_>,
    ) -> Result<(), MakeFault>
        requires { HasRoom self.old }
        ensures outcome { MatchResult result
            (λ _. (rest : List Piece) → outcome (map.get scope.now) line self.new rest
            ≡ outcome (map.get scope.now) line self.old (shown part.entry ++ rest))
            (λ fault. (rest : List Piece) →
            Fails fault (outcome (map.get scope.now) line self.old (shown part.entry ++ rest))) }
        ensures room { OnOk result (HasRoom self.new) }
    {
        match part {
            Part::Plain(text) => self.write(text),
            Part::Dollar => self.write("$"),
            Part::Named(name) => match value_of(scope, name) {
                Some(value) => self.insert(value),
                None => Err(MakeFault::UnknownName(line, Text::of(alloc, name)?)),
            },
            Part::Unclosed => {
                self.is_open = true;
                Ok(())
            }
        }
    }

    // The text's own bytes are always written.
    fn write(&mut self, own: &str) -> Result<(), MakeFault>
        ensures text { OnOk result
            (self.new ≡ record self.old { text = self.new.text }) }
        ensures bytes { OnOk result
            (string_bytes self.new.text ≡ string_bytes self.old.text ++ own.now) }
        ensures memory { IfErr result (λ fault. fault ≡ MakeFault.Memory) }
    {
        self.text.push_str(own)?;
        Ok(())
    }

    // A value is written as far as there is room for it.
    fn insert(&mut self, value: &str) -> Result<(), MakeFault>
        ensures whole { nat_lt self.old.room (length value.now) ≡ false →
            OnOk result ((self.new ≡ record self.old {
              text = self.new.text;
              room = self.old.room - length value.now;
            }) × (string_bytes self.new.text ≡ string_bytes self.old.text ++ value.now)) }
        ensures front { nat_lt self.old.room (length value.now) ≡ true →
            OnOk result ((self.new ≡ record self.old {
              text = self.new.text;
              room = 0;
              is_shortened = true;
            }) × (string_bytes self.new.text
            ≡ string_bytes self.old.text ++ front self.old.room value.now)) }
        ensures memory { IfErr result (λ fault. fault ≡ MakeFault.Memory) }
    {
        if self.room < value.len() {
            let front = front(value, self.room);
            self.room = 0;
            self.is_shortened = true;
            self.write(front)
        } else {
            self.room -= value.len();
            self.write(value)
        }
    }

    /// The text, or the fault that was left for the end.
    pub(crate) fn finish(self, line: u32) -> Result<Expanded, MakeFault>
        ensures { (value : List ℕ → Option (List ℕ)) →
            Gives (λ made. made) result (outcome value line self []) }
    {
        if self.is_open {
            return Err(MakeFault::OpenParen(line));
        }
        let is_too_large = self.is_shortened || self.text.len() as u64 > MAX_TEXT;
        Ok(Expanded {
            text: Text::from_string(self.text),
            is_too_large,
        })
    }
}

// The value of the variable that a text names, none where it is no name.
fn value_of<'a>(scope: &'a Scope, name: &str) -> Option<&'a str>
    ensures { option_map (λ value. value.now) result ≡ value_in (map.get scope.now) name.now }
{
    if is_variable(name) {
        scope.get(name)
    } else {
        None
    }
}

// The whole characters at the beginning of a longer text that have at most this many bytes.
fn front(text: &str, room: usize) -> &str
    requires { room < length text.now }
    ensures { result.now ≡ front room text.now }
{
    text.split_at(text.floor_char_boundary(room)).0
}
