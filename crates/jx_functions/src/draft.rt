//! A text that is being written.
ghost use Rattle.std.specs.Prelude.{◌≡◌, [], Some, None, Ok, OnOk, is_some, not};
ghost use Rattle.std.specs.Char.{encode_utf8};
ghost use Rattle.std.specs.Fmt.{signed_decimal};
ghost use Rattle.jx_syntax.specs.Written.{char_text, quoted};
ghost use Rattle.jx_meaning.specs.Answers.{Gives};
ghost use Rattle.jx_meaning.specs.Values.{plain};
ghost use Rattle.jx_functions.specs.Drafts.{extended, finished};

use flow_types::Text;
use itoa::Buffer;
use jx_meaning::EvalFault;
use jx_syntax::{JxValue, write_char};
use jx_values::{MOST_BYTES, text_value};
use std::alloc::{AllocError, Global};
use std::marker::Model;

/// A text that is being written. Once it is too long, it takes no more memory.
#[derive(Drop)]
pub struct Draft {
    text: String,
    full: bool,
}

impl Model for Draft {
    ghost use Rattle.std.specs.Prelude.{ℕ, List, Option, Some, None, if◌then◌else◌, string_bytes};
    ghost use Rattle.std.specs.Coded.{codes};

    ghost Value = { Option (List ℕ) };

    ghost coded = { Prim.hlevel (codes) };

    ghost view = { λ d. if d.full then None else Some (string_bytes d.text) };
}

#[tactic(auto, using(crate::proofs::Drafting::drafts))]
impl Draft {
    /// No text so far.
    pub fn new(alloc: Global) -> Draft
        ensures { result ≡ Some [] }
    {
        Draft {
            text: String::new(alloc),
            full: false,
        }
    }

    /// Whether the text is too long.
    pub fn is_full(&self) -> bool
        ensures { result ≡ not (is_some self.now) }
    {
        self.full
    }

    /// Puts this text at the end.
    pub fn add(&mut self, piece: &str) -> Result<(), AllocError>
        ensures { OnOk result (self.new ≡ extended self.old piece.now) }
    {
        if self.full {
            return Ok(());
        }
        if self.text.len().saturating_add(piece.len()) > MOST_BYTES {
            self.full = true;
            return Ok(());
        }
        self.text.push_str(piece)?;
        Ok(())
    }

    /// Puts this character at the end.
    pub fn add_char(&mut self, c: char) -> Result<(), AllocError>
        ensures { OnOk result (self.new ≡ extended self.old (encode_utf8 c)) }
    {
        if self.full {
            return Ok(());
        }
        self.text.push(c)?;
        self.full = self.text.len() > MOST_BYTES;
        Ok(())
    }

    /// Puts this character of a text in quotes at the end.
    fn add_quoted_char(&mut self, c: char) -> Result<(), AllocError>
        ensures { OnOk result (self.new ≡ extended self.old (char_text c)) }
    {
        if self.full {
            return Ok(());
        }
        write_char(&mut self.text, c)?;
        self.full = self.text.len() > MOST_BYTES;
        Ok(())
    }

    /// Puts a number at the end, in decimal.
    pub fn add_number(&mut self, n: i64) -> Result<(), AllocError>
        ensures { OnOk result (self.new ≡ extended self.old (signed_decimal n)) }
    {
        let mut buffer = Buffer::new();
        self.add(buffer.format(n))
    }

    /// Puts a text in quotes at the end.
    pub fn add_quoted(&mut self, text: &str) -> Result<(), AllocError>
        ensures { OnOk result (self.new ≡ extended self.old (quoted text.now)) }
    {
        self.add("\"")?;
        for c in text.chars() {
            self.add_quoted_char(c)?;
        }
        self.add("\"")
    }

    /// The text, where it may be built.
    pub fn into_value(self, place: usize) -> Result<JxValue, EvalFault>
        ensures { Gives plain result (finished place self (Ok [])) }
    {
        if self.full {
            return Err(EvalFault::TooMuch(place));
        }
        text_value(place, Text::from_string(self.text))
    }
}
