//! A text taken apart from left to right: runs of plain bytes, and what its dollars begin.
ghost use Rattle.std.specs.Prelude.{◌≡◌, ◌<◌, ◌++◌, ◌∷◌, [], true, false, length};
ghost use Rattle.std.specs.Prelude.{drop, slice_index, MatchOption, ◌≢◌, ℕ, List};
ghost use Rattle.std.specs.List.{take_while, prefix_len};
ghost use Rattle.mf_text.specs.Names.{begins_name, continues_name};
ghost use Rattle.mf_text.specs.Expansion.{pieces, holds, after_dollar, between};
ghost use Rattle.mf_text.specs.Parts.{shown, Lacks, LacksMissing, BeginsNoName};

use crate::names::name_len;
use std::marker::Model;

/// A run of plain bytes, or what a dollar begins.
#[derive(Clone, Copy)]
pub(crate) enum Part<'a> {
    Plain(&'a str),
    Dollar,
    Named(&'a str),
    Unclosed,
}

/// The closing marks that were looked for and missed, so that none is looked for again.
#[derive(Clone, Copy)]
struct Missing {
    parenthesis: bool,
    brace: bool,
}

/// What is left of a text. Contracts see its bytes.
#[derive(Drop)]
pub(crate) struct Parts<'a> {
    rest: &'a str,
    missing: Missing,
}

impl<'a> Model for Parts<'a> {
    ghost use Rattle.std.specs.Prelude.{List, ℕ};

    ghost Value = { List ℕ };

    ghost use Rattle.mf_text.specs.Parts.{LacksMissing};

    ghost view = { λ p. p.rest.now };

    ghost invariant = { λ p. LacksMissing p.missing p.rest.now };
}

impl<'a> Parts<'a> {
    pub(crate) fn of(text: &'a str) -> Parts<'a>
        ensures { result ≡ text.now }
    {
        Parts {
            rest: text,
            missing: Missing {
                parenthesis: false,
                brace: false,
            },
        }
    }

    pub(crate) fn next(&mut self) -> Option<Part<'a>>
        ensures pieces { MatchOption result (self.old ≡ [])
            (λ part. pieces self.old ≡ shown part ++ pieces self.new) }
        ensures shorter { MatchOption result (self.old ≡ [])
            (λ _. length self.new < length self.old) }
    {
        if self.rest.is_empty() {
            return None;
        }
        let part = match self.rest.strip_prefix('$') {
            Some(behind) => {
                let (part, rest) = dollar_part(behind, &mut self.missing);
                self.rest = rest;
                part
            }
            None => {
                let (text, rest) = split_plain(self.rest);
                self.rest = rest;
                Part::Plain(text)
            }
        };
        Some(part)
    }
}

// What stands before the first dollar, and the rest.
fn split_plain(text: &str) -> (&str, &str)
    ensures whole { text.now ≡ result.0.now ++ result.1.now }
    ensures plain { holds 36 result.0.now ≡ false }
    ensures shorter { (length text.now ≡ 0 → ⊥)
        → ((rest : List ℕ) → text.now ≢ 36 ∷ rest) → length result.1.now < length text.now }
{
    match text.find('$') {
        Some(at) => text.split_at(at),
        None => (text, ""),
    }
}

// What a dollar with this text behind it begins, and the rest of the text.
fn dollar_part<'a>(text: &'a str, missing: &mut Missing) -> (Part<'a>, &'a str)
    requires { LacksMissing missing.old text.now }
    ensures part { shown result.0 ≡ (after_dollar text.now).0 ∷ [] }
    ensures rest { result.1.now ≡ drop (after_dollar text.now).1 text.now }
    ensures missing { LacksMissing missing.new result.1.now }
{
    if let Some(rest) = text.strip_prefix('$') {
        return (Part::Dollar, rest);
    }
    if let Some(behind) = text.strip_prefix('(') {
        return marked_part(behind, ')', &mut missing.parenthesis);
    }
    if let Some(behind) = text.strip_prefix('{') {
        return marked_part(behind, '}', &mut missing.brace);
    }
    match split_name(text) {
        Some((name, rest)) => (Part::Named(name), rest),
        None => (Part::Dollar, text),
    }
}

// What an opening mark with this text behind it begins, and the rest of the text.
fn marked_part<'a>(text: &'a str, close: char, missed: &mut bool) -> (Part<'a>, &'a str)
    requires ascii { close < 128 }
    requires lacks { Lacks missed.old close text.now }
    ensures part { shown result.0 ≡ (between close text.now).0 ∷ [] }
    ensures rest { result.1.now ≡ drop (between close text.now).1 text.now }
    ensures lacks { Lacks missed.new close result.1.now }
{
    if *missed {
        return (Part::Unclosed, text);
    }
    match text.split_once(close) {
        Some((name, rest)) => (Part::Named(name), rest),
        None => {
            *missed = true;
            (Part::Unclosed, text)
        }
    }
}

// The longest name at the text's beginning, and the rest.
fn split_name(text: &str) -> Option<(&str, &str)>
    ensures begins { MatchOption result (BeginsNoName text.now)
        (λ _. begins_name (slice_index text.now 0) ≡ true) }
    ensures name { MatchOption result (BeginsNoName text.now)
        (λ x. x.0.now ≡ take_while continues_name text.now) }
    ensures rest { MatchOption result (BeginsNoName text.now)
        (λ x. x.1.now ≡ drop (prefix_len continues_name text.now) text.now) }
{
    match name_len(text) {
        Some(len) => Some(text.split_at(len)),
        None => None,
    }
}
