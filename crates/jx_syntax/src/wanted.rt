//! The steps of reading where an expression is wanted.
ghost use Rattle.std.specs.Prelude.{◌≡◌, ◌^◌, ◌≤◌, ◌<◌, List, reverse};
ghost use Rattle.jx_tokens.specs.declared.token.Kind.TheVariants as kind;
ghost use Rattle.jx_syntax.specs.Reading.{Frame, depth, level, moved, tried, signs, numbered};
ghost use Rattle.jx_syntax.specs.Reading.{closes_call, closes_list, begins_slice, wanted};
ghost use Rattle.jx_syntax.specs.Shown.{IsShown, Steps};

use crate::levels::{level_of, sign_level};
use crate::node::Form;
use crate::operator::Sign;
use crate::pending::{Part, Pending, Reader, Wanted};
use flow_types::Rows;
use jx_tokens::{JxFault, Kind};

/// The greatest number.
const MOST: u64 = 9_223_372_036_854_775_807;

impl Reader {
    /// How tightly an expression has to bind here.
    pub fn level(&self) -> usize
        ensures shown { (fs : List Frame) → IsShown self.now fs → result ≡ level fs }
    {
        match self.stack.last() {
            Some(Pending::Left(_, operator, _)) => level_of(*operator) + 1,
            Some(Pending::Before(_, sign)) => sign_level(*sign),
            _ => 1,
        }
    }

    /// A sign.
    fn sign(&mut self, place: usize, sign: Sign) -> Result<Wanted, JxFault>
        ensures shown { (fs : List Frame) → IsShown self.old fs → self.old.depth ≡ depth fs
            → Steps self.new result (tried 128 (depth fs) place (signs fs place sign)) }
    {
        if self.level() <= sign_level(sign) {
            self.open(place, Pending::Before(place, sign))
        } else {
            Err(JxFault::Unexpected(place))
        }
    }

    /// The least number, right behind its minus.
    fn least(&mut self, place: usize, number: u64) -> Result<Wanted, JxFault>
        requires { 2 ^ 63 ≤ number }
        ensures shown { (fs : List Frame) → IsShown self.old fs → self.old.depth ≡ depth fs
            → Steps self.new result (moved 128 (depth fs) place (kind.Number number)
            (numbered fs place number)) }
    {
        let Some(top) = self.stack.pop() else {
            return Err(JxFault::IntTooWide(place));
        };
        match top {
            Pending::Before(minus, Sign::Minus) => {
                if number > MOST + 1 {
                    return Err(JxFault::IntTooWide(place));
                }
                self.depth = self.depth.saturating_sub(1);
                self.done(minus, Form::Number(i64::MIN))
            }
            _ => Err(JxFault::IntTooWide(place)),
        }
    }

    /// A number.
    fn number(&mut self, place: usize, number: u64) -> Result<Wanted, JxFault>
        ensures shown { (fs : List Frame) → IsShown self.old fs → self.old.depth ≡ depth fs
            → Steps self.new result (moved 128 (depth fs) place (kind.Number number)
            (numbered fs place number)) }
    {
        if number <= MOST {
            self.done(place, Form::Number(number as i64))
        } else {
            self.least(place, number)
        }
    }

    /// `)`, which ends a call of no argument.
    fn close_call(&mut self, place: usize) -> Result<Wanted, JxFault>
        ensures shown { (fs : List Frame) → IsShown self.old fs → self.old.depth ≡ depth fs
            → Steps self.new result (tried 128 (depth fs) place (closes_call fs place)) }
    {
        let Some(top) = self.stack.pop() else {
            return Err(JxFault::Unexpected(place));
        };
        match top {
            Pending::Argued(at, name, arguments) => {
                if !arguments.is_empty() {
                    return Err(JxFault::Unexpected(place));
                }
                self.depth = self.depth.saturating_sub(1);
                self.done(at, Form::Call(name, arguments))
            }
            _ => Err(JxFault::Unexpected(place)),
        }
    }

    /// `]`, which ends a list behind its `[` or a comma, or a slice behind its colon.
    fn close_list(&mut self, place: usize) -> Result<Wanted, JxFault>
        ensures shown { (fs : List Frame) → IsShown self.old fs → self.old.depth ≡ depth fs
            → Steps self.new result (tried 128 (depth fs) place (closes_list fs place)) }
    {
        let Some(top) = self.stack.pop() else {
            return Err(JxFault::Unexpected(place));
        };
        match top {
            Pending::Listed(at, items, part) => match part {
                Part::Body => {
                    self.depth = self.depth.saturating_sub(1);
                    self.done(at, Form::List(items))
                }
                _ => Err(JxFault::Unexpected(place)),
            },
            Pending::Sliced(of, at, from) => {
                self.depth = self.depth.saturating_sub(1);
                self.done(at, Form::Slice(of, from, None))
            }
            _ => Err(JxFault::Unexpected(place)),
        }
    }

    /// A colon right behind the `[` of a slice.
    fn begin_slice(&mut self, place: usize) -> Result<Wanted, JxFault>
        ensures shown { (fs : List Frame) → IsShown self.old fs → self.old.depth ≡ depth fs
            → Steps self.new result (tried 128 (depth fs) place (begins_slice fs place)) }
    {
        let Some(top) = self.stack.pop() else {
            return Err(JxFault::Unexpected(place));
        };
        match top {
            Pending::Indexed(of, at) => self.resume(Pending::Sliced(of, at, None)),
            _ => Err(JxFault::Unexpected(place)),
        }
    }

    /// `{`
    fn open_object(&mut self, place: usize) -> Result<Wanted, JxFault>
        ensures shown { (fs : List Frame) → IsShown self.old fs → self.old.depth ≡ depth fs
            → Steps self.new result (tried 128 (depth fs) place (wanted fs place kind.OpenObject)) }
    {
        if self.depth >= 128 {
            return Err(JxFault::TooDeep(place));
        }
        self.depth += 1;
        Ok(Wanted::Key(place, Rows::new(self.alloc)))
    }

    /// A token where an expression is wanted.
    pub fn operand(&mut self, place: usize, kind: Kind) -> Result<Wanted, JxFault>
        ensures shown { (fs : List Frame) → IsShown self.old fs → self.old.depth ≡ depth fs
            → Steps self.new result (moved 128 (depth fs) place kind (wanted fs place kind)) }
    {
        match kind {
            Kind::Null => self.done(place, Form::Null),
            Kind::True => self.done(place, Form::Truth(true)),
            Kind::False => self.done(place, Form::Truth(false)),
            Kind::Number(number) => self.number(place, number),
            Kind::Text(text) => self.done(place, Form::Text(text)),
            Kind::Name(name) => Ok(Wanted::Named(place, name)),
            Kind::Minus => self.sign(place, Sign::Minus),
            Kind::Plus => self.sign(place, Sign::Plus),
            Kind::Not => self.sign(place, Sign::Not),
            Kind::OpenGroup => self.open(place, Pending::Grouped),
            Kind::OpenList => {
                let items = Rows::new(self.alloc);
                self.open(place, Pending::Listed(place, items, Part::Body))
            }
            Kind::OpenObject => self.open_object(place),
            Kind::CloseGroup => self.close_call(place),
            Kind::CloseList => self.close_list(place),
            Kind::Colon => self.begin_slice(place),
            _ => Err(JxFault::Unexpected(place)),
        }
    }
}
