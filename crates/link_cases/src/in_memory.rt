//! A hall and a dial in memory, each of which gives one link with the steps of the case's line, and
//! then fails: `give HEX`, `idle`, `close`, `fail`, `failsend`, `behind` and `failflush`; or
//! `serving`, for a link that serves. `got` is how many links the hall has back, `sent` what the
//! given end was sent.
ghost use Rattle.std.specs.Prelude.{◌≡◌, true, IfOk};
ghost use Rattle.mem_links.specs.MemHalls.{IsUnused};

use crate::hall_calls::{of_dial, of_hall};
use crate::link_calls::of_end;
use crate::words::{bytes_of, counted, first, said, spelled};
use flow_types::{Amounts, Bytes, Rows};
use links::Hall;
use mem_links::{DialStep, HallStep, LinkStep, MemDial, MemHall, MemLink};
use mem_outside::Blank;
use std::alloc::{AllocError, Global};

const PORT: u16 = 9123;

/// What a case in memory calls.
#[derive(Drop)]
pub struct InMemory {
    hall: MemHall,
    dial: MemDial,
    given: Option<MemLink>,
    dialled: Option<MemLink>,
    ghost listens: { hall.listens ≡ true },
}

impl InMemory {
    /// A hall that listens, and a dial, with links of these steps.
    pub fn new(alloc: Global, steps: &str) -> Result<InMemory, AllocError> {
        let mut hall = hall_of(alloc, link_of(alloc, steps)?)?;
        let dial = dial_of(alloc, link_of(alloc, steps)?)?;
        if Hall::<Blank>::listen(&mut hall, PORT).is_err() {
            return Err(AllocError);
        }
        Ok(InMemory {
            hall,
            dial,
            given: None,
            dialled: None,
        })
    }

    /// Makes the call of a line, and says its answer.
    pub fn answer(&mut self, alloc: Global, line: &str) -> Result<String, AllocError> {
        let (object, rest) = first(line);
        match object {
            "hall" => of_hall(alloc, &mut self.hall, &mut self.given, rest),
            "dial" => of_dial(alloc, &mut self.dial, &mut self.dialled, PORT, rest),
            "given" => of_end(alloc, &mut self.given, &[], rest),
            "got" => counted(alloc, self.hall.got().len() as u64),
            "sent" => sent_over(alloc, self.given.as_ref()),
            _ => said(alloc, "no object"),
        }
    }
}

fn sent_over(alloc: Global, link: Option<&MemLink>) -> Result<String, AllocError> {
    match link {
        Some(link) => spelled(alloc, link.sent()),
        None => said(alloc, "no link"),
    }
}

fn hall_of(alloc: Global, link: MemLink) -> Result<MemHall, AllocError>
    requires { IsUnused link }
{
    let peers = vec![in alloc; HallStep::Link(link), HallStep::Fail]?;
    Ok(MemHall::new(alloc, Rows::of(peers)))
}

fn dial_of(alloc: Global, link: MemLink) -> Result<MemDial, AllocError>
    requires { IsUnused link }
{
    let peers = vec![in alloc; DialStep::Link(link)]?;
    Ok(MemDial::new(alloc, Rows::of(peers)))
}

fn link_of(alloc: Global, steps: &str) -> Result<MemLink, AllocError>
    ensures { IfOk result IsUnused }
{
    if steps == "serving" {
        return serving(alloc);
    }
    Ok(MemLink::new(alloc, steps_of(alloc, steps)?))
}

// A link that offers 4 cores, 4,096 and 1,000 MB, and a cache of 4,294,967,296 bytes.
fn serving(alloc: Global) -> Result<MemLink, AllocError>
    ensures { IfOk result IsUnused }
{
    let total = Amounts {
        cores: 4,
        memory: 4096,
        disk: 1000,
    };
    match MemLink::serving(alloc, total, 4_294_967_296) {
        Ok(link) => Ok(link),
        Err(_) => Err(AllocError),
    }
}

fn steps_of(alloc: Global, text: &str) -> Result<Rows<LinkStep>, AllocError> {
    let mut steps = Vec::new(alloc);
    for part in text.split(';') {
        let (word, rest) = first(part.trim());
        if word == "give" {
            steps.push(LinkStep::Give(Bytes::from_vec(bytes_of(alloc, rest)?)))?;
        } else if let Some(step) = step_of(word) {
            steps.push(step)?;
        }
    }
    Ok(Rows::of(steps))
}

fn step_of(word: &str) -> Option<LinkStep> {
    match word {
        "idle" => Some(LinkStep::Idle),
        "close" => Some(LinkStep::Close),
        "fail" => Some(LinkStep::Fail),
        "failsend" => Some(LinkStep::FailSend),
        "behind" => Some(LinkStep::Behind),
        "failflush" => Some(LinkStep::FailFlush),
        _ => None,
    }
}
