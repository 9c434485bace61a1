//! Who comes to a run with workers, by the lines of a script.
//!
//! Behind `hall`: `serves CORES CACHE` is a link that serves as a worker would whose commands leave
//! each output empty, of 4,096 MB of memory, 16,384 MB of disk and a cache of so many bytes;
//! `opens` is one that does what the `link` lines below say; `closes COUNT` are so many that are
//! closed at once; at `idle COUNT` nobody comes for so many looks; `fails` is a look that fails.
//! Behind `link`: `gives HEX`, `idle COUNT`, `closes`, `fails` and `refuses`, where it takes
//! nothing of what is sent next.
ghost use Rattle.std.specs.Prelude.{[], ◌∷◌, IfOk};
ghost use Rattle.mem_links.specs.MemHalls.{AreFresh};

use crate::hex_words::bytes_of;
use crate::words::{first, number_of};
use flow_types::{Amounts, Bytes, Rows};
use mem_links::{HallStep, LinkStep, MemHall, MemLink};
use std::alloc::{AllocError, Global};
use std::mem;

// What a hall answers.
#[derive(Drop)]
enum Comer {
    // A link that serves.
    Serving { cores: u32, cache: u64 },
    // A link that takes these steps.
    Speaking(Vec<LinkStep>),
    // Nobody comes.
    Nobody,
    // A look fails.
    Failure,
}

/// Who comes to the next run, in their order.
#[derive(Drop)]
pub struct Comers {
    comers: Vec<Comer>,
}

impl Comers {
    /// Nobody.
    pub fn new(alloc: Global) -> Comers {
        Comers {
            comers: Vec::new(alloc),
        }
    }

    /// Notes what stands behind `hall`, and tells whether it is in form.
    pub fn note_hall(&mut self, alloc: Global, line: &str) -> Result<bool, AllocError> {
        let (word, rest) = first(line);
        match word {
            "serves" => self.note_serving(rest),
            "opens" => self.note(Comer::Speaking(Vec::new(alloc))),
            "closes" => self.note_closed(alloc, rest),
            "idle" => self.note_idle(rest),
            "fails" => self.note(Comer::Failure),
            _ => Ok(false),
        }
    }

    fn note(&mut self, comer: Comer) -> Result<bool, AllocError> {
        self.comers.push(comer)?;
        Ok(true)
    }

    fn note_serving(&mut self, line: &str) -> Result<bool, AllocError> {
        let (cores, cache) = first(line);
        let (Ok(cores), Some(cache)) = (cores.parse::<u32>(), number_of(cache)) else {
            return Ok(false);
        };
        self.note(Comer::Serving { cores, cache })
    }

    fn note_closed(&mut self, alloc: Global, line: &str) -> Result<bool, AllocError> {
        let Some(count) = number_of(line) else {
            return Ok(false);
        };
        for _ in 0..count {
            let steps = vec![in alloc; LinkStep::Close]?;
            self.comers.push(Comer::Speaking(steps))?;
        }
        Ok(true)
    }

    fn note_idle(&mut self, line: &str) -> Result<bool, AllocError> {
        let Some(count) = number_of(line) else {
            return Ok(false);
        };
        for _ in 0..count {
            self.comers.push(Comer::Nobody)?;
        }
        Ok(true)
    }

    /// Notes what stands behind `link`, and tells whether it is in form, behind a link that opens.
    pub fn note_link(&mut self, alloc: Global, line: &str) -> Result<bool, AllocError> {
        let Some(Comer::Speaking(steps)) = self.comers.last_mut() else {
            return Ok(false);
        };
        let (word, rest) = first(line);
        match word {
            "gives" => {
                let bytes = bytes_of(alloc, rest)?;
                steps.push(LinkStep::Give(Bytes::from_vec(bytes)))?;
            }
            "closes" => steps.push(LinkStep::Close)?,
            "fails" => steps.push(LinkStep::Fail)?,
            "refuses" => steps.push(LinkStep::FailSend)?,
            _ => return add_idle(steps, word, rest),
        }
        Ok(true)
    }

    /// The hall to which they come. Nobody comes to the next one.
    pub fn hall(&mut self, alloc: Global) -> Result<MemHall, AllocError> {
        let mut comers = mem::replace(&mut self.comers, Vec::new(alloc));
        let mut steps = Vec::new(alloc);
        for _ in 0..comers.len() {
            let Some(comer) = comers.pop() else {
                break;
            };
            let step = step_of(alloc, comer)?;
            steps = put_first(steps, step)?;
        }
        Ok(MemHall::new(alloc, Rows::of(steps)))
    }
}

// Adds so many idle answers of a link, and tells whether the line says that.
fn add_idle(steps: &mut Vec<LinkStep>, word: &str, line: &str) -> Result<bool, AllocError> {
    let ("idle", Some(count)) = (word, number_of(line)) else {
        return Ok(false);
    };
    for _ in 0..count {
        steps.push(LinkStep::Idle)?;
    }
    Ok(true)
}

// What the hall answers. Nothing has passed over a link in it.
fn step_of(alloc: Global, comer: Comer) -> Result<HallStep, AllocError>
    ensures { IfOk result (λ step. AreFresh (step ∷ [])) }
{
    match comer {
        Comer::Serving { cores, cache } => serving(alloc, cores, cache),
        Comer::Speaking(steps) => Ok(HallStep::Link(MemLink::new(alloc, Rows::of(steps)))),
        Comer::Nobody => Ok(HallStep::Idle),
        Comer::Failure => Ok(HallStep::Fail),
    }
}

fn serving(alloc: Global, cores: u32, cache: u64) -> Result<HallStep, AllocError>
    ensures { IfOk result (λ step. AreFresh (step ∷ [])) }
{
    let total = Amounts {
        cores,
        memory: 4096,
        disk: 16384,
    };
    match MemLink::serving(alloc, total, cache) {
        Ok(link) => Ok(HallStep::Link(link)),
        Err(_) => Err(AllocError),
    }
}

// This answer in front of the others.
fn put_first(steps: Vec<HallStep>, step: HallStep) -> Result<Vec<HallStep>, AllocError>
    requires step { AreFresh (step ∷ []) }
    requires others { AreFresh steps.items }
    ensures { IfOk result (λ all. AreFresh all.items) }
{
    let mut all = steps;
    match all.insert(0, step) {
        Ok(()) => Ok(all),
        Err(_) => Err(AllocError),
    }
}
