//! What goes on from the first request to the last answer.
use crate::desk::Desk;
use crate::inbox::Heard;
use crossbeam_channel::Receiver;
use links::Hall;
use outside::{Commands, Sink};
use serve_lines::{Answer, Stop, line_of};
use std::alloc::Global;
use std::fs::File;
use std::rt::Files;
use std::sync::Wait;
use std::time::Clock;
use wq_submit::{QueueCame, WaitFault};

/// How many milliseconds it rests while no task is held. A request ends the rest.
const REST: u64 = 1_000;

/// Why it doesn't go on.
#[derive(Clone, Copy)]
pub enum Halt {
    /// Nobody takes the answers.
    Mute,
    /// It can't go on, for this cause.
    Stop(Stop),
}

impl Halt {
    /// The exit status.
    pub fn status(self) -> u8 {
        match self {
            Halt::Stop(Stop::Usage) => 2,
            Halt::Mute | Halt::Stop(Stop::Network | Stop::Input) => 5,
            Halt::Stop(Stop::Memory) => 8,
        }
    }
}

/// Writes the line of an answer.
pub fn tell<O: Sink>(alloc: Global, out: &mut O, answer: &Answer) -> Result<(), Halt> {
    let Ok(mut line) = line_of(alloc, answer) else {
        return Err(Halt::Stop(Stop::Memory));
    };
    if line.push('\n').is_err() {
        return Err(Halt::Stop(Stop::Memory));
    }
    match out.write(line.as_bytes()) {
        Ok(()) => Ok(()),
        Err(_) => Err(Halt::Mute),
    }
}

// Takes the requests that are there, and answers whether they have ended.
fn take_all<F, W, H, O>(
    rt: &W,
    desk: &mut Desk<F, H>,
    inbox: &Receiver<Heard>,
    out: &mut O,
) -> Result<bool, Halt>
where
    F: Commands,
    W: Wait + Files<File = File> + Clock + AllocGlobal,
    H: Hall<F>,
    O: Sink,
{
    for _ in rt.forever() {
        match inbox.try_recv(rt) {
            Ok(Heard::Line(line)) => desk.take(rt, out, line.as_slice())?,
            Ok(Heard::Ended) => {
                desk.end(out)?;
                return Ok(true);
            }
            Ok(Heard::Failed) => return Err(Halt::Stop(Stop::Input)),
            Err(_) => return Ok(false),
        }
    }
    unreachable!()
}

// Has the queue go on for a round, and answers what came. It tells whether no task is held.
fn wait_once<F, R, H, O>(
    rt: &R,
    desk: &mut Desk<F, H>,
    hall: &mut H,
    out: &mut O,
) -> Result<bool, Halt>
where
    F: Commands,
    R: Files<File = File> + Clock + AllocGlobal,
    H: Hall<F>,
    O: Sink,
    requires listens { H.listens hall.old }
    ensures listens { H.listens hall.new }
{
    match desk.queue.wait_once(hall) {
        Some(Ok(QueueCame::Got(ready))) => {
            desk.give(rt, out, ready)?;
            Ok(false)
        }
        Some(Ok(QueueCame::Idle)) | None => Ok(false),
        Some(Ok(QueueCame::Empty)) => Ok(true),
        Some(Err(WaitFault::Hall { .. })) => Err(Halt::Stop(Stop::Network)),
        Some(Err(WaitFault::Memory)) => Err(Halt::Stop(Stop::Memory)),
    }
}

// Does what the requests ask for, until they have ended and each task was answered.
fn serve_all<F, W, H, O>(
    rt: &W,
    hall: &mut H,
    inbox: &Receiver<Heard>,
    out: &mut O,
) -> Result<(), Halt>
where
    F: Commands,
    W: Wait + Files<File = File> + Clock + AllocGlobal,
    H: Hall<F>,
    O: Sink,
    requires listens { H.listens hall.old }
{
    let mut desk = Desk::<F, H>::new(rt.alloc());
    let mut has_ended = false;
    for _ in rt.forever() {
        if !has_ended {
            has_ended = take_all(rt, &mut desk, inbox, out)?;
        }
        if wait_once(rt, &mut desk, hall, out)? {
            if has_ended {
                desk.queue.dismiss(hall);
                return Ok(());
            }
            hall.rest(REST);
        }
    }
    unreachable!()
}

/// Listens at the port, and does what the requests ask for until they have ended and each task was
/// answered. Then the workers are told that the work is over.
pub fn serve<F, W, H, O>(
    rt: &W,
    hall: &mut H,
    port: u16,
    inbox: &Receiver<Heard>,
    out: &mut O,
) -> Result<(), Halt>
where
    F: Commands,
    W: Wait + Files<File = File> + Clock + AllocGlobal,
    H: Hall<F>,
    O: Sink,
{
    match hall.listen(port) {
        Ok(()) => {}
        Err(_) => return Err(Halt::Stop(Stop::Network)),
    }
    match tell(rt.alloc(), out, &Answer::Listening { port }) {
        Ok(()) => serve_all::<F, W, H, O>(rt, hall, inbox, out),
        Err(halt) => Err(halt),
    }
}
