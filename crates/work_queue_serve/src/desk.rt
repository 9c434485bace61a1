//! The tasks that are held, by their lines.
use crate::serving::{Halt, tell};
use crate::shelf::{Lack, Shelf, port_of, write_output};
use flow_types::{Bytes, Failure, Outcome, Port, Rows, Text, Want};
use links::Hall;
use outside::{Commands, Sink};
use serve_lines::{Answer, Asked, LineFault, Place, Rejection, Request, Stop, read_request};
use std::alloc::Global;
use std::collections::BTreeMap;
use std::fs::File;
use std::rt::Files;
use std::str;
use std::time::Clock;
use wq_submit::{Queue, Ready, Submission, SubmitRefused, TaskId};

/// The most bytes of a task's outputs together.
const MOST_BYTES: u64 = 67_108_864;

// A task that is held: the line that submitted it, and where its outputs go.
#[derive(Drop)]
struct Kept {
    line: u64,
    outputs: Rows<Place>,
}

/// A queue, and what was asked of it by lines.
#[derive(Drop)]
pub struct Desk<F: Commands, H: Hall<F>> {
    pub alloc: Global,
    pub queue: Queue<F, H>,
    shelf: Shelf,
    lines: u64,
    kept: BTreeMap<u64, Kept>,
    numbers: BTreeMap<u64, u64>,
}

impl<F: Commands, H: Hall<F>> Desk<F, H> {
    /// One of which nothing was asked yet.
    pub fn new(alloc: Global) -> Self {
        Desk {
            alloc,
            queue: Queue::new(alloc),
            shelf: Shelf::new(alloc),
            lines: 0,
            kept: BTreeMap::new(alloc),
            numbers: BTreeMap::new(alloc),
        }
    }

    /// Takes the next line.
    pub fn take<R: Files<File = File> + Clock + AllocGlobal, O: Sink>(
        &mut self,
        rt: &R,
        out: &mut O,
        line: &[u8],
    ) -> Result<(), Halt> {
        self.lines = self.lines.saturating_add(1);
        let answer = match read_request(self.alloc, line) {
            Ok(Request::Submit(asked)) => self.submit(rt, asked)?,
            Ok(Request::Cancel(task)) => Some(self.cancel(task)),
            Err(LineFault::Refused(refusal)) => Some(self.refused(Rejection::Line(refusal))),
            Err(LineFault::Memory) => return Err(Halt::Stop(Stop::Memory)),
        };
        match answer {
            Some(answer) => tell(self.alloc, out, &answer),
            None => Ok(()),
        }
    }

    fn refused(&self, why: Rejection) -> Answer {
        let line = self.lines;
        Answer::Refused { line, why }
    }

    /// Says how many tasks are held, once the lines have ended.
    pub fn end<O: Sink>(&mut self, out: &mut O) -> Result<(), Halt> {
        let held = self.queue.count() as u64;
        tell(self.alloc, out, &Answer::Left { held })
    }

    fn cancel(&mut self, task: u64) -> Answer {
        let line = self.lines;
        let Some(number) = self.numbers.remove(&task) else {
            let held = false;
            return Answer::Cancelled { line, task, held };
        };
        self.kept.remove(&number);
        let held = self.queue.cancel(TaskId(number));
        Answer::Cancelled { line, task, held }
    }

    // An input, whose file is taken in.
    fn port_of<R: Files<File = File> + Clock + AllocGlobal>(
        &mut self,
        rt: &R,
        place: &Place,
    ) -> Result<Port, Lack> {
        let path = place.path.as_str();
        match self.shelf.number_of(rt, &mut self.queue, path) {
            Ok(file) => port_of(self.alloc, file, place),
            Err(lack) => Err(lack),
        }
    }

    // The answer where an input isn't taken.
    fn refused_input(&self, place: &Place, lack: Lack) -> Result<Answer, Halt> {
        let line = self.lines;
        match lack {
            Lack::Refused(why) => {
                let input = name_of(self.alloc, place)?;
                Ok(Answer::InputRefused { line, input, why })
            }
            Lack::Memory => Err(Halt::Stop(Stop::Memory)),
        }
    }

    // Submits a task. The answer is that it is refused; a task that is held has one later.
    fn submit<R: Files<File = File> + Clock + AllocGlobal>(
        &mut self,
        rt: &R,
        asked: Asked,
    ) -> Result<Option<Answer>, Halt> {
        let Asked {
            command,
            inputs,
            outputs,
            env,
            bound,
            needs,
        } = asked;
        let mut ports = Rows::new(self.alloc);
        for place in inputs.as_slice() {
            let port = match self.port_of(rt, place) {
                Ok(port) => port,
                Err(lack) => return Ok(Some(self.refused_input(place, lack)?)),
            };
            if ports.push(port).is_err() {
                return Err(Halt::Stop(Stop::Memory));
            }
        }
        let task = Submission {
            command,
            env,
            needs,
            inputs: ports,
            outputs: wants_of(self.alloc, outputs.as_slice(), bound)?,
        };
        self.hand_over(task, outputs)
    }

    fn hand_over(
        &mut self,
        task: Submission,
        outputs: Rows<Place>,
    ) -> Result<Option<Answer>, Halt> {
        let number = match self.queue.submit(task) {
            Ok(id) => id.0,
            Err(SubmitRefused::TooMany) => return Ok(Some(self.refused(Rejection::TooManyTasks))),
            Err(SubmitRefused::Memory) => return Err(Halt::Stop(Stop::Memory)),
            Err(_) => return Ok(Some(self.refused(Rejection::BadTask))),
        };
        self.keep(number, outputs)
    }

    fn keep(&mut self, number: u64, outputs: Rows<Place>) -> Result<Option<Answer>, Halt> {
        let line = self.lines;
        let kept = Kept { line, outputs };
        if self.kept.insert(number, kept).is_err() {
            return Err(Halt::Stop(Stop::Memory));
        }
        if self.numbers.insert(line, number).is_err() {
            return Err(Halt::Stop(Stop::Memory));
        }
        Ok(None)
    }

    /// Answers a task that came to its end.
    pub fn give<R: Files<File = File> + AllocGlobal, O: Sink>(
        &mut self,
        rt: &R,
        out: &mut O,
        ready: Ready,
    ) -> Result<(), Halt> {
        let Some(kept) = self.kept.remove(&ready.id.0) else {
            return Ok(());
        };
        self.numbers.remove(&kept.line);
        let answer = ended(self.alloc, rt, &kept, ready.outcome)?;
        tell(self.alloc, out, &answer)
    }
}

// The answer to a task by its outcome. Its outputs are written.
fn ended<R: Files<File = File> + AllocGlobal>(
    alloc: Global,
    rt: &R,
    kept: &Kept,
    outcome: Outcome,
) -> Result<Answer, Halt> {
    match outcome {
        Outcome::Success(contents) => written(alloc, rt, kept, contents.as_slice()),
        Outcome::Failed(failure) => failed(alloc, kept, failure),
        Outcome::NotRun => Ok(Answer::Refused {
            line: kept.line,
            why: Rejection::BadTask,
        }),
    }
}

// Writes the outputs of a task, up to the first that can't be.
fn written<R: Files<File = File> + AllocGlobal>(
    alloc: Global,
    rt: &R,
    kept: &Kept,
    contents: &[Bytes],
) -> Result<Answer, Halt> {
    let line = kept.line;
    for (place, content) in kept.outputs.as_slice().iter().zip(contents.iter()) {
        if write_output(rt, place.path.as_str(), content.as_slice()).is_err() {
            let output = name_of(alloc, place)?;
            return Ok(Answer::Unwritten { line, output });
        }
    }
    Ok(Answer::Ended { line, status: 0 })
}

// The remote name of a file, as a text.
fn name_of(alloc: Global, place: &Place) -> Result<Text, Halt> {
    let Ok(text) = str::from_utf8(place.name.as_bytes()) else {
        return Err(Halt::Stop(Stop::Memory));
    };
    match Text::of(alloc, text) {
        Ok(text) => Ok(text),
        Err(_) => Err(Halt::Stop(Stop::Memory)),
    }
}

// The outputs that a task is to make. Where no bound is stated, each has an equal share.
fn wants_of(alloc: Global, outputs: &[Place], bound: Option<u32>) -> Result<Rows<Want>, Halt> {
    let share = MOST_BYTES / (outputs.len() as u64).max(1);
    let bound = match bound {
        Some(bound) => u64::from(bound),
        None => share,
    };
    let mut wants = Rows::new(alloc);
    for place in outputs {
        let Ok(remote) = place.name.copy(alloc) else {
            return Err(Halt::Stop(Stop::Memory));
        };
        if wants.push(Want { remote, bound }).is_err() {
            return Err(Halt::Stop(Stop::Memory));
        }
    }
    Ok(wants)
}

// How a task failed. An output goes by its place in the task.
fn failed(alloc: Global, kept: &Kept, failure: Failure) -> Result<Answer, Halt> {
    let line = kept.line;
    let (index, size) = match failure {
        Failure::Status(status) => return Ok(Answer::Ended { line, status }),
        Failure::MissingOutput(index) => (index, None),
        Failure::TooLong { index, size } => (index, Some(size)),
    };
    let output = match kept.outputs.get(index as usize) {
        Some(place) => name_of(alloc, place)?,
        None => return Err(Halt::Stop(Stop::Memory)),
    };
    match size {
        Some(size) => Ok(Answer::TooLong { line, output, size }),
        None => Ok(Answer::Missing { line, output }),
    }
}
