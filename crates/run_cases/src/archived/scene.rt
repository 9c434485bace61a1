//! What a script works on.
use archive_run::{ArchiveEnded, archive_top};
use cases::shown;
use flow_types::{Bytes, Memory, Name, Outcome, Rows};
use mem_links::MemHall;
use mem_outside::{Blank, FixedClock, MemSink, MemSite, TableRunner};
use outside::Runner;
use std::alloc::{AllocError, Global};
use std::mem;
use std::sync::Wait;
use std::thread::Threads;
use worker_pool::OpenGate;

type Table = TableRunner<Blank>;

/// A flow's text, its files, an archive, a runner and what is printed.
#[derive(Drop)]
pub struct Scene {
    flow: String,
    site: MemSite,
    store: MemSite,
    runner: Table,
    sink: MemSink,
}

fn put(alloc: Global, site: &mut MemSite, name: &str, content: &[u8]) -> Result<(), AllocError> {
    let Ok(name) = Name::of(alloc, name.as_bytes()) else {
        return Err(AllocError);
    };
    site.put(&name, content).map_err(|_| AllocError)
}

fn is_noted(answer: Result<(), Memory>) -> Result<(), AllocError> {
    answer.map_err(|_| AllocError)
}

// The runner answers a job of this command with the output `abc`.
fn know(alloc: Global, runner: &mut Table, command: &str) -> Result<(), AllocError> {
    let mut outs = Rows::new(alloc);
    let Ok(output) = Bytes::of(alloc, b"abc") else {
        return Err(AllocError);
    };
    if outs.push(output).is_err() {
        return Err(AllocError);
    }
    is_noted(runner.put(command, Outcome::Success(outs)))
}

fn words_of(alloc: Global, line: &str) -> Result<Vec<String>, AllocError> {
    let mut words = Vec::new(alloc);
    for word in line.split_whitespace() {
        words.push(String::from_str(alloc, word)?)?;
    }
    Ok(words)
}

impl Scene {
    /// A file `in` of `abc`, an empty archive, and a runner that knows no job.
    pub fn new(alloc: Global) -> Result<Scene, AllocError> {
        let mut site = MemSite::new(alloc);
        put(alloc, &mut site, "in", b"abc")?;
        Ok(Scene {
            flow: String::new(alloc),
            site,
            store: MemSite::new(alloc),
            runner: TableRunner::new(alloc),
            sink: MemSink::new(alloc),
        })
    }

    /// Does what a line says. Only a call is answered, and a line out of form.
    pub fn answer<W: Threads + Wait + Sync>(
        &mut self,
        rt: &W,
        alloc: Global,
        line: &str,
    ) -> Result<String, AllocError> {
        let (kind, rest) = line.split_once(' ').unwrap_or((line, ""));
        match kind {
            "flow" => self.add_line(alloc, rest)?,
            "knows" => know(alloc, &mut self.runner, rest)?,
            "strange" => self.runner = TableRunner::new(alloc),
            "makeflow_archive" => return self.run(rt, alloc, line),
            _ => return String::from_str(alloc, "no such line\n"),
        }
        Ok(String::new(alloc))
    }

    fn add_line(&mut self, alloc: Global, line: &str) -> Result<(), AllocError> {
        self.flow.push_str(line)?;
        self.flow.push_str("\n")?;
        put(alloc, &mut self.site, "flow", self.flow.as_bytes())
    }

    // Makes a call with the words of this line, and goes on with what it left.
    fn run<W: Threads + Wait + Sync>(
        &mut self,
        rt: &W,
        alloc: Global,
        line: &str,
    ) -> Result<String, AllocError> {
        let words = words_of(alloc, line)?;
        let before = self.sink.bytes().len();
        let site = mem::replace(&mut self.site, MemSite::new(alloc));
        let store = mem::replace(&mut self.store, MemSite::new(alloc));
        let runner = mem::replace(&mut self.runner, TableRunner::new(alloc));
        let done = call(rt, alloc, &words, site, store, runner, &mut self.sink)?;
        let printed = self.sink.bytes().get(before..).unwrap_or(&[]);
        let text = told(alloc, &done, printed)?;
        self.go_on(done);
        Ok(text)
    }

    fn go_on(&mut self, done: Done) {
        let ArchiveEnded {
            ended,
            mut runners,
            store,
        } = done;
        self.site = ended.site;
        self.store = store;
        if let Some(runner) = runners.pop() {
            self.runner = runner;
        }
    }
}

type Done = ArchiveEnded<MemSite, Table, MemSite>;

// The one call of what the table is about.
fn call<W: Threads + Wait + Sync>(
    rt: &W,
    alloc: Global,
    words: &[String],
    site: MemSite,
    store: MemSite,
    runner: Table,
    sink: &mut MemSink,
) -> Result<Done, AllocError> {
    let mut runners = Vec::new(alloc);
    runners.push(runner)?;
    let mut hall = MemHall::new(alloc, Rows::new(alloc));
    Ok(archive_top(
        rt,
        alloc,
        words,
        &[],
        site,
        store,
        &mut hall,
        runners,
        &OpenGate,
        &FixedClock(7),
        sink,
    ))
}

fn shown_out(alloc: Global, site: &MemSite) -> Result<String, AllocError> {
    match site.get(b"out") {
        Some(content) => {
            let content = shown(alloc, content)?;
            format!(in alloc; "[{content}]")
        }
        None => String::from_str(alloc, "none"),
    }
}

// The line of a call.
fn told(alloc: Global, done: &Done, printed: &[u8]) -> Result<String, AllocError> {
    let status = done.ended.status;
    let printed = shown(alloc, printed)?;
    let faults = match done.runners.first() {
        Some(runner) => runner.faults(),
        None => 0,
    };
    let out = shown_out(alloc, &done.ended.site)?;
    format!(in alloc; "{status} [{printed}] runner {faults}, out {out}\n")
}
