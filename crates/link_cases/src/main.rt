//! Links, halls and dials over the sockets of this machine and in memory, by a table of cases, one
//! call a line.
//!
//! `== TITLE` is printed as it stands. `sockets` begins a case over sockets, with the calls of
//! `sockets.rt`, and `memory STEP; STEP; ..` one in memory, with those of `in_memory.rt`; both have
//! the calls of `hall_calls.rt` and `link_calls.rt`. Each line is answered on a line.
#![tactic(auto)]

mod hall_calls;
mod hearing;
mod in_memory;
mod last_words;
mod link_calls;
mod sockets;
mod words;

use crate::in_memory::InMemory;
use crate::sockets::Sockets;
use crate::words::{first, said};
use std::alloc::{AllocError, Global};
use std::rt::{Clock, HostRuntime};
use std::thread::Threads;
use std::{io, process};

// Each case looks for ports of its own, and so does each program that runs them, mostly.
const FIRST_PORT: u16 = 20_000;

const PORTS_OF_CASE: u16 = 1000;

// What the case calls.
#[derive(Drop)]
enum Scene<'a> {
    Nothing,
    Sockets(Sockets<'a>),
    InMemory(InMemory),
}

// The scene, and the port from which the next one looks for one.
#[derive(Drop)]
struct Table<'a> {
    rt: &'a HostRuntime,
    scene: Scene<'a>,
    next_port: u16,
}

impl<'a> Table<'a> {
    fn answer<T>(&mut self, rt: &T, alloc: Global, line: &str) -> Result<String, AllocError>
    where
        T: Threads + Clock + Sync,
    {
        let (word, rest) = first(line);
        match word {
            "==" => said(alloc, line),
            "sockets" => said(alloc, self.begin_sockets()),
            "memory" => self.begin_in_memory(alloc, rest),
            _ => self.go_on(rt, alloc, line),
        }
    }

    fn begin_sockets(&mut self) -> &'static str {
        let Some(sockets) = Sockets::new(self.rt, self.next_port) else {
            return "no port";
        };
        self.scene = Scene::Sockets(sockets);
        self.next_port = self.next_port.saturating_add(PORTS_OF_CASE);
        "sockets"
    }

    fn begin_in_memory(&mut self, alloc: Global, steps: &str) -> Result<String, AllocError> {
        self.scene = Scene::InMemory(InMemory::new(alloc, steps)?);
        said(alloc, "memory")
    }

    fn go_on<T>(&mut self, rt: &T, alloc: Global, line: &str) -> Result<String, AllocError>
    where
        T: Threads + Clock + Sync,
    {
        match &mut self.scene {
            Scene::Sockets(sockets) => sockets.answer(rt, alloc, line),
            Scene::InMemory(objects) => objects.answer(alloc, line),
            Scene::Nothing => said(alloc, "no case"),
        }
    }
}

// Answers each line of the table.
fn play<R>(rt: &R, table: &mut Table<'_>) -> io::Result<()>
where
    R: Input + Print + AllocGlobal + Threads + Clock + Sync,
{
    for line in rt.lines(rt.alloc()) {
        let text = table.answer(rt, rt.alloc(), line?.as_str())?;
        println!(rt; "{text}")?;
    }
    Ok(())
}

fn main(rt: HostRuntime) -> io::Result<()> {
    let own = process::id(rt.process()) % 1000;
    let mut table = Table {
        rt: &rt,
        scene: Scene::Nothing,
        next_port: FIRST_PORT.saturating_add(own as u16),
    };
    play(&rt, &mut table)
}
