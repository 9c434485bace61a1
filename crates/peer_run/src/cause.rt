//! How a peer ends, with its status and its line.
ghost use Rattle.std.specs.Prelude.{◌≡◌};
ghost use Rattle.peer_run.specs.Causes.{foreman_line_of, line_of, status_of};

/// Why a peer ends.
#[derive(Clone, Copy, Debug, PartialEq, Eq)]
pub enum PeerCause {
    /// Its parent said that the work is over.
    Bye,
    /// The words are no command line of the program.
    Usage,
    /// Its parent closed the link.
    Closed,
    /// There was no link to be had; how often the dial had failed, and has by now.
    DialFault { before: u64, after: u64 },
    /// The link to its parent failed; how often it had failed, and has by now.
    LinkFault { before: u64, after: u64 },
    /// Waiting for peers failed; how often it had failed, and has by now.
    HallFault { before: u64, after: u64 },
    /// Printing failed; how often it had failed, and has by now.
    SinkFault { before: u64, after: u64 },
    /// At this byte of all that came begins what its parent must not send.
    BadMessage { at: u64 },
    /// Want of memory.
    Memory,
}

impl PeerCause {
    /// The exit status.
    pub fn status(self) -> u8
        ensures { result ≡ status_of self }
    {
        match self {
            PeerCause::Bye => 0,
            PeerCause::Usage => 2,
            PeerCause::Closed => 4,
            PeerCause::DialFault { .. }
            | PeerCause::LinkFault { .. }
            | PeerCause::HallFault { .. }
            | PeerCause::SinkFault { .. } => 5,
            PeerCause::BadMessage { .. } => 6,
            PeerCause::Memory => 8,
        }
    }

    /// What a worker prints. Behind a sink's fault it prints nothing more.
    pub fn worker_line(self) -> &'static [u8]
        ensures { result.now ≡ line_of self }
    {
        match self {
            PeerCause::Bye => b"work_queue_worker: bye\n",
            PeerCause::Usage => b"work_queue_worker: usage\n",
            PeerCause::Closed => b"work_queue_worker: closed\n",
            PeerCause::DialFault { .. }
            | PeerCause::LinkFault { .. }
            | PeerCause::HallFault { .. } => b"work_queue_worker: fault\n",
            PeerCause::SinkFault { .. } => b"",
            PeerCause::BadMessage { .. } => b"work_queue_worker: bad message\n",
            PeerCause::Memory => b"work_queue_worker: out of memory\n",
        }
    }

    /// What a foreman prints. Behind a sink's fault it prints nothing more.
    pub fn foreman_line(self) -> &'static [u8]
        ensures { result.now ≡ foreman_line_of self }
    {
        match self {
            PeerCause::Bye => b"work_queue_foreman: bye\n",
            PeerCause::Usage => b"work_queue_foreman: usage\n",
            PeerCause::Closed => b"work_queue_foreman: closed\n",
            PeerCause::DialFault { .. }
            | PeerCause::LinkFault { .. }
            | PeerCause::HallFault { .. } => b"work_queue_foreman: fault\n",
            PeerCause::SinkFault { .. } => b"",
            PeerCause::BadMessage { .. } => b"work_queue_foreman: bad message\n",
            PeerCause::Memory => b"work_queue_foreman: out of memory\n",
        }
    }
}
