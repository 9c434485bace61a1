//! Why a call ended.
ghost use Rattle.std.specs.Prelude.{◌≡◌, IfOk, IsOk};
ghost use Rattle.std.specs.Bool.{OnFalse};
ghost use Rattle.report.specs.Causes.{is_end, is_printed, kind_of, status_of, status_of_kind};
ghost use Rattle.report.specs.Lines.{line_of};

use crate::text::{around, text_of};
use flow_types::{Bytes, Content, Digest, Failure, FileNo, Memory, Name, Plan, RuleNo};
use jx_flow::JxFlowFault;
use mf_text::MakeFault;
use rule_graph::GraphFault;
use run_history::{Found, Wait};
use std::alloc::Global;

/// Why a flow is refused.
#[derive(Drop)]
pub enum FlowFault {
    /// Its text is no Makeflow text.
    Make(MakeFault),
    /// Its text is no flow in JX.
    Jx(JxFlowFault),
    /// Its rules are no plan.
    Graph(GraphFault),
}

/// Why a call ended.
#[derive(Drop)]
pub enum Cause {
    /// Every rule is complete.
    Complete {
        rules: u32,
        collected: u32,
    },
    /// The part was ended, and so many files were removed that the flow had made.
    Cleaned {
        removed: u32,
    },
    /// The part's records were printed, in so many lines.
    Printed {
        lines: u32,
    },
    /// A rule's command failed, and the run stopped there.
    CommandFailed {
        rule: RuleNo,
        why: Failure,
    },
    /// The words are no command line.
    Usage,
    /// There is no flow file of this name.
    FlowMissing {
        name: Name,
    },
    /// The flow of this name is refused.
    FlowRefused {
        flow: Name,
        fault: FlowFault,
    },
    /// The log's name is this one, which is that of the flow or of a file of its plan, or one of the
    /// two with a slash behind it begins the other.
    LogNameTaken {
        file: Name,
    },
    /// A rule needs more of a resource than there is in all. Cores are counted, memory and disk are
    /// in megabytes.
    NeedsTooMuch {
        rule: RuleNo,
        need: u64,
        total: u64,
    },
    /// The log is damaged at this byte: where 0, it doesn't begin as a log.
    LogDamaged {
        at: u64,
    },
    /// The log's part was opened for a plan of another digest.
    OtherFlow {
        logged: Digest,
        found: Digest,
    },
    /// The record with this number, counted from 0, may not stand where it does.
    NotLegal {
        at: u32,
    },
    /// The made files that are present have more bytes than the storage's limit.
    StoredAboveLimit {
        stored: u64,
        limit: u64,
    },
    /// A file that no rule makes isn't there.
    SourceMissing {
        file: FileNo,
    },
    /// A file that no rule makes has more than 67,108,864 bytes: so many.
    SourceTooLarge {
        file: FileNo,
        size: u64,
    },
    /// A file that no rule makes isn't what was logged when the part was opened.
    SourceChanged {
        file: FileNo,
        logged: Content,
        found: Found,
    },
    /// A file that was logged as made isn't what was logged.
    FileDamaged {
        file: FileNo,
        logged: Content,
        found: Found,
    },
    /// The folder failed: its count of faults before the call and now.
    SiteFault {
        before: u64,
        after: u64,
    },
    /// What runs the commands failed: its count of faults before the call and now.
    RunnerFault {
        before: u64,
        after: u64,
    },
    /// Where workers are met, the network failed: its count of faults before the call and now.
    HallFault {
        before: u64,
        after: u64,
    },
    /// What takes the printed lines failed: its count of faults before the call and now.
    SinkFault {
        before: u64,
        after: u64,
    },
    /// No ready rule fits the storage. The least of them asks for so many bytes, where so many are
    /// stored and the limit is this one.
    NoRoom {
        rule: RuleNo,
        need: u64,
        stored: u64,
        limit: u64,
    },
    /// The inputs of a ready rule have more than 134,217,728 bytes together: so many.
    InputsTooLarge {
        rule: RuleNo,
        total: u64,
    },
    /// Nobody came who can run this rule, for so many idle looks for workers.
    Waited(Wait),
    /// Want of memory.
    Memory,
    /// The log has no room for what comes next. It has so many records.
    LogFull {
        records: u32,
    },
}

/// The few kinds of causes. All that goes by cases of a cause, but its text, goes by its kind.
#[derive(Clone, Copy, Debug, PartialEq, Eq)]
pub enum Kind {
    /// Every rule is complete.
    Completed,
    /// What was asked for in place of a run was done, and a line tells it.
    Told,
    /// The log's lines were printed, and no line more.
    LogPrinted,
    /// A command failed.
    RuleFailed,
    /// Refused by the words alone.
    WrongWords,
    /// Refused by the flow, or by the log's name in it.
    WrongFlow,
    /// The log is damaged, of another flow, or has a record that may not stand where it does.
    WrongLog,
    /// A source, or a file that was logged as made, isn't what it has to be, or the made files are
    /// more than the storage's limit.
    WrongFile,
    /// Stopped since the next rules would pass a limit.
    PastLimit,
    /// Stopped since the log has no room.
    LogFilled,
    /// The folder failed.
    SiteBroke,
    /// What runs the commands failed.
    RunnerBroke,
    /// Where workers are met, the network failed.
    HallBroke,
    /// What takes the printed lines failed.
    SinkBroke,
    /// Nobody came who can run the next rules, for longer than the wait's limit.
    WaitedOut,
    /// Want of memory.
    NoMemory,
}

impl Kind {
    /// The exit status of every cause of this kind.
    pub fn status(self) -> u8
        ensures { result ≡ status_of_kind self }
    {
        match self {
            Kind::Completed | Kind::Told | Kind::LogPrinted => 0,
            Kind::RuleFailed => 1,
            Kind::WrongWords => 2,
            Kind::WrongFlow => 3,
            Kind::WrongLog | Kind::WrongFile => 4,
            Kind::SiteBroke | Kind::RunnerBroke | Kind::HallBroke | Kind::SinkBroke => 5,
            Kind::PastLimit => 6,
            Kind::WaitedOut => 7,
            Kind::NoMemory => 8,
            Kind::LogFilled => 9,
        }
    }

    /// Whether a cause of this kind has a printed line: all have one, but a fault of what takes
    /// the lines, and a printed log, whose own lines stand in its place.
    pub fn is_printed(self) -> bool
        ensures { result ≡ is_printed self }
    {
        !matches!(self, Kind::LogPrinted | Kind::SinkBroke)
    }

    /// Whether what was asked for came to its end. Only of such a cause a fault of what takes the
    /// printed lines takes the place.
    pub fn is_end(self) -> bool
        ensures { result ≡ is_end self }
    {
        matches!(
            self,
            Kind::Completed
                | Kind::Told
                | Kind::LogPrinted
                | Kind::RuleFailed
                | Kind::PastLimit
                | Kind::WaitedOut
                | Kind::LogFilled
        )
    }
}

impl Cause {
    /// What kind of cause this is.
    pub fn kind(&self) -> Kind
        ensures { result ≡ kind_of self.now }
    {
        match self {
            Cause::Complete { .. } => Kind::Completed,
            Cause::Cleaned { .. } => Kind::Told,
            Cause::Printed { .. } => Kind::LogPrinted,
            Cause::CommandFailed { .. } => Kind::RuleFailed,
            Cause::Usage => Kind::WrongWords,
            Cause::FlowMissing { .. }
            | Cause::FlowRefused { .. }
            | Cause::LogNameTaken { .. }
            | Cause::NeedsTooMuch { .. } => Kind::WrongFlow,
            Cause::LogDamaged { .. } | Cause::OtherFlow { .. } | Cause::NotLegal { .. } => {
                Kind::WrongLog
            }
            Cause::StoredAboveLimit { .. }
            | Cause::SourceMissing { .. }
            | Cause::SourceTooLarge { .. }
            | Cause::SourceChanged { .. }
            | Cause::FileDamaged { .. } => Kind::WrongFile,
            Cause::SiteFault { .. } => Kind::SiteBroke,
            Cause::RunnerFault { .. } => Kind::RunnerBroke,
            Cause::HallFault { .. } => Kind::HallBroke,
            Cause::SinkFault { .. } => Kind::SinkBroke,
            Cause::NoRoom { .. } | Cause::InputsTooLarge { .. } => Kind::PastLimit,
            Cause::Waited(_) => Kind::WaitedOut,
            Cause::Memory => Kind::NoMemory,
            Cause::LogFull { .. } => Kind::LogFilled,
        }
    }

    /// The exit status.
    pub fn status(&self) -> u8
        ensures { result ≡ status_of self.now }
    {
        self.kind().status()
    }

    /// The printed line, with its newline. At a fault of what takes the lines, and for a printed
    /// log, it has no bytes and takes no memory. Files have their names in the plan, and no bytes
    /// where the plan doesn't have them.
    pub fn line(&self, alloc: Global, plan: &Plan) -> Result<Bytes, Memory>
        ensures bytes { IfOk result (λ line. line ≡ line_of plan.now self.now) }
        ensures silent { OnFalse (is_printed (kind_of self.now)) (IsOk result) }
    {
        if !self.kind().is_printed() {
            return Ok(Bytes::from_vec(Vec::new(alloc)));
        }
        let Ok(text) = text_of(alloc, plan, self) else {
            return Err(Memory);
        };
        match around(alloc, b"makeflow: ", &text, b"\n") {
            Ok(line) => Ok(Bytes::from_vec(line)),
            Err(_) => Err(Memory),
        }
    }
}
