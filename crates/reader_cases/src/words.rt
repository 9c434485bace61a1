//! Command lines of the three programs, and what they choose.
use cases::shown;
use command_words::{
    Flow, ForemanOptions, Language, Limits, Mode, Options, Service, Transport, WordsFault, Work,
    WorkerOptions, read_foreman_words, read_words, read_worker_words,
};
use flow_types::{Amounts, Name};
use std::alloc::{AllocError, Global};

// The words of a line, between blanks.
fn words_of(alloc: Global, line: &str) -> Result<Vec<String>, AllocError> {
    let mut words = Vec::new(alloc);
    for part in line.split_whitespace() {
        let word = if part == "''" { "" } else { part };
        words.push(String::from_str(alloc, word)?)?;
    }
    Ok(words)
}

fn shown_fault(alloc: Global, fault: WordsFault) -> Result<String, AllocError> {
    match fault {
        WordsFault::Usage => String::from_str(alloc, "usage"),
        WordsFault::Memory => Err(AllocError),
    }
}

fn shown_service(alloc: Global, service: &Service) -> Result<String, AllocError> {
    let transport = match service.transport {
        Transport::Local => "local",
        Transport::WorkQueue => "wq",
    };
    let (port, jobs) = (service.port, service.jobs);
    format!(in alloc; "{transport} {port} {jobs}")
}

fn shown_limits(alloc: Global, limits: &Limits) -> Result<String, AllocError> {
    let (retries, idle) = (limits.retries, limits.idle);
    match limits.storage {
        Some(storage) => format!(in alloc; "{retries} {storage} {idle}"),
        None => format!(in alloc; "{retries} - {idle}"),
    }
}

fn shown_amounts(alloc: Global, amounts: &Amounts) -> Result<String, AllocError> {
    let (cores, memory, disk) = (amounts.cores, amounts.memory, amounts.disk);
    format!(in alloc; "{cores} {memory} {disk}")
}

fn shown_name(alloc: Global, name: &Name) -> Result<String, AllocError> {
    shown(alloc, name.as_bytes())
}

fn shown_flow(alloc: Global, flow: &Flow) -> Result<String, AllocError> {
    match flow {
        Flow::File { name, language } => {
            let language = match language {
                Language::Make => "make",
                Language::Jx => "jx",
            };
            let name = shown_name(alloc, name)?;
            format!(in alloc; "{language} {name}")
        }
        Flow::Generated { rules } => {
            let rules = *rules;
            format!(in alloc; "generated {rules}")
        }
    }
}

fn mode_word(mode: Mode) -> &'static str {
    match mode {
        Mode::Never => "never",
        Mode::RefCount => "counted",
        Mode::OnDemand => "demanded",
    }
}

fn work_word(work: Work) -> &'static str {
    match work {
        Work::Run => "run",
        Work::Clean => "clean",
        Work::PrintLog => "print",
    }
}

fn shown_options(alloc: Global, options: &Options) -> Result<String, AllocError> {
    let service = shown_service(alloc, &options.service)?;
    let limits = shown_limits(alloc, &options.limits)?;
    let local = shown_amounts(alloc, &options.local)?;
    let (mode, work) = (mode_word(options.mode), work_word(options.work));
    let flow = shown_flow(alloc, &options.flow)?;
    let log = shown_name(alloc, &options.log)?;
    format!(in alloc; "{service}; {limits}; {local}; {mode} {work}; {flow}; {log}")
}

fn shown_worker(alloc: Global, options: &WorkerOptions) -> Result<String, AllocError> {
    let total = shown_amounts(alloc, &options.total)?;
    let (cache, host, port) = (options.cache, options.host.as_str(), options.port);
    format!(in alloc; "{total}; {cache}; [{host}] {port}")
}

fn shown_foreman(alloc: Global, options: &ForemanOptions) -> Result<String, AllocError> {
    let (listening, cache) = (options.listening, options.cache);
    let (host, port) = (options.host.as_str(), options.port);
    format!(in alloc; "{listening}; {cache}; [{host}] {port}")
}

// The options of a line, in the order of their fields, or its fault.
fn answer(alloc: Global, line: &str) -> Result<String, AllocError> {
    let Some((program, rest)) = line.split_once(':') else {
        return String::from_str(alloc, "no program");
    };
    let words = words_of(alloc, rest)?;
    match program {
        "makeflow" => match read_words(alloc, &words) {
            Ok(options) => shown_options(alloc, &options),
            Err(fault) => shown_fault(alloc, fault),
        },
        "worker" => match read_worker_words(alloc, &words) {
            Ok(options) => shown_worker(alloc, &options),
            Err(fault) => shown_fault(alloc, fault),
        },
        "foreman" => match read_foreman_words(alloc, &words) {
            Ok(options) => shown_foreman(alloc, &options),
            Err(fault) => shown_fault(alloc, fault),
        },
        _ => String::from_str(alloc, "no program"),
    }
}

/// The options that each line chooses, a line each. A line is `makeflow: WORDS`, `worker: WORDS` or
/// `foreman: WORDS`, where the first word is the program's name and `''` stands for an empty word.
pub(crate) fn words_shown(alloc: Global, text: &str) -> Result<String, AllocError> {
    let mut shown = String::new(alloc);
    for line in text.lines() {
        let options = answer(alloc, line)?;
        shown.push_str(&options)?;
        shown.push_str("\n")?;
    }
    Ok(shown)
}
