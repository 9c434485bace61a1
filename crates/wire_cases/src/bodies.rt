//! One body: the message that it is, what its view shows, and what is written of it.
use crate::text::{add, shown_fault, shown_message};
use std::alloc::{AllocError, Global};
use wq_messages::{Ended, Head, View, read_message, write_message};

// The most bytes of a body that is written.
const MOST_BODY: usize = 71_303_168;

fn ended_word(ended: Ended) -> &'static str {
    match ended {
        Ended::Success => "done of success",
        Ended::Failed(_) => "done of failure",
        Ended::NotRun => "done of nothing",
    }
}

fn head_word(head: Head) -> &'static str {
    match head {
        Head::Hello { .. } => "hello",
        Head::Put { .. } => "put",
        Head::Task => "task",
        Head::Done { ended, .. } => ended_word(ended),
        Head::Missing { .. } => "missing",
        Head::Cancel { .. } => "cancel",
        Head::Unlink { .. } => "unlink",
        Head::Totals { .. } => "totals",
        Head::Bye => "bye",
    }
}

// The head in a word, the lengths of the contents, and the number of missing files.
fn shown_view(alloc: Global, view: &View<'_>) -> Result<String, AllocError> {
    let head = head_word(view.head());
    let mut text = format!(in alloc; "{head}, contents")?;
    for at in 0..1025u32 {
        let Some(content) = view.content(at) else {
            break;
        };
        let len = content.len();
        add(&mut text, format!(in alloc; " {len}"))?;
    }
    let Ok(missing) = view.missing(alloc) else {
        return Err(AllocError);
    };
    let missing = missing.len();
    add(&mut text, format!(in alloc; ", missing {missing}"))?;
    Ok(text)
}

/// The message in words, its view, and in a third line what is written of it; or the fault.
pub fn shown_body(alloc: Global, body: &[u8]) -> Result<String, AllocError> {
    if body.len() > MOST_BODY {
        return String::from_str(alloc, "too long");
    }
    let view = match read_message(body) {
        Ok(view) => view,
        Err(fault) => return shown_fault(alloc, fault),
    };
    let shown = shown_view(alloc, &view)?;
    let Ok(message) = view.to_message(alloc) else {
        return Err(AllocError);
    };
    let Ok(written) = write_message(alloc, &message) else {
        return Err(AllocError);
    };
    let message = shown_message(alloc, &message)?;
    let written = hex::encode(alloc, written.as_slice())?;
    format!(in alloc; "{message}\n{shown}\n{written}")
}
