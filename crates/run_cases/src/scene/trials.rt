//! Calls over each crash of a row of crashes, and over each fault.
use super::{NO_RUNNER, Scene, call};
use crate::answers::shown_outcome;
use crate::steps::Steps;
use crate::words::{first, number_of, words_of};
use flow_types::Rows;
use mem_links::MemHall;
use mem_outside::{MemSink, MemSite};
use std::alloc::{AllocError, Global};
use std::sync::Wait;
use std::thread::Threads;

// No site makes so many calls.
const NEVER: u64 = u64::MAX;

impl Scene {
    // Makes a call over what each crash leaves. Nobody comes to it.
    pub(super) fn each_crash<W: Threads + Wait + Sync>(
        &mut self,
        rt: &W,
        alloc: Global,
        line: &str,
    ) -> Result<Option<String>, AllocError> {
        let (choice, rest) = first(line);
        let (calls, rest) = first(rest);
        let (Some(choice), Some(calls)) = (number_of(choice), number_of(calls)) else {
            return Ok(None);
        };
        let words = words_of(alloc, rest)?;
        let mut steps = Steps::new(alloc);
        for crash in 0..calls {
            let site = self.image(alloc, crash, choice)?;
            let outcome = self.outcome(rt, alloc, &words, site)?;
            steps.add(alloc, crash, outcome)?;
        }
        Ok(Some(steps.into_text()))
    }

    // Makes a call with each fault.
    pub(super) fn each_fault<W: Threads + Wait + Sync>(
        &mut self,
        rt: &W,
        alloc: Global,
        line: &str,
    ) -> Result<Option<String>, AllocError> {
        let (calls, rest) = first(line);
        let Some(calls) = number_of(calls) else {
            return Ok(None);
        };
        let words = words_of(alloc, rest)?;
        let mut steps = Steps::new(alloc);
        for fault in 0..calls {
            let mut site = self.image(alloc, NEVER, 1)?;
            if site.fail_at(fault).is_err() {
                return Err(AllocError);
            }
            let outcome = self.outcome(rt, alloc, &words, site)?;
            steps.add(alloc, fault, outcome)?;
        }
        Ok(Some(steps.into_text()))
    }

    // How a call over another site ends, and which files it leaves otherwise than they were shown.
    fn outcome<W: Threads + Wait + Sync>(
        &mut self,
        rt: &W,
        alloc: Global,
        words: &[String],
        site: MemSite,
    ) -> Result<String, AllocError> {
        let mut sink = MemSink::new(alloc);
        let mut hall = MemHall::new(alloc, Rows::new(alloc));
        let Some(ended) = call(
            rt,
            alloc,
            words,
            &self.env,
            site,
            &mut hall,
            &mut self.runners,
            &self.clock,
            &mut sink,
        ) else {
            return String::from_str(alloc, NO_RUNNER);
        };
        let mut text = shown_outcome(alloc, &ended)?;
        let changes = self.files.changes(alloc, &ended.site)?;
        text.push_str(&changes)?;
        Ok(text)
    }
}
