//! A foreman whose links are lost.
ghost use Rattle.std.specs.Prelude.{◌≡◌, IfOk, OnErr};
ghost use Rattle.std.specs.Vec.{vec_capacity};
ghost use Rattle.foreman_core.specs.Answers.{Leads};
ghost use Rattle.foreman_core.specs.Drafts.{led_of, parted};
ghost use Rattle.foreman_core.specs.Foremen.{others};
ghost use Rattle.foreman_core.specs.Steps.{drops, lost, loses};

use crate::acts::ForemanActs;
use crate::draft::{Draft, put_back};
use crate::foreman::ForemanCore;
use crate::links::{Below, Upstream, find_link};
use crate::parting::{gone_of, stay_of};
use crate::pins::release_all;
use flow_types::{LinkNo, Memory};
use std::alloc::Global;
use worker_cache::Cache;

// The totals of these workers go up, and what is gone, and the other attempts are placed where they
// fit. Without memory the workers are as before.
fn part(
    alloc: Global,
    next: u128,
    cache: &Cache,
    gone: &[Upstream],
    stay: &mut Vec<Upstream>,
    links: &mut Vec<Below>,
) -> Result<Draft, Memory>
    ensures parted { IfOk result (λ draft. led_of cache.now stay.new.items links.new.items draft
        ≡ parted (record {
          cache = cache.now;
          attempts = stay.old.items;
          links = links.old.items;
          next = next;
        }) gone.now) }
    ensures err { OnErr result (links.new.items ≡ links.old.items) }
    ensures capacity { vec_capacity links.new ≡ vec_capacity links.old }
{
    let mut draft = Draft::of(alloc, next);
    draft.state(links, cache.cap())?;
    draft.tell_all(gone)?;
    draft.settle(cache, stay, links)?;
    Ok(draft)
}

// The same without the workers at a link. Without memory they stand there again.
fn part_from(
    alloc: Global,
    next: u128,
    cache: &Cache,
    gone: &[Upstream],
    stay: &mut Vec<Upstream>,
    links: &mut Vec<Below>,
    link: LinkNo,
) -> Result<Draft, Memory>
    ensures parted { IfOk result (λ draft. led_of cache.now stay.new.items links.new.items draft
        ≡ parted (record {
          cache = cache.now;
          attempts = stay.old.items;
          links = others link links.old.items;
          next = next;
        }) gone.now) }
    ensures err { OnErr result (links.new.items ≡ links.old.items) }
    ensures capacity { vec_capacity links.new ≡ vec_capacity links.old }
{
    let Some(on) = find_link(links, link) else {
        return part(alloc, next, cache, gone, stay, links);
    };
    let lost = links.remove(on);
    match part_from(alloc, next, cache, gone, stay, links, link) {
        Ok(draft) => Ok(draft),
        Err(_) => {
            put_back(links, on, lost);
            Err(Memory)
        }
    }
}

impl ForemanCore {
    // The worker at a link is gone.
    fn lose(&mut self, link: LinkNo) -> Result<ForemanActs, Memory>
        ensures { Leads (lost self.old link) self.old result self.new }
    {
        let gone = gone_of(self.alloc, &self.cache, &self.links, link, &self.attempts)?;
        let mut stay = stay_of(self.alloc, &self.cache, &self.links, link, &self.attempts)?;
        let draft = part_from(
            self.alloc,
            self.next,
            &self.cache,
            &gone,
            &mut stay,
            &mut self.links,
            link,
        )?;
        self.attempts = stay;
        let acts = draft.done(&mut self.next);
        release_all(&mut self.cache, &gone);
        Ok(acts)
    }

    /// What the foreman does where a link is lost. Where no worker is at it, nothing. Without
    /// memory nothing changes. It costs one copy of each attempt, and one of a worker's session for
    /// each task that is sent to it then.
    pub fn on_lost(&mut self, link: LinkNo) -> Result<ForemanActs, Memory>
        ensures { Leads (loses self.old link) self.old result self.new }
    {
        if find_link(&self.links, link).is_some() {
            self.lose(link)
        } else {
            Ok(ForemanActs::none(self.alloc))
        }
    }

    // The link is to be left, and is lost.
    pub(crate) fn leave(&mut self, link: LinkNo) -> Result<ForemanActs, Memory>
        ensures { Leads (drops self.old link) self.old result self.new }
    {
        let mut acts = self.on_lost(link)?;
        acts.leave = Some(link);
        Ok(acts)
    }
}
