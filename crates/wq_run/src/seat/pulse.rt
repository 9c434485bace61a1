//! How a worker has done of late, by which it is asked for more or not. No contract of this crate
//! speaks of it: it decides when something is asked, and never what is true of it.

use flow_types::Amounts;
use peer_health::{Health, Quiet};
use peers::Told;

/// The idle limit where none was given. A lower one finds by itself who is gone, and counts anew
/// behind each word.
const NO_LIMIT: u32 = 1_000_000_000;

/// What a peer offers.
#[derive(Clone, Copy)]
pub(crate) struct Offer {
    pub(crate) total: Amounts,
    pub(crate) largest: Amounts,
    pub(crate) cache: u64,
}

/// How a worker has done of late.
#[derive(Drop)]
pub(super) struct Pulse {
    // What it offered last, and whether that is something else than what it offered before.
    offer: Offer,
    is_news: bool,
    // How its attempts have ended, and whether it rests.
    health: Health,
    // How many turns ago something was said.
    quiet: Quiet,
}

fn is_same(one: &Amounts, other: &Amounts) -> bool {
    one.cores == other.cores && one.memory == other.memory && one.disk == other.disk
}

fn is_equal(one: &Offer, other: &Offer) -> bool {
    is_same(&one.total, &other.total)
        && is_same(&one.largest, &other.largest)
        && one.cache == other.cache
}

impl Pulse {
    /// A worker that joined with this offer.
    pub fn new(offer: Offer) -> Pulse {
        Pulse {
            offer,
            is_news: false,
            health: Health::new(),
            quiet: Quiet::new(),
        }
    }

    /// Whether what it offered last is something else than what it offered before.
    pub fn has_news(&self) -> bool {
        self.is_news
    }

    // It offers this from now on.
    fn offers(&mut self, offer: Offer) {
        self.is_news = !is_equal(&self.offer, &offer);
        self.offer = offer;
    }

    /// Something was said.
    pub fn said(&mut self) {
        self.quiet.say();
    }

    /// The peer told this.
    pub fn heard(&mut self, told: &Told) {
        match told {
            Told::Changed {
                total,
                largest,
                cache,
            } => self.offers(Offer {
                total: *total,
                largest: *largest,
                cache: *cache,
            }),
            Told::Lose(_) => self.health.lose(),
            Told::Finish { .. } | Told::Fail { .. } => self.health.recover(),
            _ => {}
        }
    }

    /// A second has gone by.
    pub fn beat(&mut self) {
        self.health.beat();
        self.quiet.beat();
    }

    /// Whether nothing was said for a minute, and no idle limit was given.
    pub fn wants_word(&self, limit: u32) -> bool {
        limit >= NO_LIMIT && self.quiet.is_long()
    }

    /// Whether it is to be given nothing now: it rests, or it is sick and something runs there.
    pub fn is_resting(&self, is_idle: bool) -> bool {
        self.health.is_resting(is_idle)
    }
}
