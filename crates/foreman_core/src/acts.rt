//! What a foreman does at a step.
ghost use Rattle.std.specs.Prelude.{◌≡◌, [], ◌∷◌, IfOk, None, true};
ghost use Rattle.foreman_core.specs.Steps.{sending};

use flow_types::{LinkNo, Memory, Message, Rows};
use std::alloc::Global;

/// A message to the worker at a link.
#[derive(Drop)]
pub struct Down {
    pub link: LinkNo,
    pub message: Message,
}

/// What is to be sent up, what is to be sent down, which link is to be left, and whether the work
/// is over.
#[derive(Drop)]
pub struct ForemanActs {
    pub up: Rows<Message>,
    pub down: Rows<Down>,
    pub leave: Option<LinkNo>,
    pub bye: bool,
}

impl ForemanActs {
    pub(crate) fn sending(up: Rows<Message>, down: Rows<Down>) -> ForemanActs
        ensures { result ≡ sending up down }
    {
        ForemanActs {
            up,
            down,
            leave: None,
            bye: false,
        }
    }

    pub(crate) fn none(alloc: Global) -> ForemanActs
        ensures { result ≡ sending [] [] }
    {
        ForemanActs::sending(Rows::new(alloc), Rows::new(alloc))
    }

    pub(crate) fn telling(alloc: Global, message: Message) -> Result<ForemanActs, Memory>
        ensures { IfOk result (λ acts. acts ≡ sending (message ∷ []) []) }
    {
        let mut acts = ForemanActs::none(alloc);
        match acts.up.push(message) {
            Ok(()) => Ok(acts),
            Err(_) => Err(Memory),
        }
    }

    pub(crate) fn over(alloc: Global) -> ForemanActs
        ensures { result ≡ record { up = []; down = []; leave = None; bye = true } }
    {
        ForemanActs {
            up: Rows::new(alloc),
            down: Rows::new(alloc),
            leave: None,
            bye: true,
        }
    }
}
