//! Laws of links that serve, each the contract of a function that does nothing.
ghost use Rattle.mem_links.specs.Laws.{OneThatServesMans, ServingIsSure};

use outside::Commands;

/// Where each output of each command is empty, a link that serves is sure, and a hall that gives
/// one such link is manned for what the link has.
pub fn a_link_that_serves_is_sure<F: Commands>()
    ensures sure { ServingIsSure F.gives F.may_fail }
    ensures manned { OneThatServesMans F.gives F.may_fail }
{}
