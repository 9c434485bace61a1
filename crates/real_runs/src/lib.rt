//! Calls of the outside of this machine, in a folder of it. There are only tests here.
#![tactic(auto)]

#[cfg(test)]
mod crash;
#[cfg(test)]
mod shared;
