//! Logs in memory, and what a crash or damage leaves of them. There are only tests here.
#![tactic(auto)]

#[cfg(test)]
mod damage;
#[cfg(test)]
mod tests;
