//! Limits of a flow that no text can pass. There are only tests here.
#![tactic(auto)]

#[cfg(test)]
mod tests;
