//! Runs of a pool over runners in memory. There are only tests here.
#![tactic(auto)]

#[cfg(test)]
mod jobs;
#[cfg(test)]
mod meeting;
#[cfg(test)]
mod served;
