//! Courses of a table over many rules. There are only tests here.
#![tactic(auto)]

#[cfg(test)]
mod courses;
#[cfg(test)]
mod flows;
