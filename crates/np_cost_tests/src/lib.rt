//! Tests of what a call costs, which no clause says: how often it asks the state.
//!
//! `counted` has rows and searches that count each call, `scenes` the sites, each with few jobs or
//! with many, and `costs` the calls: none may take more looks where more waits. `ranks` counts at how
//! many ids a search for a rank looks, which is the logarithm of their number.
#![tactic(auto)]

#[cfg(test)]
mod costs;
#[cfg(test)]
mod counted;
#[cfg(test)]
mod ranks;
#[cfg(test)]
mod scenes;
