//! Tests of what plays the machine: the tables, the tree, choices and the board, compared with one
//! another, and worked cases of launchers that plan.
//!
//! `sites` has the sites that several modules play, and `lines` the lines of events and entries.
//!
//! `tree_scripts` plays tables of lines over a bare tree (`bare`), `choices` plays whole sites by
//! choices at the board and repeats what happened over tables and over a bare tree, `turns` asks the
//! board for turns, and `restored` reads machines back from their trees and goes on there. Each test
//! is a table, and one function that answers whether a row of it is as it says: a check that fails
//! where many values are owned is dear to prove.
//!
//! `plan_script` says what a case of plans is: a site, the steps at its board, each with its answer,
//! and what is left in the end. `plan_cases` has tables of them, and `plan_play` plays one.
#![tactic(auto)]

// Whether each row passes the test.
macro_rules! every {
    ($row:pat in $rows:expr => $test:expr) => {{
        for $row in $rows {
            if !$test {
                return false;
            }
        }
        true
    }};
}

#[cfg(test)]
mod bare;
#[cfg(test)]
mod choices;
#[cfg(test)]
mod equal;
#[cfg(test)]
mod index;
#[cfg(test)]
mod lines;
#[cfg(test)]
mod plan_cases;
#[cfg(test)]
mod plan_play;
#[cfg(test)]
mod plan_script;
#[cfg(test)]
mod restored;
#[cfg(test)]
mod sites;
#[cfg(test)]
mod tree_scripts;
#[cfg(test)]
mod turns;
