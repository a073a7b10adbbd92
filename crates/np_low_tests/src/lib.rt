//! The tests of the low crates: of texts and amounts, events' lines, records and configurations, the
//! coordination tree with its paths, lists and locks, streams, and clouds.
//!
//! They are what no clause says: values from documents, printed text, that calls succeed with ample
//! memory, and full sizes. Most of a test is a function that answers a `bool`, with one `assert!` in
//! the test: at each way out of a function, what it owns has to be shown given back.
#![tactic(auto)]

// Whether each row passes the test.
macro_rules! every {
    ($row:pat in $rows:expr => $test:expr) => {{
        for $row in $rows {
            if !$test {
                return false;
            }
        }
        true
    }};
}

#[cfg(test)]
mod amounts;
#[cfg(test)]
mod clouds;
#[cfg(test)]
mod configurations;
#[cfg(test)]
mod lines;
#[cfg(test)]
mod locks;
#[cfg(test)]
mod paths;
#[cfg(test)]
mod records;
#[cfg(test)]
mod sessions;
#[cfg(test)]
mod shelves;
#[cfg(test)]
mod streams;
#[cfg(test)]
mod texts;
#[cfg(test)]
mod trees;
