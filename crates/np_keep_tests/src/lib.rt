//! Tests of what `keep` and `resume` stand on: the words of the command line, disks and logs.
//!
//! As in np_low_tests, a test is tables and functions that answer a `bool`, with one `assert!` each.
//!
//! Tests of np_desk: threads that take turns side by side.
#![tactic(auto)]

// Whether each row passes the test.
macro_rules! every {
    ($row:pat in $rows:expr => $test:expr) => {{
        for $row in $rows {
            if !$test {
                return false;
            }
        }
        true
    }};
}

#[cfg(test)]
mod crowds;
#[cfg(test)]
mod desks;
#[cfg(test)]
mod disks;
#[cfg(test)]
mod logs;
#[cfg(test)]
mod words;
