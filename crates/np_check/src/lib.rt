//! What will surprise the author of a configuration, read of the configuration alone.
//!
//! `check` prints about a text: the findings, or the fault with its line and column. `findings`
//! gives all findings of a configuration: `specs/Report` lists what there could be to find, in
//! order, and says when each is true, in the machine's own definitions; `specs/Demand` has those
//! about pools and jobs. `specs/Report` has the line of each, too. What a low `max-ready-age` leads
//! to is measured; all else is certain by these definitions.
//!
//! `nearest` gives the key with the least edit distance, and `spot_of` the line and the column of a
//! byte. Where a JSON pointer points to (`place`) is tested, and only its safety is proved.
#![tactic(auto)]

mod demand;
mod find;
mod finding;
mod keys;
mod line;
mod near;
mod place;
mod ready;
mod report;
mod spot;
#[cfg(test)]
mod tests;
mod truth;

pub use find::findings;
pub use finding::Finding;
pub use near::{is_near, nearest};
pub use report::{Report, Verdict, check};
pub use spot::{Spot, spot_of};
pub use truth::is_true;
