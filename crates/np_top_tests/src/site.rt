//! A generated site. What is expected was made by another program, written after the same
//! description.

use np_config_text::config_text;
use np_gen::drill;
use np_text::NoMemory;
use std::alloc::Global;

/// The text of the site of twelve jobs.
pub fn of_twelve_jobs(alloc: Global) -> Result<Vec<u8>, NoMemory> {
    config_text(alloc, &drill(alloc, 12)?)
}
