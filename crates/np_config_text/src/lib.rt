//! The one text of a configuration: compact JSON, which is read as that configuration.
//!
//! `specs/Canonical` says which text a configuration has, and np_config_read's `specs/Walk` what a
//! text is read as; `config_text` prints the first, and guarantees that the second gives the
//! configuration back. An example of both is in `specs/Canonical`, with its law in `law`.
//!
//! Another law says that the text is shorter than 2^32 bytes. `proofs/Short` bounds the text
//! of any JSON value without floats by its parts, and `proofs/Short` that of each row.
#![tactic(auto)]

mod law;
mod names;
mod rows;
mod text;
mod value;

pub use law::{a_canonical_text_is_short, a_worked_text_is_read_and_printed};
pub use text::config_text;
