//! Reading a configuration from the bytes of a JSON text.
//!
//! `specs/Walk` says what configuration the bytes are, or their first fault; `read_config` returns
//! just that, unless memory runs out. What an absent key stands for is in `specs/Requesters`,
//! examples of texts with a fault in `specs/FirstFaults`; the laws on them are in `law`.
#![tactic(auto)]

mod faults;
mod labels;
mod law;
mod names;
mod providers;
mod requesters;
mod tenants;
mod walk;

pub use law::{an_absent_key_has_its_default, texts_have_their_first_faults};
pub use names::full_name;
pub use np_json::{ConfigFault, ConfigKind, ConfigRead, Pointer};
pub use walk::read_config;
