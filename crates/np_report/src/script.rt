//! Reading a script.

ghost use Rattle.std.specs.Prelude.{◌≡◌, IfOk};
ghost use Rattle.np_report.specs.Lower.{reads};
ghost use Rattle.np_report.specs.Script.{script_of, event_said, IsPlayable};

use crate::lines::{FromLine, LinesFault, read_lines};
use np_config::Config;
use np_event::{Event, LineFault, read_event};
use np_json::{ConfigFault, ConfigRead};
use np_lists::Items;
use np_text::{JOURNAL_ENTRIES, NoMemory, split_sections};
use std::alloc::Global;

/// The events of a script, in order.
pub type EventList = Items<Event>;

/// A configuration and the events to play over it.
#[derive(Drop)]
pub struct Script {
    pub config: Config,
    pub events: EventList,
}

/// Why a script cannot be played.
#[derive(Drop)]
pub enum ScriptFault {
    /// The configuration has this fault.
    Config(ConfigFault),
    /// No line is exactly `%%`.
    NoSeparator,
    /// An event line has a fault, or is one more than 262,144.
    Lines(LinesFault<LineFault>),
}

impl FromLine for Event {
    type Fault = LineFault;

    ghost said = { event_said };

    fn from_line(line: &[u8]) -> Result<Event, LineFault> {
        read_event(line)
    }
}

/// Reads a configuration, or its first fault.
pub fn read_config(alloc: Global, bytes: &[u8]) -> Result<Result<Config, ConfigFault>, NoMemory>
    ensures { IfOk result (λ read. read ≡ reads bytes.now) }
{
    match np_config_read::read_config(alloc, bytes) {
        Ok(config) => Ok(Ok(config)),
        Err(ConfigRead::Fault(fault)) => Ok(Err(fault)),
        Err(ConfigRead::NoMemory) => Err(NoMemory),
    }
}

/// Reads a script: the configuration before the first line that is exactly `%%`, and the event
/// lines after it. The first fault comes in this order: the configuration's (if no line is `%%`,
/// the whole text's); then the missing separator; then the first event line that is at fault, or
/// that is one more than 262,144. The last line may lack its newline. The time grows with the text.
#[tactic(auto, unfolding(crate::specs::Script::script_of))]
pub fn read_script(alloc: Global, bytes: &[u8]) -> Result<Result<Script, ScriptFault>, NoMemory>
    ensures exact { IfOk result (λ read. read ≡ script_of bytes.now) }
    ensures playable { IfOk result (λ read. IfOk read IsPlayable) }
{
    let Some((before, after)) = split_sections(bytes) else {
        return match read_config(alloc, bytes)? {
            Ok(_) => Ok(Err(ScriptFault::NoSeparator)),
            Err(fault) => Ok(Err(ScriptFault::Config(fault))),
        };
    };
    let config = match read_config(alloc, before)? {
        Ok(config) => config,
        Err(fault) => return Ok(Err(ScriptFault::Config(fault))),
    };
    match read_lines(alloc, after, JOURNAL_ENTRIES as u32)? {
        Ok(events) => Ok(Ok(Script { config, events })),
        Err(fault) => Ok(Err(ScriptFault::Lines(fault))),
    }
}
