//! The lines that report a script's fault.

ghost use Rattle.std.specs.Prelude.{◌≡◌, ◌++◌, codes, IfOk, OnOk};
ghost use Rattle.np_replay.specs.Lines.{kind_text, config_line, fault_text, numbered_line, lines_line, script_line, script_status};

use np_event::LineFault;
use np_json::{ConfigFault, ConfigKind};
use np_report::{LinesFault, ScriptFault};
use np_text::{Ample, NoMemory, put_number};
use std::alloc::Global;

fn kind_name(kind: ConfigKind) -> &'static [u8]
    ensures { result.now ≡ kind_text kind }
{
    match kind {
        ConfigKind::NotJson => b"not-json",
        ConfigKind::Missing => b"missing",
        ConfigKind::UnknownKey => b"unknown-key",
        ConfigKind::WrongType => b"wrong-type",
        ConfigKind::OutOfRange => b"out-of-range",
        ConfigKind::BadName => b"bad-name",
        ConfigKind::Repeated => b"repeated",
        ConfigKind::UnknownName => b"unknown-name",
        ConfigKind::TooMany => b"too-many",
    }
}

/// The line of a configuration's fault.
#[tactic(auto, unfolding(crate::specs::Lines::config_line))]
pub fn line_of_config(alloc: Global, fault: &ConfigFault) -> Result<Vec<u8>, NoMemory>
    ensures { IfOk result (λ line. line.items ≡ config_line fault.now) }
{
    let mut line = Vec::from_slice(alloc, b"poolsim: configuration: ")?;
    line.extend_from_slice(kind_name(fault.kind))?;
    line.extend_from_slice(b" #")?;
    line.extend_from_slice(fault.pointer.items())?;
    line.push(b'\n')?;
    Ok(line)
}

fn put_fault(line: &mut Vec<u8>, fault: LineFault) -> Ample
    ensures { OnOk result (line.new.items ≡ line.old.items ++ fault_text fault) }
{
    match fault {
        LineFault::UnknownEvent => {
            line.extend_from_slice(b"unknown-event")?;
            Ok(())
        }
        LineFault::WrongCount => {
            line.extend_from_slice(b"wrong-count")?;
            Ok(())
        }
        LineFault::BadArgument { word } => {
            line.extend_from_slice(b"bad-argument ")?;
            put_number(line, u64::from(word))?;
            Ok(())
        }
    }
}

/// The line that says what is wrong with the line of a number. It begins so.
#[tactic(auto, unfolding(crate::specs::Lines::numbered_line))]
pub(crate) fn line_of_number(
    alloc: Global,
    start: &[u8],
    number: u32,
    fault: LineFault,
) -> Result<Vec<u8>, NoMemory>
    ensures { IfOk result (λ line. line.items ≡ numbered_line start.now number (fault_text fault)) }
{
    let mut line = Vec::from_slice(alloc, start)?;
    put_number(&mut line, u64::from(number))?;
    line.extend_from_slice(b": ")?;
    put_fault(&mut line, fault)?;
    line.push(b'\n')?;
    Ok(line)
}

/// The line that says that the line of a number is one too many. It begins so.
#[tactic(auto, unfolding(crate::specs::Lines::numbered_line))]
pub(crate) fn line_of_too_many(
    alloc: Global,
    start: &[u8],
    number: u32,
) -> Result<Vec<u8>, NoMemory>
    ensures { IfOk result (λ line. line.items ≡ numbered_line start.now number (codes "too-many")) }
{
    let mut line = Vec::from_slice(alloc, start)?;
    put_number(&mut line, u64::from(number))?;
    line.extend_from_slice(b": too-many\n")?;
    Ok(line)
}

/// The line of the first event line that is at fault, or one too many.
pub fn line_of_lines(alloc: Global, fault: &LinesFault<LineFault>) -> Result<Vec<u8>, NoMemory>
    ensures { IfOk result (λ line. line.items ≡ lines_line fault.now) }
{
    match fault {
        LinesFault::Line { line, fault } => {
            line_of_number(alloc, b"poolsim: script: line ", *line, *fault)
        }
        LinesFault::TooMany { line } => line_of_too_many(alloc, b"poolsim: script: line ", *line),
    }
}

/// The line of a script's fault. The time and the memory grow with the pointer of a fault of the
/// configuration.
pub fn line_of_script(alloc: Global, fault: &ScriptFault) -> Result<Vec<u8>, NoMemory>
    ensures { IfOk result (λ line. line.items ≡ script_line fault.now) }
{
    match fault {
        ScriptFault::Config(fault) => line_of_config(alloc, fault),
        ScriptFault::NoSeparator => {
            Ok(Vec::from_slice(alloc, b"poolsim: script: no separator\n")?)
        }
        ScriptFault::Lines(fault) => line_of_lines(alloc, fault),
    }
}

/// The status of a script's fault: 3 for one of the configuration, otherwise 4.
pub fn status_of_script(fault: &ScriptFault) -> u8
    ensures { result ≡ script_status fault.now }
{
    match fault {
        ScriptFault::Config(_) => 3,
        ScriptFault::NoSeparator | ScriptFault::Lines(_) => 4,
    }
}
