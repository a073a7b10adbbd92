//! The audit, and what it finds.

ghost use Rattle.std.specs.Prelude.{◌≡◌, ◌<◌, ◌^◌, ◌-◌, [], IfOk};
ghost use Rattle.np_report.specs.Lower.{IsSound, reads};
ghost use Rattle.np_report.specs.Summary.{played, later_lines, leading_events};
ghost use Rattle.np_report.specs.Told.{IsPrinted};
ghost use Rattle.np_report.specs.Agreement.{finding_of, newlines};
ghost use Rattle.np_report.specs.Audit.{BeginsAText, IsSo};

use crate::agreement::common_lines;
use crate::entries::{leading_events, split_line};
use crate::{Script, read_config, text_of_script};
use np_config::Config;
use np_config_text::a_worked_text_is_read_and_printed;
use np_text::NoMemory;
use std::alloc::Global;

/// What an audit finds of bytes.
#[derive(Clone, Copy, Debug, PartialEq, Eq)]
pub enum Finding {
    /// They are the Text of a run.
    Yes,
    /// They are no such Text. The line, from 1, is the first that is wrong: some Text begins with
    /// the lines before it, but none continues with it, or it lacks its newline, or it is missing.
    No { line: u32 },
}

/// It does nothing: as there is a Text, one begins with no bytes.
fn there_is_a_text()
    ensures { BeginsAText [] }
{
    a_worked_text_is_read_and_printed();
}

/// The Text of the run whose entries come after the first line of `rest`.
fn text_behind(alloc: Global, config: Config, rest: &[u8]) -> Result<Vec<u8>, NoMemory>
    requires { IsSound config }
    ensures { IfOk result (λ text.
        IsPrinted config (played config (leading_events (later_lines rest.now))) text.items) }
{
    let (_, entries) = split_line(rest);
    let events = leading_events(alloc, entries)?;
    text_of_script(alloc, Script { config, events })
}

fn compare(text: &[u8], bytes: &[u8]) -> Finding
    requires { newlines text.now < 2 ^ 32 - 1 }
    ensures { result ≡ finding_of text.now bytes.now }
{
    if text == bytes {
        return Finding::Yes;
    }
    Finding::No {
        line: common_lines(text, bytes) + 1,
    }
}

/// Whether the bytes are the Text of a run of the machine, and otherwise which of their lines is
/// the first that is wrong. The memory grows with the bytes and with the run's state; the time is
/// that of playing the run.
pub fn audit(alloc: Global, bytes: &[u8]) -> Result<Finding, NoMemory>
    ensures { IfOk result (λ finding. IsSo finding bytes.now) }
{
    let (first, rest) = split_line(bytes);
    match read_config(alloc, first)? {
        Ok(config) => {
            let text = text_behind(alloc, config, rest)?;
            Ok(compare(text.as_slice(), bytes))
        }
        Err(_) => {
            there_is_a_text();
            Ok(Finding::No { line: 1 })
        }
    }
}
