//! A case: a script, and lines of what is printed of its run.
//!
//! A case is a paragraph of a file. Each line begins with a word that says what the rest of it is:
//!
//!     # a comment
//!     case NAME
//!     < TEXT          a line of the script
//!     text            the script is the input as it is, and not the Text of its run
//!     state N         the tables after N entries are printed, and not the explanation
//!     check           the input is checked as a configuration
//!     > TEXT          a line that is printed, after its spaces; those of a case come in this order
//!     - TEXT          a line that is not printed
//!     ! TEXT          a line of standard error, after its spaces; these too come in this order
//!     status N        the exit status, 0 if left out

use np_explain::{Asked, Query};
use std::alloc::{AllocError, Global};

/// A case.
#[derive(Drop)]
pub struct Case<'a> {
    /// The lines of the case.
    pub lines: &'a str,
    pub script: Vec<u8>,
    pub is_text: bool,
    pub asked: Asked,
    pub status: u8,
}

/// What a line says, and the word that it begins with.
fn parts(line: &str) -> (&str, &str) {
    line.split_once(' ').unwrap_or((line, ""))
}

/// The name of the case with these lines. `None` if they are no case.
pub fn name_of(lines: &str) -> Option<&str> {
    lines
        .lines()
        .map(parts)
        .find(|(word, _)| *word == "case")
        .map(|(_, name)| name)
}

/// Whether lines of the text are these, in this order, among others.
fn has_lines(text: &str, lines: &str, word: &str) -> bool {
    let mut printed = text.lines();
    for line in lines.lines() {
        let (first, rest) = parts(line);
        if first == word && !printed.any(|other| other.trim_start() == rest) {
            return false;
        }
    }
    true
}

/// Whether no line of the text is one of these.
fn lacks_lines(text: &str, lines: &str) -> bool {
    for line in lines.lines() {
        let (first, rest) = parts(line);
        if first == "-" && text.lines().any(|other| other.trim_start() == rest) {
            return false;
        }
    }
    true
}

impl<'a> Case<'a> {
    /// The case that these lines say.
    pub fn read(alloc: Global, lines: &'a str) -> Result<Case<'a>, AllocError> {
        let mut case = Case {
            lines,
            script: Vec::new(alloc),
            is_text: false,
            asked: Asked::Text(Query::Explanation),
            status: 0,
        };
        for line in lines.lines() {
            case.take_line(line)?;
        }
        Ok(case)
    }

    fn take_line(&mut self, line: &str) -> Result<(), AllocError> {
        let (word, rest) = parts(line);
        match word {
            "<" => {
                self.script.extend_from_slice(rest.as_bytes())?;
                self.script.push(b'\n')?;
            }
            "text" => self.is_text = true,
            "state" => {
                let entries = rest.parse::<u32>().unwrap_or(0);
                self.asked = Asked::Text(Query::State { entries });
            }
            "check" => {
                self.asked = Asked::Check;
                self.is_text = true;
            }
            "status" => self.status = rest.parse::<u8>().unwrap_or(0),
            _ => {}
        }
        Ok(())
    }

    /// Whether this was printed as the case says.
    pub fn is_as_said(&self, status: u8, out: &[u8], err: &[u8]) -> bool {
        let Ok(out) = std::str::from_utf8(out) else {
            return false;
        };
        let Ok(err) = std::str::from_utf8(err) else {
            return false;
        };
        status == self.status
            && has_lines(out, self.lines, ">")
            && lacks_lines(out, self.lines)
            && has_lines(err, self.lines, "!")
    }
}
