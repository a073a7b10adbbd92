//! A case: what the program is run on, and what that is to come to.
//!
//! A case is a paragraph of a file. Each line begins with a word that says what the rest of it is:
//!
//!     # a comment
//!     case NAME
//!     $ WORDS         the words of the program
//!     < TEXT          a line of the input; `<-` the same without its newline
//!     > TEXT          a line of standard output
//!     = TEXT          a line of both; of an entry, `EVENT = REPLY`, the input has the event alone
//!     ! TEXT          a line of standard error
//!     status N        the exit status, 0 if left out
//!     repeat N        the next of the lines above stands N times
//!     spaces N        the input goes on with N spaces
//!     byte N          the input goes on with this byte
//!     later TEXT      what comes if the input is read on after its end
//!     read N          the Nth read of the input fails
//!     write N         the Nth write to standard output fails: what comes before it is expected
//!     tell N          the same of standard error
//!     disk N          the Nth call of the disk fails, and each after it
//!     cut N           the file's last N bytes are cut off before the run
//!     poke AT BYTE    the file's byte at this place is this one before the run
//!     piece N         a read or a write takes at most N bytes
//!     each M N        the case is played with each number from M to N in the place of `@`
//!     meet            each launch waits until one of another pool waits, too
//!     text            standard output is a Text that `audit` accepts, with a line `job` for each job
//!     job END | END   what the job comes to: what its line goes on with after its names
//!     done END        the Text's next entry `done` ends so, and there is one for each such line
//!     then            one more run, over the file that the last one left; the lines after it say how

use std::alloc::{AllocError, Global};
use std::mem;

/// A case.
#[derive(Drop)]
pub struct Case<'a> {
    pub words: &'a str,
    pub input: Vec<u8>,
    pub later: &'a str,
    pub out: Vec<u8>,
    pub err: Vec<u8>,
    pub status: u64,
    /// The numbers of the calls that fail, 0 if none does.
    pub read: u32,
    pub write: u32,
    pub tell: u32,
    pub disk: u32,
    /// How many of the file's bytes are cut off.
    pub cut: usize,
    /// What is put into the file, and where.
    pub poke: Option<(usize, u8)>,
    /// The most bytes of a call.
    pub piece: usize,
    pub meets: bool,
    pub is_text: bool,
    /// A line for each job.
    pub jobs: Vec<u8>,
    /// A line for each entry `done`, if they are told.
    pub reports: Vec<u8>,
    /// Whether each line began with a word that is known.
    pub is_clear: bool,
    /// How often the next line stands.
    repeat: usize,
}

/// What a line says, and the word that it begins with.
fn parts(line: &str) -> (&str, &str) {
    line.split_once(' ').unwrap_or((line, ""))
}

fn number(text: &str) -> u64 {
    text.parse::<u64>().unwrap_or(0)
}

/// The number of a call.
fn call(text: &str) -> u32 {
    text.parse::<u32>().unwrap_or(0)
}

fn size(text: &str) -> usize {
    text.parse::<usize>().unwrap_or(0)
}

fn byte(text: &str) -> u8 {
    text.parse::<u8>().unwrap_or(0)
}

/// The name of the case with these lines. `None` if they are no case.
pub fn name_of(lines: &str) -> Option<&str> {
    lines
        .lines()
        .map(parts)
        .find(|(word, _)| *word == "case")
        .map(|(_, name)| name)
}

/// The numbers with which the case is played, the first and the last.
pub fn numbers_of(lines: &str) -> (u64, u64) {
    for line in lines.lines() {
        if let ("each", numbers) = parts(line) {
            let (first, last) = parts(numbers);
            return (number(first), number(last));
        }
    }
    (0, 0)
}

/// What stands in the input of an entry.
fn event_of(entry: &str) -> &str {
    match entry.split_once(" = ") {
        Some((event, _)) => event,
        None => entry,
    }
}

/// Appends a line as often as it stands.
fn put(text: &mut Vec<u8>, line: &str, times: usize) -> Result<(), AllocError> {
    for _ in 0..times {
        text.extend_from_slice(line.as_bytes())?;
        text.push(b'\n')?;
    }
    Ok(())
}

fn put_spaces(text: &mut Vec<u8>, count: usize) -> Result<(), AllocError> {
    text.reserve(count)?;
    for _ in 0..count {
        text.push(b' ')?;
    }
    Ok(())
}

impl<'a> Case<'a> {
    /// A case that says nothing.
    fn new(alloc: Global) -> Case<'a> {
        Case {
            words: "",
            input: Vec::new(alloc),
            later: "",
            out: Vec::new(alloc),
            err: Vec::new(alloc),
            status: 0,
            read: 0,
            write: 0,
            tell: 0,
            disk: 0,
            cut: 0,
            poke: None,
            piece: usize::MAX,
            meets: false,
            is_text: false,
            jobs: Vec::new(alloc),
            reports: Vec::new(alloc),
            is_clear: true,
            repeat: 1,
        }
    }

    /// The case that these lines say.
    pub fn read(alloc: Global, lines: &'a str) -> Result<Case<'a>, AllocError> {
        let mut case = Case::new(alloc);
        case.take_lines(lines)?;
        Ok(case)
    }

    /// The case that a text is audited, and accepted.
    pub fn audit(alloc: Global, text: &[u8]) -> Result<Case<'a>, AllocError> {
        let mut case = Case::new(alloc);
        case.words = "audit";
        case.input.extend_from_slice(text)?;
        put(&mut case.out, "yes", 1)?;
        Ok(case)
    }

    /// Takes out the input.
    pub fn take_input(&mut self, alloc: Global) -> Vec<u8> {
        mem::replace(&mut self.input, Vec::new(alloc))
    }

    fn take_lines(&mut self, lines: &'a str) -> Result<(), AllocError> {
        for line in lines.lines() {
            let (word, rest) = parts(line);
            let known = matches!(word, "#" | "case" | "each")
                || self.set(word, rest)
                || self.take_text(word, rest)?;
            self.is_clear = self.is_clear && known;
        }
        Ok(())
    }

    /// Takes in a line that says how the case is played, and returns whether it is one.
    fn set(&mut self, word: &str, rest: &'a str) -> bool {
        match word {
            "$" => self.words = rest,
            "status" => self.status = number(rest),
            "repeat" => self.repeat = size(rest),
            "later" => self.later = rest,
            "read" => self.read = call(rest),
            "write" => self.write = call(rest),
            "tell" => self.tell = call(rest),
            "disk" => self.disk = call(rest),
            "cut" => self.cut = size(rest),
            "poke" => {
                let (at, value) = parts(rest);
                self.poke = Some((size(at), byte(value)));
            }
            "piece" => self.piece = size(rest),
            "meet" => self.meets = true,
            "text" => self.is_text = true,
            _ => return false,
        }
        true
    }

    /// Takes in a line of the input or of what is printed, and returns whether it is one.
    fn take_text(&mut self, word: &str, rest: &str) -> Result<bool, AllocError> {
        match word {
            "<" => put(&mut self.input, rest, self.repeat)?,
            "<-" => self.input.extend_from_slice(rest.as_bytes())?,
            ">" => put(&mut self.out, rest, self.repeat)?,
            "=" => {
                put(&mut self.input, event_of(rest), self.repeat)?;
                put(&mut self.out, rest, self.repeat)?;
            }
            "!" => put(&mut self.err, rest, self.repeat)?,
            "job" => put(&mut self.jobs, rest, self.repeat)?,
            "done" => put(&mut self.reports, rest, self.repeat)?,
            "spaces" => put_spaces(&mut self.input, size(rest))?,
            "byte" => self.input.push(byte(rest))?,
            _ => return Ok(false),
        }
        self.repeat = 1;
        Ok(true)
    }
}
