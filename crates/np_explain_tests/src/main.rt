//! Tests of the explanation as data: each case is a site that was made for one cause of waiting or
//! failing, and has the lines that must appear.
//!
//! The words of this program name files of cases in `data/`; `case` says how to read them.
#![tactic(auto)]

mod case;

use case::Case;
use np_explain::{Silent, explain};
use np_io::{MemSink, MemSource};
use np_report::{read_script, text_of_script};
use np_text::NoMemory;
use std::alloc::Global;
use std::{fs, io};

/// What is explained: the script's Text, or the script itself if it can't be played.
fn input(alloc: Global, case: &Case) -> Result<Vec<u8>, NoMemory> {
    let bytes = case.script.as_slice();
    if case.is_text {
        return Ok(Vec::from_slice(alloc, bytes)?);
    }
    match read_script(alloc, bytes)? {
        Ok(script) => text_of_script(alloc, script),
        Err(_) => Ok(Vec::from_slice(alloc, bytes)?),
    }
}

/// What is printed of a case, the status, and whether it is as said.
fn is_as_said(alloc: Global, case: &Case, out: &mut MemSink) -> Result<bool, NoMemory> {
    let mut source = MemSource::new(input(alloc, case)?, Vec::new(alloc));
    let mut err = MemSink::new(alloc, Vec::new(alloc));
    let status = explain(alloc, case.asked, &mut source, out, &mut err, &mut Silent);
    Ok(case.is_as_said(status, out.bytes(), err.bytes()))
}

/// Plays a case, and prints its name, and whether it is as said; if not, what was printed.
fn play_case<R: AllocGlobal + Print>(rt: &R, lines: &str) -> io::Result<()> {
    let alloc = rt.alloc();
    let Some(name) = case::name_of(lines) else {
        return Ok(());
    };
    let case = Case::read(alloc, lines)?;
    let mut out = MemSink::new(alloc, Vec::new(alloc));
    match is_as_said(alloc, &case, &mut out) {
        Ok(true) => println!(rt; "{name}: as said"),
        Ok(false) => {
            let text = std::str::from_utf8(out.bytes()).unwrap_or("not UTF-8");
            println!(rt; "{name}: WRONG\n{text}")
        }
        Err(_) => println!(rt; "{name}: out of memory"),
    }
}

fn main(rt: HostRuntime) -> io::Result<()> {
    for name in std::env::args(&rt)?.skip(1) {
        let text = fs::read_to_string(&rt, name.as_str())?;
        println!(rt; "{name}")?;
        for lines in text.split("\n\n") {
            play_case(&rt, lines)?;
        }
    }
    Ok(())
}
