//! Tests of the program as data: cases with all that is printed, and sites that threads play to
//! their ends.
//!
//! The words of this program name files of cases in `data/`; `case` says how to read them. The top
//! call is run on each case, over streams in memory, and what it comes to is compared with what the
//! case says. So one more case costs no proof. Three stories are no such cases: `site` prints a
//! generated site, `cloud` plays one whose launches and removals fail, and `crash` stops a keep at
//! each of its calls of the disk, and resumes what a crash leaves then.
//!
//! The same is printed in whatever order threads take their turns.
#![tactic(auto)]

mod case;
mod cloud;
mod crash;
mod fates;
mod meeting;
mod play;
mod site;

use std::sync::Wait;
use std::thread::Threads;
use std::{fs, io};

/// Plays a case as often as it says, and prints its name, and whether it always came to what it
/// says.
fn play_case<R: Threads + Wait + Sync + AllocGlobal + Print>(
    rt: &R,
    lines: &str,
) -> io::Result<()> {
    let Some(name) = case::name_of(lines) else {
        return Ok(());
    };
    let (first, last) = case::numbers_of(lines);
    let mut wrong = 0u32;
    for number in first..=last {
        if !play::plays_as_said(rt, lines, number)? {
            wrong = wrong.saturating_add(1);
        }
    }
    if wrong == 0 {
        println!(rt; "{name}: as said")
    } else {
        println!(rt; "{name}: WRONG {wrong} times")
    }
}

/// Plays the cases of a file.
fn play_file<R: Threads + Wait + Sync + AllocGlobal + Print>(
    rt: &R,
    name: &str,
    text: &str,
) -> io::Result<()> {
    println!(rt; "{name}")?;
    for lines in text.split("\n\n") {
        play_case(rt, lines)?;
    }
    println!(rt)
}

/// Prints the generated site of twelve jobs.
fn print_site<R: AllocGlobal + Print>(rt: &R) -> io::Result<()> {
    match site::of_twelve_jobs(rt.alloc()) {
        Ok(text) => {
            let text = std::str::from_utf8(text.as_slice()).unwrap_or("not UTF-8");
            println!(rt; "generated site of twelve jobs: {text}")
        }
        Err(_) => println!(rt; "out of memory"),
    }
}

/// Prints whether failed launches and removals are made good.
fn print_cloud<R: Threads + Wait + Sync + AllocGlobal + Print>(rt: &R) -> io::Result<()> {
    let end = match cloud::is_made_good(rt) {
        Ok(true) => "as said",
        Ok(false) => "WRONG",
        Err(_) => "out of memory",
    };
    println!(rt; "failed launches and removals are made good: {end}")
}

/// Prints what a crash leaves of a keep, counted.
fn print_crash<R: Threads + Wait + Sync + AllocGlobal + Print>(rt: &R) -> io::Result<()> {
    match crash::images_are_whole(rt) {
        Ok(found) => println!(rt;
            "a keep that stops leaves no log {} times, no event {} times, all events {} times, anything else {} times",
            found.none, found.begun, found.whole, found.wrong
        ),
        Err(_) => println!(rt; "out of memory"),
    }
}

fn main(rt: HostRuntime) -> io::Result<()> {
    for name in std::env::args(&rt)?.skip(1) {
        let text = fs::read_to_string(&rt, name.as_str())?;
        play_file(&rt, name.as_str(), text.as_str())?;
    }
    print_site(&rt)?;
    print_cloud(&rt)?;
    print_crash(&rt)
}
