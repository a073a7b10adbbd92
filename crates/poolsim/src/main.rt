//! poolsim over the real streams and files.
#![tactic(auto)]

use np_cloud::OpenGate;
use np_io::{FileDisk, StdSink, StdSource};
use np_replay::{Ending, tell};
use np_top::poolsim;
use std::io::ErrorKind;
use std::process::ExitCode;

/// The words after the program's name, or how the program ends without them: words of which one is
/// invalid UTF-8 are no command.
fn words_of(rt: &HostRuntime) -> Result<Vec<String>, Ending> {
    match std::env::args(rt) {
        Ok(args) => match args.skip(1).collect(rt.alloc()) {
            Ok(words) => Ok(words),
            Err(_) => Err(Ending::NoMemory),
        },
        Err(error) => match error.kind() {
            ErrorKind::OutOfMemory => Err(Ending::NoMemory),
            _ => Err(Ending::NoCommand),
        },
    }
}

fn main(rt: HostRuntime) -> ExitCode {
    let mut source = StdSource::new(rt.stdin());
    let mut out = StdSink::new(rt.stdout());
    let mut err = StdSink::new(rt.stderr());
    let mut disk = FileDisk::new(&rt);
    let status = match words_of(&rt) {
        Err(ending) => tell(&mut out, &mut err, &ending),
        Ok(words) => poolsim(
            &rt,
            rt.alloc(),
            words.as_slice(),
            &mut source,
            &mut out,
            &mut err,
            &OpenGate,
            &mut disk,
        ),
    };
    ExitCode::from(status)
}
