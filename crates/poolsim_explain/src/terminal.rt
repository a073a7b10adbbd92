//! How far a long piece of work is, for whoever waits at a terminal.

use np_explain::Progress;
use std::io::IsTerminal;
use std::time::Instant;

/// How many entries are played between two looks at the clock.
const PIECE: u64 = 256;

/// Writes to standard error how many entries were played, once a second, if that is a terminal.
#[derive(Drop)]
pub struct Terminal<'a> {
    rt: &'a HostRuntime,
    /// When a line was written last, or the work began; `None` if nothing is to be written.
    last: Option<Instant>,
    entries: u64,
    /// Whether a line was written.
    shown: bool,
}

impl<'a> Terminal<'a> {
    pub fn new(rt: &'a HostRuntime) -> Terminal<'a> {
        let last = if rt.stderr().is_terminal() {
            Instant::now(rt).ok()
        } else {
            None
        };
        Terminal {
            rt,
            last,
            entries: 0,
            shown: false,
        }
    }

    /// Writes the line, if a second has passed since the last one.
    fn show(&mut self, last: Instant) {
        let Ok(now) = Instant::now(self.rt) else {
            return;
        };
        if now.duration_since(last).as_secs() == 0 {
            return;
        }
        self.last = Some(now);
        self.shown = true;
        let _written = eprint!(self.rt; "\rpoolsim-explain: {} entries played", self.entries);
    }
}

impl Progress for Terminal<'_> {
    fn played(&mut self) {
        self.entries = self.entries.saturating_add(1);
        if self.entries % PIECE != 0 {
            return;
        }
        if let Some(last) = self.last {
            self.show(last);
        }
    }

    /// The line is taken away again.
    fn done(&mut self) {
        if self.shown {
            self.shown = false;
            let _written = eprint!(self.rt; "\r\x1b[K");
        }
    }
}
