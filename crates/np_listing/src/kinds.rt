//! What is asked of an entry.

ghost use Rattle.std.specs.Prelude.{◌≡◌, [], map, slice_get, unwrap_or};
ghost use Rattle.np_listing.specs.Lower.{is_done};
ghost use Rattle.np_listing.specs.Tally.{is_failed, is_launched, is_of_kind, is_refused, kind_of, kind_word, reports_failure, reports_server};

use np_event::{Entry, Event, Outcome, Reply};

/// The word at a place, or none past the end.
fn word_at(words: &[&'static str], at: u8) -> &'static str
    ensures { result.now ≡ unwrap_or (slice_get (map (λ word. word.now) words.now) at) [] }
{
    words.get(usize::from(at)).copied().unwrap_or("")
}

/// The kind's word, as the lines of its events begin.
pub(crate) fn kind_word(kind: u8) -> &'static str
    ensures { result.now ≡ kind_word kind }
{
    let words = [
        "tick",
        "open",
        "crash",
        "expire",
        "register",
        "submit",
        "revise",
        "min-ready",
        "lock-request",
        "unlock-request",
        "accept",
        "decline",
        "take-ready",
        "create",
        "start",
        "done",
        "fulfil",
        "lock-node",
        "unlock-node",
        "acquire",
        "take",
        "end-node",
        "finish",
        "withdraw",
        "release",
        "mark-deleting",
        "gone",
        "reset",
        "free-node",
        "fail-declined",
        "sweep",
    ];
    word_at(&words, kind)
}

/// The event's kind.
fn kind_of(event: Event) -> u8
    ensures { result ≡ kind_of event }
{
    match event {
        Event::Tick => 0,
        Event::OpenSession { .. } => 1,
        Event::Crash { .. } => 2,
        Event::Expire { .. } => 3,
        Event::Register { .. } => 4,
        Event::Submit { .. } => 5,
        Event::Revise { .. } => 6,
        Event::MinReady { .. } => 7,
        Event::LockRequest { .. } => 8,
        Event::UnlockRequest { .. } => 9,
        Event::Accept { .. } => 10,
        Event::Decline { .. } => 11,
        Event::TakeReady { .. } => 12,
        Event::Create { .. } => 13,
        Event::Start { .. } => 14,
        Event::Done { .. } => 15,
        Event::Fulfil { .. } => 16,
        Event::LockNode { .. } => 17,
        Event::UnlockNode { .. } => 18,
        Event::Acquire { .. } => 19,
        Event::Take { .. } => 20,
        Event::EndNode { .. } => 21,
        Event::Finish { .. } => 22,
        Event::Withdraw { .. } => 23,
        Event::Release { .. } => 24,
        Event::MarkDeleting { .. } => 25,
        Event::Gone { .. } => 26,
        Event::Reset { .. } => 27,
        Event::FreeNode { .. } => 28,
        Event::FailDeclined { .. } => 29,
        Event::Sweep { .. } => 30,
    }
}

fn is_done(reply: Reply) -> bool
    ensures { result ≡ is_done reply }
{
    matches!(reply, Reply::Done(_))
}

/// Whether the event was refused.
pub(crate) fn is_refused(entry: &Entry) -> bool
    ensures { result ≡ is_refused entry.now }
{
    !is_done(entry.reply)
}

/// Whether an event of this kind was accepted.
pub(crate) fn is_of_kind(kind: u8, entry: &Entry) -> bool
    ensures { result ≡ is_of_kind kind entry.now }
{
    is_done(entry.reply) && kind_of(entry.event) == kind
}

fn reports_server(event: Event) -> bool
    ensures { result ≡ reports_server event }
{
    match event {
        Event::Done { outcome, .. } => matches!(outcome, Outcome::Launched(_)),
        _ => false,
    }
}

fn reports_failure(event: Event) -> bool
    ensures { result ≡ reports_failure event }
{
    match event {
        Event::Done { outcome, .. } => matches!(outcome, Outcome::Failed),
        _ => false,
    }
}

/// Whether it was reported that a launch succeeded.
pub(crate) fn is_launched(entry: &Entry) -> bool
    ensures { result ≡ is_launched entry.now }
{
    is_done(entry.reply) && reports_server(entry.event)
}

/// Whether it was reported that a launch failed.
pub(crate) fn is_failed(entry: &Entry) -> bool
    ensures { result ≡ is_failed entry.now }
{
    is_done(entry.reply) && reports_failure(entry.event)
}
