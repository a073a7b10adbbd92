//! Numbers, names, request ids, words, lines and sections.

use np_text::{
    EndAs, Ending, LabelId, NodeId, NodeState, Phase, Reason, RequestId, RequestState, RoleKind,
    is_name, line_at, put_number, put_reason, read_number, read_request, request_text,
    split_sections, ten_digits,
};
use std::alloc::Global;

// The largest number that a line may name.
const MAX: u64 = 4_294_967_295;

const NUMBERS: [(&[u8], u64, Option<u64>); 10] = [
    (b"0", MAX, Some(0)),
    (b"4294967295", MAX, Some(4_294_967_295)),
    (b"4294967296", MAX, None),
    (b"18446744073709551615", u64::MAX, Some(u64::MAX)),
    (b"18446744073709551616", u64::MAX, None),
    (b"", MAX, None),
    (b"00", MAX, None),
    (b"+1", MAX, None),
    (b"1a", MAX, None),
    (b"5", 4, None),
];

fn numbers_are_read() -> bool {
    every!((text, max, want) in &NUMBERS => read_number(text, *max) == *want)
}

fn number_is_put(alloc: Global, n: u64, want: &[u8]) -> bool {
    let mut out = Vec::new(alloc);
    put_number(&mut out, n).is_ok() && out.as_slice() == want
}

const NAMES: [(&[u8], bool); 7] = [
    (b"Az09._-", true),
    (
        b"aaaaaaaaaaaaaaaaaaaaaaaaaaaaaaaaaaaaaaaaaaaaaaaaaaaaaaaaaaaaaaaa",
        true,
    ),
    (
        b"aaaaaaaaaaaaaaaaaaaaaaaaaaaaaaaaaaaaaaaaaaaaaaaaaaaaaaaaaaaaaaaaa",
        false,
    ),
    (b"", false),
    (b"a b", false),
    (b"a/b", false),
    (b"\xc3\xa9", false),
];

fn names_are_short_and_plain() -> bool {
    every!((text, want) in &NAMES => is_name(text) == *want)
}

// Texts, and the priority and the number of the request that each is.
const REQUESTS: [(&[u8], Option<(u16, u32)>); 8] = [
    (b"100-0000000003", Some((100, 3))),
    (b"999-4294967295", Some((999, 4_294_967_295))),
    (b"999-4294967296", None),
    (b"099-0000000000", None),
    (b"1000-0000000000", None),
    (b"200-000000000", None),
    (b"200 0000000000", None),
    (b"200-00000000a0", None),
];

fn requests_are_read() -> bool {
    every!((text, want) in &REQUESTS => read_request(text).map(|id| (id.priority, id.seq)) == *want)
}

#[test]
fn values_have_one_spelling(rt: HostRuntime) {
    assert!(rt; numbers_are_read(), "numbers are read");
    assert!(rt; number_is_put(rt.alloc(), 0, b"0"), "0");
    let last = number_is_put(rt.alloc(), u64::MAX, b"18446744073709551615");
    assert!(rt; last, "the largest number");
    assert!(rt; ten_digits(71) == *b"0000000071", "ten digits");
    assert!(rt; names_are_short_and_plain(), "names");
    assert!(rt; requests_are_read(), "requests are read");
    let id = RequestId {
        priority: 400,
        seq: 1_234_567_890,
    };
    assert!(rt; request_text(id) == *b"400-1234567890", "a request's text");
}

const REASONS: [(Reason, &[u8]); 4] = [
    (Reason::NoLabel(LabelId(255)), b"no-label-l255"),
    (Reason::NeverFits, b"never-fits"),
    (Reason::TenantNeverFits, b"tenant-never-fits"),
    (Reason::Spent(NodeId(u32::MAX)), b"spent-n4294967295"),
];

fn reason_is_put(alloc: Global, reason: Reason, want: &[u8]) -> bool {
    let mut out = Vec::new(alloc);
    put_reason(&mut out, reason).is_ok() && out.as_slice() == want
}

fn reasons_are_put(alloc: Global) -> bool {
    every!((reason, want) in &REASONS => reason_is_put(alloc, *reason, want))
}

// Nodepool's words for the states of requests and nodes, and this project's own.
fn words_are_read() -> bool {
    NodeState::from_word(b"in-use") == Some(NodeState::InUse)
        && NodeState::from_word(b"Ready").is_none()
        && RequestState::from_word(b"fulfilled") == Some(RequestState::Fulfilled)
        && Phase::from_word(b"over") == Some(Phase::Over)
        && Ending::from_word(b"withdrawn") == Some(Ending::Withdrawn)
        && EndAs::from_word(b"hold") == Some(EndAs::Hold)
        && RoleKind::from_word(b"janitor") == Some(RoleKind::Janitor)
        && RoleKind::from_word(b"reaper").is_none()
}

#[test]
fn values_have_their_words(rt: HostRuntime) {
    assert!(rt; words_are_read(), "words");
    assert!(rt; NodeState::InUse.word() == "in-use", "a word");
    assert!(rt; reasons_are_put(rt.alloc()), "reasons");
}

const LINES: [(&[u8], usize, Option<(usize, usize)>); 6] = [
    (b"", 0, None),
    (b"ab\n\ncd", 0, Some((0, 2))),
    (b"ab\n\ncd", 3, Some((3, 3))),
    (b"ab\n\ncd", 4, Some((4, 6))),
    (b"ab\n\ncd", 6, None),
    (b"ab\n", 3, None),
];

fn lines_are_found() -> bool {
    every!((text, from, want) in &LINES => *from <= text.len() && line_at(text, *from) == *want)
}

const SECTIONS: [(&[u8], Option<(&[u8], &[u8])>); 6] = [
    (b"{}\n%%\ntick\n%%\n", Some((b"{}\n", b"tick\n%%\n"))),
    (b"%%", Some((b"", b""))),
    (b"a\n%%", Some((b"a\n", b""))),
    (b"a%%\n%%b\n %%\n%%%\n", None),
    (b"a\n%%\r\n", None),
    (b"", None),
];

fn sections_part_at_the_first_bar() -> bool {
    every!((text, want) in &SECTIONS => split_sections(text) == *want)
}

#[test]
fn texts_have_lines_and_sections(rt: HostRuntime) {
    assert!(rt; lines_are_found(), "lines");
    assert!(rt; sections_part_at_the_first_bar(), "sections");
}
