//! Laws on the definitions. Nothing here runs: each function states a theorem.

ghost use Rattle.std.specs.Prelude.{◌≡◌, ◌≤◌, ◌<◌, ℕ, ◌+◌, ◌*◌, List, [], ◌∷◌, ◌++◌, length, take, Some, Ok, Err};
ghost use Rattle.std.specs.List.{AllByRecursion};
ghost use Rattle.np_log.specs.Lower.{Event, HasEventLine, event_line};
ghost use Rattle.np_log.specs.Batch.{IsBatch, batch_of, batch_text};
ghost use Rattle.np_log.specs.Log.{Walk, after_record, content_of};
ghost use Rattle.np_log.specs.Worked.{worked_config, worked_content, worked_events, worked_start, worked_tick};
ghost use Rattle.np_log.specs.Writing.{behind_open_gate, record_and_gate};

/// The worked log says its configuration and its events, and has the bytes that `create` and
/// `append` write.
pub fn a_worked_log_says_its_events()
    ensures start { content_of worked_start ≡ Ok (worked_content []) }
    ensures start_bytes { behind_open_gate 0 (record_and_gate worked_config) (0 ∷ [])
        ≡ worked_start }
    ensures tick { content_of (worked_tick 1 10 ++ 0 ∷ []) ≡ Ok (worked_content worked_events) }
    ensures tick_bytes { behind_open_gate 7 (record_and_gate (batch_text worked_events)) worked_start
        ≡ worked_tick 1 10 ++ 0 ∷ [] }

    // A closed gate need not be 0, and what follows it does not count.
    ensures closed { content_of (worked_tick 7 10 ++ 0 ∷ []) ≡ Ok (worked_content []) }
{}

/// A log is damaged at the first record that is missing or at fault.
pub fn damage_has_its_number()
    // The record's gate is not there.
    ensures no_bytes { content_of [] ≡ Err 0 }
    ensures no_gate { content_of (worked_tick 1 10) ≡ Err 2 }

    // It is record 0, and its gate is closed.
    ensures closed_first { content_of (0 ∷ []) ≡ Err 0 }

    // Its bytes end early.
    ensures short_config { content_of (take 6 worked_start) ≡ Err 0 }
    ensures short_length { content_of (take 10 (worked_tick 1 10)) ≡ Err 1 }
    ensures short_batch { content_of (take 16 (worked_tick 1 10)) ≡ Err 1 }

    // It is not record 0, and its payload is not event lines, each with its newline, or there are
    // more events in all than a log may have.
    ensures no_newline { content_of (worked_tick 1 11 ++ 0 ∷ []) ≡ Err 1 }
    ensures too_many { (w : Walk) (payload : List ℕ) (events : List Event) →
        batch_of payload ≡ Some events → 262144 < length w.content.events + length events →
        after_record w payload ≡ Err w.number }
{}

/// A payload is read as these events if and only if it is their lines, each with its newline, and
/// they are 1 to 64.
pub fn a_batch_is_its_event_lines()
    ensures read { (payload : List ℕ) (events : List Event) →
        batch_of payload ≡ Some events → IsBatch payload events }
    ensures written { (payload : List ℕ) (events : List Event) →
        IsBatch payload events → batch_of payload ≡ Some events }
{}

/// An event's line has at most 160 bytes, so that the length of a batch fits in four bytes.
pub fn a_line_is_short()
    ensures line { (event : Event) → HasEventLine event → length (event_line event) ≤ 160 }
    ensures batch { (events : List Event) → AllByRecursion HasEventLine events →
        length (batch_text events) ≤ 161 * length events }
{}
