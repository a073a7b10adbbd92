//! Laws on the definitions. Nothing here runs: each function states a theorem.
ghost use Rattle.std.specs.Prelude.{◌≡◌, ◌≢◌, ◌↔◌, ◌+◌, ◌<◌, ◌≤◌, ℕ, true, false, List, ◌∷◌, length, Ok, Err, None, Some};
ghost use Rattle.std.specs.Str.{bytes_eq};
ghost use Rattle.np_event.specs.Lower.{bar, is_line};
ghost use Rattle.np_event.specs.declared.entry.Entry.{Entry};
ghost use Rattle.np_event.specs.declared.event.Event.{Event};
ghost use Rattle.np_event.specs.declared.event_form.EventForm.{EventForm};
ghost use Rattle.np_event.specs.declared.fault.LineFault.TheVariants.{BadArgument, UnknownEvent, WrongCount};
ghost use Rattle.np_event.specs.declared.kind.Fields.{Fields};
ghost use Rattle.np_event.specs.declared.kind.Kind.{Kind};
ghost use Rattle.np_event.specs.declared.reply.Reply.{Reply};
ghost use Rattle.np_event.specs.EventForm.{event_row};
ghost use Rattle.np_event.specs.Faults.{IsFirstUnfit, IsOfNoForm, Says};
ghost use Rattle.np_event.specs.Kind.{with_field};
ghost use Rattle.np_event.specs.Line.{HasEntryLine, HasEventLine, entry_in, entry_line, event_in, event_line, reply_line, told, told_entry, stand};
ghost use Rattle.np_event.specs.Words.{words_of};

/// An event that has a line has exactly one, and no two events share one: the line reads as the
/// event, and no other line does.
pub fn an_event_has_one_line()
    ensures reads_back { (e : Event) → HasEventLine e → event_in (words_of (event_line e)) ≡ Ok e }
    ensures spelled { (line : List ℕ) (e : Event) → event_in (words_of line) ≡ Ok e →
        HasEventLine e × (event_line e ≡ line) }
    ensures apart { (a b : Event) → HasEventLine a → HasEventLine b →
        event_line a ≡ event_line b → a ≡ b }
{}

/// An entry that has a line has exactly one, and the line determines the entry, except that a
/// failed node looks like a failed request. Except for that, no two entries share a line.
pub fn an_entry_has_one_line()
    ensures reads_back { (e : Entry) → HasEntryLine e →
        entry_in (entry_line e) ≡ Some (told_entry e) }
    ensures spelled { (line : List ℕ) (e : Entry) → entry_in line ≡ Some e →
        HasEntryLine e × (entry_line e ≡ line) × (told_entry e ≡ e) }
    ensures apart { (a b : Entry) → HasEntryLine a → HasEntryLine b →
        entry_line a ≡ entry_line b → told_entry a ≡ told_entry b }
    ensures told { (r : Reply) → reply_line (told r) ≡ reply_line r }
{}

/// No event's or entry's line holds a newline, and no entry's line is the line `%%` between two
/// sections.
pub fn a_line_is_one_line()
    ensures event { (e : Event) → HasEventLine e → is_line (event_line e) ≡ true }
    ensures entry { (e : Entry) → HasEntryLine e → is_line (entry_line e) ≡ true }
    ensures no_bar { (e : Entry) → HasEntryLine e → bytes_eq (entry_line e) bar ≡ false }
{}

/// The first word names no event if and only if no form begins with it, and a word does not fit its
/// place if and only if no value of its kind has that word.
pub fn faults_are_told_by_the_lines()
    ensures unknown { (first : List ℕ) (rest : List (List ℕ)) →
        (event_in (first ∷ rest) ≡ Err UnknownEvent)
        ↔ ((form : EventForm) → (event_row form).head ≢ first) }
    ensures unfit { (kind : Kind) (text : List ℕ) (f : Fields) →
        (with_field kind text f ≡ None) ↔ ¬ (Says kind text) }
{}

/// If a line has the first word and the fixed words of a form, that form judges it. The count of
/// words comes first: any other count than the form's is the fault, whatever the words are. Then
/// the first word from the left that says no value of its kind is named, by its number in the line,
/// which counts from 1.
pub fn a_line_is_judged_by_its_form()
    ensures count { (form : EventForm) (rest : List (List ℕ)) →
        stand (event_row form).kinds rest ≡ true →
        (event_in ((event_row form).head ∷ rest) ≡ Err WrongCount)
        ↔ (length rest ≢ length (event_row form).kinds) }
    ensures word { (form : EventForm) (rest : List (List ℕ)) (word : ℕ) →
        stand (event_row form).kinds rest ≡ true →
        (event_in ((event_row form).head ∷ rest) ≡ Err (BadArgument word))
        ↔ ((length rest ≡ length (event_row form).kinds)
        × ((place : ℕ) × (word ≡ place + 2)
        × IsFirstUnfit (event_row form).kinds rest place)) }
{}

/// If a form begins with the first word, but the line has the fixed words of no such form, the
/// fixed word is missing or unknown.
pub fn a_fixed_word_decides_the_form()
    // The forms have different counts, and one word decides which is the line's: it is judged before
    // the count.
    ensures missing { (form : EventForm) (rest : List (List ℕ)) (place : ℕ) →
        (event_row form).decided_at ≡ Some place → IsOfNoForm (event_row form).head rest →
        length rest < place → event_in ((event_row form).head ∷ rest) ≡ Err WrongCount }
    ensures unknown { (form : EventForm) (rest : List (List ℕ)) (place : ℕ) →
        (event_row form).decided_at ≡ Some place → IsOfNoForm (event_row form).head rest →
        place ≤ length rest →
        event_in ((event_row form).head ∷ rest) ≡ Err (BadArgument (place + 1)) }

    // The forms have one count, and it is judged first.
    ensures count { (form : EventForm) (rest : List (List ℕ)) →
        (event_row form).decided_at ≡ None → IsOfNoForm (event_row form).head rest →
        (event_in ((event_row form).head ∷ rest) ≡ Err WrongCount)
        ↔ (length rest ≢ length (event_row form).kinds) }
    ensures word { (form : EventForm) (rest : List (List ℕ)) →
        (event_row form).decided_at ≡ None → IsOfNoForm (event_row form).head rest →
        length rest ≡ length (event_row form).kinds →
        event_in ((event_row form).head ∷ rest) ≡ Err (BadArgument 2) }
{}
