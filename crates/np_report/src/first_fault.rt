//! The law. Its function does nothing: its contract is the law.

ghost use Rattle.std.specs.Prelude.{◌≡◌, ◌↔◌, ℕ, List, Err};
ghost use Rattle.np_report.specs.Lower.{LineFault};
ghost use Rattle.np_report.specs.declared.lines.LinesFault.TheVariants.{Line};
ghost use Rattle.np_report.specs.Lines.{IsFirstFault};
ghost use Rattle.np_report.specs.Script.{event_said, events_of, most_lines};

/// Which fault the event lines of a script have: that of line n if and only if each line before it
/// reads as an event, and it does not.
pub fn the_first_line_at_fault_is_told()
    ensures { (lines : List (List ℕ)) (n : ℕ) (fault : LineFault) →
        (events_of lines ≡ Err (Line n fault))
        ↔ IsFirstFault event_said most_lines 1 lines n fault }
{}
