//! Laws on legal journals and on answers. Each function does nothing: its contract is the law.

ghost use Rattle.std.specs.Prelude.{◌≡◌, ℕ, List, [], ◌∷◌, ◌++◌, Some, Ok, true, take, slice_get, if◌then◌else◌};
ghost use Rattle.np_worker.specs.Lower.{Configuration, Entry, Janitor, NodeId, PoolId, Runs, SessionId, State, after, is_current, is_wanted, judge};
ghost use Rattle.np_event.specs.declared.event.Event.TheVariants as ev;
ghost use Rattle.np_event.specs.declared.reply.Done.TheVariants as done;
ghost use Rattle.np_event.specs.declared.reply.Reply.TheVariants as reply;
ghost use Rattle.np_worker.specs.declared.ask.Ask.{Ask};
ghost use Rattle.np_worker.specs.declared.ask.Turn.{Turn};
ghost use Rattle.np_worker.specs.declared.ask.Turn.TheVariants as turn;
ghost use Rattle.np_worker.specs.Answers.{IsReplied, answers, answers_sweep};
ghost use Rattle.np_worker.specs.Move.{recorded};
ghost use Rattle.np_worker.specs.Replies.{is_legal};

/// A legal journal is one that the machine makes.
#[tactic(auto, using(crate::proofs::Journals::legal_laws))]
pub fn a_legal_journal_runs()
    ensures { (c : Configuration) (journal : List Entry) → is_legal c journal ≡ true →
        Runs c journal (after c journal) }
{}

/// A journal that the machine makes is legal.
#[tactic(auto, using(crate::proofs::Journals::legal_laws))]
pub fn a_journal_that_runs_is_legal()
    ensures { (c : Configuration) (journal : List Entry) (s : State) → Runs c journal s →
        is_legal c journal ≡ true }
{}

/// A beginning of a legal journal is legal.
#[tactic(auto, using(crate::proofs::Journals::legal_laws))]
pub fn a_beginning_of_a_legal_journal_is_legal()
    ensures { (c : Configuration) (journal rest : List Entry) →
        is_legal c (journal ++ rest) ≡ true → is_legal c journal ≡ true }
{}

/// A legal journal with room stays legal with one more entry that has the machine's reply.
#[tactic(auto, using(crate::proofs::Journals::legal_laws))]
pub fn a_legal_journal_goes_on()
    ensures { (c : Configuration) (journal : List Entry) (e : Entry) →
        is_legal c journal ≡ true → IsReplied c journal e →
        is_legal c (journal ++ e ∷ []) ≡ true }
{}

/// Each entry of a legal journal has the machine's reply, in the state after the entries before it.
#[tactic(auto, using(crate::proofs::Journals::legal_between))]
pub fn a_legal_journal_has_the_machines_replies()
    ensures at_place { (c : Configuration) (journal : List Entry) (at : ℕ) (e : Entry) →
        is_legal c journal ≡ true → slice_get journal at ≡ Some e →
        IsReplied c (take at journal) e }
    ensures between { (c : Configuration) (before : List Entry) (e : Entry) (rest : List Entry) →
        is_legal c (before ++ e ∷ rest) ≡ true → IsReplied c before e }
{}

/// What a turn records has the machine's reply.
#[tactic(auto, using(crate::proofs::Walks::turn_replied))]
pub fn a_turn_records_the_machines_reply()
    ensures { (c : Configuration) (journal : List Entry) (ask : Ask) (t : Turn) (e : Entry) →
        answers c journal ask t → recorded ask t ≡ Some e → IsReplied c journal e }
{}

/// A sweep by the pool's current janitor is answered `Keep` if the server is wanted, otherwise
/// `Remove`; so the answers to an ask to sweep are the machine's.
#[tactic(auto, using(crate::proofs::Leaving::sweep_judged))]
pub fn a_sweep_keeps_what_is_wanted()
    ensures { (c : Configuration) (s : State) (p : PoolId) (session : SessionId) (n : NodeId)
        (x : ℕ) → is_current (Janitor p) session s ≡ true →
        judge c s (ev.Sweep session n x)
        ≡ Ok (if is_wanted s n x then done.Keep else done.Remove) }
{}

/// A sweep that a turn records is answered `Remove`.
#[tactic(auto, using(crate::proofs::Leaving::sweep_removes))]
pub fn a_recorded_sweep_is_answered_remove()
    ensures { (c : Configuration) (journal : List Entry) (p : PoolId) (n : NodeId) (x : ℕ)
        (e : Entry) → answers_sweep c journal p n x (turn.Did e) →
        e.reply ≡ reply.Done done.Remove }
{}
