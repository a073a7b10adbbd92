//! Parts of what facts say.

ghost use Rattle.std.specs.Prelude.{◌≡◌, ◌++◌, codes, OnOk};
ghost use Rattle.np_explain_lines.specs.Line.{most_words, next_words, node_said, phase_said, reason_words, session_said};

use crate::words::{put, put_label, put_node};
use np_config::Config;
use np_text::{Ample, LabelId, NodeState, Phase, Reason, put_number};

/// Appends how far a job is.
pub(crate) fn put_phase(out: &mut Vec<u8>, phase: Phase) -> Ample
    ensures { OnOk result (out.new.items ≡ out.old.items ++ phase_said phase) }
{
    match phase {
        Phase::New => put(out, b"nobody has asked for its nodes yet"),
        Phase::Asked => put(out, b"waits for the nodes of its request"),
        Phase::Using => put(out, b"has its nodes, and has not ended"),
        Phase::Over => put(out, b"is over"),
    }
}

/// Appends in which state a node is.
pub(crate) fn put_node_state(out: &mut Vec<u8>, state: NodeState) -> Ample
    ensures { OnOk result (out.new.items ≡ out.old.items ++ node_said state) }
{
    match state {
        NodeState::Building => put(out, b"is building"),
        NodeState::Ready => put(out, b"is ready"),
        NodeState::InUse => put(out, b"is in use"),
        NodeState::Used => put(out, b"is used"),
        NodeState::Hold => put(out, b"is on hold"),
        NodeState::Deleting => put(out, b"is deleting"),
        NodeState::Failed => put(out, b"is failed"),
    }
}

/// Appends why a pool declines a request.
pub fn put_reason_words(out: &mut Vec<u8>, config: &Config, reason: Reason) -> Ample
    ensures { OnOk result (out.new.items ≡ out.old.items ++ reason_words config.now reason) }
{
    match reason {
        Reason::NoLabel(label) => {
            put(out, b"it does not offer ")?;
            put_label(out, config, label)
        }
        Reason::NeverFits => put(out, b"the labels together exceed a limit of the pool"),
        Reason::TenantNeverFits => {
            put(
                out,
                b"the labels together exceed a limit of the job's tenant",
            )
        }
        Reason::Spent(node) => {
            put(out, b"the last launch of ")?;
            put_node(out, node)?;
            put(out, b" that it may try failed")
        }
    }
}

/// Appends the label of the next node.
pub(crate) fn put_next(out: &mut Vec<u8>, config: &Config, label: LabelId) -> Ample
    ensures { OnOk result (out.new.items ≡ out.old.items ++ next_words config.now label) }
{
    put(out, b" for its next node, of label ")?;
    put_label(out, config, label)
}

fn put_most(out: &mut Vec<u8>, most: u32) -> Ample
    ensures { OnOk result (out.new.items ≡ out.old.items ++ most_words most) }
{
    put(out, b"as many requests as they may, ")?;
    put_number(out, u64::from(most))
}

/// Appends that a provider's launchers work on as many requests as they may.
pub(crate) fn put_no_turn(out: &mut Vec<u8>, most: u32) -> Ample
    ensures { OnOk result (out.new.items
        ≡ out.old.items ++ (codes "its provider's launchers work on " ++ most_words most)) }
{
    put(out, b"its provider's launchers work on ")?;
    put_most(out, most)
}

/// Appends whether a session has expired.
pub(crate) fn put_life(out: &mut Vec<u8>, live: bool, mute: bool) -> Ample
    ensures { OnOk result (out.new.items ≡ out.old.items ++ session_said live mute) }
{
    if !live {
        return put(out, b", and has expired");
    }
    if mute {
        return put(out, b", crashed, and has not expired yet");
    }
    put(out, b", and is live")
}
