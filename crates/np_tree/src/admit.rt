//! The tests of each call in order, with what they found.

ghost use Rattle.std.specs.Prelude.{◌≡◌, ◌+◌, Ok, Err, true, false, MatchOption, MatchResult};
ghost use Rattle.np_tree.specs.Lower.{IsKept, IsPlace, IsSpot, MakesName, check_answer, child_answer, delete_answer, made_path, may_raise, set_answer};
ghost use Rattle.np_tree.specs.Whole.{state_of};

use crate::inner::Inner;
use np_tree_nodes::{Expect, Found, Mode, Spot, TreeRefusal};

/// The most bytes of a node.
const MOST_BYTES: usize = 65_536;
/// The last number that a sequence counter can give.
const LAST_NUMBER: u32 = 2_147_483_647;
/// One past it.
const COUNTER_END: u32 = 2_147_483_648;

impl Inner {
    /// The tests of a child's creation that come after the session's.
    pub fn admit_child(
        &self,
        above: &str,
        name: &str,
        bytes: &[u8],
        mode: Mode,
    ) -> Result<Spot<'_>, TreeRefusal>
        requires kept { IsKept self.now.lists.nodes self.now.lists.marks }
        requires name { MakesName name.now mode }
        ensures { MatchResult result
            (λ spot. IsSpot self.now.lists.nodes spot.parent.node.now.path name.now mode spot
            × (spot.parent.node.now.path ≡ above.now)
            × (child_answer (state_of self.now) above.now name.now bytes.now mode ≡ Ok (made_path spot.parent.node.now name.now mode)))
            (λ refusal. child_answer (state_of self.now) above.now name.now bytes.now mode ≡ Err refusal) }
    {
        let Some(parent) = self.lists.find(above) else {
            return Err(TreeRefusal::NoNode);
        };
        let node = parent.node();
        ensure!(node.owner().is_none(), TreeRefusal::NoChildrenForEphemerals);
        ensure!(bytes.len() <= MOST_BYTES, TreeRefusal::TooLarge);
        if mode.is_sequential() && node.counter() > LAST_NUMBER {
            return Err(TreeRefusal::SequenceSpent);
        }
        let Some(place) = self.lists.gap(node, name, mode) else {
            return Err(TreeRefusal::NodeExists);
        };
        if self.changes == u64::MAX || self.lists.count_children(above) == u32::MAX {
            return Err(TreeRefusal::ChangesSpent);
        }
        Ok(Spot::new(parent, place))
    }

    /// The tests of a `set`. Returns the new version too.
    pub fn admit_set(
        &self,
        session: u32,
        path: &str,
        bytes: &[u8],
        expect: Expect,
    ) -> Result<(Found<'_>, u64), TreeRefusal>
        requires { IsKept self.now.lists.nodes self.now.lists.marks }
        ensures { MatchResult result
            (λ told. IsPlace self.now.lists.nodes path.now told.0.place told.0.node.now
            × (told.1 ≡ told.0.node.now.facts.version + 1)
            × (set_answer (state_of self.now) session path.now bytes.now expect ≡ Ok told.1))
            (λ refusal. set_answer (state_of self.now) session path.now bytes.now expect ≡ Err refusal) }
    {
        ensure!(self.sessions.is_live(session), TreeRefusal::SessionExpired);
        let Some(found) = self.lists.find(path) else {
            return Err(TreeRefusal::NoNode);
        };
        let version = found.node().version();
        ensure!(bytes.len() <= MOST_BYTES, TreeRefusal::TooLarge);
        if !expect.is_met(version) {
            return Err(TreeRefusal::BadVersion { kept: version });
        }
        ensure!(self.changes != u64::MAX, TreeRefusal::ChangesSpent);
        let Some(next) = version.checked_add(1) else {
            return Err(TreeRefusal::ChangesSpent);
        };
        Ok((found, next))
    }

    /// The tests of a `delete`.
    pub fn admit_delete(
        &self,
        session: u32,
        path: &str,
        expect: Expect,
    ) -> Result<Found<'_>, TreeRefusal>
        requires { IsKept self.now.lists.nodes self.now.lists.marks }
        ensures { MatchResult result
            (λ found. IsPlace self.now.lists.nodes path.now found.place found.node.now
            × (delete_answer (state_of self.now) session path.now expect ≡ Ok tt))
            (λ refusal. delete_answer (state_of self.now) session path.now expect ≡ Err refusal) }
    {
        ensure!(self.sessions.is_live(session), TreeRefusal::SessionExpired);
        ensure!(path != "/", TreeRefusal::RootKept);
        let Some(found) = self.lists.find(path) else {
            return Err(TreeRefusal::NoNode);
        };
        let version = found.node().version();
        if !expect.is_met(version) {
            return Err(TreeRefusal::BadVersion { kept: version });
        }
        let children = self.lists.count_children(path);
        ensure!(children == 0, TreeRefusal::NotEmpty { children });
        ensure!(self.changes != u64::MAX, TreeRefusal::ChangesSpent);
        Ok(found)
    }

    /// The node whose sequence counter may be raised to a number.
    pub fn admit_raise(&self, path: &str, to: u32) -> Option<Found<'_>>
        requires { IsKept self.now.lists.nodes self.now.lists.marks }
        ensures { MatchOption result
            (may_raise (state_of self.now) path.now to ≡ false)
            (λ found. IsPlace self.now.lists.nodes path.now found.place found.node.now
            × (may_raise (state_of self.now) path.now to ≡ true)) }
    {
        let found = self.lists.find(path)?;
        if to > COUNTER_END || found.node().counter() >= to {
            return None;
        }
        Some(found)
    }

    /// The tests of a `check`, which does nothing else.
    pub fn check(&self, session: u32, path: &str, expect: Expect) -> Result<(), TreeRefusal>
        requires { IsKept self.now.lists.nodes self.now.lists.marks }
        ensures { result ≡ check_answer (state_of self.now) session path.now expect }
    {
        ensure!(self.sessions.is_live(session), TreeRefusal::SessionExpired);
        let Some(found) = self.lists.find(path) else {
            return Err(TreeRefusal::NoNode);
        };
        let version = found.node().version();
        if !expect.is_met(version) {
            return Err(TreeRefusal::BadVersion { kept: version });
        }
        Ok(())
    }
}
