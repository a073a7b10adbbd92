//! Which session owns which ephemeral nodes.

ghost use Rattle.std.specs.Prelude.{◌≡◌};
ghost use Rattle.np_tree_nodes.specs.Marks.{mark_before};

use np_lists::Probe;
use np_path::Path;

/// An ephemeral node's path, under the session that owns the node.
#[derive(Drop)]
pub(crate) struct Mark {
    pub(crate) session: u32,
    pub(crate) path: Path,
}

/// The place of a session's mark of a path.
#[derive(Clone, Copy)]
pub(crate) struct ByMark<'a> {
    pub(crate) session: u32,
    pub(crate) path: &'a [u8],
}

impl Probe<Mark> for ByMark<'_> {
    ghost before = { λ p mark. mark_before p.session p.path.now mark };

    fn is_before(&self, item: &Mark) -> bool {
        let path = item.path.text().as_bytes().cmp(self.path);
        item.session.cmp(&self.session).then(path).is_lt()
    }
}
