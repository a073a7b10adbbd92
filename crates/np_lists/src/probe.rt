//! What is searched for in a list.

ghost use Rattle.std.specs.Prelude.{◌≡◌, Bool};

/// What is searched for in a list: for each item it says whether the item comes before it.
pub trait Probe<T> {
    /// Whether an item comes before what is searched for.
    ghost before: { Self → T → Bool };

    fn is_before(&self, item: &T) -> bool
        ensures { result ≡ before self.now item.now };
}
