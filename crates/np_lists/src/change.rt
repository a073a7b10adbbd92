//! A change of one item.

ghost use Rattle.std.specs.Prelude.{◌≡◌};

/// A change of one item in place, which may keep something of the item from before.
pub trait Change<T> {
    /// What the item becomes.
    ghost after: { Self → T → T };
    /// What the change becomes, with what it keeps of the item.
    ghost kept: { Self → T → Self };

    fn make(&mut self, item: &mut T)
        ensures item { item.new ≡ after self.old item.old }
        ensures kept { self.new ≡ kept self.old item.old };
}
