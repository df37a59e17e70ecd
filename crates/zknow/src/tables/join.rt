//! Values with sets of items, which can be joined.
ghost use Rattle.std.specs.Prelude.{◌≡◌, ◌↔◌, ◌⊎◌, OnOk};
ghost use Rattle.zknow.specs.Tables.Join.{IsUnion, IsPartOfUnion};

use std::alloc::{AllocError, Global};

/// A key. Its order has ties only between equal keys.
pub(crate) trait Key: Copy + Ord {
    ghost use Rattle.std.specs.declared.cmp.Ordering.TheVariants.{Equal};

    ghost exact: { (a b : Self) → Self.cmp a b ≡ Equal → a ≡ b };
}

/// A value with a set of items. Items are added and never removed, so values can be joined in any order, and more than
/// once.
pub trait Join: Drop + Sized {
    /// The type of the items.
    type Item;

    /// The item is one of the value's items.
    ghost holds: { Self → Self.Item → Type 0 };

    /// The value is in order, and has no part without items.
    ghost is_lawful: { Self → Type 0 };

    /// The item may be added.
    ghost can_add: { Self.Item → Type 0 };

    /// Returns a value without items. It takes no memory yet.
    fn empty(alloc: Global) -> Self
        ensures { (x : Self.Item) → holds result x → ⊥ };

    /// Adds an item, if the value does not have it already.
    ///
    /// Returns `AllocError` if no memory is found. The value still has all its items, and no other except perhaps this
    /// one.
    fn add(&mut self, item: &Self::Item) -> Result<(), AllocError>
        requires { can_add item.now }
        ensures ok { OnOk result (IsUnion (holds self.old) (λ x. x ≡ item.now) (holds self.new)) }
        ensures part { IsPartOfUnion (holds self.old) (λ x. x ≡ item.now) (holds self.new) };

    /// Adds all items of another value.
    ///
    /// Returns `AllocError` if no memory is found. The value still has all its items, and no others except perhaps some
    /// of the other value.
    fn absorb(&mut self, other: &Self) -> Result<(), AllocError>
        ensures ok { OnOk result (IsUnion (holds self.old) (holds other.now) (holds self.new)) }
        ensures part { IsPartOfUnion (holds self.old) (holds other.now) (holds self.new) };

    /// Does nothing. Its contract says that the value is lawful.
    fn lawful(&self)
        ensures { is_lawful self.now };

    /// Lawful values with the same items are equal.
    ghost same: { (a b : Self) → is_lawful a → is_lawful b → ((x : Self.Item) → holds a x ↔ holds b x) → a ≡ b };
}
