// Tests of each item of a list.
ghost use Rattle.std.specs.Prelude.{◌↔◌, IsTrue};
ghost use Rattle.std.specs.List.{AllByRecursion};
ghost use Rattle.xmp_instr.specs.declared.parts.CodeParts.{CodeParts};

use crate::parts::CodeParts;

/// What is asked of each item of a list in a code.
pub trait Test {
    /// An item.
    type Item;

    /// It holds of this item.
    ghost holds: { CodeParts → Self.Item → Type 0 };

    fn passes(parts: &CodeParts, item: &Self::Item) -> bool
        ensures { IsTrue result ↔ holds parts.now item.now };
}

/// Whether it holds of each item.
pub fn all<T: Test>(parts: &CodeParts, items: &[T::Item]) -> bool
    ensures { IsTrue result ↔ AllByRecursion (T.holds parts.now) items.now }
{
    'items: for item in items {
        if !T::passes(parts, item) {
            return false;
        }
    }
    true
}
