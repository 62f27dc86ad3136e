// Items added at the end.
ghost use Rattle.std.specs.Prelude.{◌≡◌, ◌++◌, ◌∷◌, [], IfOk};

use xmp_base::NoMemory;

/// Adds an item at the end.
pub fn push<A: Drop>(all: &mut Vec<A>, item: A) -> Result<(), NoMemory>
    ensures { IfOk result (λ _. all.new.items ≡ all.old.items ++ item ∷ []) }
{
    all.push(item).map_err(|_| NoMemory)
}
