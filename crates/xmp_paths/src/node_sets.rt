// Sets of at most sixteen nodes.
ghost use Rattle.std.specs.Prelude.{◌≡◌, ℕ, ◌||◌, ◌&&◌, not, IsTrue, ◌↔◌};
ghost use Rattle.xmp_paths.specs.NodeSets.{has};

// The nodes of `was` without those of `current`, and those of `stale`.
pub fn marked(was: u16, current: u16, stale: u16) -> u16
    ensures { (node : ℕ) → has result node ≡ (has stale node || (not (has current node) && has was node)) }
{
    was & !current | stale
}

// Whether a node is in both sets.
pub fn meets(a: u16, b: u16) -> bool
    ensures { IsTrue result ↔ ((node : ℕ) × IsTrue (has a node && has b node)) }
{
    a & b != 0
}
