// The meetings of a code.
ghost use Rattle.std.specs.Prelude.{◌≡◌, ◌↔◌, ◌<◌, ◌≤◌, ◌+◌, ◌&&◌, IsTrue, nat_le, nat_lt};
ghost use Rattle.std.specs.List.{AllByRecursion, list_all};
ghost use Rattle.xmp_prog.specs.Numbers.{apart, is_in, pairwise};
ghost use Rattle.xmp_instr.specs.Valid.{AreSets, MeetingFits, is_set, rises};

use crate::meeting::Meeting;
use crate::moves::move_fits;
use crate::parts::CodeParts;
use crate::tables::{Slots, Variables};
use crate::test::{Test, all};
use sqlite_items::Items;

// ---- sets of nodes

fn rises(nodes: u32, set: &[u32]) -> bool
    ensures { result ≡ rises nodes 0 set.now }
{
    let mut least = 0u64;
    'set: for k in set {
        if u64::from(*k) < least || *k >= nodes {
            return false;
        }
        least = u64::from(*k) + 1;
    }
    true
}

/// Nodes that rise, at least one.
struct Sets;

impl Test for Sets {
    type Item = Items<u32>;

    ghost holds = { λ c set. IsTrue (is_set c.nodes set) };

    fn passes(parts: &CodeParts, set: &Items<u32>) -> bool {
        !set.is_empty() && rises(parts.nodes, set.as_slice())
    }
}

fn is_in(set: &[u32], n: u32) -> bool
    ensures { result ≡ is_in set.now n }
{
    'set: for k in set {
        if *k == n {
            return true;
        }
    }
    false
}

fn are_apart(a: &[u32], b: &[u32]) -> bool
    ensures { result ≡ apart a.now b.now }
{
    'set: for n in a {
        if is_in(b, *n) {
            return false;
        }
    }
    true
}

fn is_apart_from(set: &[u32], sets: &[Items<u32>]) -> bool
    ensures { result ≡ list_all (apart set.now) sets.now }
{
    'sets: for other in sets {
        if !are_apart(set, other.as_slice()) {
            return false;
        }
    }
    true
}

fn are_disjoint(sets: &[Items<u32>]) -> bool
    ensures { result ≡ pairwise apart sets.now }
{
    'sets: for (k, set) in sets.iter().enumerate() {
        if !is_apart_from(set.as_slice(), &sets[k + 1..]) {
            return false;
        }
    }
    true
}

fn are_sets(parts: &CodeParts, sets: &[Items<u32>]) -> bool
    ensures { IsTrue result ↔ AreSets parts.now.nodes sets.now }
{
    all::<Sets>(parts, sets) && are_disjoint(sets)
}

// ---- meetings

fn meeting_fits(parts: &CodeParts, meeting: &Meeting) -> bool
    requires { parts.now.node < parts.now.nodes }
    ensures { IsTrue result ↔ MeetingFits parts.now meeting.now }
{
    match meeting {
        Meeting::Barrier => true,
        Meeting::Cast { slots, from } => {
            *from < parts.nodes && all::<Slots>(parts, slots.as_slice())
        }
        Meeting::Move { kind, .. } => move_fits(parts, kind),
        Meeting::LoopEnd(variables) => all::<Variables>(parts, variables.as_slice()),
        Meeting::TaskEnd(sets) => are_sets(parts, sets.as_slice()),
    }
}

/// Whether all meetings fit.
pub fn meetings_fit(parts: &CodeParts) -> bool
    requires { parts.now.node < parts.now.nodes }
    ensures { IsTrue result ↔ AllByRecursion (MeetingFits parts.now) parts.now.meetings }
{
    let meetings = parts.meetings.as_slice();
    'meetings: for meeting in meetings {
        if !meeting_fits(parts, meeting) {
            return false;
        }
    }
    true
}
