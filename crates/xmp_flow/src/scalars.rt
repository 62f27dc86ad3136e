// The events of one scalar.
ghost use Rattle.std.specs.Prelude.{◌≡◌, IsTrue, bit_xor};
ghost use Rattle.xmp_paths.specs.Plans.{skip};
ghost use Rattle.xmp_paths.specs.Flows.{plan_of};
ghost use Rattle.xmp_flow.specs.Setting.{assigned, is_reduced, reads_scalar, wrong_where};
ghost use Rattle.xmp_flow.specs.Views.{KnowsAll, setting_of};
ghost use Rattle.xmp_loops.specs.Tables.{role_at};
ghost use Rattle.xmp_loops.specs.Tables.{flag_at};

use crate::setting::Around;
use std::alloc::Global;
use xmp_base::Place;
use xmp_loops::Role;
use xmp_paths::{Event, Flow};

/// The rule breaks here, where the test holds.
pub fn wrong_where(alloc: Global, test: bool, rule: u16, at: Place) -> Flow
    ensures { plan_of result ≡ wrong_where test rule at }
{
    if test {
        Flow::one(Event::Wrong { rule, at })
    } else {
        Flow::nothing(alloc)
    }
}

/// A scalar is read.
pub fn read_scalar(alloc: Global, s: &Around, slot: u32, at: Place) -> Flow
    ensures { plan_of result ≡ reads_scalar (setting_of s.now) slot at }
{
    let object = 2 * slot as u64;
    let nodes = s.nodes;
    match s.roles.at(slot) {
        Role::Shared => Flow::one(Event::Read {
            object,
            nodes,
            rule: 1,
            at,
        }),
        Role::Index => Flow::nothing(alloc),
        Role::Reduced(_) => Flow::one(Event::Wrong { rule: 5, at }),
        Role::Own => Flow::one(Event::Read {
            object,
            nodes,
            rule: 5,
            at,
        }),
    }
}

/// A scalar is current where the statement is executed, and out of date elsewhere.
pub fn assigned(s: &Around, slot: u32) -> Flow
    requires { KnowsAll s.now }
    ensures { plan_of result ≡ assigned (setting_of s.now) slot }
{
    Flow::one(Event::Mark {
        object: 2 * slot as u64,
        current: s.nodes,
        stale: s.all ^ s.nodes,
    })
}
