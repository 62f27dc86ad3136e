// The rule of a segment, and its kinds of step: a load or a swap of a word, an arrival, a look at the arrivals, and the split
// and the join of seats.
ghost use Rattle.std.specs.Prelude.{ℤ};
ghost use Rattle.xmp_script.specs.Script.{Script as ScriptOf};

use crate::look::Look;
use atomic_table::{Join, Play, Split, Table, TableRule};
use std::alloc::Global;
use std::marker::{Brand, PhantomData};

/// A script over words of 64 bits, which contracts alone see.
pub trait Script {
    ghost script: { ScriptOf ℤ };
}

/// With this type a caller names the script at the call, in its proof.
impl Script for Brand {
    ghost use Rattle.xmp_seg.specs.Rule.{nothing};

    ghost script = { nothing };
}

/// The rule of a segment.
pub struct InScript<S>(PhantomData<S>);

impl<S: Script> TableRule<(), Look, ()> for InScript<S> {
    ghost use Rattle.xmp_seg.specs.Rule.{Ruled, all_at_start};

    ghost holds = { λ key. Ruled S.script };

    ghost first = { λ key. all_at_start S.script };
}

/// The words of a segment, behind the count of arrivals.
pub type Words<S> = Table<(), Look, (), InScript<S>, Global>;

/// A get: a load that found the bits of what the image sees.
pub struct Got<S>(PhantomData<S>);

impl<S: Script> Play<(), Look> for Got<S> {
    ghost use Rattle.std.specs.Prelude.{◌≡◌, suc, ◌-◌, FitsSigned};
    ghost use Rattle.std.specs.Int.{w64};
    ghost use Rattle.xmp_script.specs.Script.{seen};
    ghost use Rattle.xmp_seg.specs.Rule.{bits};

    ghost then = { λ step me n after.
        (n ≡ bits (seen S.script me.0.first me.0.phase me.0.place (step.word - 1)))
        × FitsSigned w64 (seen S.script me.0.first me.0.phase me.0.place (step.word - 1))
        × (after ≡ (record me.0 { place = suc me.0.place }, me.1)) };
}

/// A put: a swap.
pub struct Wrote;

impl Play<(), Look> for Wrote {
    ghost use Rattle.std.specs.Prelude.{◌≡◌, suc};

    ghost then = { λ step me n after. after ≡ (record me.0 { place = suc me.0.place }, me.1) };
}

/// An arrival: an addition of one to the count.
pub struct Arrived;

impl Play<(), Look> for Arrived {
    ghost use Rattle.std.specs.Prelude.{◌≡◌, true};

    ghost then = { λ step me n after. after ≡ (record me.0 { arrived = true }, me.1) };
}

/// A look: a load of the count. The next phase begins exactly where enough arrivals were found.
pub struct Looked<S>(PhantomData<S>);

impl<S: Script> Play<(), Look> for Looked<S> {
    ghost use Rattle.std.specs.Prelude.{◌≡◌, suc, ◌*◌, ◌≤◌, ◌<◌};
    ghost use Rattle.xmp_seg.specs.Rule.{looked, gone_on};

    ghost then = { λ step me n after.
        (S.script.images * suc me.0.phase ≤ n → after ≡ (gone_on (looked me.0 n), me.1))
        × (n < S.script.images * suc me.0.phase → after ≡ (looked me.0 n, me.1)) };
}

/// The first image of a run gets a seat of its own.
pub struct FirstOut;

impl Split<Look> for FirstOut {
    ghost use Rattle.std.specs.Prelude.{suc};

    ghost left = { λ v. record v { first = suc v.first } };

    ghost right = { λ v. record v { past = suc v.first } };
}

/// Two neighbouring runs become one.
pub struct Neighbours;

impl Join<Look> for Neighbours {
    ghost use Rattle.xmp_seg.specs.Rule.{spent};

    ghost both = { λ v w. record v { past = w.past } };

    ghost spent = { spent };
}
