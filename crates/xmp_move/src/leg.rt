// One section of a transfer between two nodes.
ghost use Rattle.std.specs.Prelude.{◌≡◌, ◌<◌, ◌≤◌, ◌+◌, ◌-◌, ◌^◌, ◌⊎◌, ◌++◌, ℕ, IfOk, false, filter};
ghost use Rattle.std.specs.List.{range_with_len};
ghost use Rattle.xmp_base.specs.Limits.{size_limit};
ghost use Rattle.xmp_move.specs.Reaches.{ReachFits, reaches};
ghost use Rattle.xmp_move.specs.Axes.{WalkFits, at};

use crate::reach::Reach;
use std::alloc::Global;
use xmp_base::NoMemory;

/// The subscripts of a section, from the first on.
#[derive(Clone, Copy)]
pub struct Walk {
    pub first: u32,
    pub step: u32,
}

impl Walk {
    fn at(&self, k: u32) -> u32
        requires { at self.now k < 2 ^ 32 }
        ensures { result ≡ at self.now k }
    {
        self.first + k * self.step
    }

    /// How many places have a subscript below the bound.
    fn below(&self, bound: u32) -> u32
        requires forward { 1 ≤ self.now.step }
        requires short { self.now.step ≤ size_limit }
        requires small { bound ≤ size_limit }
        ensures below { (k : ℕ) → k < result → at self.now k < bound }
        ensures from { (k : ℕ) → result ≤ k → bound ≤ at self.now k }
    {
        let left = bound.saturating_sub(self.first);
        if self.step == 1 {
            left
        } else {
            (left + (self.step - 1)) / self.step
        }
    }

    /// The places whose subscripts may pass: from the first to before the second.
    fn places(&self, count: u32, reach: &Reach, extent: u32) -> (u32, u32)
        requires walk { WalkFits self.now count extent }
        ensures before { (k : ℕ) → k < result.0 → k < count → reaches reach.now (at self.now k) ≡ false }
        ensures after { (k : ℕ) → result.1 ≤ k → k < count → reaches reach.now (at self.now k) ≡ false }
        ensures inside { result.1 ≤ count }
    {
        match *reach {
            Reach::Span { from, to } => (
                self.below(from.min(extent)),
                self.below(to.min(extent)).min(count),
            ),
            Reach::Rounds { .. } => (0, count),
        }
    }

    /// How many places from one on surely don't pass.
    fn misses(&self, k: u32, count: u32, reach: &Reach, extent: u32) -> u32
        requires walk { WalkFits self.now count extent }
        requires inside { k < count }
        requires fits { ReachFits reach.now extent }
        ensures none { (i : ℕ) → i < result → reaches reach.now (at self.now (k + i)) ≡ false }
        ensures small { result ≤ 2 ^ 28 }
    {
        (reach.missing(extent, self.at(k)) + (self.step - 1)) / self.step
    }
}

/// The places of a section: how many there are, the subscripts of the target and of the source there with those that pass, and
/// the subscripts of the side whose slots are asked for, with what each smaller one that it has adds.
#[derive(Clone, Copy)]
pub struct Leg {
    pub count: u32,
    pub target: Walk,
    pub needs: Reach,
    pub source: Walk,
    pub gives: Reach,
    pub slots: Walk,
    pub side: Reach,
    pub extents: (u32, u32, u32),
    pub weight: u32,
}

impl Leg {
    ghost use Rattle.xmp_move.specs.Legs.{LegFits, Repeats, adds_further, leg_adds, leg_test, share_of};

    /// Whether a place passes on both sides.
    fn test(&self, k: u32) -> bool
        requires inside { k < self.now.count }
        requires fits { LegFits self.now }
        ensures { result ≡ leg_test self.now k }
    {
        self.needs.has(self.extents.0, self.target.at(k))
            && self.gives.has(self.extents.1, self.source.at(k))
    }

    /// What a place adds to the slot.
    fn adds(&self, k: u32) -> u32
        requires inside { k < self.now.count }
        requires fits { LegFits self.now }
        ensures { result ≡ leg_adds self.now k }
    {
        self.side.position(self.extents.2, self.slots.at(k)) * self.weight
    }

    /// The places that may pass.
    fn overlap(&self) -> (u32, u32)
        requires { LegFits self.now }
        ensures before { (k : ℕ) → k < result.0 → leg_test self.now k ≡ false }
        ensures after { (k : ℕ) → result.1 ≤ k → k < self.now.count → leg_test self.now k ≡ false }
        ensures order { result.0 ≤ result.1 }
        ensures inside { result.1 ≤ self.now.count }
    {
        let (a, b) = self.target.places(self.count, &self.needs, self.extents.0);
        let (c, d) = self.source.places(self.count, &self.gives, self.extents.1);
        let to = b.min(d);
        (a.max(c).min(to), to)
    }

    /// The next place that may pass, after one that doesn't.
    fn next(&self, k: u32, to: u32) -> u32
        requires fits { LegFits self.now }
        requires inside { k < to }
        requires bound { to ≤ self.now.count }
        requires fails { leg_test self.now k ≡ false }
        ensures later { k < result }
        ensures most { result ≤ to }
        ensures none { (j : ℕ) → k ≤ j → j < result → leg_test self.now j ≡ false }
    {
        let a = self
            .target
            .misses(k, self.count, &self.needs, self.extents.0);
        let b = self
            .source
            .misses(k, self.count, &self.gives, self.extents.1);
        (k + a.max(b).max(1)).min(to)
    }

    /// The places that pass, from the first to before the second. It goes from chunk to chunk of cyclic forms.
    fn passing(&self, alloc: Global, from: u32, to: u32) -> Result<Vec<u32>, NoMemory>
        requires fits { LegFits self.now }
        requires order { from ≤ to }
        requires bound { to ≤ self.now.count }
        ensures { IfOk result (λ v. v.items ≡ filter (leg_test self.now) (range_with_len from (to - from))) }
    {
        let mut out = Vec::new(alloc);
        let mut k = from;
        while k < to {
            if self.test(k) {
                out.push(k)?;
                k += 1;
            } else {
                k = self.next(k, to);
            }
        }
        Ok(out)
    }

    /// After how many places the tests repeat, where that is less than `many`, and `many` else: as many as both sides' cyclic
    /// forms deal in a round, multiplied.
    fn period(&self, many: u32) -> u32
        requires { LegFits self.now }
        ensures most { result ≤ many }
        ensures some { 1 ≤ many → 1 ≤ result }
        ensures again { (result ≡ many) ⊎ Repeats (leg_test self.now) result }
    {
        let a = u64::from(self.needs.round(self.extents.0));
        let b = u64::from(self.gives.round(self.extents.1));
        let both = a * b;
        let most = u64::from(many);
        if both == 0 {
            many
        } else if both < most {
            both as u32
        } else {
            many
        }
    }

    /// Adds to the list what the places add that lie so much further on, of those before `to`.
    fn push_further(
        &self,
        out: &mut Vec<u32>,
        places: &[u32],
        further: u32,
        to: u32,
    ) -> Result<(), NoMemory>
        requires fits { LegFits self.now }
        requires bound { to ≤ self.now.count }
        ensures { IfOk result (λ _. out.new.items ≡ out.old.items ++ adds_further (leg_adds self.now) to further places.now) }
    {
        for k in places {
            let place = k.saturating_add(further);
            if place < to {
                out.push(self.adds(place))?;
            }
        }
        Ok(())
    }

    /// What the places that pass add to the slot. Where the tests repeat they are made once.
    pub fn share(&self, alloc: Global) -> Result<Vec<u32>, NoMemory>
        requires { LegFits self.now }
        ensures { IfOk result (λ v. v.items ≡ share_of self.now) }
    {
        let (from, to) = self.overlap();
        let many = to - from;
        let period = self.period(many);
        let places = self.passing(alloc, from, from + period)?;
        let mut out = Vec::new(alloc);
        let mut further = 0;
        while further < many {
            self.push_further(&mut out, &places, further, to)?;
            further += period;
        }
        Ok(out)
    }
}
