// The turns of a counted loop.
ghost use Rattle.std.specs.Prelude.{◌+◌, ◌-◌, ◌*◌, ◌^◌, ◌≤◌, pos, ◌≡◌, ◌+ℤ◌, ◌-ℤ◌, ◌≤ℤ◌, if◌then◌else◌, FitsSigned};
ghost use Rattle.std.specs.Int.{w32};
ghost use Rattle.xmp_meaning.specs.Expressions.{natural};
ghost use Rattle.xmp_meaning.specs.Loops.{turn_count};

/// The value of a loop's index in its first turn, by how much it goes up, and how many turns there are. In each turn the
/// index is a value of `int`.
#[derive(Clone, Copy)]
pub struct Turns {
    pub first: i32,
    pub step: u32,
    pub count: u64,
    ghost rises: { 1 ≤ step },
    ghost inside: { (first +ℤ pos (count * step)) ≤ℤ pos (2 ^ 31 - 1 + step) },
}

impl Turns {
    ghost use Rattle.std.specs.Prelude.{◌≡◌, ◌<◌, negsuc};
    ghost use Rattle.xmp_own_parts.specs.Turns.{value_in_turn};

    /// The value of the index in turn `k`, or that behind the last turn.
    #[tactic(auto, using(crate::proofs::Jumps::turns_below))]
    pub fn value(&self, k: u64) -> i64
        requires { k ≤ self.now.count }
        ensures value { result ≡ value_in_turn self.now k }
        ensures low { negsuc (2 ^ 31 - 1) ≤ℤ result }
        ensures high { result ≤ℤ pos (2 ^ 33) }
    {
        i64::from(self.first) + (k * u64::from(self.step)) as i64
    }

    /// The value of the index in turn `k`.
    #[tactic(auto, using(crate::proofs::Jumps::turns_below))]
    pub fn index(&self, k: u64) -> i32
        requires { k < self.now.count }
        ensures { result ≡ value_in_turn self.now k }
    {
        self.value(k) as i32
    }
}

/// The turns of a loop from an index up to a bound.
pub fn turns_of(first: i32, to: i32, inclusive: bool, step: u32) -> Turns
    ensures count { result.count ≡ turn_count first to inclusive step }
    ensures first { result.first ≡ first }
    ensures step { 1 ≤ step → result.step ≡ step }
{
    if step == 0 {
        return Turns {
            first,
            step: 1,
            count: 0,
        };
    }
    let gap = gap(i64::from(first), i64::from(to), inclusive);
    let count = (natural(gap) + (u64::from(step) - 1)) / u64::from(step);
    Turns { first, step, count }
}

/// How far a bound is above the first value.
fn gap(from: i64, to: i64, inclusive: bool) -> i64
    requires from { FitsSigned w32 from }
    requires to { FitsSigned w32 to }
    ensures { result ≡ (to -ℤ from) +ℤ pos (if inclusive then 1 else 0) }
{
    to - from + i64::from(inclusive)
}

/// The number that is counted; 0 for a negative one.
fn natural(value: i64) -> u64
    ensures { result ≡ natural value }
{
    if value < 0 { 0 } else { value as u64 }
}
