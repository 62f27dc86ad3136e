// What tokens do to the depth.
ghost use Rattle.std.specs.Prelude.{◌≡◌, ◌≤◌, ◌<◌, MatchOption, suc};
ghost use Rattle.xmp_reader.specs.Depths.{now_behind, base_behind};

use crate::depth::Depth;
use xmp_base::DEPTH_LIMIT;

/// What a token does to the depth. A closing token has the depth that was outside.
#[derive(Clone, Copy)]
pub enum Effect {
    Plain,
    Operator,
    Separator,
    Opening,
    Closing(Depth),
    /// the closing parenthesis of a cast
    Cast(Depth),
    /// the first token of a statement that is counted
    Entering,
}

/// The depth before a text.
pub fn start() -> Depth
    ensures now { result.now ≡ 0 }
    ensures base { result.base ≡ 0 }
{
    Depth { now: 0, base: 0 }
}

/// One deeper, where that is no more than the limit.
fn deeper(depth: Depth) -> Option<u32>
    ensures { MatchOption result (128 < suc depth.now) (λ n. (n ≡ suc depth.now) × (n ≤ 128)) }
{
    if depth.now < DEPTH_LIMIT {
        Some(depth.now + 1)
    } else {
        None
    }
}

fn within(depth: Depth) -> Option<Depth>
    ensures { MatchOption result (128 < depth.now) (λ n. (n ≡ depth) × (n.now ≤ 128)) }
{
    if depth.now <= DEPTH_LIMIT {
        Some(depth)
    } else {
        None
    }
}

/// The depths behind a token, where it isn't too deep.
pub fn behind(depth: Depth, effect: Effect) -> Option<Depth>
    ensures { MatchOption result (128 < now_behind depth effect) (λ n. (n.now ≡ now_behind depth effect) × (n.base ≡ base_behind depth effect) × (n.now ≤ 128)) }
{
    match effect {
        Effect::Plain => within(depth),
        Effect::Operator => match deeper(depth) {
            Some(now) => Some(Depth {
                now,
                base: depth.base,
            }),
            None => None,
        },
        Effect::Separator => within(Depth {
            now: depth.base,
            base: depth.base,
        }),
        Effect::Opening => match deeper(depth) {
            Some(now) => Some(Depth { now, base: now }),
            None => None,
        },
        Effect::Closing(outer) => within(outer),
        Effect::Cast(outer) => match deeper(outer) {
            Some(now) => Some(Depth {
                now,
                base: outer.base,
            }),
            None => None,
        },
        Effect::Entering => match deeper(depth) {
            Some(now) => Some(Depth {
                now,
                base: depth.base + 1,
            }),
            None => None,
        },
    }
}
