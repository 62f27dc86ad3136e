// How deep a token stands.
ghost use Rattle.std.specs.Prelude.{◌≡◌, ◌≤◌, ◌<◌, MatchOption, suc};

/// The depth at a place of a text, and the depth at which its innermost level of brackets began.
#[derive(Clone, Copy)]
pub struct Depth {
    pub now: u32,
    pub base: u32,
    ghost ordered: { base ≤ now },
}
