// Who is told of worlds.
ghost use Rattle.std.specs.Prelude.{◌≡◌, Option, Some, None};
ghost use Rattle.std.specs.Option.{option_copied};
ghost use Rattle.xmp_nodes.specs.Worlds as worlds;
ghost use Rattle.xmp_world.specs.Kept.{noted};

use crate::worlds::World;
use std::mem::{drop, replace};

/// An object that is told of the world that a run came to.
pub trait Watch {
    /// The world that it was told last, or none yet, where the object tells it.
    ghost kept: { Self → Option (Option worlds.World) };

    /// It is told of a world.
    fn ended(&mut self, world: World)
        ensures { kept self.new ≡ noted (kept self.old) world };
}

/// Drops what it is told, and tells nothing.
#[derive(Clone, Copy, PartialEq, Eq, Debug)]
pub struct NoWatch;

impl Watch for NoWatch {
    ghost kept = { λ w. None };

    fn ended(&mut self, world: World) {
        drop(world);
    }
}

/// Keeps the last world that it is told of.
#[derive(Drop)]
pub struct LastWorld {
    last: Option<World>,
}

impl LastWorld {
    /// One that was told of none.
    pub fn new() -> LastWorld
        ensures { result.last ≡ None }
    {
        LastWorld { last: None }
    }

    /// The world that it was told last.
    pub fn world(&self) -> Option<&World>
        ensures { option_copied result ≡ self.now.last }
    {
        self.last.as_ref()
    }
}

impl Watch for LastWorld {
    ghost kept = { λ w. Some w.last };

    fn ended(&mut self, world: World) {
        let before = replace(&mut self.last, Some(world));
        drop(before);
    }
}
