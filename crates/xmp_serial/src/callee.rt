// Calls of functions, as a run sees them.
ghost use Rattle.xmp_serial.specs.Ends.{Tells};

use std::alloc::Global;
use xmp_meaning::Halt;

/// What does the calls of functions.
pub trait Callee {
    ghost use Rattle.std.specs.Prelude.{List, ℕ, ℤ};
    ghost use Rattle.xmp_meaning.specs.Runs.{Step};

    /// What a call of a function with these arguments comes to, where so many steps are left.
    ghost calls: { Self → ℕ → List ℤ → ℕ → Step (Unit {0}) ℤ };

    /// Calls may be made.
    ghost ready: { Self → Type 0 };

    /// Calls a function by its number. `steps` are the steps left, and then those left after the call.
    fn call(
        &self,
        alloc: Global,
        function: u32,
        arguments: &[i64],
        steps: &mut u64,
    ) -> Result<i64, Halt>
        requires { ready self.now }
        ensures { Tells (calls self.now function arguments.now steps.old) result steps.new };
}
