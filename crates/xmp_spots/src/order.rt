// The order of refusals.
ghost use Rattle.std.specs.Prelude.{◌≡◌, not};
ghost use Rattle.xmp_base.specs.First.{comes_first};

use xmp_base::Refusal;

// Whether a refusal stands before another.
pub(crate) fn is_before(a: Refusal, b: Refusal) -> bool
    ensures { result ≡ not (comes_first b a) }
{
    (a.at.line, a.at.column, a.rule) < (b.at.line, b.at.column, b.rule)
}
