// Laws of layouts and of traffic.
ghost use Rattle.std.specs.Prelude.{ℕ, List};
ghost use Rattle.xmp_prog.specs.declared.parts.ProgParts.{ProgParts};
ghost use Rattle.xmp_prog.specs.declared.statements.Stmt.{Stmt};
ghost use Rattle.xmp_prog.specs.Fits.{PartsFit};
ghost use Rattle.xmp_meaning.specs.Context.{Context};
ghost use Rattle.xmp_meaning.specs.Exchanges.{PartEnd};
ghost use Rattle.xmp_meaning.specs.Laws.{WholeNumbers, HeldNumbers};
ghost use Rattle.xmp_meaning.specs.TrafficLaws.{BeginsLaid, EndsAreRead, NotesAreAdded, StoresAreLaid, TrafficIsAsDue};

/// A cell's number is row-major where rows are whole, and on a node that holds the cell its slot.
pub fn cells_are_numbered()
    ensures whole { (p : ProgParts) → WholeNumbers p }
    ensures held { (p : ProgParts) → HeldNumbers p }
{}

/// From the words of a part's end its trap and the values of its reduction variables can be read back.
pub fn ends_are_read_back()
    ensures { (e : PartEnd) → EndsAreRead e }
{}

/// The run that notes each exchange adds its notes behind those before, and which they are doesn't depend on those.
pub fn notes_are_added()
    ensures { (p : ProgParts) (cx : Context) (s : Stmt) → NotesAreAdded p cx s }
{}

/// Each message of each exchange that a run notes has exactly the words that are due, and text for node 0 alone.
pub fn messages_are_as_due()
    ensures { (p : ProgParts) (input : List ℕ) (steps : ℕ) → PartsFit p → TrafficIsAsDue p input steps }
{}

/// The store of a node has the node's words, and each cell's word stands behind the base of its array. So it is at first.
pub fn stores_are_laid<X>()
    ensures laid { (p : ProgParts) → StoresAreLaid X p }
    ensures first { (p : ProgParts) → BeginsLaid p }
{}
