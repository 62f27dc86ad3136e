// Programs whose parts fit.

ghost use Rattle.std.specs.Prelude.{◌≡◌, [], ◌∷◌};
ghost use Rattle.xmp_base.specs.declared.place.Place.{Place};
ghost use Rattle.xmp_map.specs.declared.grid.Grid.{Grid};
ghost use Rattle.xmp_map.specs.declared.template.Template.{Template};
ghost use Rattle.xmp_map.specs.declared.array_map.ArrayMap.{ArrayMap};
ghost use Rattle.xmp_prog.specs.Squares.{squares, IsMade};
ghost use Rattle.xmp_prog.specs.Fits.{PartsFit};
ghost use Rattle.xmp_prog.specs.Examples.{empty, exchange};

use crate::{Kind, Prog, ProgParts, Stmt};
use sqlite_items::Items;
use std::alloc::Global;
use xmp_map::Grid;

// The parts of a program with a coarray fit.
fn coarray_program_fits()
    ensures { (grid : Grid) (at : Place) → grid.sizes ≡ 3 ∷ 1 ∷ 1 ∷ [] → PartsFit (exchange grid at) }
{}

// The parts of a program with mappings, directives and a function fit.
fn mapped_program_fits()
    ensures { (grid : Grid) (t : Template) (m : ArrayMap) (at : Place) → IsMade grid t m → PartsFit (squares grid t m at) }
{}

// `int main() {}`
#[tactic(auto, using(crate::proofs::ExampleLaws::empty_fits))]
fn empty(alloc: Global, grid: Grid) -> Prog
    ensures { result ≡ empty grid }
{
    let body = Stmt::Block(Items::new(alloc));
    Prog::new(ProgParts {
        grid,
        kind: Kind::Global,
        scalars: Items::new(alloc),
        arrays: Items::new(alloc),
        templates: Items::new(alloc),
        functions: Items::new(alloc),
        start: Items::new(alloc),
        body,
    })
}

fn shows(prog: &Prog, nodes: u32, kind: Kind, grid: &Grid) -> bool {
    prog.nodes() == nodes && prog.kind() == kind && prog.parts().grid == *grid
}

#[test]
fn what_new_was_given_is_shown(rt: HostRuntime) {
    coarray_program_fits();
    mapped_program_fits();
    if let Ok(grid) = Grid::new(&[3, 2]) {
        let prog = empty(rt.alloc(), grid);
        assert!(rt; shows(&prog, 6, Kind::Global, &grid));
    }
}
