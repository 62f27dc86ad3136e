// The map of an array: how its dimensions lie on a template, and so which node holds which cell.

ghost use Rattle.std.specs.Prelude.{IsTrue, is_none, map, drop, ◌≤◌, nat_le, nat_lt, ◌&&◌};
ghost use Rattle.std.specs.List.{list_all};
ghost use Rattle.xmp_base.specs.Limits.{cell_limit};
ghost use Rattle.xmp_map.specs.RowMajor.{product};
ghost use Rattle.xmp_dist.specs.Valid.{is_extent};
ghost use Rattle.xmp_map.specs.Align.{is_unused, map_fault};

use crate::align::{aligned_dims, fault};
use crate::aligned::{AlignedDim, Target};
use crate::fault::MapError;
use crate::holding::{held, local, owner_on};
use crate::numbers::{product, row_major, unravel};
use crate::template::Template;

/// The map of an array of one to three dimensions over a template.
#[derive(Clone, Copy, PartialEq, Eq, Debug)]
pub struct ArrayMap {
    pub template: Template,
    /// The dimensions; those from `dims` on are unused, of extent 1, and aligned with nothing.
    pub aligned: [AlignedDim; 3],
    pub dims: u32,
    ghost most: { dims ≤ 3 },
    ghost rest: { IsTrue (list_all is_unused (drop dims aligned)) },
    ghost fits: { IsTrue (is_none (map_fault template.dims template.spread aligned)) },
    ghost extents: { IsTrue (list_all (λ l. is_extent l.extent) aligned) },
    ghost small: { product (map (λ l. l.extent) aligned) ≤ cell_limit },
}

/// A cell of an array, by its subscripts; unused ones are 0.
#[derive(Clone, Copy, PartialEq, Eq, Debug)]
pub struct Cell {
    pub at: [u32; 3],
}

impl ArrayMap {
    ghost use Rattle.std.specs.Prelude.{◌≡◌, ◌<◌, ◌*◌, ◌↔◌, ℕ, List, MatchResult, IfOk, IsSome, IfSome, Some, None, length, slice_get, slice_index, if◌then◌else◌};
    ghost use Rattle.xmp_dist.specs.Count.{count_below};
    ghost use Rattle.xmp_map.specs.RowMajor.{unravel};
    ghost use Rattle.xmp_map.specs.Boxes.{IsInside, count_before};
    ghost use Rattle.xmp_map.specs.Align.{aligned_dims};
    ghost use Rattle.xmp_map.specs.Axes.{owner_along};
    ghost use Rattle.xmp_map.specs.Held.{node_count, extents, IsCell, owns, holds_in, holds, words, held_counts, local_positions, slot};

    /// The map of an array with these extents, targets and shadow widths, one each for each dimension.
    pub fn new(
        template: &Template,
        extents: &[u32],
        target: &[Target],
        shadow: &[(u32, u32)],
    ) -> Result<ArrayMap, MapError>
        requires some { 1 ≤ length extents.now }
        requires most { length extents.now ≤ 3 }
        requires targets { length target.now ≡ length extents.now }
        requires shadows { length shadow.now ≡ length extents.now }
        requires sizes { IsTrue (list_all is_extent extents.now) }
        requires cells { product extents.now ≤ cell_limit }
        ensures parts { IfOk result (λ m. (m.template ≡ template.now) × (m.dims ≡ length extents.now)
            × (m.aligned ≡ aligned_dims extents.now target.now shadow.now)) }
        ensures cause { MatchResult result
            (λ _. map_fault template.now.dims template.now.spread
            (aligned_dims extents.now target.now shadow.now) ≡ None)
            (λ e. map_fault template.now.dims template.now.spread
            (aligned_dims extents.now target.now shadow.now) ≡ Some e) }
    {
        let (a, b, c) = aligned_dims(extents, target, shadow);
        let aligned = [a, b, c];
        match fault(template, &aligned) {
            Some(cause) => Err(cause),
            None => Ok(ArrayMap {
                template: *template,
                aligned,
                dims: extents.len() as u32,
            }),
        }
    }

    /// The template.
    pub fn template(&self) -> &Template
        ensures { result.now ≡ self.now.template }
    {
        &self.template
    }

    /// How many dimensions there are: 1 to 3.
    pub fn dims(&self) -> u32
        ensures { result ≡ self.now.dims }
    {
        self.dims
    }

    /// How many subscripts there are in dimension `d`.
    pub fn extent(&self, d: u32) -> u32
        requires { d < self.now.dims }
        ensures { result ≡ slice_index (extents self.now) d }
    {
        self.aligned[d as usize].extent
    }

    /// What dimension `d` is aligned with.
    pub fn target(&self, d: u32) -> Target
        requires { d < self.now.dims }
        ensures { IfSome (slice_get self.now.aligned d) (λ l. result ≡ l.target) }
    {
        self.aligned[d as usize].target
    }

    /// The shadow widths of dimension `d`, below and above.
    pub fn shadow(&self, d: u32) -> (u32, u32)
        requires { d < self.now.dims }
        ensures { IfSome (slice_get self.now.aligned d)
            (λ l. (result.0 ≡ l.low) × (result.1 ≡ l.high)) }
    {
        let dim = &self.aligned[d as usize];
        (dim.low, dim.high)
    }

    // Where a node stands in the grid.
    #[tactic(auto, using(crate::proofs::GridLaws::grid_small))]
    fn grid_place(&self, node: u32) -> [u32; 3]
        requires { node < node_count self.now }
        ensures place { result ≡ unravel self.now.template.grid.sizes node }
        ensures inside { IsInside result self.now.template.grid.sizes }
    {
        unravel(&self.template.grid.sizes, node)
    }

    // The owner of a cell along an axis of the grid.
    fn owner_along(&self, cell: &[u32; 3], axis: u32) -> u32
        requires { IsCell self.now cell.now }
        ensures { result ≡ owner_along self.now.template.spread self.now.aligned cell.now axis }
    {
        let [first, second, third] = &self.aligned;
        let last = owner_on(&self.template, third, cell[2], axis).unwrap_or(0);
        let rest = owner_on(&self.template, second, cell[1], axis).unwrap_or(last);
        owner_on(&self.template, first, cell[0], axis).unwrap_or(rest)
    }

    /// The node that owns a cell.
    pub fn owner_of(&self, cell: &Cell) -> u32
        requires { IsCell self.now cell.now.at }
        ensures node { result < node_count self.now }
        ensures owns { IsTrue (owns self.now result cell.now.at) }
        ensures only { (other : ℕ) → other < node_count self.now
            → IsTrue (owns self.now other cell.now.at) → other ≡ result }
        ensures holds { IsTrue (holds self.now result cell.now.at) }
    {
        let at = [
            self.owner_along(&cell.at, 0),
            self.owner_along(&cell.at, 1),
            self.owner_along(&cell.at, 2),
        ];
        row_major(&self.template.grid.sizes, &at)
    }

    // How many subscripts the node holds in each dimension.
    fn sides(&self, node: u32) -> [u32; 3]
        requires { node < node_count self.now }
        ensures sides { result ≡ held_counts self.now node }
        ensures pair { slice_index result 0 * slice_index result 1 ≤ cell_limit }
        ensures small { product result ≤ cell_limit }
    {
        let at = self.grid_place(node);
        let [first, second, third] = &self.aligned;
        [
            held(&self.template, first, &at),
            held(&self.template, second, &at),
            held(&self.template, third, &at),
        ]
    }

    /// How many cells a node holds.
    pub fn words(&self, node: u32) -> u32
        requires { node < node_count self.now }
        ensures { result ≡ words self.now node }
    {
        product(&self.sides(node))
    }

    /// How many subscripts a node holds in dimension `d`.
    pub fn held(&self, node: u32, d: u32) -> u32
        requires node { node < node_count self.now }
        requires dimension { d < self.now.dims }
        ensures { result
            ≡ count_below (holds_in self.now node d) (slice_index (extents self.now) d) }
    {
        self.sides(node)[d as usize]
    }

    /// The local position of subscript `x` of dimension `d`: how many smaller ones the node holds.
    /// `None` where it does not hold `x`.
    pub fn local(&self, node: u32, d: u32, x: u32) -> Option<u32>
        requires node { node < node_count self.now }
        requires dimension { d < self.now.dims }
        requires inside { x < slice_index (extents self.now) d }
        ensures held { IsSome result ↔ IsTrue (holds_in self.now node d x) }
        ensures position { IfSome result (λ l. l ≡ count_below (holds_in self.now node d) x) }
    {
        local(
            &self.template,
            &self.aligned[d as usize],
            &self.grid_place(node),
            x,
        )
    }

    // A cell's local positions, where the node holds it.
    fn locals(&self, node: u32, cell: &[u32; 3]) -> Option<[u32; 3]>
        requires node { node < node_count self.now }
        requires inside { IsCell self.now cell.now }
        ensures { result ≡ (if holds self.now node cell.now
            then Some (local_positions self.now node cell.now)
            else None) }
    {
        let at = self.grid_place(node);
        let [first, second, third] = &self.aligned;
        let Some(x) = local(&self.template, first, &at, cell[0]) else {
            return None;
        };
        let Some(y) = local(&self.template, second, &at, cell[1]) else {
            return None;
        };
        let Some(z) = local(&self.template, third, &at, cell[2]) else {
            return None;
        };
        Some([x, y, z])
    }

    /// Whether a node holds a cell.
    pub fn holds(&self, node: u32, cell: &Cell) -> bool
        requires node { node < node_count self.now }
        requires inside { IsCell self.now cell.now.at }
        ensures { IsTrue result ↔ IsTrue (holds self.now node cell.now.at) }
    {
        self.locals(node, &cell.at).is_some()
    }

    /// Where a node keeps a cell in its store: the row-major number of the local positions, which is the
    /// number of held cells before it. `None` where it does not hold the cell.
    pub fn slot(&self, node: u32, cell: &Cell) -> Option<u32>
        requires node { node < node_count self.now }
        requires inside { IsCell self.now cell.now.at }
        ensures held { IsSome result ↔ IsTrue (holds self.now node cell.now.at) }
        ensures slot { IfSome result (λ s. s ≡ slot self.now node cell.now.at) }
        ensures rank { IfSome result
            (λ s. s ≡ count_before (extents self.now) (holds self.now node) cell.now.at) }
        ensures below { IfSome result (λ s. s < words self.now node) }
        ensures only { (other : List ℕ) → IsCell self.now other → IsTrue (holds self.now node other)
            → IfSome result (λ s. slot self.now node other ≡ s → other ≡ cell.now.at) }
    {
        let locals = self.locals(node, &cell.at)?;
        Some(row_major(&self.sides(node), &locals))
    }
}
