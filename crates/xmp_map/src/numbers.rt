// Row-major numbers in boxes of three dimensions, and tests of three numbers.

ghost use Rattle.std.specs.Prelude.{◌≡◌, ◌≤◌, ◌<◌, ◌+◌, ◌*◌, ◌&&◌, ◌∷◌, [], nat_le, nat_lt, slice_index};
ghost use Rattle.xmp_base.specs.Limits.{cell_limit};
ghost use Rattle.xmp_map.specs.RowMajor.{product, row_major, unravel};
ghost use Rattle.xmp_map.specs.Boxes.{IsInside};
ghost use Rattle.xmp_map.specs.Nodes.{is_grid};

// The subscripts of the cell with the number `n`.
pub fn unravel(sizes: &[u32; 3], n: u32) -> [u32; 3]
    requires below { n < product sizes.now }
    requires small { product sizes.now ≤ cell_limit }
    ensures subscripts { result ≡ unravel sizes.now n }
    ensures inside { IsInside result sizes.now }
{
    let [_, rows, columns] = *sizes;
    let rest = n % (rows * columns);
    [n / (rows * columns), rest / columns, rest % columns]
}

// The number of cells.
pub fn product(sizes: &[u32; 3]) -> u32
    requires pair { slice_index sizes.now 0 * slice_index sizes.now 1 ≤ cell_limit }
    requires small { product sizes.now ≤ cell_limit }
    ensures { result ≡ product sizes.now }
{
    let [planes, rows, columns] = *sizes;
    planes * rows * columns
}

// The number of the cell with these subscripts.
pub fn row_major(sizes: &[u32; 3], at: &[u32; 3]) -> u32
    requires pair { slice_index sizes.now 0 * slice_index sizes.now 1 ≤ cell_limit }
    requires small { product sizes.now ≤ cell_limit }
    requires inside { IsInside at.now sizes.now }
    ensures number { result ≡ row_major sizes.now at.now }
    ensures below { result < product sizes.now }
{
    let [_, rows, columns] = *sizes;
    let [plane, row, column] = *at;
    (plane * rows + row) * columns + column
}

// Whether `x` is one of the `many` numbers from `first` on.
pub fn lies_in(x: u32, first: u32, many: u32) -> bool
    ensures { result ≡ (nat_le first x && nat_lt x (first + many)) }
{
    first <= x && x - first < many
}

// Whether three sizes make a grid.
#[tactic(auto, using(crate::proofs::GridLaws::grid_tests), unfolding(crate::specs::RowMajor::product))]
pub fn is_grid(a: u32, b: u32, c: u32) -> bool
    ensures { result ≡ is_grid (a ∷ b ∷ c ∷ []) }
{
    if a < 1 || b < 1 || c < 1 {
        return false;
    }
    if a > 16 || b > 16 || c > 16 {
        return false;
    }
    a * b * c <= 16
}
