/// What an assignment writes: a scalar by its slot, or a cell of an array by its number in the array's row. The cells of a coarray are
/// those of all images, laid end to end in the order of the images. A row has no cell at a negative number.
#[derive(Clone, Copy, Debug, PartialEq, Eq)]
pub enum Location {
    Scalar(u32),
    Cell(u32, i64),
}
