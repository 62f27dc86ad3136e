// Why a grid, a template or a map is refused.

use thiserror::Error;

/// Why `Grid::new`, `Template::new` or `ArrayMap::new` refuses.
#[derive(Clone, Copy, PartialEq, Eq, Debug, Error)]
pub enum MapError {
    #[error("the sizes make no grid of at most 16 nodes")]
    Nodes,
    #[error("a size of a template is out of range")]
    Size,
    #[error("the forms do not fit the grid")]
    Spread,
    #[error("the parts of a form do not fit")]
    Chunk,
    #[error("the alignment does not fit the template")]
    Align,
    #[error("a shadow does not fit")]
    Shadow,
}
