// The limits of this project, which bound the work on a text and on a run. Every crate cites them by these names.
ghost use Rattle.std.specs.Prelude.{◌≡◌, pos};
ghost use Rattle.xmp_base.specs.Limits.{source_limit, input_limit, token_limit, depth_limit, size_limit, cell_limit, offset_limit, node_limit, default_steps};

/// The most bytes that a source text may have.
pub const SOURCE_LIMIT: usize = 1_048_576;

/// The most bytes that an input may have.
pub const INPUT_LIMIT: usize = 16_777_216;

/// The most tokens that a text may have, before and after macros are replaced.
pub const TOKEN_LIMIT: usize = 200_000;

/// The greatest depth of a token: so many parts of a text may be open.
pub const DEPTH_LIMIT: u32 = 128;

/// The greatest size of a dimension, and the greatest width of a cyclic form or of a shadow.
pub const SIZE_LIMIT: u32 = 4_194_304;

/// The most cells that all arrays of a program may have together.
pub const CELL_LIMIT: u32 = 4_194_304;

/// The most by which a point of a loop or of an alignment may lie from its index, either way.
pub const OFFSET_LIMIT: i32 = 8_388_608;

/// The most nodes that a program may run on.
pub const NODE_LIMIT: u32 = 16;

/// The steps of a run, where no number of them is given.
pub const DEFAULT_STEPS: u64 = 1_000_000;

/// The law of the limits: each constant is the number that the definitions state. A call computes nothing.
pub fn limits_are_the_definitions()
    ensures source { SOURCE_LIMIT ≡ source_limit }
    ensures input { INPUT_LIMIT ≡ input_limit }
    ensures tokens { TOKEN_LIMIT ≡ token_limit }
    ensures depth { DEPTH_LIMIT ≡ depth_limit }
    ensures size { SIZE_LIMIT ≡ size_limit }
    ensures cells { CELL_LIMIT ≡ cell_limit }
    ensures offset { OFFSET_LIMIT ≡ pos offset_limit }
    ensures nodes { NODE_LIMIT ≡ node_limit }
    ensures steps { DEFAULT_STEPS ≡ default_steps }
{}
