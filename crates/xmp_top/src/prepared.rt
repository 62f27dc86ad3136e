// What was prepared before the first write.
use xmp_base::{Bytes, Status};

/// What is due: the bytes for `out`, those for `err`, and the status where both are written.
#[derive(Drop)]
pub struct Prepared {
    pub out: Bytes,
    pub err: Bytes,
    pub status: Status,
}
