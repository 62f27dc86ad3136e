// What a seat knows.

/// What a seat of the table knows: its images, from `first` up to `past`, and how they stand; how often it has looked at
/// the arrivals, and how many its last look found. No value of it is made.
pub struct Look {
    pub first: u32,
    pub past: u32,
    pub phase: u64,
    pub place: u64,
    pub arrived: bool,
    pub looks: u64,
    pub found: u64,
}
