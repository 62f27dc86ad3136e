// Chunks that lie end to end.

ghost use Rattle.std.specs.Prelude.{◌≡◌, ◌≤◌, length, sum};
ghost use Rattle.xmp_dist.specs.Table.{chunk_of};

// Where chunks of these lengths end.
pub fn total(lengths: &[u32]) -> u64
    requires { length lengths.now ≤ 16 }
    ensures { result ≡ sum lengths.now }
{
    lengths.iter().map(|len| *len as u64).sum()
}

// The number of the chunk that has `g`.
pub fn chunk_of(lengths: &[u32], g: u32) -> u32
    requires { length lengths.now ≤ 16 }
    ensures { result ≡ chunk_of lengths.now g }
{
    let mut rest = g;
    for (i, len) in lengths.iter().enumerate() {
        if rest < *len {
            return i as u32;
        }
        rest -= *len;
    }
    lengths.len() as u32
}
