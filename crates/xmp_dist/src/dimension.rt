// One dimension of a template: which node owns which of its positions.

ghost use Rattle.std.specs.Prelude.{IsTrue};
ghost use Rattle.xmp_dist.specs.Valid.{is_dim};

use crate::chunks::{chunk_of, total};
use crate::form::{DimError, Dist};
use xmp_base::{NODE_LIMIT, SIZE_LIMIT};

/// `size` positions, from 0 on, over `nodes` nodes. A value of this type has parts that fit together.
#[derive(Clone, Copy, PartialEq, Eq, Debug)]
pub struct Dim {
    pub size: u32,
    pub nodes: u32,
    pub dist: Dist,
    ghost valid: { IsTrue (is_dim size nodes dist) },
}

impl Dim {
    ghost use Rattle.std.specs.Prelude.{◌≡◌, ◌-◌, ◌/◌, ℕ, ◌+◌, ◌<◌, ◌≤◌, IsTrue, Some, None, MatchResult, IfOk, ◌↔◌, ◌≢◌, ℤ, pos, ◌≤ℤ◌, ◌<ℤ◌};
    ghost use Rattle.std.specs.Int.{div_ceil};
    ghost use Rattle.xmp_dist.specs.Valid.{dim_fault};
    ghost use Rattle.xmp_dist.specs.Table.{is_chunked, chunk_start, chunk_end};
    ghost use Rattle.xmp_dist.specs.Owner.{owner_inside, owner, owned_below, count, local};

    /// The causes come in the order of the error's variants.
    pub fn new(size: u32, nodes: u32, dist: Dist) -> Result<Dim, DimError>
        ensures parts { IfOk result (λ d. (d.size ≡ size) × (d.nodes ≡ nodes) × (d.dist ≡ dist)) }
        ensures cause { MatchResult result
            (λ _. dim_fault size nodes dist ≡ None)
            (λ e. dim_fault size nodes dist ≡ Some e) }
    {
        if size < 1 || size > SIZE_LIMIT || nodes < 1 || nodes > NODE_LIMIT {
            return Err(DimError::BadSize);
        }
        match dist {
            Dist::Whole => {
                if nodes != 1 {
                    return Err(DimError::BadSize);
                }
            }
            Dist::Block => {}
            Dist::Cyclic(width) => {
                if width < 1 || width > SIZE_LIMIT {
                    return Err(DimError::BadChunk);
                }
            }
            Dist::Gblock(lengths) => {
                if lengths.count != nodes
                    || total(&lengths.values[..nodes as usize]) != size as u64
                {
                    return Err(DimError::BadSum);
                }
            }
        }
        Ok(Dim { size, nodes, dist })
    }

    /// How many positions there are: 1 to `SIZE_LIMIT`.
    pub fn size(&self) -> u32
        ensures { result ≡ self.now.size }
    {
        self.size
    }

    /// How many nodes there are: 1 to `NODE_LIMIT`.
    pub fn nodes(&self) -> u32
        ensures { result ≡ self.now.nodes }
    {
        self.nodes
    }

    /// The form.
    pub fn dist(&self) -> Dist
        ensures { result ≡ self.now.dist }
    {
        self.dist
    }

    /// The node that owns a position. A number outside is owned as the nearest position is.
    pub fn owner(&self, g: i64) -> u32
        ensures owner { result ≡ owner self.now g }
        ensures node { result < self.now.nodes }
    {
        if g < 0 {
            self.owner_inside(0)
        } else if g >= self.size as i64 {
            self.owner_inside(self.size - 1)
        } else {
            self.owner_inside(g as u32)
        }
    }

    fn owner_inside(&self, g: u32) -> u32
        requires { g < self.now.size }
        ensures owner { result ≡ owner_inside self.now g }
        ensures node { result < self.now.nodes }
    {
        match self.dist {
            Dist::Whole => 0,
            Dist::Block => g / self.block(),
            Dist::Cyclic(width) => g / width % self.nodes,
            Dist::Gblock(lengths) => chunk_of(&lengths.values[..lengths.count as usize], g),
        }
    }

    // The length of a chunk of a block form.
    #[tactic(auto, using(crate::proofs::Spans::div_ceil_le))]
    fn block(&self) -> u32
        ensures length { result ≡ div_ceil self.now.size self.now.nodes }
        ensures most { result ≤ self.now.size }
    {
        self.size.div_ceil(self.nodes)
    }

    // Where the chunk of a node begins and ends.
    fn ends(&self, c: u32) -> (u32, u32)
        requires node { c < self.now.nodes }
        requires chunked { IsTrue (is_chunked self.now.dist) }
        ensures start { result.0 ≡ chunk_start self.now.dist self.now.size self.now.nodes c }
        ensures finish { result.1 ≡ chunk_end self.now.dist self.now.size self.now.nodes c }
    {
        match self.dist {
            Dist::Block => {
                let block = self.block();
                let start = c * block;
                (self.size.min(start), self.size.min(start + block))
            }
            Dist::Gblock(lengths) => {
                let chunks = &lengths.values[..lengths.count as usize];
                (
                    total(&chunks[..c as usize]) as u32,
                    total(&chunks[..c as usize + 1]) as u32,
                )
            }
            _ => (0, self.size),
        }
    }

    /// The positions of a node, where they are an interval: from the first number on, and below the second.
    pub fn interval(&self, c: u32) -> (u32, u32)
        requires node { c < self.now.nodes }
        requires chunked { IsTrue (is_chunked self.now.dist) }
        ensures start { result.0 ≡ chunk_start self.now.dist self.now.size self.now.nodes c }
        ensures finish { result.1 ≡ chunk_end self.now.dist self.now.size self.now.nodes c }
        ensures order { result.0 ≤ result.1 }
        ensures inside { result.1 ≤ self.now.size }
        ensures owned { (x : ℕ) → x < self.now.size → (owner_inside self.now x ≡ c) ↔ ((result.0 ≤ x) × (x < result.1)) }
    {
        self.ends(c)
    }

    /// How many positions below `g` node `c` owns.
    pub fn owned_below(&self, c: u32, g: u32) -> u32
        requires node { c < self.now.nodes }
        requires inside { g ≤ self.now.size }
        ensures { result ≡ owned_below self.now c g }
    {
        match self.dist {
            Dist::Cyclic(width) => {
                let round = self.nodes * width;
                g / round * width + width.min((g % round).saturating_sub(c * width))
            }
            _ => {
                let (start, end) = self.interval(c);
                g.min(end) - g.min(start)
            }
        }
    }

    /// How many positions node `c` owns.
    pub fn count(&self, c: u32) -> u32
        requires { c < self.now.nodes }
        ensures { result ≡ count self.now c }
    {
        self.owned_below(c, self.size)
    }

    /// The local number of position `g`: how many smaller ones have the same owner.
    pub fn local(&self, g: u32) -> u32
        requires { g < self.now.size }
        ensures local { result ≡ local self.now g }
        ensures below { result < count self.now (owner_inside self.now g) }
    {
        self.owned_below(self.owner_inside(g), g)
    }

    /// The position of node `c` with the local number `l`: the inverse of `owner` and `local`.
    pub fn global(&self, c: u32, l: u32) -> u32
        requires node { c < self.now.nodes }
        requires within { l < count self.now c }
        ensures inside { result < self.now.size }
        ensures owner { owner_inside self.now result ≡ c }
        ensures local { local self.now result ≡ l }
        ensures inverse { (x : ℕ) → owner_inside self.now x ≡ c → local self.now x ≡ l → result ≡ x }
    {
        match self.dist {
            Dist::Cyclic(width) => l / width * (self.nodes * width) + (c * width + l % width),
            _ => self.interval(c).0 + l,
        }
    }

    // The least position of node `c` from `g` on, or the size where there is none.
    fn next_inside(&self, c: u32, g: u32) -> u32
        requires node { c < self.now.nodes }
        requires inside { g ≤ self.now.size }
        ensures from { g ≤ result }
        ensures inside { result ≤ self.now.size }
        ensures owned { result < self.now.size → owner_inside self.now result ≡ c }
        ensures least { (x : ℕ) → g ≤ x → x < result → owner_inside self.now x ≢ c }
    {
        let below = self.owned_below(c, g);
        if below < self.count(c) {
            self.global(c, below)
        } else {
            self.size
        }
    }

    /// The least number from `g` on and below `end` that node `c` owns, or `end` where there is none.
    pub fn next_owned(&self, c: u32, g: i64, end: i64) -> i64
        requires node { c < self.now.nodes }
        requires order { g ≤ℤ end }
        ensures from { g ≤ℤ result }
        ensures upto { result ≤ℤ end }
        ensures owned { result <ℤ end → owner self.now result ≡ c }
        ensures least { (x : ℤ) → g ≤ℤ x → x <ℤ result → owner self.now x ≢ c }
    {
        if self.owner(g) == c {
            return g;
        }
        if g >= self.size as i64 {
            return end;
        }
        let from = if g < 0 { 0 } else { g as u32 };
        let x = self.next_inside(c, from);
        if x < self.size {
            end.min(x as i64)
        } else {
            end
        }
    }
}
