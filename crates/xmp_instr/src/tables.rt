// The tables of a code.
ghost use Rattle.std.specs.Prelude.{◌↔◌, ◌<◌, ◌≤◌, ◌≡◌, IsTrue};
ghost use Rattle.xmp_instr.specs.Depths.{IsDepth};
ghost use Rattle.xmp_instr.specs.Valid.{GuardFits, IndexFits, IsBuilt, MapOver, SlotFits, TemplateOver};

use crate::depths::is_depth;
use crate::formats::is_built;
use crate::meeting::Reduced;
use crate::parts::{CodeParts, Guard};
use crate::test::{Test, all};
use xmp_base::Bytes;
use xmp_map::{ArrayMap, Template};

/// Maps are over the nodes of the code.
pub struct Maps;

impl Test for Maps {
    type Item = ArrayMap;

    ghost holds = { λ c m. MapOver c.nodes m };

    fn passes(parts: &CodeParts, map: &ArrayMap) -> bool {
        map.template().grid.count() == parts.nodes
    }
}

/// Templates are over the nodes of the code.
pub struct Templates;

impl Test for Templates {
    type Item = Template;

    ghost holds = { λ c t. TemplateOver c.nodes t };

    fn passes(parts: &CodeParts, template: &Template) -> bool {
        template.grid.count() == parts.nodes
    }
}

/// Formats are formats.
pub struct Formats;

impl Test for Formats {
    type Item = Bytes;

    ghost holds = { λ c format. IsBuilt format };

    fn passes(parts: &CodeParts, format: &Bytes) -> bool {
        is_built(format.as_slice())
    }
}

/// Slots are below the number of words.
pub struct Slots;

impl Test for Slots {
    type Item = u32;

    ghost holds = { SlotFits };

    fn passes(parts: &CodeParts, slot: &u32) -> bool {
        *slot < parts.words
    }
}

/// So are those of reduction variables.
pub struct Variables;

impl Test for Variables {
    type Item = Reduced;

    ghost holds = { λ c r. SlotFits c r.slot };

    fn passes(parts: &CodeParts, reduced: &Reduced) -> bool {
        reduced.slot < parts.words
    }
}

/// And so are those of indices that are there.
pub struct Indices;

impl Test for Indices {
    type Item = Option<u32>;

    ghost holds = { IndexFits };

    fn passes(parts: &CodeParts, index: &Option<u32>) -> bool {
        match index {
            None => true,
            Some(slot) => *slot < parts.words,
        }
    }
}

/// Guards lead to an instruction with the depth 0.
pub struct Guards;

impl Test for Guards {
    type Item = Guard;

    ghost holds = { GuardFits };

    fn passes(parts: &CodeParts, guard: &Guard) -> bool {
        (guard.target as usize) < parts.instrs.len()
            && is_depth(parts, guard.target as usize, 0)
            && all::<Indices>(parts, &guard.indices)
    }
}

/// Depths are at most the greatest.
pub struct Depths;

impl Test for Depths {
    type Item = u32;

    ghost holds = { λ c d. d ≤ c.depth };

    fn passes(parts: &CodeParts, depth: &u32) -> bool {
        *depth <= parts.depth
    }
}
