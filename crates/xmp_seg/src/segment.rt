// The segment.
use crate::rule::{Script, Words};
use std::marker::Model;

/// Words that the images of a script share. Contracts see which table of words it is.
#[derive(Drop)]
pub struct Segment<S: Script> {
    pub(crate) table: Words<S>,
}

impl<S: Script> Model for Segment<S> {
    ghost use Rattle.std.specs.Prelude.{◌≡◌, ◌<◌, ◌-◌};
    ghost use Rattle.atomic_table.specs.Seated.{TableId};
    ghost use Rattle.xmp_seg.specs.Rule.{IsFor};

    ghost Value = { TableId };

    ghost view = { λ s. s.table.shared.table_id };

    ghost invariant = { λ s. IsFor (s.table.shared.table_id.words - 1) S.script × (0 < s.table.shared.table_id.words)
        × (s.table.shared.table_id.slots ≡ 0) };
}
