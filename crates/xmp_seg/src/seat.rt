// The seat of one image, and its four calls.
use crate::look::Look;
use crate::rule::{Arrived, Got, Looked, Script, Wrote};
use crate::segment::Segment;
use atomic_table::Seat;
use std::marker::{Model, PhantomData};

/// The seat of one image at a segment. Contracts see how far the image is in the script.
#[derive(Drop)]
pub struct ImageSeat<S: Script> {
    pub(crate) seat: Seat<(), Look>,
    // how many images there are, and how many arrivals there are once all have arrived at this phase's end
    pub(crate) images: u64,
    pub(crate) due: u64,
    pub(crate) script: PhantomData<S>,
}

impl<S: Script> Model for ImageSeat<S> {
    ghost use Rattle.std.specs.Prelude.{◌≡◌, ◌≤◌, ◌<◌, ◌*◌, ◌^◌, suc, true, []};
    ghost use Rattle.xmp_seg.specs.Seats.{Standing};
    ghost use Rattle.xmp_seg.specs.Rule.{IsOne, standing};

    ghost Value = { Standing };

    ghost view = { λ s. standing s.seat.table_id s.seat.me.0 };

    ghost invariant = { λ s. (s.seat.me.1 ≡ []) × IsOne s.seat.me.0 × (s.seat.me.0.past ≤ S.script.images)
        × (s.images ≡ S.script.images) × (s.due ≡ S.script.images * suc s.seat.me.0.phase)
        × (S.script.images ≤ 16) × (S.script.phases ≤ 2 ^ 40) × (s.seat.me.0.phase ≤ S.script.phases)
        × (s.seat.me.0.arrived ≡ true → s.seat.me.0.phase < S.script.phases) };
}

ghost use Rattle.std.specs.Prelude.{◌≡◌, ◌≤◌, ◌↔◌, [], true, IsTrue, IsFalse};
ghost use Rattle.xmp_script.specs.Script.{Get, Put, seen};
ghost use Rattle.xmp_seg.specs.Rule.{IsOne, standing};
ghost use Rattle.xmp_seg.specs.Seats.{IsNext, IsDone, after_access, after_arrival, after_look, after_pass, due};

impl<S: Script> ImageSeat<S> {
    // Its seat at the table.
    pub(crate) fn seat(self) -> Seat<(), Look>
        ensures table { result.table_id ≡ self.segment }
        ensures seat { standing result.table_id result.me.0 ≡ self }
        ensures one { IsOne result.me.0 }
        ensures empty { result.me.1 ≡ [] }
    {
        self.seat
    }

    /// Reads word `e`.
    pub fn get(&mut self, segment: &Segment<S>, e: u32) -> i64
        requires table { self.old.segment ≡ segment.now }
        requires next { IsNext S.script self.old (Get e) }
        ensures value { result ≡ seen S.script self.old.image self.old.phase self.old.place e }
        ensures seat { self.new ≡ after_access self.old }
    {
        segment
            .table
            .shared
            .load::<Got<S>>(&mut self.seat, e as usize + 1)
            .cast_signed()
    }

    /// Writes `v` to word `e`.
    pub fn put(&mut self, segment: &Segment<S>, e: u32, v: i64)
        requires table { self.old.segment ≡ segment.now }
        requires next { IsNext S.script self.old (Put e v) }
        ensures seat { self.new ≡ after_access self.old }
    {
        segment
            .table
            .shared
            .swap::<Wrote>(&mut self.seat, e as usize + 1, v.cast_unsigned());
    }

    /// Arrives at the end of the phase.
    pub fn arrive(&mut self, segment: &Segment<S>)
        requires table { self.old.segment ≡ segment.now }
        requires done { IsDone S.script self.old }
        ensures seat { self.new ≡ after_arrival self.old }
    {
        segment
            .table
            .shared
            .fetch_add::<Arrived>(&mut self.seat, 0, 1);
    }

    /// Looks whether all images have arrived at the end of the phase. Where they have, the next phase begins.
    pub fn passed(&mut self, segment: &Segment<S>) -> bool
        requires table { self.old.segment ≡ segment.now }
        requires arrived { self.old.arrived ≡ true }
        ensures found { IsTrue result ↔ (due S.script self.old ≤ self.new.found) }
        ensures yes { IsTrue result → self.new ≡ after_pass (after_look self.old self.new.found) }
        ensures no { IsFalse result → self.new ≡ after_look self.old self.new.found }
    {
        let found = segment.table.shared.load::<Looked<S>>(&mut self.seat, 0);
        let all = found >= self.due;
        if all {
            self.due += self.images;
        }
        all
    }
}
