// How a segment is made with its seats, and how it is closed.
ghost use Rattle.std.specs.Prelude.{◌≡◌, ◌≤◌, ◌<◌, ◌^◌, ◌∷◌, ◌++◌, [], suc, All, FitsSigned, IfOk, OnOk, length, map, pos, slice_index_or};
ghost use Rattle.std.specs.Int.{w64};
ghost use Rattle.std.specs.Mem.Slots.{IsFull, slots_items, slots_len};
ghost use Rattle.xmp_script.specs.Script.{words_at};
ghost use Rattle.xmp_seg.specs.Rule.{IsFor, IsWhole, all_at_start, bits, run_at_start, value_behind};
ghost use Rattle.xmp_seg.specs.Seats.{AreAtEnd, AreAtStart, AreWords, at_start};

use crate::look::Look;
use crate::rule::{FirstOut, Neighbours, Script, Words as Table};
use crate::seat::ImageSeat;
use crate::segment::Segment;
use atomic_table::{Closed, Seat};
use std::alloc::Global;
use std::marker::PhantomData;
use xmp_base::{NoMemory, Words};

// The bits of a start word.
fn bits_at(start: &[i64], e: usize) -> u64
    requires { e < length start.now }
    ensures bits { result ≡ bits (slice_index_or start.now e (pos 0)) }
    ensures range { FitsSigned w64 (slice_index_or start.now e (pos 0)) }
{
    let v = start[e];
    v.cast_unsigned()
}

// Adds a word at the end.
fn add_word(words: &mut Vec<u64>, word: u64) -> Result<(), NoMemory>
    ensures { OnOk result (words.new.items ≡ words.old.items ++ word ∷ []) }
{
    words.push(word).map_err(|_| NoMemory)
}

// The words of the table: no arrivals, and then the bits of the start words.
fn table_words(alloc: Global, start: &[i64]) -> Result<Vec<u64>, NoMemory>
    requires { length start.now ≤ 4194336 }
    ensures words { IfOk result (λ w. w.items ≡ 0 ∷ map bits start.now) }
    ensures range { IfOk result (λ w. All (λ z. FitsSigned w64 z) start.now) }
{
    let mut words = Vec::with_capacity(alloc, start.len() + 1).map_err(|_| NoMemory)?;
    add_word(&mut words, 0)?;
    for e in 0..start.len() {
        add_word(&mut words, bits_at(start, e))?;
    }
    Ok(words)
}

// The table of a segment, and the seat of all its images.
fn table_of<S: Script>(alloc: Global, start: &[i64]) -> Result<(Table<S>, Seat<(), Look>), NoMemory>
    requires words { length start.now ≤ 4194336 }
    requires script { IsFor (length start.now) S.script }
    requires start { AreWords start.now S.script.start }
    ensures words { IfOk result (λ t. t.0.shared.table_id.words ≡ suc (length start.now)) }
    ensures slots { IfOk result (λ t. t.0.shared.table_id.slots ≡ 0) }
    ensures table { IfOk result (λ t. t.1.table_id ≡ t.0.shared.table_id) }
    ensures seat { IfOk result (λ t. t.1.me ≡ (all_at_start S.script, [])) }
{
    let words = table_words(alloc, start)?;
    match Table::<S>::of_words(alloc, &words, &()) {
        Ok(made) => Ok(made),
        Err(_) => Err(NoMemory),
    }
}

// Cuts the seat of the first image off a run of images.
fn next_seat<S: Script>(table: &Table<S>, rest: &mut Seat<(), Look>, images: u32) -> ImageSeat<S>
    requires table { rest.old.table_id ≡ table.now.shared.table_id }
    requires some { 0 < rest.old.table_id.words }
    requires images { S.script.images ≡ images }
    requires few { images ≤ 16 }
    requires short { S.script.phases ≤ 2 ^ 40 }
    requires lies { rest.old.me.0.first < images }
    requires rest { rest.old.me ≡ (run_at_start rest.old.me.0.first images, []) }
    ensures seat { result ≡ at_start rest.old.table_id rest.old.me.0.first }
    ensures table { rest.new.table_id ≡ rest.old.table_id }
    ensures rest { rest.new.me ≡ (run_at_start (suc rest.old.me.0.first) images, []) }
{
    let first = table.shared.split_seat::<FirstOut>(rest);
    ImageSeat {
        seat: first,
        images: u64::from(images),
        due: u64::from(images),
        script: PhantomData,
    }
}

// The seats of all images, in order.
fn seats_of<S: Script>(
    alloc: Global,
    table: &Table<S>,
    all: Seat<(), Look>,
    images: u32,
) -> Result<Vec<ImageSeat<S>>, NoMemory>
    requires table { all.table_id ≡ table.now.shared.table_id }
    requires some { 0 < table.now.shared.table_id.words }
    requires images { S.script.images ≡ images }
    requires few { images ≤ 16 }
    requires short { S.script.phases ≤ 2 ^ 40 }
    requires all { all.me ≡ (run_at_start 0 images, []) }
    ensures seats { IfOk result (λ seats. AreAtStart S.script table.now.shared.table_id seats.items) }
{
    let mut rest = all;
    let mut seats = Vec::with_capacity(alloc, images as usize).map_err(|_| NoMemory)?;
    while seats.len() < images as usize {
        let seat = next_seat(table, &mut rest, images);
        seats.push(seat).map_err(|_| NoMemory)?;
    }
    Ok(seats)
}

impl<S: Script> Segment<S> {
    /// A segment with these words at the start, and the seats of its images in order.
    pub fn new(
        alloc: Global,
        start: &[i64],
        images: u32,
    ) -> Result<(Segment<S>, Vec<ImageSeat<S>>), NoMemory>
        requires words { length start.now ≤ 4194336 }
        requires script { IsFor (length start.now) S.script }
        requires start { AreWords start.now S.script.start }
        requires images { S.script.images ≡ images }
        ensures seats { IfOk result (λ r. AreAtStart S.script r.0 r.1.items) }
    {
        let (table, all) = table_of::<S>(alloc, start)?;
        let seats = seats_of(alloc, &table, all, images)?;
        Ok((Segment { table }, seats))
    }

    /// The words at the script's end. The segment is given up, also where memory ran out.
    pub fn close(self, alloc: Global, seats: Vec<ImageSeat<S>>) -> Result<Words, NoMemory>
        requires seats { AreAtEnd S.script self seats.items }
        ensures count { IfOk result (λ w. suc (length w) ≡ self.words) }
        ensures words { IfOk result (λ w. AreWords w (words_at S.script S.script.phases)) }
    {
        let all = gathered(&self, seats);
        let Segment { table } = self;
        let count = table.word_count() - 1;
        let closed = table.close_with(all);
        let words = data_words(alloc, &closed, count);
        closed.free();
        words
    }
}

// Joins all seats of the segment, from the last to the first.
fn gathered<S: Script>(segment: &Segment<S>, seats: Vec<ImageSeat<S>>) -> Seat<(), Look>
    requires seats { AreAtEnd S.script segment.now seats.items }
    ensures table { result.table_id ≡ segment.now }
    ensures seat { IsWhole S.script result.me.0 }
{
    let _table = &segment.table;
    let mut seats = seats;
    let Some(last) = seats.pop() else {
        unreachable!()
    };
    let mut all = last.seat();
    while let Some(next) = seats.pop() {
        let mut seat = next.seat();
        segment.table.shared.join_seat::<Neighbours>(&mut seat, all);
        all = seat;
    }
    all
}

// The values of the first `count` words behind the arrivals.
fn data_words(alloc: Global, closed: &Closed<(), Global>, count: usize) -> Result<Words, NoMemory>
    requires count { suc count ≡ slots_len closed.now.words }
    requires full { IsFull closed.now.words }
    ensures count { IfOk result (λ w. length w ≡ count) }
    ensures words { IfOk result (λ w. AreWords w (value_behind (slots_items closed.now.words))) }
{
    let mut words = Words::new(alloc);
    for e in 0..count {
        words.push(closed.word(e + 1).cast_signed())?;
    }
    Ok(words)
}
