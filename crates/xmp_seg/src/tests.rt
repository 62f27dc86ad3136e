ghost use Rattle.std.specs.Prelude.{◌≡◌, ◌<◌, IfOk, suc, false, true};
ghost use Rattle.xmp_seg.specs.Seats.{at_start};
ghost use Rattle.xmp_seg.specs.Examples.{IsAt, ring, signs, single};

use super::*;
use std::alloc::Global;
use std::marker::Brand;
use std::sync::Wait;
use std::test::*;
use std::thread;
use std::thread::Threads;
use xmp_base::{NoMemory, Words};

// The one image reads 5, writes 6, arrives and passes.
fn read_and_write<S: Script>(alloc: Global) -> Result<(i64, bool, Words), NoMemory>
    requires { S.script ≡ single }
{
    let (segment, mut seats) = Segment::<S>::new(alloc, &[5], 1)?;
    let Some(mut seat) = seats.pop() else {
        unreachable!()
    };
    let found = seat.get(&segment, 0);
    seat.put(&segment, 0, 6);
    seat.arrive(&segment);
    if !seat.passed(&segment) {
        return Ok((found, false, Words::new(alloc)));
    }
    seats.push(seat).map_err(|_| NoMemory)?;
    Ok((found, true, segment.close(alloc, seats)?))
}

#[test]
fn one_image_reads_and_writes_a_word(rt: HostRuntime) -> Result<(), Fail> {
    let (found, passed, words) = read_and_write::<Brand>(rt.alloc())?;
    assert_eq!(rt; (found, passed), (5, true));
    assert_eq!(rt; words.as_slice(), [6].as_slice());
    Ok(())
}

// The one image reads two words, writes the least number to one and -7 to the other, and reads the first again.
fn read_and_write_signs<S: Script>(alloc: Global) -> Result<([i64; 3], Option<Words>), NoMemory>
    requires { S.script ≡ signs }
{
    let (segment, mut seat) = one_seat::<S>(alloc)?;
    let first = seat.get(&segment, 0);
    let second = seat.get(&segment, 1);
    seat.put(&segment, 0, i64::MIN);
    seat.put(&segment, 1, -7);
    let third = seat.get(&segment, 0);
    let words = sync_and_close(alloc, segment, seat)?;
    Ok(([first, second, third], words))
}

// The segment of two words and one image, and its seat.
fn one_seat<S: Script>(alloc: Global) -> Result<(Segment<S>, ImageSeat<S>), NoMemory>
    requires { S.script ≡ signs }
    ensures { IfOk result (λ r. r.1 ≡ at_start r.0 0) }
{
    let (segment, mut seats) = Segment::<S>::new(alloc, &[-1, i64::MIN], 1)?;
    let Some(seat) = seats.pop() else {
        unreachable!()
    };
    Ok((segment, seat))
}

// Arrives, passes and closes.
fn sync_and_close<S: Script>(
    alloc: Global,
    segment: Segment<S>,
    seat: ImageSeat<S>,
) -> Result<Option<Words>, NoMemory>
    requires script { S.script ≡ signs }
    requires seat { IsAt segment 0 0 5 false seat }
{
    let mut seat = seat;
    seat.arrive(&segment);
    if !seat.passed(&segment) {
        return Ok(None);
    }
    let mut seats = Vec::new(alloc);
    seats.push(seat).map_err(|_| NoMemory)?;
    Ok(Some(segment.close(alloc, seats)?))
}

#[test]
fn negative_numbers_keep_their_bits(rt: HostRuntime) -> Result<(), Fail> {
    let (found, words) = read_and_write_signs::<Brand>(rt.alloc())?;
    assert_eq!(rt; found, [-1, i64::MIN, i64::MIN]);
    assert_eq!(rt;
        words.map(|w| w.as_slice() == [i64::MIN, -7].as_slice()),
        Some(true)
    );
    Ok(())
}

// Image k writes its number to the word of the next image, and arrives.
fn put_own<S: Script>(segment: &Segment<S>, seat: &mut ImageSeat<S>, k: u32)
    requires script { S.script ≡ ring }
    requires lies { k < 3 }
    requires seat { IsAt segment.now k 0 0 false seat.old }
    ensures seat { IsAt segment.now k 0 1 true seat.new }
{
    seat.put(segment, (k + 1) % 3, i64::from(k));
    seat.arrive(segment);
}

// Looks until it passes the end of phase q.
fn wait<S: Script, R: Wait>(rt: &R, segment: &Segment<S>, seat: &mut ImageSeat<S>, k: u32, q: u64)
    requires seat { IsAt segment.now k q 1 true seat.old }
    ensures seat { IsAt segment.now k (suc q) 0 false seat.new }
{
    for _ in rt.forever() {
        if seat.passed(segment) {
            return;
        }
        thread::yield_now();
    }
}

// Image k reads its own word after the first sync, and arrives again.
fn get_own<S: Script, R: Wait>(rt: &R, segment: &Segment<S>, seat: &mut ImageSeat<S>, k: u32) -> i64
    requires script { S.script ≡ ring }
    requires lies { k < 3 }
    requires seat { IsAt segment.now k 0 1 true seat.old }
    ensures seat { IsAt segment.now k 1 1 true seat.new }
{
    wait(rt, segment, seat, k, 0);
    let found = seat.get(segment, k);
    seat.arrive(segment);
    found
}

// What image 0 does, in a thread of its own.
fn one_image<S: Script, R: Wait>(
    rt: &R,
    segment: &Segment<S>,
    mut seat: ImageSeat<S>,
) -> (i64, ImageSeat<S>)
    requires script { S.script ≡ ring }
    requires seat { IsAt segment.now 0 0 0 false seat }
    ensures seat { IsAt segment.now 0 2 0 false result.1 }
{
    put_own(segment, &mut seat, 0);
    let found = get_own(rt, segment, &mut seat, 0);
    wait(rt, segment, &mut seat, 0, 1);
    (found, seat)
}

// What images 1 and 2 do, in one thread.
fn two_images<S: Script, R: Wait>(
    rt: &R,
    segment: &Segment<S>,
    mut first: ImageSeat<S>,
    mut second: ImageSeat<S>,
) -> (i64, i64, ImageSeat<S>, ImageSeat<S>)
    requires script { S.script ≡ ring }
    requires first { IsAt segment.now 1 0 0 false first }
    requires second { IsAt segment.now 2 0 0 false second }
    ensures first { IsAt segment.now 1 2 0 false result.2 }
    ensures second { IsAt segment.now 2 2 0 false result.3 }
{
    put_own(segment, &mut first, 1);
    put_own(segment, &mut second, 2);
    let found_first = get_own(rt, segment, &mut first, 1);
    let found_second = get_own(rt, segment, &mut second, 2);
    wait(rt, segment, &mut first, 1, 1);
    wait(rt, segment, &mut second, 2, 1);
    (found_first, found_second, first, second)
}

// The segment of three words and three images, and their seats.
fn three_seats<S: Script>(alloc: Global) -> Result<Three<S>, NoMemory>
    requires { S.script ≡ ring }
    ensures { IfOk result (λ r. IsAt r.segment 0 0 0 false r.first × IsAt r.segment 1 0 0 false r.second × IsAt r.segment 2 0 0 false r.third) }
{
    let (segment, mut seats) = Segment::<S>::new(alloc, &[0, 0, 0], 3)?;
    let (Some(third), Some(second), Some(first)) = (seats.pop(), seats.pop(), seats.pop()) else {
        unreachable!()
    };
    Ok(Three {
        segment,
        first,
        second,
        third,
    })
}

// A segment of three images with their seats.
#[derive(Drop)]
struct Three<S: Script> {
    segment: Segment<S>,
    first: ImageSeat<S>,
    second: ImageSeat<S>,
    third: ImageSeat<S>,
}

// Closes it.
fn close_three<S: Script>(alloc: Global, three: Three<S>) -> Result<Words, NoMemory>
    requires script { S.script ≡ ring }
    requires first { IsAt three.segment 0 2 0 false three.first }
    requires second { IsAt three.segment 1 2 0 false three.second }
    requires third { IsAt three.segment 2 2 0 false three.third }
{
    let Three {
        segment,
        first,
        second,
        third,
    } = three;
    let mut seats = Vec::new(alloc);
    seats.push(first).map_err(|_| NoMemory)?;
    seats.push(second).map_err(|_| NoMemory)?;
    seats.push(third).map_err(|_| NoMemory)?;
    segment.close(alloc, seats)
}

// Three images on two threads: what each finds, and the words at the end.
fn pass_round<S: Script + Send + Sync, R: Threads + Wait + Sync>(
    rt: &R,
    alloc: Global,
) -> Result<([i64; 3], Words), NoMemory>
    requires { S.script ≡ ring }
{
    let Three {
        segment,
        first,
        second,
        third,
    } = three_seats::<S>(alloc)?;
    let shared = &segment;
    let ((a, first), (b, c, second, third)) = thread::join(
        rt,
        move ||
            requires { (S.script ≡ ring) × IsAt shared.now 0 0 0 false first }
            ensures { IsAt shared.entry.now 0 2 0 false result.1 }
        { one_image(rt, shared, first) },
        move ||
            requires { (S.script ≡ ring) × IsAt shared.now 1 0 0 false second × IsAt shared.now 2 0 0 false third }
            ensures { IsAt shared.entry.now 1 2 0 false result.2 × IsAt shared.entry.now 2 2 0 false result.3 }
        { two_images(rt, shared, second, third) },
    );
    let three = Three {
        segment,
        first,
        second,
        third,
    };
    Ok(([a, b, c], close_three(alloc, three)?))
}

#[test]
fn two_threads_hand_numbers_to_the_next_image(rt: HostRuntime) -> Result<(), Fail> {
    let (found, words) = pass_round::<Brand, HostRuntime>(&rt, rt.alloc())?;
    assert_eq!(rt; found, [2, 0, 1]);
    assert_eq!(rt; words.as_slice(), [2, 0, 1].as_slice());
    Ok(())
}

// Image 2 looks while the others have not arrived, and after each arrival.
fn look_early<S: Script>(alloc: Global) -> Result<Vec<bool>, NoMemory>
    requires { S.script ≡ ring }
{
    let Three {
        segment,
        mut first,
        mut second,
        mut third,
    } = three_seats::<S>(alloc)?;
    let mut looks = Vec::new(alloc);
    put_own(&segment, &mut third, 2);
    put_own(&segment, &mut first, 0);
    let early = third.passed(&segment);
    looks.push(early).map_err(|_| NoMemory)?;
    if !early {
        put_own(&segment, &mut second, 1);
        looks.push(third.passed(&segment)).map_err(|_| NoMemory)?;
    }
    Ok(looks)
}

#[test]
fn a_look_before_the_others_arrived_is_false(rt: HostRuntime) -> Result<(), Fail> {
    let looks = look_early::<Brand>(rt.alloc())?;
    assert_eq!(rt; looks.as_slice(), [false, true].as_slice());
    Ok(())
}
