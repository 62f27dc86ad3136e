// The first rule of coarray programs that breaks in a program.
ghost use Rattle.std.specs.Prelude.{◌≡◌, true, [], replicate, IfOk};
ghost use Rattle.xmp_base.specs.First.{IsFirst};
ghost use Rattle.xmp_prog.specs.Fits.{node_count};
ghost use Rattle.xmp_loops.specs.Loopers.{loopers_from};
ghost use Rattle.xmp_spots.specs.Courses.{plan_of};
ghost use Rattle.xmp_spots.specs.Variables.{image_variables};
ghost use Rattle.xmp_spots.specs.PlanRaces.{BreaksIn};
ghost use Rattle.xmp_races.specs.Program.{CoarrayBreaks, outermost, plan_of_program};
ghost use Rattle.xmp_races.specs.Views.{setting_of};

use crate::setting::{LoopImages, Site};
use crate::statements::happens;
use crate::stops::first_stop;
use sqlite_items::Items;
use std::alloc::{AllocError, Global};
use xmp_base::{NoMemory, Refusal, earlier};
use xmp_loops::loopers;
use xmp_prog::{Prog, ProgParts};
use xmp_spots::{Course, Variables, image_variables, judge};

// All images.
fn all_images(alloc: Global, count: u32) -> Result<Items<bool>, AllocError>
    ensures { IfOk result (λ counts. counts ≡ replicate count true) }
{
    let mut counts = Items::new(alloc);
    'images: for _image in 0..count {
        counts.push(true)?;
    }
    Ok(counts)
}

// Main's body and those of functions, with nothing round them.
fn outermost<'a>(
    p: &'a ProgParts,
    values: &'a Variables,
    looping: &'a [bool],
    counts: &'a [bool],
    loops: &'a [LoopImages],
) -> Site<'a>
    requires values { values.now ≡ image_variables p.now }
    requires looping { looping.now ≡ loopers_from p.now [] p.now.functions }
    requires counts { counts.now ≡ replicate (node_count p.now) true }
    requires loops { loops.now ≡ [] }
    ensures { setting_of result ≡ outermost p.now }
{
    Site {
        program: p,
        count: p.grid.count(),
        values,
        looping,
        counts,
        loops,
    }
}

// What happens in the functions and in main.
fn course(alloc: Global, p: &ProgParts, s: &Site<'_>) -> Result<Course, NoMemory>
    requires { setting_of s.now ≡ outermost p.now }
    ensures { IfOk result (λ course. plan_of course ≡ plan_of_program p.now) }
{
    let mut parts = Items::new(alloc);
    'functions: for f in p.functions.as_slice() {
        let part = happens(alloc, s, &f.body)?;
        parts.push(part)?;
    }
    let body = happens(alloc, s, &p.body)?;
    parts.push(body)?;
    Ok(Course::all(parts))
}

// The course of a program whose image variables are these.
fn course_by(alloc: Global, p: &ProgParts, values: &Variables) -> Result<Course, NoMemory>
    requires { values.now ≡ image_variables p.now }
    ensures { IfOk result (λ course. plan_of course ≡ plan_of_program p.now) }
{
    let looping = loopers(alloc, p)?;
    let counts = all_images(alloc, p.grid.count())?;
    let loops = Items::new(alloc);
    let s = outermost(
        p,
        values,
        looping.as_slice(),
        counts.as_slice(),
        loops.as_slice(),
    );
    course(alloc, p, &s)
}

// The first rule that breaks on the paths of a program whose image variables are these.
fn first_on_paths(
    alloc: Global,
    p: &ProgParts,
    values: &Variables,
) -> Result<Option<Refusal>, NoMemory>
    requires { values.now ≡ image_variables p.now }
    ensures { IfOk result (λ found. IsFirst (BreaksIn (plan_of_program p.now)) found) }
{
    let course = course_by(alloc, p, values)?;
    let found = judge(alloc, &course);
    std::mem::drop(course);
    found
}

// The first of the rules of a program whose image variables are these.
fn first_by(alloc: Global, p: &ProgParts, values: &Variables) -> Result<Option<Refusal>, NoMemory>
    requires { values.now ≡ image_variables p.now }
    ensures { IfOk result (λ found. IsFirst (CoarrayBreaks p.now) found) }
{
    let path = first_on_paths(alloc, p, values)?;
    let stop = first_stop(alloc, p.grid.count(), values, &p.body)?;
    Ok(earlier(path, stop))
}

// The first of the rules of a program.
fn first_of_rules(alloc: Global, p: &ProgParts) -> Result<Option<Refusal>, NoMemory>
    ensures { IfOk result (λ found. IsFirst (CoarrayBreaks p.now) found) }
{
    let values = image_variables(alloc, p)?;
    let found = first_by(alloc, p, &values);
    std::mem::drop(values);
    found
}

/// The first of the rules C1 to C5 that a coarray program breaks, or none: the least place, and there the least number.
pub fn check(alloc: Global, p: &Prog) -> Result<Option<Refusal>, NoMemory>
    ensures { IfOk result (λ found. IsFirst (CoarrayBreaks p.now) found) }
{
    first_of_rules(alloc, p.parts())
}
