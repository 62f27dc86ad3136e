// Expressions: names, types and constants.
ghost use Rattle.xmp_names.specs.Typing.{binary as join};
ghost use Rattle.std.specs.Prelude.{IsErr, MatchResult, ◌≡◌, IfOk, None, map, slice_get};
ghost use Rattle.std.specs.Option.{option_map};
ghost use Rattle.xmp_names.specs.Expressions.{add, arguments_of, call, call_as, call_intrinsic, call_of, called, cell, chain, each_next, each_subscript, expr_of, image_notes, inside_of, intrinsic, is_own, judged_call, may_call, may_name, next_of, no_parts, of_type, read, read_as, reference_of, right_of, unknown};

use crate::names::{Environment, Meaning, Region};
use crate::operators::{Operator, binary, cast, choose, number, operator_of, unary};
use crate::rules::{Notes, Rule, greater, joined, no_notes, noted};
use crate::typed::{Operand, Parts, Typed, Value};
use sqlite_items::{Boxed, Items};
use std::alloc::{AllocError, Global};
use std::mem::drop;
use xmp_base::Place;
use xmp_num::Ty;
use xmp_prog as prog;
use xmp_syntax::{CommaList, Expr, Image, Inside, Link, Name, Next, Reference};

impl Environment {
    /// What is made of an expression, its type, what is known of its value, and the rules of names that it breaks.
    #[cycle(expression)]
    pub fn expression(&self, alloc: Global, e: &Expr) -> Result<Typed, AllocError>
        ensures { IfOk result (λ t. t ≡ expr_of self.now e.now) }
    {
        match e {
            Expr::Number(_, value, ty) => Ok(number(alloc, *value, *ty)),
            Expr::Read(reference) => {
                let subscripts = self.subscripts(alloc, reference.subscripts.as_slice())?;
                let image = self.image(alloc, &reference.image)?;
                self.read(alloc, &reference.name, subscripts, image)
            }
            Expr::Call(call) => {
                let arguments = self.arguments(alloc, &call.arguments.item)?;
                self.call(alloc, &call.name, arguments)
            }
            Expr::Parens(inner) => self.expression(alloc, inner.item.get()),
            Expr::Unary(op, x) => {
                let x = self.expression(alloc, x.get())?;
                unary(alloc, op.what, op.at, x)
            }
            Expr::Cast(ty, x) => {
                let x = self.expression(alloc, x.get())?;
                cast(alloc, ty.item.what, x)
            }
            Expr::Chain(first, links) => {
                let first = self.expression(alloc, first.get())?;
                self.chain(alloc, links.as_slice(), first)
            }
            Expr::Conditional(test, _, yes, _, no) => {
                // The first two wait in boxes, so that they are let go whole.
                let test = boxed(alloc, self.expression(alloc, test.get()))?;
                let yes = boxed(alloc, self.expression(alloc, yes.get()))?;
                let no = self.expression(alloc, no.get())?;
                choose(alloc, test.into_inner(), yes.into_inner(), no)
            }
        }
    }

    #[cycle(expression)]
    fn chain(
        &self,
        alloc: Global,
        links: &[Link<Boxed<Expr>>],
        mut so_far: Typed,
    ) -> Result<Typed, AllocError>
        ensures { IfOk result (λ t. t ≡ chain so_far (map (right_of self.now) links.now)) }
    {
        'links: for link in links {
            let right = self.expression(alloc, link.right.get());
            let op = operator_of(link.operator.what);
            so_far = linked(alloc, op, link.operator.at, so_far, right)?;
        }
        Ok(so_far)
    }

    #[cycle(expression)]
    fn subscripts(&self, alloc: Global, list: &[Inside<Boxed<Expr>>]) -> Result<Parts, AllocError>
        ensures { IfOk result (λ p. p ≡ each_subscript no_parts (map (inside_of self.now) list.now)) }
    {
        let mut all = none(alloc);
        'subscripts: for subscript in list {
            let part = self.expression(alloc, subscript.item.get())?;
            all = add(all, part)?;
        }
        Ok(all)
    }

    #[cycle(expression)]
    fn image(
        &self,
        alloc: Global,
        image: &Option<Image<Boxed<Expr>>>,
    ) -> Result<Option<Typed>, AllocError>
        ensures { IfOk result (λ t. t ≡ option_map (λ i. expr_of self.now i.number.item) image.now) }
    {
        match image {
            Some(image) => {
                let image = self.expression(alloc, image.number.item.get())?;
                Ok(Some(image))
            }
            None => Ok(None),
        }
    }

    /// The arguments of a call, from left to right.
    #[cycle(expression)]
    pub fn arguments(
        &self,
        alloc: Global,
        list: &Option<CommaList<Boxed<Expr>>>,
    ) -> Result<Parts, AllocError>
        ensures { IfOk result (λ p. p ≡ arguments_of self.now list.now) }
    {
        match list {
            Some(list) => {
                let first = self.expression(alloc, list.first.get())?;
                let mut all = add(none(alloc), first)?;
                'more: for next in list.more.as_slice() {
                    let part = self.expression(alloc, next.item.get())?;
                    all = add(all, part)?;
                }
                Ok(all)
            }
            None => Ok(none(alloc)),
        }
    }

    /// A variable or an element, read or written.
    pub fn reference(
        &self,
        alloc: Global,
        reference: &Reference<Boxed<Expr>>,
    ) -> Result<Typed, AllocError>
        ensures { IfOk result (λ t. t ≡ reference_of self.now reference.now) }
    {
        let subscripts = self.subscripts(alloc, reference.subscripts.as_slice())?;
        let image = self.image(alloc, &reference.image)?;
        self.read(alloc, &reference.name, subscripts, image)
    }

    /// A name without subscripts and image.
    pub fn plain_name(&self, alloc: Global, name: &Name) -> Result<Typed, AllocError>
        ensures { IfOk result (λ t. t ≡ read self.now name.now no_parts None) }
    {
        self.read(alloc, name, none(alloc), None)
    }

    /// Expressions behind commas, from left to right.
    pub fn values(&self, alloc: Global, list: &[Next<Expr>]) -> Result<Parts, AllocError>
        ensures { IfOk result (λ p. p ≡ each_next no_parts (map (next_of self.now) list.now)) }
    {
        let mut all = none(alloc);
        'values: for next in list {
            let part = self.expression(alloc, &next.item)?;
            all = add(all, part)?;
        }
        Ok(all)
    }

    // Whether a function that is being read may name this.
    fn is_own(&self, name: &Name, meaning: Option<Meaning>) -> bool
        ensures { result ≡ is_own self.now name.now meaning }
    {
        match meaning {
            Some(Meaning::Function(number, _)) => (number as usize) + 1 < self.functions.len(),
            _ => self.scopes.depth_of(name.text.as_slice()) != Some(1),
        }
    }

    pub(crate) fn may_name(&self, name: &Name, meaning: Option<Meaning>) -> bool
        ensures { result ≡ may_name self.now name.now meaning }
    {
        match self.region {
            Region::Function => self.is_own(name, meaning),
            _ => true,
        }
    }

    // A name that is read, with its subscripts and its image.
    fn read(
        &self,
        alloc: Global,
        name: &Name,
        subscripts: Parts,
        image: Option<Typed>,
    ) -> Result<Typed, AllocError>
        ensures { IfOk result (λ t. t ≡ read self.now name.now subscripts image) }
    {
        let Parts {
            made: subscripts,
            types: _,
            notes,
        } = subscripts;
        let (image, notes) = boxed_image(alloc, image, notes)?;
        let meaning = self.scopes.look_up(name.text.as_slice());
        let notes = noted(notes, self.may_name(name, meaning), Rule::N5, name.at)?;
        self.read_as(alloc, meaning, name.at, subscripts, image, notes)
    }

    fn read_as(
        &self,
        alloc: Global,
        meaning: Option<Meaning>,
        at: Place,
        subscripts: Items<prog::Expr>,
        image: Option<Boxed<prog::Expr>>,
        notes: Notes,
    ) -> Result<Typed, AllocError>
        ensures { IfOk result (λ t. t ≡ read_as self.now meaning at subscripts image notes) }
    {
        match meaning {
            Some(Meaning::Scalar(slot, ty)) => {
                let plain = subscripts.is_empty() && image.is_none();
                let notes = noted(notes, plain, Rule::N3, at)?;
                Ok(of_type(ty, prog::Expr::Scalar(slot, at), notes))
            }
            Some(Meaning::Array(array)) => self.cell(array, at, subscripts, image, notes),
            Some(_) => unknown(notes, Rule::N3, at),
            None => unknown(notes, Rule::N1, at),
        }
    }

    // An element of an array.
    fn cell(
        &self,
        array: u32,
        at: Place,
        subscripts: Items<prog::Expr>,
        image: Option<Boxed<prog::Expr>>,
        notes: Notes,
    ) -> Result<Typed, AllocError>
        ensures { IfOk result (λ t. t ≡ cell self.now array at subscripts image notes) }
    {
        match self.arrays.get(array as usize) {
            Some(of) => {
                let fits = subscripts.len() == of.extents.len() && (of.coarray || image.is_none());
                let notes = noted(notes, fits, Rule::N3, at)?;
                let made = prog::Expr::Cell(prog::Access {
                    array,
                    subscripts,
                    image,
                    at,
                });
                Ok(of_type(of.ty, made, notes))
            }
            None => unknown(notes, Rule::N3, at),
        }
    }

    /// A call of a name.
    pub fn call(&self, alloc: Global, name: &Name, arguments: Parts) -> Result<Typed, AllocError>
        ensures { IfOk result (λ t. t ≡ call self.now name.now arguments) }
    {
        let meaning = self.scopes.look_up(name.text.as_slice());
        let arguments = self.judged_call(name, meaning, arguments)?;
        self.call_as(meaning, name, arguments)
    }

    fn judged_call(
        &self,
        name: &Name,
        meaning: Option<Meaning>,
        arguments: Parts,
    ) -> Result<Parts, AllocError>
        ensures { IfOk result (λ p. p ≡ judged_call self.now name.now meaning arguments) }
    {
        match meaning {
            None => Ok(arguments),
            Some(meaning) => {
                let Parts { made, types, notes } = arguments;
                let may = self.may_call(name, Some(meaning));
                let notes = noted(notes, may, Rule::N5, name.at)?;
                Ok(Parts { made, types, notes })
            }
        }
    }

    fn may_call(&self, name: &Name, meaning: Option<Meaning>) -> bool
        ensures { result ≡ may_call self.now name.now meaning }
    {
        self.may_name(name, meaning) && !(name.text.as_slice() == b"main".as_slice())
    }

    fn call_as(
        &self,
        meaning: Option<Meaning>,
        name: &Name,
        arguments: Parts,
    ) -> Result<Typed, AllocError>
        ensures { IfOk result (λ t. t ≡ call_as self.now meaning name.now arguments) }
    {
        match meaning {
            Some(Meaning::Function(number, result)) => {
                self.call_of(number, result, name.at, arguments)
            }
            Some(_) => unknown(arguments.notes, Rule::N3, name.at),
            None => call_intrinsic(
                intrinsic(name.text.as_slice(), self.coarray),
                name.at,
                arguments,
            ),
        }
    }

    // A call of a function by its number.
    fn call_of(&self, number: u32, ty: Ty, at: Place, arguments: Parts) -> Result<Typed, AllocError>
        ensures { IfOk result (λ t. t ≡ call_of (slice_get self.now.functions number) number ty at arguments) }
    {
        let Parts {
            made,
            types: _,
            notes,
        } = arguments;
        match self.functions.get(number as usize) {
            Some(of) => {
                let notes = noted(notes, made.len() == of.parameters, Rule::N3, at)?;
                let notes = noted(notes, of.depth < 33, Rule::N10, at)?;
                let notes = called(of.depth, notes);
                Ok(of_type(ty, prog::Expr::Call(number, made, at), notes))
            }
            None => unknown(notes, Rule::N3, at),
        }
    }
}

fn boxed(alloc: Global, typed: Result<Typed, AllocError>) -> Result<Boxed<Typed>, AllocError>
    ensures { MatchResult typed (λ t. IfOk result (λ b. b ≡ t)) (λ _. IsErr result) }
{
    Boxed::new(alloc, typed?)
}

// An operator between what stands before it and its right operand, which may have failed.
fn linked(
    alloc: Global,
    op: Operator,
    at: Place,
    left: Typed,
    right: Result<Typed, AllocError>,
) -> Result<Typed, AllocError>
    ensures { MatchResult right (λ r. IfOk result (λ t. t ≡ join op at left r)) (λ _. IsErr result) }
{
    match right {
        Ok(right) => binary(alloc, op, at, left, right),
        Err(e) => {
            drop(left);
            Err(e)
        }
    }
}

// The image of an element in its box, and the notes with those of the image.
fn boxed_image(
    alloc: Global,
    image: Option<Typed>,
    notes: Notes,
) -> Result<(Option<Boxed<prog::Expr>>, Notes), AllocError>
    ensures { IfOk result (λ r. (r.0 ≡ option_map (λ x. x.operand.made) image) × (r.1 ≡ image_notes image notes)) }
{
    match image {
        Some(image) => {
            let Typed {
                operand,
                notes: more,
            } = image;
            let made = Boxed::new(alloc, operand.made)?;
            let notes = joined(notes, more)?;
            Ok((Some(made), notes))
        }
        None => Ok((None, notes)),
    }
}

fn none(alloc: Global) -> Parts
    ensures { result ≡ no_parts }
{
    Parts {
        made: Items::new(alloc),
        types: Items::new(alloc),
        notes: no_notes(alloc),
    }
}

fn add(all: Parts, part: Typed) -> Result<Parts, AllocError>
    ensures { IfOk result (λ p. p ≡ add all part) }
{
    let Parts {
        mut made,
        mut types,
        notes,
    } = all;
    let Typed {
        operand,
        notes: more,
    } = part;
    let Operand { made: one, ty, .. } = operand;
    made.push(one)?;
    types.push(ty)?;
    let notes = joined(notes, more)?;
    Ok(Parts { made, types, notes })
}

// What stands for a name that means nothing here.
fn unknown(notes: Notes, rule: Rule, at: Place) -> Result<Typed, AllocError>
    ensures { IfOk result (λ t. t ≡ unknown notes rule at) }
{
    let notes = noted(notes, false, rule, at)?;
    let operand = Operand {
        made: prog::Expr::Const(0, Ty::Int),
        ty: None,
        value: Value::Named,
    };
    Ok(Typed { operand, notes })
}

// An expression of a type, of whose value nothing is known.
fn of_type(ty: Ty, made: prog::Expr, notes: Notes) -> Typed
    ensures { result ≡ of_type ty made notes }
{
    let operand = Operand {
        made,
        ty: Some(ty),
        value: Value::Named,
    };
    Typed { operand, notes }
}

fn called(depth: u32, notes: Notes) -> Notes
    ensures { result ≡ called depth notes }
{
    let Notes { deepest, broken } = notes;
    Notes {
        deepest: greater(deepest, depth),
        broken,
    }
}

// The functions that a program with a coarray may call without a declaration.
fn intrinsic(name: &[u8], coarray: bool) -> Option<prog::Expr>
    ensures { result ≡ intrinsic name.now coarray }
{
    if !coarray {
        None
    } else if name == b"xmp_node_num".as_slice() {
        Some(prog::Expr::Node)
    } else if name == b"xmp_num_nodes".as_slice() {
        Some(prog::Expr::Nodes)
    } else {
        None
    }
}

fn call_intrinsic(
    made: Option<prog::Expr>,
    at: Place,
    arguments: Parts,
) -> Result<Typed, AllocError>
    ensures { IfOk result (λ t. t ≡ call_intrinsic made at arguments) }
{
    match made {
        Some(made) => {
            match noted(arguments.notes, arguments.made.is_empty(), Rule::N3, at) {
                Ok(notes) => Ok(of_type(Ty::Int, made, notes)),
                Err(e) => {
                    drop(made);
                    Err(e)
                }
            }
        }
        None => unknown(arguments.notes, Rule::N1, at),
    }
}
