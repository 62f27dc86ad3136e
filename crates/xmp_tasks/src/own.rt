// What a node makes of its own tasks.
ghost use Rattle.std.specs.Prelude.{◌≡◌, ◌++◌, [], ◌∷◌, MatchOption, IfOk};
ghost use Rattle.xmp_meaning.specs.Exchanges.{unprinted};
ghost use Rattle.xmp_meaning.specs.Runs.{Does, end_of, state_of};
ghost use Rattle.xmp_stores.specs.Contexts.{context_by};
ghost use Rattle.xmp_tasks.specs.Members.{left_with, own_of, own_run};

use crate::sets::has_node;
use xmp_base::{Bytes, NoMemory};
use xmp_meaning::{End, Flow, Halt};
use xmp_prog::{ProgParts, Task};
use xmp_serial::{Interpreter, State};
use xmp_stores::Share;

/// How a node's own tasks ended, and what they printed.
#[derive(Drop)]
pub struct Own {
    pub ended: Option<End>,
    pub text: Bytes,
}

/// The tasks of a directive, of which each node runs its own.
#[derive(Drop)]
pub struct OwnTasks<'a> {
    pub program: &'a ProgParts,
    pub tasks: &'a [Task],
}

/// The first task, and those behind it.
#[tactic(auto, using(std::proofs::lemmas::List::nil_from_length))]
pub fn split(tasks: &[Task]) -> Option<(&Task, &[Task])>
    ensures { MatchOption result (tasks.now ≡ []) (λ p. tasks.now ≡ p.0.now ∷ p.1.now) }
{
    tasks.split_first()
}

impl OwnTasks<'_> {
    /// The tasks of which a node is a member, in their order.
    fn each(
        &self,
        tasks: &[Task],
        node: u32,
        at: &Interpreter,
        state: &mut State,
    ) -> Result<Flow, Halt>
        ensures { Does (own_run self.now.program.now node (context_by at.now) tasks.now state.old) result state.new }
    {
        match split(tasks) {
            None => Ok(Flow::Next),
            Some((task, rest)) => {
                if has_node(&self.program.grid, &task.nodes, node as usize) {
                    match at.statement(&task.body, state)? {
                        Flow::Next => self.each(rest, node, at, state),
                        Flow::Returned(value) => Ok(Flow::Returned(value)),
                    }
                } else {
                    self.each(rest, node, at, state)
                }
            }
        }
    }

    /// How they end.
    fn ended(&self, node: u32, at: &Interpreter, state: &mut State) -> Result<Option<End>, NoMemory>
        ensures ended { IfOk result (λ ended. ended ≡ end_of (own_run self.now.program.now node (context_by at.now) self.now.tasks.now state.old)) }
        ensures state { IfOk result (λ _. state.new ≡ state_of (own_run self.now.program.now node (context_by at.now) self.now.tasks.now state.old)) }
    {
        match self.each(self.tasks, node, at, state) {
            Ok(_) => Ok(None),
            Err(Halt::End(end)) => Ok(Some(end)),
            Err(Halt::NoMemory) => Err(NoMemory),
        }
    }
}

/// Puts text behind the output.
pub fn write(state: &mut State, text: &[u8]) -> Result<(), NoMemory>
    ensures { IfOk result (λ _. state.new ≡ record state.old { out = state.old.out ++ text.now }) }
{
    match state.write(text) {
        Ok(()) => Ok(()),
        Err(_) => Err(NoMemory),
    }
}

impl Share for OwnTasks<'_> {
    type Gives = Own;

    ghost gives = { λ d node c s. own_of (own_run d.program.now node c d.tasks.now (unprinted s)) };

    ghost leaves = { λ d node c s. left_with s.out (own_run d.program.now node c d.tasks.now (unprinted s)) };

    fn run(&self, node: u32, at: &Interpreter, state: &mut State) -> Result<Own, NoMemory> {
        let before = state.take_output(at.alloc);
        let ended = self.ended(node, at, state)?;
        let text = state.take_output(at.alloc);
        write(state, before.as_slice())?;
        Ok(Own { ended, text })
    }
}
