// How the tasks of a directive ended, and what they printed.
ghost use Rattle.std.specs.Prelude.{◌≡◌, ◌++◌, MatchOption, Some, None, IfOk};
ghost use Rattle.xmp_meaning.specs.TaskEnds.{first_end, texts};
ghost use Rattle.xmp_tasks.specs.Ends.{end_by, ends_by, led_by};

use crate::own::{Own, split, write};
use crate::sets::{has_node, leader};
use xmp_base::NoMemory;
use xmp_meaning::End;
use xmp_prog::{ProgParts, Task};
use xmp_serial::State;

/// The tasks of a directive, and what each node made of its own.
#[derive(Drop)]
pub struct Ends<'a> {
    pub program: &'a ProgParts,
    pub tasks: &'a [Task],
    pub owns: &'a [Own],
}

impl Ends<'_> {
    /// What the least node of a task's set made of its tasks, where it is a member.
    fn led(&self, task: &Task) -> Option<&Own>
        ensures { MatchOption result (led_by self.now.program.now self.now.owns.now task.now ≡ None)
            (λ own. led_by self.now.program.now self.now.owns.now task.now ≡ Some own.now) }
    {
        let leader = leader(&self.program.grid, &task.nodes);
        if has_node(&self.program.grid, &task.nodes, leader) {
            self.owns.get(leader)
        } else {
            None
        }
    }

    /// How a task ended.
    fn ended(&self, task: &Task) -> Option<End>
        ensures { result ≡ (end_by self.now.program.now self.now.owns.now task.now).ended }
    {
        match self.led(task) {
            Some(own) => own.ended,
            None => None,
        }
    }

    /// What a task printed.
    pub fn text(&self, task: &Task) -> &[u8]
        ensures { result.now ≡ (end_by self.now.program.now self.now.owns.now task.now).text }
    {
        match self.led(task) {
            Some(own) => own.text.as_slice(),
            None => &[],
        }
    }

    /// The end of the first of these tasks that ended early.
    pub fn first(&self, tasks: &[Task]) -> Option<End>
        ensures { result ≡ first_end (ends_by self.now.program.now self.now.owns.now tasks.now) }
    {
        let (task, rest) = split(tasks)?;
        match self.ended(task) {
            Some(end) => Some(end),
            None => self.first(rest),
        }
    }

    /// Puts the texts of these tasks behind the output, up to the first that ended early.
    pub fn write(&self, tasks: &[Task], state: &mut State) -> Result<(), NoMemory>
        ensures { IfOk result (λ _. state.new ≡ record state.old { out = state.old.out ++ texts (ends_by self.now.program.now self.now.owns.now tasks.now) }) }
    {
        match split(tasks) {
            None => Ok(()),
            Some((task, rest)) => {
                write(state, self.text(task))?;
                match self.ended(task) {
                    Some(_) => Ok(()),
                    None => self.write(rest, state),
                }
            }
        }
    }
}
