// The tasks of a directive, at all nodes.
ghost use Rattle.std.specs.Prelude.{◌≡◌, IfOk};
ghost use Rattle.xmp_meaning.specs.Runs.{Does};
ghost use Rattle.xmp_meaning.specs.TaskEnds.{texts};
ghost use Rattle.xmp_nodes.specs.Tasks.{tasks_all};
ghost use Rattle.xmp_tasks.specs.Ends.{ends_by, with_text};
ghost use Rattle.xmp_tasks.specs.OfText.{tasks_of};

use crate::ends::Ends;
use crate::own::OwnTasks;
use xmp_base::NoMemory;
use xmp_meaning::{Flow, Halt};
use xmp_prog::Task;
use xmp_serial::State;
use xmp_stores::{Nodes, Together, say};

/// The first of these stores prints the texts.
fn first_prints(ends: &Ends, stores: &mut [State]) -> Result<(), NoMemory>
    ensures { IfOk result (λ _. stores.new ≡ with_text (texts (ends_by ends.now.program.now ends.now.owns.now ends.now.tasks.now)) stores.old) }
{
    match stores.split_first_mut() {
        None => Ok(()),
        Some((state, _rest)) => {
            ends.write(ends.tasks, state)?;
            Ok(())
        }
    }
}

/// Node 0 prints the texts.
fn print(ends: &Ends, nodes: &mut Nodes) -> Result<(), NoMemory>
    ensures { IfOk result (λ _. nodes.new ≡ record nodes.old { stores = with_text (texts (ends_by ends.now.program.now ends.now.owns.now ends.now.tasks.now)) nodes.old.stores }) }
{
    first_prints(ends, nodes.stores.as_mut_slice())?;
    Ok(())
}

/// Each node runs its own tasks; the end of the first task in the text that ended early is the end of all.
pub fn run_tasks(together: &Together, tasks: &[Task], nodes: &mut Nodes) -> Result<Flow, Halt>
    ensures { Does (tasks_all together.now.program.now (tasks_of together.now.program.now together.now.input.now tasks.now) nodes.old) result nodes.new }
{
    let own = OwnTasks {
        program: together.program,
        tasks,
    };
    let Ok(owns) = together.each_does(&own, nodes) else {
        return Err(Halt::NoMemory);
    };
    let ends = Ends {
        program: together.program,
        tasks,
        owns: owns.as_slice(),
    };
    let Ok(()) = print(&ends, nodes) else {
        return Err(Halt::NoMemory);
    };
    say(&ends, nodes);
    match ends.first(tasks) {
        None => Ok(Flow::Next),
        Some(end) => Err(Halt::End(end)),
    }
}
