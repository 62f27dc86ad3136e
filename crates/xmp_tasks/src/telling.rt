// How many words the nodes say to each other at the end of tasks.
ghost use Rattle.std.specs.Prelude.{◌≡◌, ◌<◌, ◌+◌, ◌/◌, ◌%◌, ℕ, length};
ghost use Rattle.xmp_meaning.specs.Exchanges.{TasksEnd};
ghost use Rattle.xmp_meaning.specs.Messages.{message, task_text, task_words, tells};
ghost use Rattle.xmp_nodes.specs.Nodes.{bounded};
ghost use Rattle.xmp_tasks.specs.Ends.{end_by, ends_by};

use crate::ends::Ends;
use crate::own::split;
use crate::sets::{has_node, leader};
use xmp_prog::Task;
use xmp_stores::Saying;

/// How many bytes: eights of them, up to the greatest number of 64 bits, and what is left.
#[derive(Clone, Copy)]
struct Bytes {
    eights: u64,
    rest: u64,
}

impl Ends<'_> {
    /// Whether a node tells another how a task ended.
    fn tells(&self, task: &Task, from: usize, to: usize) -> bool
        ensures { result ≡ tells self.now.program.now from to (end_by self.now.program.now self.now.owns.now task.now) }
    {
        leader(&self.program.grid, &task.nodes) == from
            && !has_node(&self.program.grid, &task.nodes, to)
    }

    /// How many words it says of these tasks.
    fn end_words(&self, tasks: &[Task], from: usize, to: usize) -> u64
        ensures { result ≡ bounded (length (task_words self.now.program.now from to (ends_by self.now.program.now self.now.owns.now tasks.now))) }
    {
        match split(tasks) {
            None => 0,
            Some((task, rest)) => {
                let words = self.end_words(rest, from, to);
                if self.tells(task, from, to) {
                    words.saturating_add(3)
                } else {
                    words
                }
            }
        }
    }

    /// How many bytes of text.
    fn bytes(&self, tasks: &[Task], from: usize, to: usize) -> Bytes
        ensures eights { result.eights ≡ bounded (length (task_text self.now.program.now from to (ends_by self.now.program.now self.now.owns.now tasks.now)) / 8) }
        ensures rest { result.rest ≡ length (task_text self.now.program.now from to (ends_by self.now.program.now self.now.owns.now tasks.now)) % 8 }
    {
        match split(tasks) {
            None => Bytes { eights: 0, rest: 0 },
            Some((task, rest)) => {
                let bytes = self.bytes(rest, from, to);
                if self.tells(task, from, to) {
                    bytes.with(self.text(task).len() as u64)
                } else {
                    bytes
                }
            }
        }
    }

    /// How many words of text.
    fn text_words(&self, from: usize, to: usize) -> u64
        ensures { result ≡ bounded ((length (task_text self.now.program.now from to (ends_by self.now.program.now self.now.owns.now self.now.tasks.now)) + 7) / 8) }
    {
        let bytes = self.bytes(self.tasks, from, to);
        if bytes.rest == 0 {
            bytes.eights
        } else {
            bytes.eights.saturating_add(1)
        }
    }
}

impl Bytes {
    /// So many more.
    fn with(self, more: u64) -> Bytes
        requires { self.rest < 8 }
        ensures eights { (n : ℕ) → self.eights ≡ bounded (n / 8) → self.rest ≡ n % 8 → result.eights ≡ bounded ((more + n) / 8) }
        ensures rest { (n : ℕ) → self.rest ≡ n % 8 → result.rest ≡ (more + n) % 8 }
    {
        let rest = self.rest + more % 8;
        Bytes {
            eights: self
                .eights
                .saturating_add(more / 8)
                .saturating_add(rest / 8),
            rest: rest % 8,
        }
    }
}

impl Saying for Ends<'_> {
    ghost said = { λ d from to. message d.program.now (TasksEnd (ends_by d.program.now d.owns.now d.tasks.now)) from to };

    fn words(&self, from: usize, to: usize) -> u64 {
        if from == to {
            return 0;
        }
        let words = self.end_words(self.tasks, from, to);
        if to == 0 {
            words.saturating_add(self.text_words(from, to))
        } else {
            words
        }
    }
}
