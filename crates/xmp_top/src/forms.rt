// A command line, as types.
use crate::options::Options;

/// The commands that there are.
#[derive(Clone, Copy)]
pub enum Command {
    /// Writes whether the program is accepted.
    Check,
    /// Runs the program with its directives erased.
    Serial,
    /// Runs the program on its nodes.
    Run,
}

/// A command line that is one of the forms: a command, its options, and the file that has the source.
#[derive(Clone, Copy)]
pub struct CommandLine<'a> {
    pub command: Command,
    pub options: Options<'a>,
    pub file: &'a str,
}
