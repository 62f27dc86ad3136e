// The options of a command line, as types.

/// The options that there are. All but `Report` have a value.
#[derive(Clone, Copy)]
pub enum Name {
    Nodes,
    Steps,
    Input,
    Order,
    Node,
    Report,
}

/// What the options of a command line set: `None`, or false, where an option isn't there.
#[derive(Clone, Copy)]
pub struct Options<'a> {
    /// The number of nodes, 1 to 16.
    pub nodes: Option<u64>,
    /// The budget of source steps.
    pub steps: Option<u64>,
    /// The file that is read as the program's input.
    pub input: Option<&'a str>,
    /// The number that picks the order in which nodes move.
    pub order: Option<u64>,
    /// The node whose code is listed, 0 to 15.
    pub node: Option<u64>,
    /// Whether a report is asked for.
    pub report: bool,
}
