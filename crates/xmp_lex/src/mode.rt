// How far a line has come.

/// Where on its line a piece begins.
#[derive(Clone, Copy)]
pub enum Mode {
    /// nothing but white space and comments since the line began
    Start,
    /// behind a token
    Middle,
    /// in a `#` line whose tokens are cut
    Directive,
    /// in a `#` line that gives no token
    Ignored,
}
