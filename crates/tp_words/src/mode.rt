// What is done with the file, or with a source of a size.

/// What words ask to do with the file.
#[derive(Clone, Copy, Debug, PartialEq, Eq)]
pub enum Mode {
    /// The source that it is is run.
    Run,
    /// The canonical spelling of the source that it is is written.
    Print,
    /// The inputs that it is are written in the second format.
    Convert,
    /// Whether a trace, which is a second file, satisfies the formula that it is.
    Check,
    /// A large source of so many variables is run, and no file is read.
    Drill { size: u64 },
}
