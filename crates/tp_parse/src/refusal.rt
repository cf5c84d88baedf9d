// Why tokens are refused.

/// Why tokens are no source. A token is named by its number, counted from 0: it is the first one after which no accepted source goes
/// on, so those before it begin one.
#[derive(Clone, Copy, Debug, PartialEq, Eq)]
pub enum ParseRefusal {
    /// No source goes on with this token, however high its phrases.
    Unexpected { token: usize },
    /// The tokens end before the source does: some accepted source begins with all of them.
    Unfinished,
    /// A source goes on with this token, but not one whose phrases are at most 200 high.
    TooDeep { token: usize },
    NoMemory,
}
