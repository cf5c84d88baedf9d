// Orders of picks.
/// Which item is tried next.
#[derive(Clone, Copy, Debug, PartialEq, Eq)]
pub enum Order {
    First,
    Last,
    Seed(u64),
}
