// What an item waits for, and why no interval satisfies.
use tp_kernel::FaultKind;
use tp_value::{Fact, Path};

/// What an item waits for: the shape at a path, or the end of a region with its depth.
#[derive(Debug, PartialEq, Eq, Hash, Drop)]
pub enum Cell {
    Part(Path),
    End { region: u64, depth: u32 },
}

/// Why no interval satisfies: two facts that no state has both, a region that is to end and to go on, a test or an equation that is
/// false, or an expression without a value.
#[derive(Debug, Drop)]
pub enum Clash {
    Facts { kept: Fact, new: Fact },
    Marks { depth: u32 },
    False,
    NoValue(FaultKind),
}
