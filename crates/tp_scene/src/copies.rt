// Copies of cells and clashes.
ghost use Rattle.std.specs.Prelude.{◌≡◌, IfOk};

use crate::answer::{Cell, Clash};
use tp_value::NoMemory;

impl Cell {
    /// An equal cell.
    pub fn copy(&self) -> Result<Cell, NoMemory>
        ensures { IfOk result (λ cell. cell ≡ self.now) }
    {
        match self {
            Cell::Part(path) => {
                let path = path.copy()?;
                Ok(Cell::Part(path))
            }
            Cell::End { region, depth } => Ok(Cell::End {
                region: *region,
                depth: *depth,
            }),
        }
    }
}

impl Clash {
    /// An equal clash.
    pub fn copy(&self) -> Result<Clash, NoMemory>
        ensures { IfOk result (λ clash. clash ≡ self.now) }
    {
        match self {
            Clash::Facts { kept, new } => {
                let kept = kept.copy()?;
                let new = new.copy()?;
                Ok(Clash::Facts { kept, new })
            }
            Clash::Marks { depth } => Ok(Clash::Marks { depth: *depth }),
            Clash::False => Ok(Clash::False),
            Clash::NoValue(fault) => Ok(Clash::NoValue(*fault)),
        }
    }
}
