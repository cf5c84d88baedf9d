// Copies of answers.
ghost use Rattle.std.specs.Prelude.{◌≡◌, IfOk};

use crate::turn::Turn;
use tp_value::NoMemory;

impl Turn {
    /// An equal answer.
    pub fn copy(&self) -> Result<Turn, NoMemory>
        ensures { IfOk result (λ turn. turn ≡ self.now) }
    {
        match self {
            Turn::Went => Ok(Turn::Went),
            Turn::Finished { length } => Ok(Turn::Finished { length: *length }),
            Turn::Contradictory { state, clash } => {
                let clash = clash.copy()?;
                Ok(Turn::Contradictory {
                    state: *state,
                    clash,
                })
            }
            Turn::Undetermined { state, cell } => {
                let cell = cell.copy()?;
                Ok(Turn::Undetermined {
                    state: *state,
                    cell,
                })
            }
            Turn::StateLimit { states } => Ok(Turn::StateLimit { states: *states }),
            Turn::InputMissing { state, port } => {
                let port = port.copy()?;
                Ok(Turn::InputMissing {
                    state: *state,
                    port,
                })
            }
            Turn::Over { state, limit } => Ok(Turn::Over {
                state: *state,
                limit: *limit,
            }),
        }
    }
}
