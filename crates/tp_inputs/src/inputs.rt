// The table of inputs.
ghost use Rattle.std.specs.Prelude.{◌≡◌, [], true, IfOk};
ghost use Rattle.std.specs.Coded.{Coded-set, coded_bool};
ghost use Rattle.std.specs.Option.{option_map};
ghost use Rattle.tp_value.specs.Read.{tree};
ghost use Rattle.tp_meaning.specs.Inputs.{input_at};
ghost use Rattle.tp_inputs.specs.Spans.{are_ports};
ghost use Rattle.tp_inputs.specs.Model.{table_of};
ghost use Rattle.tp_inputs.specs.Within.{InputsWithin, InputsWithin-prop};

use crate::ports::Ports;
use std::alloc::Global;
use tp_value::{NoMemory, Text, Value};

/// The values of ports in ranges of states, and in all others, which are within the limits.
#[derive(Drop)]
pub struct Inputs {
    pub(crate) ports: Ports,
    pub ghost within: { InputsWithin (table_of ports) } by { InputsWithin-prop _ },
    pub ghost apart: { are_ports (table_of ports) ≡ true } by { Coded-set coded_bool _ _ },
}

impl Inputs {
    ghost use Rattle.tp_inputs.specs.Read.{inputs_of};

    /// No value for any port.
    pub fn none(alloc: Global) -> Result<Inputs, NoMemory>
        ensures { IfOk result (λ inputs. inputs_of inputs ≡ []) }
    {
        Ok(Inputs {
            ports: Ports::new(alloc),
        })
    }

    /// The value that the state of that number has for the port: that of the range that has the state, else the port's default, if
    /// there is one.
    pub fn at(&self, state: u64, port: &Text) -> Option<&Value>
        ensures value { option_map (λ v. tree v.now) result
            ≡ input_at (inputs_of self.now) state port.now }
        ensures within { InputsWithin (inputs_of self.now) }
    {
        self.ports.at(state, port)
    }
}
