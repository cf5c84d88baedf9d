// What is said of each port.
ghost use Rattle.std.specs.Prelude.{◌≡◌, [], None, Some, true, false, not, IfOk, OnOk, IsTrue};
ghost use Rattle.std.specs.Option.{option_map, option_or};
ghost use Rattle.tp_value.specs.Read.{tree};
ghost use Rattle.tp_meaning.specs.Inputs.{row_value, input_at};
ghost use Rattle.tp_inputs.specs.Bounds.{IsSpan};
ghost use Rattle.tp_inputs.specs.Spans.{are_rows, are_ports, is_given, port_meets, GivesValue};
ghost use Rattle.tp_inputs.specs.Model.{rows_of, default_of, named_port, table_of};
ghost use Rattle.tp_inputs.specs.Moves.{GivesPort};

use crate::convert::append_default;
use crate::ranges::Ranges;
use crate::span::Span;
use std::alloc::Global;
use std::collections::BTreeMap;
use tp_value::{NoMemory, Text, Value};

/// The values of a port in ranges of states, and its value in all others, if any.
#[derive(Drop)]
struct Port {
    ranges: Ranges,
    default: Option<Value>,
}

impl Port {
    fn new(alloc: Global) -> Port
        ensures ranges { rows_of result.ranges ≡ [] }
        ensures default { default_of result ≡ None }
    {
        Port {
            ranges: Ranges::new(alloc),
            default: None,
        }
    }

    // The value in the state.
    fn at(&self, state: u64) -> Option<&Value>
        requires { are_rows (rows_of self.now.ranges) ≡ true }
        ensures { option_map (λ v. tree v.now) result
            ≡ option_or (row_value (rows_of self.now.ranges) state) (default_of self.now) }
    {
        match self.ranges.at(state) {
            Some(value) => Some(value),
            None => self.default.as_ref(),
        }
    }

    // Whether there is a value for one of the span's states.
    fn meets(&self, span: Span) -> bool
        requires { are_rows (rows_of self.now.ranges) ≡ true }
        ensures { result ≡ port_meets (Some (named_port [] self.now)) span }
    {
        match span {
            Span::States { first, last } => self.ranges.meet(first, last),
            Span::Others => self.default.is_some(),
        }
    }

    // Gives the value for the span, for which there is none yet.
    fn give(&mut self, span: Span, value: Value) -> Result<(), NoMemory>
        requires rows { are_rows (rows_of self.old.ranges) ≡ true }
        requires span { IsSpan span }
        requires free { port_meets (Some (named_port [] self.old)) span ≡ false }
        ensures { OnOk result
            (GivesPort span (tree value) (named_port [] self.old) (named_port [] self.new)) }
    {
        match span {
            Span::States { first, last } => self.ranges.give(first, last, value),
            Span::Others => {
                self.default = Some(value);
                Ok(())
            }
        }
    }
}

/// Ports by their names.
#[derive(Drop)]
pub struct Ports {
    by_name: BTreeMap<Vec<u8>, Port>,
}

impl Ports {
    pub fn new(alloc: Global) -> Ports
        ensures { table_of result ≡ [] }
    {
        Ports {
            by_name: BTreeMap::new(alloc),
        }
    }

    /// The value that the state of that number has for the port.
    pub fn at(&self, state: u64, port: &Text) -> Option<&Value>
        requires { are_ports (table_of self.now) ≡ true }
        ensures { option_map (λ v. tree v.now) result
            ≡ input_at (table_of self.now) state port.now }
    {
        self.by_name.get(port.as_slice())?.at(state)
    }

    /// Whether the port has a value for one of the span's states.
    pub fn has(&self, span: Span, port: &Text) -> bool
        requires { are_ports (table_of self.now) ≡ true }
        ensures { result ≡ is_given (table_of self.now) span port.now }
    {
        match self.by_name.get(port.as_slice()) {
            Some(known) => known.meets(span),
            None => false,
        }
    }

    /// Gives the port the value for the span, unless it has one for one of its states, and tells whether it had none.
    pub fn give(
        &mut self,
        alloc: Global,
        span: Span,
        port: Text,
        value: Value,
    ) -> Result<bool, NoMemory>
        requires ports { are_ports (table_of self.old) ≡ true }
        requires span { IsSpan span }
        ensures told { IfOk result (λ is_new.
            is_new ≡ not (is_given (table_of self.old) span port)) }
        ensures gives { IfOk result (λ is_new. IsTrue is_new
            → GivesValue span port (tree value) (table_of self.old) (table_of self.new)) }
    {
        match self.by_name.get_mut(port.as_slice()) {
            Some(known) => {
                if known.meets(span) {
                    return Ok(false);
                }
                known.give(span, value)?;
            }
            None => {
                let mut new = Port::new(alloc);
                new.give(span, value)?;
                self.by_name.insert(port.items, new)?;
            }
        }
        Ok(true)
    }
}

impl Ports {
    ghost use Rattle.std.specs.Prelude.{◌++◌};
    ghost use Rattle.std.specs.List.{flat_map};
    ghost use Rattle.tp_inputs.specs.Converted.{row_lines, default_lines, with_feed};

    /// Appends a line for each range of states in which a port has a value.
    pub fn append_rows(&self, out: &mut Text) -> Result<(), NoMemory>
        ensures { OnOk result (out.new ≡ out.old
            ++ flat_map with_feed (flat_map row_lines (table_of self.now))) }
    {
        for (name, port) in &self.by_name {
            port.ranges.append_lines(out, name)?;
        }
        Ok(())
    }

    /// Appends a line for each default.
    pub fn append_defaults(&self, out: &mut Text) -> Result<(), NoMemory>
        ensures { OnOk result (out.new ≡ out.old
            ++ flat_map with_feed (flat_map default_lines (table_of self.now))) }
    {
        for (name, port) in &self.by_name {
            if let Some(value) = &port.default {
                append_default(out, name, value)?;
            }
        }
        Ok(())
    }
}
