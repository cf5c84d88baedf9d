// How tables of inputs are written.
ghost use Rattle.std.specs.Prelude.{◌≡◌, ◌++◌, OnOk, drop, length};
ghost use Rattle.std.specs.Fmt.{decimal};
ghost use Rattle.tp_value.specs.Read.{tree};
ghost use Rattle.tp_inputs.specs.Converted.{range_text, valued_text, default_line, with_feed, converted};
ghost use Rattle.tp_inputs.specs.Laws.{IsReadAsTable};
ghost use Rattle.tp_inputs.specs.Read.{inputs_of};

use crate::head::LAST_STATE;
use crate::inputs::Inputs;
use itoa::Buffer;
use tp_value::{NoMemory, Text, Value, write_value};

fn append_state(out: &mut Text, state: u64) -> Result<(), NoMemory>
    ensures { OnOk result (out.new ≡ out.old ++ decimal state) }
{
    let mut buffer = Buffer::new();
    out.append(buffer.format(state).as_bytes())
}

// Appends the states from the first to the last, as a line names them.
fn append_range(out: &mut Text, first: u64, last: u64) -> Result<(), NoMemory>
    ensures { OnOk result (out.new ≡ out.old ++ range_text first last) }
{
    append_state(out, first)?;
    if last == first {
        return Ok(());
    }
    out.append(b"-")?;
    if last == LAST_STATE {
        return Ok(());
    }
    append_state(out, last)
}

// Appends what follows the states in a line, with its line feed.
fn append_valued(out: &mut Text, port: &[u8], value: &Value) -> Result<(), NoMemory>
    ensures { OnOk result (out.new ≡ out.old ++ with_feed (valued_text port.now (tree value.now))) }
{
    out.append(b": ")?;
    out.append(port)?;
    out.append(b"=")?;
    write_value(value, out)?;
    out.append(b"\n")
}

/// Appends the line of a value that the port has from the first state to the last.
pub fn append_row(
    out: &mut Text,
    port: &[u8],
    first: u64,
    last: u64,
    value: &Value,
) -> Result<(), NoMemory>
    ensures { OnOk result (out.new ≡ out.old
        ++ with_feed (range_text first last ++ valued_text port.now (tree value.now))) }
{
    append_range(out, first, last)?;
    append_valued(out, port, value)
}

/// Appends the line of the port's default.
pub fn append_default(out: &mut Text, port: &[u8], value: &Value) -> Result<(), NoMemory>
    ensures { OnOk result
        (out.new ≡ out.old ++ with_feed (default_line port.now (tree value.now))) }
{
    out.append(b"*")?;
    append_valued(out, port, value)
}

impl Inputs {
    /// Appends the table in the second format: a line `inputs 2`, a line for each range of states
    /// in which a port has a value, ports by name and then by first state, and a line for each
    /// default, ports by name. It is read as this table again, where the table is that of some
    /// text, and its rows end at the last state that a range may name, or before it. Where memory
    /// runs out, perhaps a part.
    pub fn convert(&self, out: &mut Text) -> Result<(), NoMemory>
        ensures text { OnOk result (out.new ≡ out.old ++ converted (inputs_of self.now)) }
        ensures read_back { OnOk result
            (IsReadAsTable (drop (length out.old) out.new) (inputs_of self.now)) }
    {
        out.append(b"inputs 2\n")?;
        self.ports.append_rows(out)?;
        self.ports.append_defaults(out)
    }
}
