// The values of a port in ranges of states.
ghost use Rattle.std.specs.Prelude.{◌≡◌, length, IfOk};
ghost use Rattle.std.specs.List.{All};
ghost use Rattle.std.specs.Map.{values_of};
ghost use Rattle.std.proofs.Props.{props};
ghost use Rattle.tp_inputs.specs.Places.{IsPlaced};

use crate::convert::append_row;
use std::alloc::Global;
use std::collections::BTreeMap;
use tp_value::{NoMemory, Text, Value, same};

/// The states up to the last have the value at a place of a list. Both have 32 bits, so that large
/// tables take little memory: only a text of 4 GiB names a greater state, or as many values.
#[derive(Clone, Copy)]
struct Row {
    last: u32,
    value: u32,
}

/// Ranges of states with a value for each, by their first states. Values stand in a list apart,
/// since the nodes of a map have room to spare; a range that grows keeps its value's place there.
#[derive(Drop)]
pub struct Ranges {
    rows: BTreeMap<u32, Row>,
    values: Vec<Value>,
    pub ghost placed: { All (IsPlaced (length values.items)) (values_of rows.entries) } by { Prim.hlevel props },
}

// The number, where it has 32 bits.
fn narrow(number: u64) -> Result<u32, NoMemory>
    ensures { IfOk result (λ n. n ≡ number) }
{
    match u32::try_from(number) {
        Ok(number) => Ok(number),
        Err(_) => Err(NoMemory),
    }
}

impl Ranges {
    ghost use Rattle.std.specs.Prelude.{◌≡◌, ◌≤◌, ◌<◌, ◌^◌, [], None, true, false, OnOk, IfSome};
    ghost use Rattle.std.specs.Option.{option_map};
    ghost use Rattle.tp_value.specs.Read.{tree};
    ghost use Rattle.tp_meaning.specs.Inputs.{row_value};
    ghost use Rattle.tp_inputs.specs.Spans.{are_rows, rows_meet};
    ghost use Rattle.tp_inputs.specs.Places.{HasPlace};
    ghost use Rattle.tp_inputs.specs.Model.{rows_of, IsLastBegun, FindsRow};
    ghost use Rattle.tp_inputs.specs.Moves.{TakesRow, IsOpened, IsClosed, GivesRows};

    pub fn new(alloc: Global) -> Ranges
        ensures { rows_of result ≡ [] }
    {
        Ranges {
            rows: BTreeMap::new(alloc),
            values: Vec::new(alloc),
        }
    }

    // The last row that begins at the state or before it, with its first state.
    fn last_begun(&self, state: u64) -> Option<(u32, Row)>
        requires { are_rows (rows_of self.now) ≡ true }
        ensures { IsLastBegun self.now state result }
    {
        let state = state.min(u64::from(u32::MAX)) as u32;
        match self.rows.range(..=state).next_back() {
            Some((first, row)) => Some((*first, *row)),
            None => None,
        }
    }

    // The row that has the state, with its first state.
    fn row(&self, state: u64) -> Option<(u32, Row)>
        requires { are_rows (rows_of self.now) ≡ true }
        ensures { FindsRow self.now state result }
    {
        match self.last_begun(state) {
            Some((first, row)) if state <= u64::from(row.last) => Some((first, row)),
            _ => None,
        }
    }

    /// The value for the state.
    pub fn at(&self, state: u64) -> Option<&Value>
        requires { are_rows (rows_of self.now) ≡ true }
        ensures { option_map (λ v. tree v.now) result ≡ row_value (rows_of self.now) state }
    {
        match self.row(state) {
            Some((_, row)) => Some(&self.values[row.value as usize]),
            None => None,
        }
    }

    /// Whether a range has a state from the first to the last.
    pub fn meet(&self, first: u64, last: u64) -> bool
        requires { are_rows (rows_of self.now) ≡ true }
        ensures { result ≡ rows_meet (rows_of self.now) first last }
    {
        match self.last_begun(last) {
            Some((_, row)) => first <= u64::from(row.last),
            None => false,
        }
    }

    // Takes away the range that has the state, if it has that value too, and tells its first state
    // and its row.
    fn take_row(&mut self, state: u64, value: &Value) -> Option<(u32, Row)>
        requires { are_rows (rows_of self.old) ≡ true }
        ensures taken { TakesRow (rows_of self.old) state (tree value.now)
            (option_map (λ e. (e.0, e.1.last)) result) (rows_of self.new) }
        ensures place { IfSome result (λ e.
            HasPlace self.old.values.items (tree value.now) e.1.value) }
        ensures within { IfSome result (λ e. e.1.last < 2 ^ 32) }
        ensures values { self.new.values ≡ self.old.values }
    {
        let (first, row) = match self.row(state) {
            Some((first, row)) if same(&self.values[row.value as usize], value) => (first, row),
            _ => return None,
        };
        self.rows.remove(&first);
        Some((first, row))
    }

    // Takes away the range with that value that ends before the state, for which there is none, and
    // tells its first state, and the place of its value.
    fn open(&mut self, first: u32, value: &Value) -> (u32, Option<u32>)
        requires rows { are_rows (rows_of self.old) ≡ true }
        requires free { row_value (rows_of self.old) first ≡ None }
        ensures opened { IsOpened (rows_of self.old) (tree value.now) result.0 first
            (rows_of self.new) }
        ensures place { IfSome result.1 (HasPlace self.old.values.items (tree value.now)) }
        ensures values { self.new.values ≡ self.old.values }
    {
        if first == 0 {
            return (0, None);
        }
        match self.take_row(u64::from(first) - 1, value) {
            Some((from, row)) => (from, Some(row.value)),
            None => (first, None),
        }
    }

    // Takes away the range with that value that begins behind the state, for which there is none,
    // and tells its last state, and the place of its value.
    fn close(&mut self, last: u32, value: &Value) -> (u32, Option<u32>)
        requires rows { are_rows (rows_of self.old) ≡ true }
        requires free { row_value (rows_of self.old) last ≡ None }
        ensures closed { IsClosed (rows_of self.old) (tree value.now) last result.0
            (rows_of self.new) }
        ensures within { result.0 < 2 ^ 32 }
        ensures place { IfSome result.1 (HasPlace self.old.values.items (tree value.now)) }
        ensures values { self.new.values ≡ self.old.values }
    {
        match self.take_row(u64::from(last) + 1, value) {
            Some((_, row)) => (row.last, Some(row.value)),
            None => (last, None),
        }
    }

    // The place of the value: one that is known, else a new one.
    fn place(&mut self, known: Option<u32>, value: Value) -> Result<u32, NoMemory>
        requires { IfSome known (HasPlace self.old.values.items (tree value)) }
        ensures place { IfOk result (HasPlace self.new.values.items (tree value)) }
        ensures kept { rows_of self.new ≡ rows_of self.old }
        ensures rows { self.new.rows ≡ self.old.rows }
    {
        match known {
            Some(place) => Ok(place),
            None => {
                let place = narrow(self.values.len() as u64)?;
                self.values.push(value)?;
                Ok(place)
            }
        }
    }

    /// Gives the value for the states from the first to the last, for which there is none yet.
    /// Ranges that touch and have one value become one.
    pub fn give(&mut self, first: u64, last: u64, value: Value) -> Result<(), NoMemory>
        requires rows { are_rows (rows_of self.old) ≡ true }
        requires ordered { first ≤ last }
        requires free { rows_meet (rows_of self.old) first last ≡ false }
        ensures { OnOk result
            (GivesRows first last (tree value) (rows_of self.old) (rows_of self.new)) }
    {
        let (first, last) = (narrow(first)?, narrow(last)?);
        let (from, before) = self.open(first, &value);
        let (to, behind) = self.close(last, &value);
        let place = self.place(before.or(behind), value)?;
        let row = Row {
            last: to,
            value: place,
        };
        self.rows.insert(from, row)?;
        Ok(())
    }
}

impl Ranges {
    ghost use Rattle.std.specs.Prelude.{◌≡◌, ◌++◌, OnOk};
    ghost use Rattle.std.specs.List.{flat_map};
    ghost use Rattle.tp_inputs.specs.Converted.{row_line, with_feed};
    ghost use Rattle.tp_inputs.specs.Model.{rows_of};

    /// Appends a line for each range of states, as the port's.
    pub fn append_lines(&self, out: &mut Text, port: &[u8]) -> Result<(), NoMemory>
        ensures { OnOk result (out.new ≡ out.old
            ++ flat_map (λ r. with_feed (row_line port.now r)) (rows_of self.now)) }
    {
        for (first, row) in &self.rows {
            let value = &self.values[row.value as usize];
            append_row(out, port, u64::from(*first), u64::from(row.last), value)?;
        }
        Ok(())
    }
}
