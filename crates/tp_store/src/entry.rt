// The variables of a store.
ghost use Rattle.std.specs.Prelude.{◌≡◌, map, IfOk};
ghost use Rattle.tp_store.specs.Entries.{variables_in};
ghost use Rattle.tp_store.specs.Known.{global_variable, name_of};
ghost use Rattle.std.specs.Option.{option_copied};
ghost use Rattle.tp_value.specs.Globals.{is_lower};

use std::alloc::Global;
use tp_value::{Globals, NoMemory, Text, VarId};

/// A variable: its source name, and whether it is static.
#[derive(Drop)]
pub struct Entry {
    pub name: Text,
    pub lasting: bool,
}

// Whether variables of this name are static.
fn is_lower(name: &[u8]) -> bool
    ensures { result ≡ is_lower name.now }
{
    match name {
        [first, ..] => first.is_ascii_lowercase(),
        [] => false,
    }
}

/// The globals.
pub fn global_entries(alloc: Global, globals: &Globals) -> Result<Vec<Entry>, NoMemory>
    ensures { IfOk result (λ entries.
        variables_in entries.items ≡ map global_variable globals.now) }
{
    let mut entries = Vec::new(alloc);
    for number in 0..globals.len() {
        if let Some(name) = globals.name(number) {
            let lasting = is_lower(name.as_slice());
            let name = name.copy()?;
            entries.push(Entry { name, lasting })?;
        }
    }
    Ok(entries)
}

/// The name of the variable, or none where there is none of that number and kind.
pub fn name_of(entries: &[Entry], var: VarId) -> Option<&Text>
    ensures { option_copied result ≡ name_of (variables_in entries.now) var }
{
    let place = var.number as usize;
    if place < entries.len() {
        let entry = &entries[place];
        if entry.lasting == var.lasting {
            return Some(&entry.name);
        }
    }
    None
}
