// By what the names of a phrase are spelled.
ghost use Rattle.std.specs.Prelude.{◌≡◌, ◌++◌, List, slice_get, IfOk, OnOk};
ghost use Rattle.std.specs.List.{flat_map};
ghost use Rattle.std.specs.Fmt.{decimal};
ghost use Rattle.tp_kernel.specs.Read.{binding_of, definitions_of};
ghost use Rattle.tp_show.specs.Texts.{index_text};
ghost use Rattle.tp_store.specs.Known.{Variable};
ghost use Rattle.tp_residual.specs.Read.{bound_names, left_after, own_bound_names};
ghost use Rattle.tp_residual.specs.Phrases.{binding_spelling, bound_spelling, definition_name, path_spelling, variable_spelling};

use itoa::Buffer;
use std::alloc::Global;
use tp_kernel::{Binding, Defs, Env};
use tp_store::Store;
use tp_value::{Indices, NoMemory, Path, Text, Texts, VarId, write_value};

/// The names that are bound where a phrase stands, the innermost first: those that the phrase itself binds, one by one, or a chain of
/// them with the outermost first, and those around it with what they stand for.
#[derive(Clone, Copy)]
pub enum Bound<'a> {
    Around(&'a Env),
    Inside {
        name: &'a Text,
        outer: &'a Bound<'a>,
    },
    Chain {
        names: &'a Texts,
        outer: &'a Bound<'a>,
    },
}

/// By what the names of a phrase are spelled, and where memory is taken.
#[derive(Clone, Copy)]
pub struct Words<'a> {
    pub alloc: Global,
    pub store: &'a Store,
    pub defs: &'a Defs,
    pub bound: &'a Bound<'a>,
}

pub fn append_decimal(out: &mut Text, n: u64) -> Result<(), NoMemory>
    ensures { OnOk result (out.new ≡ out.old ++ decimal n) }
{
    let mut buffer = Buffer::new();
    out.append(buffer.format(n).as_bytes())
}

// Appends the variable's source name.
pub fn append_variable(out: &mut Text, store: &Store, var: VarId) -> Result<(), NoMemory>
    ensures { OnOk result (out.new ≡ out.old ++ variable_spelling store.now.variables var) }
{
    match store.name(var) {
        Some(name) => out.append(name.as_slice()),
        None => Ok(()),
    }
}

fn append_index(out: &mut Text, index: u32) -> Result<(), NoMemory>
    ensures { OnOk result (out.new ≡ out.old ++ index_text index) }
{
    out.append(b"[")?;
    append_decimal(out, u64::from(index))?;
    out.append(b"]")
}

fn append_indices(out: &mut Text, at: &Indices) -> Result<(), NoMemory>
    ensures { OnOk result (out.new ≡ out.old ++ flat_map index_text at.now) }
{
    for index in &at.items {
        append_index(out, *index)?;
    }
    Ok(())
}

fn append_path(out: &mut Text, store: &Store, path: &Path) -> Result<(), NoMemory>
    ensures { OnOk result (out.new ≡ out.old ++ path_spelling store.now.variables path.now) }
{
    append_variable(out, store, path.var)?;
    append_indices(out, &path.at)
}

// Appends what a name is bound to.
fn append_binding(out: &mut Text, store: &Store, binding: &Binding) -> Result<(), NoMemory>
    ensures { OnOk result
        (out.new ≡ out.old ++ binding_spelling store.now.variables (binding_of binding.now)) }
{
    match binding {
        Binding::Place(path) => append_path(out, store, path),
        Binding::Known(value) => write_value(value, out),
    }
}

// Appends the name with this number. Where there are fewer nothing is appended, and what is answered is how many names further in it would
// stand.
fn append_own(out: &mut Text, names: &Texts, number: u64) -> Result<Option<u64>, NoMemory>
    ensures text { OnOk result ((xs : List Variable) → out.new
        ≡ out.old ++ bound_spelling xs (slice_get (own_bound_names names.now) number)) }
    ensures left { IfOk result (λ left. left ≡ left_after (own_bound_names names.now) number) }
{
    let count = names.items.len() as u64;
    if number < count {
        out.append(names.items[number as usize].as_slice())?;
        Ok(None)
    } else {
        Ok(Some(number - count))
    }
}

/// Appends what the bound name of this number, counted from the outermost, is spelled by. Where fewer names are bound nothing is appended,
/// and what is answered is how many names further in it would stand.
pub fn append_bound(
    out: &mut Text,
    store: &Store,
    bound: &Bound,
    number: u64,
) -> Result<Option<u64>, NoMemory>
    ensures text { OnOk result
        (out.new
        ≡ out.old
        ++ bound_spelling store.now.variables (slice_get (bound_names bound.now) number)) }
    ensures left { IfOk result (λ left. left ≡ left_after (bound_names bound.now) number) }
{
    match bound {
        Bound::Around(env) => {
            let count = env.items.len() as u64;
            if number < count {
                append_binding(out, store, &env.items[number as usize])?;
                Ok(None)
            } else {
                Ok(Some(number - count))
            }
        }
        Bound::Inside { name, outer } => match append_bound(out, store, outer, number)? {
            None => Ok(None),
            Some(0) => {
                out.append(name.as_slice())?;
                Ok(None)
            }
            Some(left) => Ok(Some(left - 1)),
        },
        Bound::Chain { names, outer } => match append_bound(out, store, outer, number)? {
            None => Ok(None),
            Some(left) => append_own(out, names, left),
        },
    }
}

/// Appends the name of the definition with this number.
pub fn append_definition_name(out: &mut Text, defs: &Defs, number: u32) -> Result<(), NoMemory>
    ensures { OnOk result (out.new ≡ out.old ++ definition_name (definitions_of defs.now) number) }
{
    match defs.items.get(number as usize) {
        Some(def) => out.append(def.name.as_slice()),
        None => Ok(()),
    }
}
