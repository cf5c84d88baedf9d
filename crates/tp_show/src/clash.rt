// How cells and clashes are written, with the names of locals.
ghost use Rattle.std.specs.Prelude.{◌≡◌, ◌++◌, OnOk};
ghost use Rattle.tp_show.specs.Texts.{variable_text, variable_path_text, variable_fact_text, cell_text, shape_comes_first, comes_first, pair_text, fault_text, clash_text};

use crate::text::{append_closing, append_counted, append_indices, append_opening};
use tp_kernel::FaultKind;
use tp_scene::{Cell, Clash};
use tp_store::Store;
use tp_value::{Fact, Globals, NoMemory, Path, Shape, Text, VarId};

/// Where the names of variables are found.
#[derive(Drop)]
pub struct Naming<'a> {
    pub globals: &'a Globals,
    pub store: &'a Store,
}

// A global is written by its name, and a local, whose name the store keeps, after `local `.
fn append_variable(out: &mut Text, naming: &Naming, var: VarId) -> Result<(), NoMemory>
    ensures { let n = naming.now in OnOk result
        (out.new ≡ out.old ++ variable_text n.globals.now n.store.now.variables var) }
{
    if let Some(name) = naming.globals.name(var.number) {
        return out.append(name.as_slice());
    }
    out.append(b"local ")?;
    match naming.store.name(var) {
        Some(name) => out.append(name.as_slice()),
        None => Ok(()),
    }
}

fn append_path(out: &mut Text, naming: &Naming, path: &Path) -> Result<(), NoMemory>
    ensures { let n = naming.now in OnOk result
        (out.new ≡ out.old ++ variable_path_text n.globals.now n.store.now.variables path.now) }
{
    append_variable(out, naming, path.var)?;
    append_indices(out, &path.at)
}

fn append_fact(out: &mut Text, naming: &Naming, fact: &Fact) -> Result<(), NoMemory>
    ensures { let n = naming.now in OnOk result
        (out.new ≡ out.old ++ variable_fact_text n.globals.now n.store.now.variables fact.now) }
{
    append_opening(out, &fact.shape)?;
    append_path(out, naming, &fact.path)?;
    append_closing(out, &fact.shape)
}

pub fn append_cell(out: &mut Text, naming: &Naming, cell: &Cell) -> Result<(), NoMemory>
    ensures { let n = naming.now in OnOk result
        (out.new ≡ out.old ++ cell_text n.globals.now n.store.now.variables cell.now) }
{
    match cell {
        Cell::Part(path) => append_path(out, naming, path),
        Cell::End { depth, .. } => append_counted(out, b"end at depth ", u64::from(*depth)),
    }
}

// Numbers come before truth values and these before lengths, and then the smaller first.
fn shape_leads(a: &Shape, b: &Shape) -> bool
    ensures { result ≡ shape_comes_first a.now b.now }
{
    match (a, b) {
        (Shape::Num(m), Shape::Num(n)) => m <= n,
        (Shape::Truth(x), Shape::Truth(y)) => !*x || *y,
        (Shape::Items(m), Shape::Items(n)) => m <= n,
        (Shape::Num(_), Shape::Truth(_) | Shape::Items(_)) => true,
        (Shape::Truth(_), Shape::Items(_)) => true,
        (Shape::Truth(_) | Shape::Items(_), Shape::Num(_)) => false,
        (Shape::Items(_), Shape::Truth(_)) => false,
    }
}

// Whether the first fact is written before the second.
fn leads(a: &Fact, b: &Fact) -> bool
    ensures { result ≡ comes_first a.now b.now }
{
    let (m, n) = (a.path.at.items.len(), b.path.at.items.len());
    m < n || (m == n && shape_leads(&a.shape, &b.shape))
}

fn append_pair(out: &mut Text, naming: &Naming, first: &Fact, second: &Fact) -> Result<(), NoMemory>
    ensures { let n = naming.now in OnOk result
        (out.new
        ≡ out.old
        ++ pair_text (variable_fact_text n.globals.now n.store.now.variables first.now)
        (variable_fact_text n.globals.now n.store.now.variables second.now)) }
{
    append_fact(out, naming, first)?;
    out.append(b" and ")?;
    append_fact(out, naming, second)
}

fn fault_name(fault: FaultKind) -> &'static str
    ensures { result.now ≡ fault_text fault }
{
    match fault {
        FaultKind::WrongKind => "wrong kind",
        FaultKind::ZeroDivisor => "zero divisor",
        FaultKind::NoElement => "no element",
    }
}

pub fn append_clash(out: &mut Text, naming: &Naming, clash: &Clash) -> Result<(), NoMemory>
    ensures { let n = naming.now in OnOk result
        (out.new ≡ out.old ++ clash_text n.globals.now n.store.now.variables clash.now) }
{
    match clash {
        Clash::Facts { kept, new } => {
            if leads(kept, new) {
                append_pair(out, naming, kept, new)
            } else {
                append_pair(out, naming, new, kept)
            }
        }
        Clash::Marks { depth } => {
            append_counted(out, b"ends and goes on at depth ", u64::from(*depth))
        }
        Clash::False => out.append(b"false"),
        Clash::NoValue(fault) => {
            out.append(b"no value: ")?;
            out.append(fault_name(*fault).as_bytes())
        }
    }
}
