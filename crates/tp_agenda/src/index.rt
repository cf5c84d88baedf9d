// Waits by what they are for.
ghost use Rattle.std.specs.Prelude.{◌≡◌, ◌+◌, ◌<◌, ◌≤◌, ◌^◌, List, Bool, [], ◌∷◌, ◌++◌, length, get_or, unwrap_or, Some, false, nat_eq, OnOk, OnErr, IfOk};
ghost use Rattle.std.specs.Hash as fed;
ghost use Rattle.std.specs.Cmp.Rules.{hashing};
ghost use Rattle.std.proofs.Common.{rules};
ghost use Rattle.indexmap.specs.IndexMap.{get, Updates};
ghost use Rattle.tp_store.specs.FactMap.{outer_path};
ghost use Rattle.tp_store.specs.Nodes.{path_along};
ghost use Rattle.tp_step.specs.declared.tally.Wait.{Wait as WaitSeen};
ghost use Rattle.tp_agenda.specs.Decides.{holds_path};
ghost use Rattle.tp_agenda.specs.Index.{HasFiled, IsChained, IsFiled, IsPushed, equal_paths, is_filed_for, is_filed_under, item_number, newest_at, newest_for};

use indexmap::IndexMap;
use std::alloc::Global;
use std::hash::{Hash, Hasher};
use tp_step::{Cell, Wait};
use tp_value::{NoMemory, Path, VarId};

/// The place of a wait, and the number of the link before this one, from 1; 0 for none. Each wait makes several links, so both numbers are
/// of 32 bits; one that needs more is want of memory.
#[derive(Clone, Copy)]
pub(crate) struct Link {
    pub place: u32,
    pub next: u32,
}

/// An item of a variable's value.
#[derive(Clone, Copy, Debug, PartialEq, Eq)]
pub struct Item {
    pub var: VarId,
    pub index: u32,
}

// All of it as one number, of which a hasher takes a third of the time.
impl Hash for Item {
    ghost hash_input = { λ i. fed.u64 (item_number i) };

    ghost respects_eq = { Prim.search (hashing, rules) };

    fn hash<H: Hasher>(&self, state: &mut H) {
        let var = self
            .var
            .number
            .wrapping_mul(2)
            .wrapping_add(u64::from(self.var.lasting));
        let high = var.wrapping_mul(1 << 32);
        state.write_u64(high.wrapping_add(u64::from(self.index)));
    }
}

/// The waits of a list by what they are for: the newest link, from 1, of each variable, of each item of its value, of each path with more
/// indices, and of each region's end, and the links. A wait for a path is filed under the path and each that it lies within, so that a
/// fact's own path leads to all that it decides. Most waits are for a variable or an item, which are found without a path being copied.
#[derive(Drop)]
pub struct Index {
    pub(crate) wholes: IndexMap<VarId, u32>,
    pub(crate) items: IndexMap<Item, u32>,
    pub(crate) parts: IndexMap<Path, u32>,
    pub(crate) ends: IndexMap<u64, u32>,
    pub(crate) links: Vec<Link>,
}

/// The index of no waits. It can't fail.
pub fn no_waits(alloc: Global) -> Index
    ensures filed { IsFiled result [] [] }
{
    Index {
        wholes: IndexMap::new(alloc),
        items: IndexMap::new(alloc),
        parts: IndexMap::new(alloc),
        ends: IndexMap::new(alloc),
        links: Vec::new(alloc),
    }
}

// The item at the path's first index.
fn first_item(path: &Path) -> Item
    requires { 0 < length path.now.at }
    ensures { result ≡ record { var = path.now.var; index = get_or path.now.at 0 0 } }
{
    Item {
        var: path.var,
        index: path.at.items[0],
    }
}

/// The newest link of the path, from 1; 0 for none.
pub(crate) fn newest_at(index: &Index, path: &Path) -> u32
    ensures { result ≡ newest_at index.now path.now }
{
    let newest = match path.at.items.len() {
        0 => index.wholes.get(&path.var),
        1 => index.items.get(&first_item(path)),
        _ => index.parts.get(path),
    };
    match newest {
        Some(link) => *link,
        None => 0,
    }
}

/// The newest link of the variable whole, from 1; 0 for none. No path is made for it.
pub(crate) fn newest_of(index: &Index, var: VarId) -> u32
    ensures { result ≡ newest_at index.now (path_along var []) }
{
    match index.wholes.get(&var) {
        Some(link) => *link,
        None => 0,
    }
}

/// The newest link of the region's end, from 1; 0 for none.
pub(crate) fn newest_for(index: &Index, region: u64) -> u32
    ensures { result ≡ newest_for index.now region }
{
    match index.ends.get(&region) {
        Some(link) => *link,
        None => 0,
    }
}

// The number as a link holds it; it is refused where 32 bits don't hold it.
fn narrow(number: u64) -> Result<u32, NoMemory>
    ensures ok { IfOk result (λ n. n ≡ number) }
    ensures err { OnErr result (2 ^ 32 ≤ number) }
{
    match u32::try_from(number) {
        Ok(number) => Ok(number),
        Err(_) => Err(NoMemory),
    }
}

// Puts a link that names the place in front of those of the key.
fn put_link<K: Hash + Drop>(
    heads: &mut IndexMap<K, u32>,
    links: &mut Vec<Link>,
    key: K,
    place: u64,
) -> Result<(), NoMemory>
    ensures head { OnOk result
        (Updates K.eq heads.old heads.new key (Some (length links.old.items + 1))) }
    ensures link { OnOk result (links.new.items ≡ links.old.items
        ++ record { place = place; next = unwrap_or (get K.eq heads.old key) 0 } ∷ []) }
{
    let place = narrow(place)?;
    let number = narrow(links.len() as u64 + 1)?;
    let next = heads.insert(key, number)?.unwrap_or(0);
    links.push(Link { place, next })?;
    Ok(())
}

// Files the place under the path's variable whole.
fn file_whole(index: &mut Index, path: &Path, place: u64) -> Result<(), NoMemory>
    requires chained { IsChained index.old }
    ensures ok { OnOk result
        (HasFiled index.old index.new place (equal_paths (outer_path path.now 0))
        (λ region. false)) }
    ensures links { OnOk result (IsPushed index.old index.new place) }
{
    put_link(&mut index.wholes, &mut index.links, path.var, place)?;
    Ok(())
}

// Files the place under the path's first index, an item of the variable's value.
fn file_item(index: &mut Index, path: &Path, place: u64) -> Result<(), NoMemory>
    requires chained { IsChained index.old }
    requires item { 0 < length path.now.at }
    ensures ok { OnOk result
        (HasFiled index.old index.new place (equal_paths (outer_path path.now 1))
        (λ region. false)) }
    ensures links { OnOk result (IsPushed index.old index.new place) }
{
    put_link(&mut index.items, &mut index.links, first_item(path), place)?;
    Ok(())
}

// Files the place under the path, which has more than one index.
fn file_part(index: &mut Index, path: Path, place: u64) -> Result<(), NoMemory>
    requires chained { IsChained index.old }
    requires part { 1 < length path.at }
    ensures ok { OnOk result
        (HasFiled index.old index.new place (equal_paths path) (λ region. false)) }
    ensures links { OnOk result (IsPushed index.old index.new place) }
{
    put_link(&mut index.parts, &mut index.links, path, place)?;
    Ok(())
}

// Files the place for the region's end.
fn file_for(index: &mut Index, region: u64, place: u64) -> Result<(), NoMemory>
    requires chained { IsChained index.old }
    ensures ok { OnOk result
        (HasFiled index.old index.new place (λ path. false) (nat_eq region)) }
    ensures links { OnOk result (IsPushed index.old index.new place) }
{
    put_link(&mut index.ends, &mut index.links, region, place)?;
    Ok(())
}

// The path of its first indices, of so many.
fn outer_path(path: &Path, count: usize) -> Result<Path, NoMemory>
    ensures { IfOk result (λ outer. outer ≡ outer_path path.now count) }
{
    let mut outer = path.copy()?;
    outer.at.items.truncate(count);
    Ok(outer)
}

// How many indices the path has.
fn depth(path: &Path) -> usize
    ensures value { result ≡ length path.now.at }
    ensures bound { result < 2 ^ 63 }
{
    path.at.items.len()
}

// Files the place under the path and each that it lies within.
fn file_path(index: &mut Index, path: &Path, place: u64) -> Result<(), NoMemory>
    requires chained { IsChained index.old }
    ensures ok { OnOk result
        (HasFiled index.old index.new place (λ q. holds_path q path.now) (λ region. false)) }
    ensures links { OnOk result (IsPushed index.old index.new place) }
{
    file_whole(index, path, place)?;
    let most = depth(path);
    if most == 0 {
        return Ok(());
    }
    file_item(index, path, place)?;
    for count in 2..most + 1 {
        let outer = outer_path(path, count)?;
        file_part(index, outer, place)?;
    }
    Ok(())
}

// Files the place for the cell.
fn file_cell(index: &mut Index, cell: &Cell, place: u64) -> Result<(), NoMemory>
    requires chained { IsChained index.old }
    ensures ok { OnOk result
        (HasFiled index.old index.new place (is_filed_under cell.now) (is_filed_for cell.now)) }
    ensures links { OnOk result (IsPushed index.old index.new place) }
{
    match cell {
        Cell::Part(path) => file_path(index, path, place),
        Cell::End { region, .. } => file_for(index, *region, place),
    }
}

/// Files a wait behind so many others, whose index this is: it is then the index of all of them, of which the new one isn't over. It
/// refuses where memory is wanted, and where the wait's place or a link's number needs more than 32 bits: then the wait may be filed for
/// some of what it is for, and the index isn't to be used any more.
pub fn file(index: &mut Index, wait: &Wait, place: u64) -> Result<(), NoMemory>
    requires chained { IsChained index.old }
    ensures filed { OnOk result ((waits : List WaitSeen) (over : List Bool)
        → length waits ≡ place → IsFiled index.old waits over
        → IsFiled index.new (waits ++ wait.now ∷ []) (over ++ false ∷ [])) }
{
    file_cell(index, &wait.first, place)?;
    match &wait.other {
        Some(cell) => {
            file_cell(index, cell, place)?;
            Ok(())
        }
        None => Ok(()),
    }
}
