// What was found of regions, so that who looks again need not walk outward.
ghost use Rattle.std.specs.Prelude.{◌≡◌, ◌<◌, [], length, slice_set, IfOk, OnOk};
ghost use Rattle.tp_decide.specs.Decided.{mark_of};
ghost use Rattle.tp_slots.specs.Looks.{IsAfterMark, IsDepthKept, IsLonger, IsNotSoKept, depth_known, found_not_so};

use crate::number_set::NumberSet;
use std::alloc::Global;
use tp_decide::Side;
use tp_value::NoMemory;

/// What was found of live regions: how deep each is, by number, or 0 where that isn't known; and the numbers of those that were found not
/// to end, and not to go on.
#[derive(Drop)]
pub struct Looks {
    pub depths: Vec<u64>,
    pub not_ending: NumberSet,
    pub not_going: NumberSet,
}

/// Nothing was found yet. It refuses where memory is wanted.
pub fn no_looks(alloc: Global) -> Result<Looks, NoMemory>
    ensures depths { IfOk result (λ looks. looks.depths.items ≡ []) }
    ensures not_ending { IfOk result (λ looks. looks.not_ending ≡ []) }
    ensures not_going { IfOk result (λ looks. looks.not_going ≡ []) }
{
    let not_ending = NumberSet::new(alloc)?;
    let not_going = NumberSet::new(alloc)?;
    Ok(Looks {
        depths: Vec::new(alloc),
        not_ending,
        not_going,
    })
}

/// How deep the region was found to be, or 0 where that isn't known.
pub(crate) fn depth_found(looks: &Looks, region: u64) -> u64
    ensures { result ≡ depth_known looks.now region }
{
    if region < looks.depths.len() as u64 {
        looks.depths[region as usize]
    } else {
        0
    }
}

/// Whether it was found that the region isn't so on that side.
pub(crate) fn is_found_not_so(looks: &Looks, region: u64, side: Side) -> bool
    ensures { result ≡ found_not_so (mark_of side) looks.now region }
{
    match side {
        Side::Ending => looks.not_ending.has(region),
        Side::Going => looks.not_going.has(region),
    }
}

/// A region was marked on that side, and the outermost that has become so has this number. A region around another has a smaller number, so
/// what one with a smaller number than this sees hasn't changed.
pub(crate) fn pass_mark(looks: &mut Looks, side: Side, top: u64)
    ensures { IsAfterMark (mark_of side) top looks.old looks.new }
{
    match side {
        Side::Ending => looks.not_ending.leave_below(top),
        Side::Going => looks.not_going.leave_below(top),
    }
}

// There is a place for the depth of the region, or memory is refused. Nothing is known more.
fn reach(depths: &mut Vec<u64>, region: u64) -> Result<(), NoMemory>
    ensures longer { IsLonger region depths.old.items depths.new.items }
    ensures reached { OnOk result (region < length depths.new.items) }
{
    'longer: while depths.len() as u64 <= region {
        depths.push(0)?;
    }
    Ok(())
}

// Sets the depth that was found of the region.
fn set_depth(list: &mut [u64], at: usize, depth: u64)
    requires { at < length list.old }
    ensures { list.new ≡ slice_set list.old at depth }
{
    list[at] = depth;
}

/// Keeps how deep the region was found to be. Where memory is refused, it isn't kept.
pub(crate) fn keep_depth(looks: &mut Looks, region: u64, depth: u64)
    ensures { IsDepthKept region depth looks.old looks.new }
{
    let Ok(()) = reach(&mut looks.depths, region) else {
        return;
    };
    set_depth(looks.depths.as_mut_slice(), region as usize, depth);
}

/// Keeps that the region was found not to be so on that side. Where memory is refused, it isn't kept.
pub(crate) fn keep_not_so(looks: &mut Looks, region: u64, side: Side)
    ensures { IsNotSoKept (mark_of side) region looks.old looks.new }
{
    match side {
        Side::Ending => looks.not_ending.add(region),
        Side::Going => looks.not_going.add(region),
    }
}
