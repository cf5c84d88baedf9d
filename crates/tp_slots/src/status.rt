// The status of regions by number.
ghost use Rattle.std.specs.Prelude.{◌≡◌, ◌<◌, Some, length};
ghost use Rattle.tp_slots.specs.Kept.{IsWellKept, region_place_of};
ghost use Rattle.tp_slots.specs.Read.{scene_of};
ghost use Rattle.tp_slots.specs.Status as status;
ghost use Rattle.tp_slots.specs.Status.{region_mark};

use crate::flags::{lives, sees};
use crate::scene::{Mark, Scene};
use tp_decide::Side;

// What an item of the region sees of it.
fn mark_within(scene: &Scene, region: u64) -> Mark
    requires kept { IsWellKept scene.now }
    requires region { region < length scene.now.regions.items }
    ensures { result ≡ status.status (region_place_of scene.now region) }
{
    if sees(scene, region, Side::Ending) {
        Mark::Ends
    } else if sees(scene, region, Side::Going) {
        Mark::Goes
    } else {
        Mark::Open
    }
}

/// The status of the live region with this number.
pub fn mark(scene: &Scene, region: u64) -> Option<Mark>
    requires { IsWellKept scene.now }
    ensures { result ≡ region_mark region (scene_of scene.now) }
{
    if region >= scene.regions.len() as u64 {
        return None;
    }
    if !lives(scene, region) {
        return None;
    }
    Some(mark_within(scene, region))
}

/// The status of the root, the region 0, which is always live.
pub fn root_mark(scene: &Scene) -> Mark
    requires { IsWellKept scene.now }
    ensures { Some result ≡ region_mark 0 (scene_of scene.now) }
{
    mark_within(scene, 0)
}
