// The limits on values, lengths and paths.
ghost use Rattle.std.specs.Prelude.{◌≡◌};
ghost use Rattle.tp_value.specs.Room.{room_left};
ghost use Rattle.tp_value.specs.Limits.{is_within_list_limit as is_within};
ghost use Rattle.tp_value.specs.Read.{tree};

use crate::Value;

/// How many items a value has at most, counted at every depth.
pub const ITEM_LIMIT: usize = 65_536;

/// How deep a value is at most: a number or a truth value has depth 0, and a list one more than its deepest item.
pub const DEPTH_LIMIT: usize = 100;

/// The greatest index of a path.
pub const INDEX_LIMIT: u32 = 65_535;

/// How many indices a path has at most.
pub const PATH_LIMIT: usize = 100;

/// The greatest length in a fact.
pub const LENGTH_LIMIT: u32 = 65_536;

// How much of the room for items the value leaves, or none where it is deeper than `depth` or has more items than `room`.
fn room_after(value: &Value, depth: usize, room: usize) -> Option<usize>
    ensures { result ≡ room_left depth room (tree value.now) }
{
    let Value::List(all) = value else {
        return Some(room);
    };
    if depth == 0 {
        return None;
    }
    let mut left = room;
    for item in &all.items {
        if left == 0 {
            return None;
        }
        left = room_after(item, depth - 1, left - 1)?;
    }
    Some(left)
}

/// Whether a value has at most 65,536 items, counted at every depth, and is at most 100 deep. It takes no memory and looks at no
/// more of the value than the limits allow.
pub fn is_within_list_limit(value: &Value) -> bool
    ensures { result ≡ is_within (tree value.now) }
{
    room_after(value, DEPTH_LIMIT, ITEM_LIMIT).is_some()
}
