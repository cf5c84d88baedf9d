// The order in which a run takes its items.
ghost use Rattle.std.specs.Prelude.{◌≡◌, option_map};
ghost use Rattle.tp_words.specs.Options.{order_named, order_set};

use crate::numeral::numeral_value;
use tp_step::Order;

// How many digits a seed is written with at most.
const SEED_DIGITS: usize = 20;

// The order with this name, or with this seed.
fn order_named(text: &str) -> Option<Order>
    ensures { result ≡ order_named text.now }
{
    if text == "first" {
        return Some(Order::First);
    }
    if text == "last" {
        return Some(Order::Last);
    }
    match numeral_value(text, SEED_DIGITS) {
        Some(seed) => Some(Order::Seed(seed)),
        None => None,
    }
}

/// The order where an option may have set one, and else `first`.
pub fn order_set(text: Option<&str>) -> Option<Order>
    ensures { result ≡ order_set (option_map (λ t. t.now) text.entry) }
{
    match text {
        Some(text) => order_named(text),
        None => Some(Order::First),
    }
}
