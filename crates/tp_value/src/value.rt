// Values, and their shapes.
use crate::Number;

/// A value: a whole number, a truth value or a list of values.
#[derive(Drop)]
#[cycle(value)]
pub enum Value {
    Num(Number),
    Truth(bool),
    List(Items),
}

/// The items of a list, in order.
#[derive(Drop)]
#[cycle(value)]
pub struct Items {
    pub items: Vec<Value>,
}

/// What a value is at one place: a number, a truth value, or a list of so many items.
#[derive(Clone, Copy, Debug, PartialEq, Eq)]
pub enum Shape {
    Num(Number),
    Truth(bool),
    Items(u32),
}
