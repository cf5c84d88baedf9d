// Formulas under their bindings, and values that are shown.
use std::rc::Rc;
use tp_kernel::{Env, Formula};
use tp_value::Value;

/// A formula, and what its bound names stand for. Items that come of one formula share its environment.
#[derive(Drop)]
pub struct BoundFormula {
    pub what: Rc<Formula>,
    pub env: Rc<Env>,
}

/// Values, in order.
#[derive(Drop)]
pub struct Values {
    pub items: Vec<Value>,
}

/// The lists of values that are shown, in order.
#[derive(Drop)]
pub struct Shows {
    pub items: Vec<Values>,
}
