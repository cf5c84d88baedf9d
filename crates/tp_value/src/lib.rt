//! Numbers, values and their shapes, variables and places, facts, texts, and the global variables of a program.
#![tactic(auto)]

mod copies;
mod equality;
mod globals;
mod limits;
mod number;
mod path;
mod phase;
mod reader;
mod reading;
mod refusal;
mod scan;
mod text;
mod value;
mod writing;

pub use equality::{item, same, same_tree_is_equality, shape_at};
pub use globals::Globals;
pub use limits::{
    DEPTH_LIMIT, INDEX_LIMIT, ITEM_LIMIT, LENGTH_LIMIT, PATH_LIMIT, is_within_list_limit,
};
pub use number::{
    NUMBER_LIMIT, Number, difference, is_number, negated, product, quotient, remainder, sum,
};
pub use path::{Fact, Facts, Indices, Path, VarId};
pub use reader::read_value;
pub use reading::ReadValue;
pub use refusal::NoMemory;
pub use text::{Bytes, Text, Texts};
pub use value::{Items, Shape, Value};
pub use writing::write_value;
