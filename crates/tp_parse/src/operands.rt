// Operands with a height.
use tp_tree::Phrase;

/// Operands that were read, and the greatest of their heights.
#[derive(Drop)]
pub struct Operands {
    pub items: Vec<Phrase>,
    pub height: u32,
}
