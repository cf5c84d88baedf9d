// How a closure ends.
use tp_kernel::LimitKind;
use tp_scene::Clash;
use tp_value::Text;

/// What a closure ends with.
#[derive(Drop)]
pub enum Ending {
    Rest,
    Clash(Clash),
    Missing(Text),
    Over(LimitKind),
}
