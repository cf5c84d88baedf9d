//! How the states of a run and its end are told: pictures of states, answers of runs, and their texts; and traces, read back from texts.
#![tactic(auto)]

mod clash;
mod copies;
mod end_line;
mod laws;
mod line;
mod line_part;
mod named_fact;
mod parts;
mod text;
mod trace;
mod trace_facts;
mod trace_laws;
mod trace_line;
mod trace_part;
mod trace_path;
mod turn;

pub use end_line::end_text;
pub use laws::{end_lines_tell, line_examples, text_shows_states, texts_tell};
pub use line::picture_text;
pub use line_part::{LinePart, LineParts};
pub use named_fact::NamedFact;
pub use parts::known_parts;
pub use text::piece_for;
pub use tp_scene::{Cell, Clash};
pub use trace::{Trace, TraceRefusal, TraceState, read_trace};
pub use trace_laws::{
    order_of_parts_tells_nothing, trace_examples, traces_are_read_once, traces_tell_facts,
};
pub use turn::{Picture, Turn};
