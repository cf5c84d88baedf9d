// The end line of a run.
ghost use Rattle.std.specs.Prelude.{◌≡◌, ◌++◌, OnOk, OnErr};
ghost use Rattle.tp_show.specs.Texts.{end_line, last_words, limit_text, reductions_text, state_text};

use crate::clash::{Naming, append_cell, append_clash};
use crate::text::{append_counted, piece_for};
use crate::turn::Turn;
use tp_kernel::LimitKind;
use tp_store::Store;
use tp_value::{Globals, NoMemory, Text};

// A word for an end, and the state that it speaks of.
fn append_state(out: &mut Text, word: &[u8], state: u64) -> Result<(), NoMemory>
    ensures { OnOk result (out.new ≡ out.old ++ state_text word.now state) }
{
    out.append(word)?;
    append_counted(out, b": state ", state)
}

// The same, and what stands before a text behind it.
fn append_state_and(out: &mut Text, word: &[u8], state: u64, behind: &[u8]) -> Result<(), NoMemory>
    ensures { OnOk result (out.new ≡ out.old ++ state_text word.now state ++ behind.now) }
{
    append_state(out, word, state)?;
    out.append(behind)
}

fn append_reductions(out: &mut Text, state: u64, reductions: u64) -> Result<(), NoMemory>
    ensures { OnOk result (out.new ≡ out.old ++ reductions_text reductions state) }
{
    append_state(out, b"reduction limit", state)?;
    append_counted(out, b": ", reductions)?;
    out.append(b" reductions")
}

fn append_limit(
    out: &mut Text,
    state: u64,
    limit: LimitKind,
    reductions: u64,
) -> Result<(), NoMemory>
    ensures { OnOk result (out.new ≡ out.old ++ limit_text reductions state limit) }
{
    match limit {
        LimitKind::Reductions => append_reductions(out, state, reductions),
        LimitKind::Number => append_state(out, b"number limit", state),
        LimitKind::List => append_state(out, b"list limit", state),
        LimitKind::Calls => append_state(out, b"call limit", state),
        LimitKind::Nest => append_state(out, b"nest limit", state),
    }
}

// What the end line says before its line feed.
fn append_last_words(
    out: &mut Text,
    naming: &Naming,
    reductions: u64,
    turn: &Turn,
) -> Result<(), NoMemory>
    ensures { let n = naming.now in OnOk result
        (out.new ≡ out.old ++ last_words n.globals.now n.store.now.variables reductions turn.now) }
{
    match turn {
        Turn::Went => Ok(()),
        Turn::Finished { length } => append_counted(out, b"finished: length ", *length),
        Turn::Contradictory { state, clash } => {
            append_state_and(out, b"contradictory", *state, b": ")?;
            append_clash(out, naming, clash)
        }
        Turn::Undetermined { state, cell } => {
            append_state_and(out, b"undetermined", *state, b": ")?;
            append_cell(out, naming, cell)
        }
        Turn::StateLimit { states } => append_counted(out, b"state limit: ", *states),
        Turn::InputMissing { state, port } => {
            append_state_and(out, b"input missing", *state, b": port ")?;
            out.append(port.as_slice())
        }
        Turn::Over { state, limit } => append_limit(out, *state, *limit, reductions),
    }
}

fn append_end(out: &mut Text, naming: &Naming, reductions: u64, turn: &Turn) -> Result<(), NoMemory>
    ensures { let n = naming.now in OnOk result
        (out.new ≡ out.old ++ end_line n.globals.now n.store.now.variables reductions turn.now) }
{
    if let Turn::Went = turn {
        return Ok(());
    }
    append_last_words(out, naming, reductions, turn)?;
    out.append(b"\n")
}

/// Appends the end line of a run with this last answer, where a state has at most so many reductions; nothing where the run goes on.
/// The globals are those of the program that ran, and the store is that of the end of its run. On a refusal the text is unchanged.
pub fn end_text(
    turn: &Turn,
    store: &Store,
    globals: &Globals,
    reductions: u64,
    out: &mut Text,
) -> Result<(), NoMemory>
    ensures text { OnOk result
        (out.new ≡ out.old ++ end_line globals.now store.now.variables reductions turn.now) }
    ensures err { OnErr result (out.new ≡ out.old) }
{
    let naming = Naming { globals, store };
    let mut piece = piece_for(out);
    append_end(&mut piece, &naming, reductions, turn)?;
    out.append(piece.as_slice())
}
