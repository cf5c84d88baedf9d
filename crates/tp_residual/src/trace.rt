// The trace lines of a state.
ghost use Rattle.std.specs.Prelude.{◌≡◌, ◌++◌, IfSome, OnOk, OnErr};
ghost use Rattle.std.specs.Option.{option_map};
ghost use Rattle.tp_kernel.specs.Read.{definitions_of};
ghost use Rattle.tp_slots.specs.Kept.{IsWellKept};
ghost use Rattle.tp_slots.specs.Plain.{IsOrdered};
ghost use Rattle.tp_slots.specs.Read.{scene_of, slots_of};
ghost use Rattle.tp_residual.specs.Carried.{AreCarried};
ghost use Rattle.tp_residual.specs.Residual.{reductions_line, residual_line, residual_of, trace_lines};
ghost use Rattle.tp_residual.specs.Seen.{region_spelling};

use crate::scene::{Residue, append_scene};
use crate::words::append_decimal;
use std::alloc::Global;
use tp_kernel::Defs;
use tp_show::{Picture, piece_for};
use tp_slots::Scene;
use tp_store::Store;
use tp_value::{NoMemory, Text};

fn append_reductions(out: &mut Text, reductions: u64) -> Result<(), NoMemory>
    ensures { OnOk result (out.new ≡ out.old ++ reductions_line reductions) }
{
    out.append(b"reductions ")?;
    append_decimal(out, reductions)?;
    out.append(b"\n")
}

fn append_residual(out: &mut Text, residue: &Residue) -> Result<(), NoMemory>
    requires { IsOrdered (slots_of residue.now.scene.now) }
    ensures { OnOk result
        (out.new ≡ out.old ++ residual_line (region_spelling residue.now 0)) }
{
    out.append(b"residual: ")?;
    append_scene(out, residue)?;
    out.append(b"\n")
}

fn append_trace(
    out: &mut Text,
    alloc: Global,
    reductions: u64,
    scene: Option<&Scene>,
    store: &Store,
    defs: &Defs,
) -> Result<(), NoMemory>
    requires kept { IfSome scene (λ s. IsWellKept s.now) }
    requires carried { IfSome (option_map (λ s. scene_of s.now) scene)
        (λ s. AreCarried s.root.entries) }
    ensures { OnOk result
        (out.new
        ≡ out.old
        ++ trace_lines reductions
        (residual_of store.now.variables (definitions_of defs.now)
        (option_map (λ s. scene_of s.now) scene.entry))) }
{
    append_reductions(out, reductions)?;
    match scene {
        Some(scene) => {
            let residue = Residue {
                alloc,
                scene,
                store,
                defs,
            };
            append_residual(out, &residue)
        }
        None => Ok(()),
    }
}

/// Appends a line with the number of reductions that a state took, and where it goes on a line with what is still to hold from the next
/// state on, as a phrase: the scene with which that begins. Variables and definitions are named by the store and `defs`. On a refusal
/// the text is unchanged.
pub fn trace_text(
    alloc: Global,
    picture: &Picture,
    scene: Option<&Scene>,
    store: &Store,
    defs: &Defs,
    out: &mut Text,
) -> Result<(), NoMemory>
    requires kept { IfSome scene (λ s. IsWellKept s.now) }
    requires carried { IfSome (option_map (λ s. scene_of s.now) scene)
        (λ s. AreCarried s.root.entries) }
    ensures text { OnOk result
        (out.new
        ≡ out.old
        ++ trace_lines picture.now.reductions
        (residual_of store.now.variables (definitions_of defs.now)
        (option_map (λ s. scene_of s.now) scene.entry))) }
    ensures err { OnErr result (out.new ≡ out.old) }
{
    let mut piece = piece_for(out);
    append_trace(&mut piece, alloc, picture.reductions, scene, store, defs)?;
    out.append(piece.as_slice())
}
