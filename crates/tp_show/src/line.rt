// The text of a settled state.
ghost use Rattle.std.specs.Prelude.{◌≡◌, ◌++◌, ◌∷◌, All, List, ℕ, OnOk, OnErr, codes};
ghost use Rattle.std.specs.List.{flat_map};
ghost use Rattle.tp_value.specs.Range.{HasMachineNumbers};
ghost use Rattle.tp_value.specs.Read.{tree};
ghost use Rattle.tp_decide.specs.Read.{values_of, shows_of};
ghost use Rattle.tp_show.specs.Line.{plain_part, plain_parts, line_parts, spaced_text, picture_lines, show_line, shown_value, state_line};
ghost use Rattle.tp_show.specs.Told.{ArePartsInRange, AreShowsInRange, IsPartInRange, IsPictureInRange};

use crate::line_part::{LinePart, LineParts};
use crate::text::{append_counted, append_path, piece_for};
use crate::turn::Picture;
use tp_decide::{Shows, Values};
use tp_value::{Globals, NoMemory, Text, Value, write_value};

// Appends a space and a part.
fn append_part(out: &mut Text, globals: &Globals, part: &LinePart) -> Result<(), NoMemory>
    ensures text { OnOk result
        (out.new ≡ out.old ++ spaced_text globals.now (plain_part part.now)) }
    ensures range { OnOk result (IsPartInRange (plain_part part.now)) }
{
    match part {
        LinePart::Value { path, value } => {
            out.append(b" ")?;
            append_path(out, globals, path)?;
            out.append(b"=")?;
            write_value(value, out)
        }
        LinePart::Length { path, length } => {
            out.append(b" |")?;
            append_path(out, globals, path)?;
            append_counted(out, b"|=", u64::from(*length))
        }
    }
}

// Appends the parts of a state's line.
fn append_parts(out: &mut Text, globals: &Globals, parts: &LineParts) -> Result<(), NoMemory>
    ensures text { OnOk result
        (out.new ≡ out.old ++ flat_map (spaced_text globals.now) (plain_parts parts.now)) }
    ensures range { OnOk result (ArePartsInRange (plain_parts parts.now)) }
{
    for part in &parts.items {
        append_part(out, globals, part)?;
    }
    Ok(())
}

fn append_shown(out: &mut Text, value: &Value) -> Result<(), NoMemory>
    ensures text { OnOk result (out.new ≡ out.old ++ shown_value (tree value.now)) }
    ensures range { OnOk result (HasMachineNumbers (tree value.now)) }
{
    out.append(b" ")?;
    write_value(value, out)
}

// Appends what one item shows, as a line.
fn append_show(out: &mut Text, values: &Values) -> Result<(), NoMemory>
    ensures text { OnOk result (out.new ≡ out.old ++ show_line (values_of values.now)) }
    ensures range { OnOk result (All HasMachineNumbers (values_of values.now)) }
{
    out.append(b"show")?;
    for value in &values.items {
        append_shown(out, value)?;
    }
    out.append(b"\n")
}

fn append_shows(out: &mut Text, shows: &Shows) -> Result<(), NoMemory>
    ensures text { OnOk result (out.new ≡ out.old ++ flat_map show_line (shows_of shows.now)) }
    ensures range { OnOk result (AreShowsInRange (shows_of shows.now)) }
{
    for values in &shows.items {
        append_show(out, values)?;
    }
    Ok(())
}

fn append_picture(out: &mut Text, picture: &Picture, globals: &Globals) -> Result<(), NoMemory>
    requires { plain_parts picture.now.parts ≡ line_parts picture.now.facts }
    ensures text { OnOk result (out.new ≡ out.old ++ picture_lines globals.now picture.now) }
    ensures range { OnOk result (IsPictureInRange picture.now) }
{
    append_counted(out, b"state ", picture.state)?;
    out.append(b":")?;
    append_parts(out, globals, &picture.parts)?;
    out.append(b"\n")?;
    append_shows(out, &picture.shows)
}

/// Appends the line of a settled state, with its number, and for each global variable in order its value or what is known of it; and
/// a line for each list of values that the state shows. The picture's parts are those of its facts. What was written of it are
/// numbers of 128 bits. On a refusal the text is unchanged.
pub fn picture_text(picture: &Picture, globals: &Globals, out: &mut Text) -> Result<(), NoMemory>
    requires { plain_parts picture.now.parts ≡ line_parts picture.now.facts }
    ensures text { OnOk result (out.new ≡ out.old ++ picture_lines globals.now picture.now) }
    ensures range { OnOk result (IsPictureInRange picture.now) }
    ensures err { OnErr result (out.new ≡ out.old) }
{
    let mut piece = piece_for(out);
    append_picture(&mut piece, picture, globals)?;
    out.append(piece.as_slice())
}
