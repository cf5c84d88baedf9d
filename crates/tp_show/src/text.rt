// How numbers, paths and shapes are written.
ghost use Rattle.std.specs.Prelude.{◌≡◌, ◌++◌, [], All, OnOk};
ghost use Rattle.std.specs.Fmt.{decimal, signed_decimal};
ghost use Rattle.std.specs.List.{flat_map};
ghost use Rattle.tp_show.specs.Told.{FitsIn64Bits};
ghost use Rattle.tp_show.specs.Texts.{global_name, index_text, path_text};
ghost use Rattle.tp_show.specs.PathText.{opening_text, closing_text};

use itoa::Buffer;
use tp_value::{Globals, Indices, NoMemory, Number, Path, Shape, Text};

/// An empty text for a piece that is to be appended whole to this one, or not at all.
pub fn piece_for(out: &Text) -> Text
    ensures { result ≡ [] }
{
    Text::new(*out.items.allocator())
}

fn append_number(out: &mut Text, n: u64) -> Result<(), NoMemory>
    ensures { OnOk result (out.new ≡ out.old ++ decimal n) }
{
    let mut buffer = Buffer::new();
    out.append(buffer.format(n).as_bytes())
}

/// Appends some words and then a number.
pub fn append_counted(out: &mut Text, words: &[u8], n: u64) -> Result<(), NoMemory>
    ensures text { OnOk result (out.new ≡ out.old ++ (words.now ++ decimal n)) }
    ensures range { FitsIn64Bits n }
{
    out.append(words)?;
    append_number(out, n)
}

fn append_signed(out: &mut Text, n: Number) -> Result<(), NoMemory>
    ensures { OnOk result (out.new ≡ out.old ++ signed_decimal n) }
{
    let mut buffer = Buffer::new();
    out.append(buffer.format(n).as_bytes())
}

fn append_name(out: &mut Text, globals: &Globals, number: u64) -> Result<(), NoMemory>
    ensures { OnOk result (out.new ≡ out.old ++ global_name globals.now number) }
{
    match globals.name(number) {
        Some(name) => out.append(name.as_slice()),
        None => Ok(()),
    }
}

fn append_index(out: &mut Text, index: u32) -> Result<(), NoMemory>
    ensures text { OnOk result (out.new ≡ out.old ++ index_text index) }
    ensures range { FitsIn64Bits index }
{
    out.append(b"[")?;
    append_number(out, u64::from(index))?;
    out.append(b"]")
}

pub fn append_indices(out: &mut Text, at: &Indices) -> Result<(), NoMemory>
    ensures text { OnOk result (out.new ≡ out.old ++ flat_map index_text at.now) }
    ensures range { OnOk result (All FitsIn64Bits at.now) }
{
    for index in &at.items {
        append_index(out, *index)?;
    }
    Ok(())
}

pub fn append_path(out: &mut Text, globals: &Globals, path: &Path) -> Result<(), NoMemory>
    ensures text { OnOk result (out.new ≡ out.old ++ path_text globals.now path.now) }
    ensures range { OnOk result (All FitsIn64Bits path.now.at) }
{
    append_name(out, globals, path.var.number)?;
    append_indices(out, &path.at)
}

/// Appends what stands before the path of a fact with this shape.
pub fn append_opening(out: &mut Text, shape: &Shape) -> Result<(), NoMemory>
    ensures { OnOk result (out.new ≡ out.old ++ opening_text shape.now) }
{
    match shape {
        Shape::Num(_) => Ok(()),
        Shape::Truth(_) => Ok(()),
        Shape::Items(_) => out.append(b"|"),
    }
}

/// Appends what stands behind the path of a fact with this shape.
pub fn append_closing(out: &mut Text, shape: &Shape) -> Result<(), NoMemory>
    ensures { OnOk result (out.new ≡ out.old ++ closing_text shape.now) }
{
    match shape {
        Shape::Num(n) => {
            out.append(b"=")?;
            append_signed(out, *n)
        }
        Shape::Truth(truth) => out.append(if *truth {
            b"=true".as_slice()
        } else {
            b"=false".as_slice()
        }),
        Shape::Items(length) => append_counted(out, b"|=", u64::from(*length)),
    }
}
