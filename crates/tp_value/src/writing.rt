// How values are written.
ghost use Rattle.std.specs.Prelude.{◌≡◌, ◌++◌, FitsSigned, OnOk, OnErr, length, take};
ghost use Rattle.std.specs.Fmt.{signed_decimal};
ghost use Rattle.tp_value.specs.Number.{number_width};
ghost use Rattle.tp_value.specs.Range.{HasMachineNumbers};
ghost use Rattle.tp_value.specs.Read.{tree};
ghost use Rattle.tp_value.specs.Tree.{truth as truth_tree};
ghost use Rattle.tp_value.specs.Written.{text_of};

use crate::{NoMemory, Number, Text, Value};
use itoa::Buffer;

fn append_number(n: Number, out: &mut Text) -> Result<(), NoMemory>
    ensures ok { OnOk result (out.new ≡ out.old ++ signed_decimal n) }
    ensures err { OnErr result (out.new ≡ out.old) }
    ensures range { FitsSigned number_width n }
{
    let mut buffer = Buffer::new();
    out.append(buffer.format(n).as_bytes())
}

fn append_truth(truth: bool, out: &mut Text) -> Result<(), NoMemory>
    ensures ok { OnOk result (out.new ≡ out.old ++ text_of (truth_tree truth)) }
    ensures err { OnErr result (out.new ≡ out.old) }
{
    out.append(if truth {
        b"true".as_slice()
    } else {
        b"false".as_slice()
    })
}

// Appends the value's text; on a refusal perhaps some part of it.
fn append_value(value: &Value, out: &mut Text) -> Result<(), NoMemory>
    ensures ok { OnOk result (out.new ≡ out.old ++ text_of (tree value.now)) }
    ensures err { OnErr result (take (length out.old) out.new ≡ out.old) }
    ensures range { OnOk result (HasMachineNumbers (tree value.now)) }
{
    match value {
        Value::Num(n) => append_number(*n, out),
        Value::Truth(truth) => append_truth(*truth, out),
        Value::List(all) => {
            out.append(b"<")?;
            for (i, item) in all.items.iter().enumerate() {
                if i > 0 {
                    out.append(b",")?;
                }
                append_value(item, out)?;
            }
            out.append(b">")
        }
    }
}

/// Appends the text of any value: a number in decimal, `true`, `false`, or the items of a list in `<` and `>` with commas and no
/// blanks. It goes down as deep as the value is, whatever the limits. On a refusal the text is unchanged.
pub fn write_value(value: &Value, out: &mut Text) -> Result<(), NoMemory>
    ensures ok { OnOk result (out.new ≡ out.old ++ text_of (tree value.now)) }
    ensures err { OnErr result (out.new ≡ out.old) }
    ensures range { OnOk result (HasMachineNumbers (tree value.now)) }
{
    let before = out.len();
    let written = append_value(value, out);
    if written.is_err() {
        out.items.truncate(before);
    }
    written
}
