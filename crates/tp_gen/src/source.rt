// How the source is written.
ghost use Rattle.std.specs.Prelude.{◌≡◌, ◌≤◌, ◌<◌, ◌-◌, ◌++◌, OnOk, OnErr};
ghost use Rattle.tp_gen.specs.Source.{numbered_name, beginning_text, link_text, source_text};

use itoa::Buffer;
use tp_value::{NoMemory, Text};

// Appends the words and then the name of the variable with this number.
fn append_name(out: &mut Text, words: &[u8], number: u64) -> Result<(), NoMemory>
    ensures { OnOk result (out.new ≡ out.old ++ (words.now ++ numbered_name number)) }
{
    let mut buffer = Buffer::new();
    out.append(words)?;
    out.append(b"X")?;
    out.append(buffer.format(number).as_bytes())
}

// Appends what stands before the links.
fn append_opening(out: &mut Text, last: u64) -> Result<(), NoMemory>
    ensures { OnOk result (out.new ≡ out.old ++ beginning_text last) }
{
    append_name(out, b"run len(7) and ", last)?;
    append_name(out, b"=0 and ", last)?;
    append_name(out, b" gets ", 0)
}

// Appends how the variable with this number hangs on the next one.
fn append_link(out: &mut Text, number: u64) -> Result<(), NoMemory>
    requires { number < 5000 }
    ensures { OnOk result (out.new ≡ out.old ++ link_text number) }
{
    append_name(out, b" and always(", number)?;
    append_name(out, b"=", number + 1)?;
    out.append(b"+1)")
}

// Appends the source, or on a refusal some part of it.
fn append_source(out: &mut Text, n: u64) -> Result<(), NoMemory>
    requires some { 1 ≤ n }
    requires few { n ≤ 5000 }
    ensures { OnOk result (out.new ≡ out.old ++ source_text n) }
{
    append_opening(out, n - 1)?;
    for number in 0..n - 1 {
        append_link(out, number)?;
    }
    out.append(b".\n")
}

/// Appends the source with `n` variables. In each state of its run the last variable is known first, and of the others each one only
/// after the next. On a refusal the text is unchanged.
pub fn large_source(n: u64, out: &mut Text) -> Result<(), NoMemory>
    requires some { 1 ≤ n }
    requires few { n ≤ 5000 }
    ensures ok { OnOk result (out.new ≡ out.old ++ source_text n) }
    ensures err { OnErr result (out.new ≡ out.old) }
{
    let mut source = Text::new(*out.items.allocator());
    append_source(&mut source, n)?;
    out.append(source.as_slice())
}
