// Whole calls over files and pages in memory: what words and files on a disk can't say. The other runs stand in tests/.
ghost use Rattle.std.specs.Prelude.{◌≡◌, ◌<◌};

use crate::expected::{same_bytes, same_number};
use std::alloc::Global;
use std::marker::Brand;
use std::sync::ledger::{Blank, Ledger};
use std::test::Fail;
use tp_call::{Status, tempura};
use tp_io::{Content, Files, Sink, SurePage, SureShelf};
use tp_step::Steps;
use tp_value::{NoMemory, Text, Texts};

mod faults;

fn call<L: Ledger, F: Files, K: Sink>(
    alloc: Global,
    blank: Blank,
    words: &[Text],
    files: &mut F,
    out: &mut K,
) -> Status
    requires name { blank.name ≡ L.name }
    requires parts { blank.parts ≡ L.parts }
    requires some { 0 < L.parts }
{
    let mut steps = Steps::<L>::new(blank);
    tempura(alloc, words, files, out, &mut steps)
}

// The words of a line.
fn words_of(alloc: Global, line: &str) -> Result<Texts, NoMemory> {
    let mut items = Vec::new(alloc);
    for word in line.split(' ') {
        items.push(Text::from_slice(alloc, word.as_bytes())?)?;
    }
    Ok(Texts { items })
}

// The exit status of a call with these words.
fn code_of<F: Files, K: Sink>(
    alloc: Global,
    line: &str,
    files: &mut F,
    out: &mut K,
) -> Result<u64, NoMemory> {
    let words = words_of(alloc, line)?;
    let status = call::<Brand, _, _>(alloc, Blank::new(1), words.items.as_slice(), files, out);
    Ok(u64::from(status.code()))
}

fn content(alloc: Global, name: &str, text: &str) -> Result<Content, NoMemory> {
    let name = Text::from_slice(alloc, name.as_bytes())?;
    let bytes = Text::from_slice(alloc, text.as_bytes())?;
    Ok(Content { name, bytes })
}

// A source a.t, and a table of inputs a.i.
fn contents(alloc: Global, source: &str) -> Result<Vec<Content>, NoMemory> {
    let source = content(alloc, "a.t", source)?;
    let table = content(alloc, "a.i", "p=1\n")?;
    let all = vec![in alloc; source, table]?;
    Ok(all)
}

#[test]
fn devices_that_never_fail_are_used(rt: HostRuntime) -> Result<(), Fail> {
    let alloc = rt.alloc();
    let mut files = SureShelf::new(alloc, contents(alloc, "run empty.")?);
    let mut page = SurePage::new(alloc);
    let found = code_of(alloc, "run a.t", &mut files, &mut page)?;
    same_number(&rt, found, 0, "a run");
    same_bytes(&rt, page.text(), "state 0:\nfinished: length 0\n", "a run");
    same_number(&rt, u64::from(Status::NoMemory.code()), 16, "no memory");
    Ok(())
}
