// Reads and writes that fail, one or two of them, and how many there are of each.
use crate::calls::{code_of, contents};
use crate::expected::{holds, same_bytes, same_number};
use std::alloc::Global;
use std::process::Abort;
use std::test::Fail;
use tp_io::{Failure, FileRefusal, Files, Page, Shelf, Sink, WriteRefusal};
use tp_value::NoMemory;

// Words and a source; the number of the read that fails, if the call gets to it; that of the write, and how many bytes of it are kept; and the
// exit status, and what is written.
type Row = (
    &'static str,
    &'static str,
    u64,
    (u64, usize),
    u64,
    &'static str,
);

const SOURCE: &str = "run A=0 and next A = A+1 and next empty.";

const RUN: &str = "state 0: A=0\nstate 1: A=1\nfinished: length 1\n";

// A state of which two lines are written.
const SHOWN: &str = "run display(5) and skip.";

// A run makes one write for each settled state, with the lines that it shows, and one for the end line; a spelling is one write. Where the write
// that would fail is one more, none does.
const WRITES: [Row; 13] = [
    ("run a.t", SOURCE, 2, (1, 0), 15, ""),
    ("run a.t", SOURCE, 2, (1, 3), 15, "sta"),
    ("run a.t", SOURCE, 2, (1, 13), 15, "state 0: A=0\n"),
    ("run a.t", SOURCE, 2, (2, 4), 15, "state 0: A=0\nstat"),
    (
        "run a.t",
        SOURCE,
        2,
        (3, 0),
        15,
        "state 0: A=0\nstate 1: A=1\n",
    ),
    ("run a.t", SOURCE, 2, (3, 99), 15, RUN),
    ("run a.t", SOURCE, 2, (4, 0), 0, RUN),
    ("run a.t", SHOWN, 2, (1, 11), 15, "state 0:\nsh"),
    ("run a.t", SHOWN, 2, (2, 5), 15, "state 0:\nshow 5\nstate"),
    ("print a.t", "run(empty).", 2, (1, 0), 15, ""),
    ("print a.t", "run(empty).", 2, (1, 5), 15, "run e"),
    ("print a.t", "run(empty).", 2, (2, 0), 0, "run empty.\n"),
    ("show a.t", SOURCE, 1, (1, 5), 15, "words"),
];

const INPUT: &str = "run always(input(A, p)) and empty.";

// Inputs are read behind a program alone. What a read tells that fails is one write, which may fail, too.
const READS: [Row; 8] = [
    ("run a.t", SOURCE, 1, (2, 0), 14, "read fault: source\n"),
    (
        "run a.t --inputs a.i",
        INPUT,
        1,
        (2, 0),
        14,
        "read fault: source\n",
    ),
    (
        "run a.t --inputs a.i",
        INPUT,
        2,
        (2, 0),
        14,
        "read fault: inputs\n",
    ),
    (
        "run a.t --inputs a.i",
        INPUT,
        3,
        (3, 0),
        0,
        "state 0: A=1\nfinished: length 0\n",
    ),
    (
        "run a.t --inputs a.i",
        "run or.",
        2,
        (2, 0),
        10,
        "source refused: line 1 column 5: unexpected\n",
    ),
    (
        "check a.t --with a.i",
        SOURCE,
        2,
        (2, 0),
        14,
        "read fault: other\n",
    ),
    ("run a.t --inputs a.i", INPUT, 1, (1, 0), 15, ""),
    ("run a.t --inputs a.i", INPUT, 2, (1, 4), 15, "read"),
];

// Files of which the read with this number fails, and the next one, too.
fn failing_shelf(alloc: Global, source: &str, read: u64) -> Result<Shelf, NoMemory> {
    let files = contents(alloc, source)?;
    let failing = vec![in alloc; read, read.saturating_add(1)]?;
    Ok(Shelf::new(alloc, files, failing))
}

// A page of which the write with this number fails and keeps so many bytes, and the next one fails and keeps none.
fn failing_page(alloc: Global, call: u64, kept: usize) -> Result<Page, NoMemory> {
    let next = call.saturating_add(1);
    let failing = vec![in alloc;
        Failure { call, kept },
        Failure {
            call: next,
            kept: 0
        },
    ]?;
    Ok(Page::new(alloc, failing))
}

// Expects that the next read and the next write fail. So the call has made none behind those that failed, and no fewer.
fn expect_next(rt: &(impl Abort + AllocGlobal), shelf: &mut Shelf, page: &mut Page, row: &str) {
    let read = shelf.read(rt.alloc(), "a.t", 9).err();
    holds(rt, read == Some(FileRefusal::Failed), row);
    let write = page.write(rt.alloc(), b"!").err();
    holds(rt, write == Some(WriteRefusal::Failed), row);
}

fn expect(rt: &(impl Abort + AllocGlobal), row: &Row) -> Result<(), Fail> {
    let alloc = rt.alloc();
    let (words, source, read, (write, kept), code, text) = row;
    let mut shelf = failing_shelf(alloc, source, *read)?;
    let mut page = failing_page(alloc, *write, *kept)?;
    let found = code_of(alloc, words, &mut shelf, &mut page)?;
    same_number(rt, found, *code, text);
    expect_next(rt, &mut shelf, &mut page, text);
    same_bytes(rt, page.text(alloc)?.as_slice(), text, words);
    Ok(())
}

#[test]
fn nothing_is_asked_or_written_after_a_failed_write(rt: HostRuntime) -> Result<(), Fail> {
    for row in &WRITES {
        expect(&rt, row)?;
    }
    Ok(())
}

#[test]
fn a_failed_read_is_told(rt: HostRuntime) -> Result<(), Fail> {
    for row in &READS {
        expect(&rt, row)?;
    }
    Ok(())
}
