// Files and sinks in memory.
ghost use Rattle.std.specs.Prelude.{◌≡◌, ◌≤◌, ◌+◌, ℕ, [], List, Option, Some, None, take, find, length, nat_eq, IfOk, IsErr, IsErrOf, IsNone, IsSome, OnOk};
ghost use Rattle.std.specs.Option.{option_copied};
ghost use Rattle.std.specs.FinMap.{get};
ghost use Rattle.tp_io.specs.Devices.{Reads, Writes, asked_after};
ghost use Rattle.tp_io.specs.Held.{Rose};
ghost use Rattle.tp_io.specs.Memory.{held_of};
ghost use Rattle.tp_io.specs.Calls.{FailsAt, shelf_after, sure_shelf_after, failure_of, page_after};

use crate::{FileRefusal, Files, Sink, WriteRefusal};
use std::alloc::Global;
use std::marker::Model;
use tp_value::{Bytes, NoMemory, Text};

/// A name and what it holds.
#[derive(Drop)]
pub struct Content {
    pub name: Text,
    pub bytes: Bytes,
}

/// A name that was asked for, how many bytes at most, and whether that read failed.
#[derive(Drop)]
pub struct Request {
    name: Text,
    most: usize,
    failed: bool,
}

/// What one write appended, and whether it failed.
#[derive(Drop)]
pub struct WrittenPiece {
    bytes: Bytes,
    failed: bool,
}

/// A write that is to fail: its number, counted from 1, and how many bytes of its piece are kept, at most all.
#[derive(Clone, Copy)]
pub struct Failure {
    pub call: u64,
    pub kept: usize,
}

/// Files in memory. A name that is not there fails, and so do the reads with the numbers in `failing`,
/// counted from 1; a read that wants memory has no number.
#[derive(Drop)]
pub struct Shelf {
    contents: Vec<Content>,
    failing: Vec<u64>,
    requests: Vec<Request>,
}

impl Model for Shelf {
    ghost use Rattle.tp_io.specs.Memory.{ShelfView, asked_of, failed_reads};

    ghost Value = { ShelfView };

    ghost view = { λ s. record { contents = s.contents.items; failing = s.failing.items; asked = asked_of s.requests.items; faults = failed_reads s.requests.items } };
}

/// Files in memory that never fail. A name that is not there is read as no bytes.
#[derive(Drop)]
pub struct SureShelf {
    contents: Vec<Content>,
    requests: Vec<Request>,
}

impl Model for SureShelf {
    ghost use Rattle.tp_io.specs.Memory.{SureShelfView, asked_of};

    ghost Value = { SureShelfView };

    ghost view = { λ s. record { contents = s.contents.items; asked = asked_of s.requests.items } };
}

/// A page in memory. The writes that `failing` names fail; of two failures of one number the first counts, and a write
/// that wants memory has no number.
#[derive(Drop)]
pub struct Page {
    failing: Vec<Failure>,
    pieces: Vec<WrittenPiece>,
}

impl Model for Page {
    ghost use Rattle.std.specs.Prelude.{length};
    ghost use Rattle.tp_io.specs.Memory.{PageView, text_of, failed_writes};

    ghost Value = { PageView };

    ghost view = { λ p. record { failing = p.failing.items; calls = length p.pieces.items; text = text_of p.pieces.items; faults = failed_writes p.pieces.items } };
}

/// A page in memory that never fails.
#[derive(Drop)]
pub struct SurePage {
    text: Text,
}

impl Model for SurePage {
    ghost use Rattle.std.specs.Prelude.{List, ℕ};

    ghost Value = { List ℕ };

    ghost view = { λ p. p.text };
}

fn held_bytes<'a>(contents: &'a [Content], name: &[u8]) -> Option<&'a Bytes>
    ensures { option_copied result ≡ get (held_of contents.now) name.now }
{
    for content in contents {
        if content.name.as_slice() == name {
            return Some(&content.bytes);
        }
    }
    None
}

// The first bytes, at most so many.
fn first_bytes(alloc: Global, bytes: &[u8], most: usize) -> Result<Bytes, NoMemory>
    ensures { IfOk result (λ b. b ≡ take most bytes.now) }
{
    Text::from_slice(alloc, &bytes[..most.min(bytes.len())])
}

impl Shelf {
    pub fn new(alloc: Global, contents: Vec<Content>, failing: Vec<u64>) -> Shelf
        ensures { result
            ≡ record
            { contents = contents.items; failing = failing.items; asked = []; faults = 0 } }
    {
        Shelf {
            contents,
            failing,
            requests: Vec::new(alloc),
        }
    }
}

impl SureShelf {
    pub fn new(alloc: Global, contents: Vec<Content>) -> SureShelf
        ensures { result ≡ record { contents = contents.items; asked = [] } }
    {
        SureShelf {
            contents,
            requests: Vec::new(alloc),
        }
    }
}

impl Page {
    pub fn new(alloc: Global, failing: Vec<Failure>) -> Page
        ensures { result ≡ record { failing = failing.items; calls = 0; text = []; faults = 0 } }
    {
        Page {
            failing,
            pieces: Vec::new(alloc),
        }
    }

    /// What was written.
    pub fn text(&self, alloc: Global) -> Result<Text, NoMemory>
        ensures { IfOk result (λ text. text ≡ self.now.text) }
    {
        let mut text = Text::new(alloc);
        for piece in &self.pieces {
            text.append(piece.bytes.as_slice())?;
        }
        Ok(text)
    }
}

impl SurePage {
    pub fn new(alloc: Global) -> SurePage
        ensures { result ≡ [] }
    {
        SurePage {
            text: Text::new(alloc),
        }
    }

    /// What was written.
    pub fn text(&self) -> &[u8]
        ensures { result.now ≡ self.now }
    {
        self.text.as_slice()
    }
}

impl Files for Shelf {
    ghost held = { λ s. Some (held_of s.contents) };

    ghost asked = { λ s. Some s.asked };

    ghost faults = { λ s. s.faults };

    ghost greatest = { None };

    fn read(&mut self, alloc: Global, name: &str, most: usize) -> Result<Bytes, FileRefusal>
        ensures bytes { IfOk result (Reads (Some (held_of self.old.contents)) name.now most) }
        ensures held { Some (held_of self.new.contents) ≡ Some (held_of self.old.contents) }
        ensures asked { Some self.new.asked
            ≡ asked_after (Some self.old.asked) name.now most result }
        ensures later { self.old.faults ≤ self.new.faults }
        ensures cause { IsErrOf result FileRefusal.Failed
            → Rose None self.old.faults self.new.faults }

        ensures after { self.new ≡ shelf_after self.old name.now most result }
        ensures fails { FailsAt self.old name.now → IsErr result }
        ensures fails_only { IsErrOf result FileRefusal.Failed → FailsAt self.old name.now }
    {
        let number = self.requests.len() as u64 + 1;
        let asked = Text::from_slice(alloc, name.as_bytes())?;
        let found = if self.failing.contains(&number) {
            None
        } else {
            held_bytes(&self.contents, name.as_bytes())
        };
        match found {
            None => {
                self.requests.push(Request {
                    name: asked,
                    most,
                    failed: true,
                })?;
                Err(FileRefusal::Failed)
            }
            Some(bytes) => {
                let first = first_bytes(alloc, bytes.as_slice(), most)?;
                self.requests.push(Request {
                    name: asked,
                    most,
                    failed: false,
                })?;
                Ok(first)
            }
        }
    }
}

impl Files for SureShelf {
    ghost held = { λ s. Some (held_of s.contents) };

    ghost asked = { λ s. Some s.asked };

    ghost faults = { λ _. 0 };

    ghost greatest = { None };

    fn read(&mut self, alloc: Global, name: &str, most: usize) -> Result<Bytes, FileRefusal>
        ensures bytes { IfOk result (Reads (Some (held_of self.old.contents)) name.now most) }
        ensures held { Some (held_of self.new.contents) ≡ Some (held_of self.old.contents) }
        ensures asked { Some self.new.asked
            ≡ asked_after (Some self.old.asked) name.now most result }
        ensures later { 0 ≤ 0 }
        ensures cause { IsErrOf result FileRefusal.Failed → Rose None 0 0 }

        ensures after { self.new ≡ sure_shelf_after self.old name.now most result }
    {
        let asked = Text::from_slice(alloc, name.as_bytes())?;
        let first = match held_bytes(&self.contents, name.as_bytes()) {
            None => Text::new(alloc),
            Some(bytes) => first_bytes(alloc, bytes.as_slice(), most)?,
        };
        self.requests.push(Request {
            name: asked,
            most,
            failed: false,
        })?;
        Ok(first)
    }
}

fn failure_at(failing: &[Failure], call: u64) -> Option<Failure>
    ensures { result ≡ find (λ f. nat_eq f.call call) failing.now }
{
    failing.iter().copied().find(|f| f.call == call)
}

impl Sink for Page {
    ghost written = { λ p. Some p.text };

    ghost faults = { λ p. p.faults };

    ghost greatest = { None };

    fn write(&mut self, alloc: Global, piece: &[u8]) -> Result<(), WriteRefusal>
        ensures written { Writes (Some self.old.text) (Some self.new.text) piece.now result }
        ensures later { self.old.faults ≤ self.new.faults }
        ensures cause { IsErrOf result WriteRefusal.Failed
            → Rose None self.old.faults self.new.faults }

        ensures after { self.new ≡ page_after self.old piece.now result }
        ensures fails { OnOk result (IsNone (failure_of self.old)) }
        ensures fails_only { IsErrOf result WriteRefusal.Failed → IsSome (failure_of self.old) }
    {
        match failure_at(&self.failing, self.pieces.len() as u64 + 1) {
            None => {
                let bytes = Text::from_slice(alloc, piece)?;
                self.pieces.push(WrittenPiece {
                    bytes,
                    failed: false,
                })?;
                Ok(())
            }
            Some(failure) => {
                let bytes = first_bytes(alloc, piece, failure.kept)?;
                self.pieces.push(WrittenPiece {
                    bytes,
                    failed: true,
                })?;
                Err(WriteRefusal::Failed)
            }
        }
    }
}

impl Sink for SurePage {
    ghost written = { λ p. Some p };

    ghost faults = { λ _. 0 };

    ghost greatest = { None };

    fn write(&mut self, _alloc: Global, piece: &[u8]) -> Result<(), WriteRefusal> {
        self.text.append(piece)?;
        Ok(())
    }
}
