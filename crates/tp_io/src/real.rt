// The real files and the real output, over the calls of the system.
ghost use Rattle.std.specs.Prelude.{◌≡◌, ◌≤◌, ◌<◌, ◌++◌, ℕ, List, Option, length, take, drop, None, IfOk, IfSome, OnOk, OnErr, IsErrOf, false};
ghost use Rattle.std.specs.Io.KnownBytes.{Appends, Consumes, IsAtEnd, Keeps};
ghost use Rattle.tp_io.specs.Devices.{Reads, AppendsPart, reads_failed_after, writes_failed_after, last_count};
ghost use Rattle.tp_io.specs.Held.{Rose, next_count};
ghost use Rattle.tp_io.specs.SystemCalls.{FileCall, WriteCall, ReadsByCalls, ReadsOpen, WritesPiece, OneRead, OneWrite, and_these, refusal_of_fault};

use crate::system::{CallFault, SystemFiles, SystemWriter};
use crate::{FileRefusal, Files, Sink, WriteRefusal};
use std::alloc::Global;
use tp_value::{Bytes, Text};

// The most bytes that one call is asked for.
const MOST_ASKED: usize = 65_536;

/// The files of a system. A name that is not there, or that cannot be read to the end, is a fault; each fault raises the count.
#[derive(Drop)]
pub struct RealFiles<C: SystemFiles> {
    pub system: C,
    faults: u64,
}

/// The writer of a system. An error is a fault, and so is a write that takes nothing of a piece that is not empty;
/// each fault raises the count.
#[derive(Drop)]
pub struct RealSink<C: SystemWriter> {
    pub system: C,
    faults: u64,
}

impl<C: SystemFiles> RealFiles<C> {
    pub fn new(system: C) -> Self
        ensures system { result.system ≡ system }
        ensures faults { ⟦<RealFiles<C> as Files>⟧.faults result ≡ 0 }
    {
        RealFiles { system, faults: 0 }
    }
}

impl<C: SystemWriter> RealSink<C> {
    pub fn new(system: C) -> Self
        ensures system { result.system ≡ system }
        ensures faults { ⟦<RealSink<C> as Sink>⟧.faults result ≡ 0 }
    {
        RealSink { system, faults: 0 }
    }
}

// The count after one fault more.
fn one_more(faults: u64) -> u64
    ensures { result ≡ next_count last_count faults }
{
    faults.saturating_add(1)
}

fn file_refusal(fault: CallFault) -> FileRefusal
    ensures { result ≡ refusal_of_fault fault }
{
    match fault {
        CallFault::Interrupted | CallFault::Failed => FileRefusal::Failed,
        CallFault::NoMemory => FileRefusal::NoMemory,
    }
}

// One read of so many bytes, which are appended. Whether there may be more: at the file's end there is none.
fn read_more<C: SystemFiles>(
    alloc: Global,
    system: &mut C,
    asked: usize,
    items: &mut Vec<u8>,
) -> Result<bool, FileRefusal>
    requires some { 0 < asked }
    ensures call { (calls : List FileCall)
        × (C.calls system.new ≡ and_these (C.calls system.old) calls)
        × OneRead asked calls items.old.items items.new.items result }
    ensures held { C.held system.new ≡ C.held system.old }
    ensures bytes { IfOk result (λ more. (bytes : List ℕ)
        × (items.new.items ≡ items.old.items ++ bytes)
        × Consumes (C.remaining system.old) (C.remaining system.new) bytes
        × (more ≡ false → IsAtEnd (C.remaining system.new))) }
{
    let mut buffer = vec![in alloc; 0u8; asked]?;
    match system.read(buffer.as_mut_slice()) {
        Ok(0) => Ok(false),
        Ok(count) => {
            buffer.truncate(count);
            match items.append(&mut buffer) {
                Ok(()) => Ok(true),
                Err(_) => Err(FileRefusal::NoMemory),
            }
        }
        Err(CallFault::Interrupted) => Ok(true),
        Err(CallFault::NoMemory) => Err(FileRefusal::NoMemory),
        Err(CallFault::Failed) => Err(FileRefusal::Failed),
    }
}

// Reads the open file until it gives nothing or so many bytes were read.
fn read_open<C: SystemFiles>(
    alloc: Global,
    system: &mut C,
    most: usize,
) -> Result<Bytes, FileRefusal>
    ensures calls { (calls : List FileCall)
        × (C.calls system.new ≡ and_these (C.calls system.old) calls)
        × ReadsOpen most calls result }
    ensures held { C.held system.new ≡ C.held system.old }
    ensures within { IfOk result (λ bytes. length bytes ≤ most) }
    ensures first { IfOk result (λ bytes.
        IfSome (C.remaining system.old) (λ all. bytes ≡ take most all)) }
{
    let mut items = Vec::new(alloc);
    'reads: for _ in 0..u64::MAX {
        let asked = (most - items.len()).min(MOST_ASKED);
        if asked == 0 {
            return Ok(Text { items });
        }
        match read_more(alloc, system, asked, &mut items) {
            Ok(true) => {}
            Ok(false) => return Ok(Text { items }),
            Err(refusal) => return Err(refusal),
        }
    }
    Err(FileRefusal::Failed)
}

fn open_and_read<C: SystemFiles>(
    alloc: Global,
    system: &mut C,
    name: &str,
    most: usize,
) -> Result<Bytes, FileRefusal>
    ensures calls { (calls : List FileCall)
        × (C.calls system.new ≡ and_these (C.calls system.old) calls)
        × ReadsByCalls name.now most calls result }
    ensures held { C.held system.new ≡ C.held system.old }
    ensures bytes { IfOk result (Reads (C.held system.old) name.now most) }
    ensures opened { IfOk result (λ bytes.
        (file : C) × IfSome (C.remaining file) (λ all. bytes ≡ take most all)) }
{
    match system.open(name) {
        Ok(()) => read_open(alloc, system, most),
        Err(fault) => Err(file_refusal(fault)),
    }
}

// Writes some of the bytes, of which there are some, and says how many; none where it was interrupted.
fn write_some<C: SystemWriter>(system: &mut C, bytes: &[u8]) -> Result<usize, WriteRefusal>
    ensures call { (calls : List WriteCall)
        × (C.calls system.new ≡ and_these (C.calls system.old) calls)
        × OneWrite bytes.now calls result }
    ensures within { IfOk result (λ count. count ≤ length bytes.now) }
    ensures ok { IfOk result (λ count.
        Appends (C.contents system.old) (C.contents system.new) (take count bytes.now)) }
    ensures err { OnErr result (Keeps (C.contents system.old) (C.contents system.new)) }
{
    match system.write(bytes) {
        Ok(0) => Err(WriteRefusal::Failed),
        Ok(count) => Ok(count),
        Err(CallFault::Interrupted) => Ok(0),
        Err(CallFault::NoMemory) => Err(WriteRefusal::NoMemory),
        Err(CallFault::Failed) => Err(WriteRefusal::Failed),
    }
}

// Writes the piece, some of it at a time. At `Err` a part of it from its start was written.
fn write_whole<C: SystemWriter>(system: &mut C, piece: &[u8]) -> Result<(), WriteRefusal>
    ensures calls { (calls : List WriteCall)
        × (C.calls system.new ≡ and_these (C.calls system.old) calls)
        × WritesPiece piece.now calls result }
    ensures ok { OnOk result
        (Appends (C.contents system.old) (C.contents system.new) piece.now) }
    ensures err { OnErr result
        (AppendsPart (C.contents system.old) (C.contents system.new) piece.now) }
{
    let mut written = 0;
    'pieces: for _ in 0..u64::MAX {
        if written == piece.len() {
            return Ok(());
        }
        match write_some(system, &piece[written..]) {
            Ok(count) => written += count,
            Err(refusal) => return Err(refusal),
        }
    }
    Err(WriteRefusal::Failed)
}

impl<C: SystemFiles> Files for RealFiles<C> {
    ghost held = { λ s. C.held s.system };

    ghost asked = { λ _. None };

    ghost faults = { λ s. s.faults };

    ghost greatest = { last_count };

    /// The calls of the system that this makes are one that opens the file and those that read it, of which none asks for more than is
    /// still wanted, and none comes after one that failed; so a fault comes only where one of them failed.
    fn read(&mut self, alloc: Global, name: &str, most: usize) -> Result<Bytes, FileRefusal>
        ensures bytes { IfOk result (Reads (C.held self.old.system) name.now most) }
        ensures held { C.held self.new.system ≡ C.held self.old.system }
        ensures later { self.old.faults ≤ self.new.faults }
        ensures cause { IsErrOf result FileRefusal.Failed
            → Rose last_count self.old.faults self.new.faults }

        ensures calls { (calls : List FileCall)
            × (C.calls self.new.system ≡ and_these (C.calls self.old.system) calls)
            × ReadsByCalls name.now most calls result }
        ensures opened { IfOk result (λ bytes.
            (file : C) × IfSome (C.remaining file) (λ all. bytes ≡ take most all)) }
        ensures count { self.new.faults ≡ reads_failed_after last_count self.old.faults result }
    {
        let outcome = open_and_read(alloc, &mut self.system, name, most);
        if let Err(FileRefusal::Failed) = &outcome {
            self.faults = one_more(self.faults);
        }
        outcome
    }
}

impl<C: SystemWriter> Sink for RealSink<C> {
    ghost written = { λ _. None };

    ghost faults = { λ s. s.faults };

    ghost greatest = { last_count };

    /// The calls of the system that this makes are handed all that is still to be written, and none comes after one that failed or took
    /// nothing; so a fault comes only where one of them failed or took nothing, and want of memory only where one wanted it.
    fn write(&mut self, _alloc: Global, piece: &[u8]) -> Result<(), WriteRefusal>
        ensures later { self.old.faults ≤ self.new.faults }
        ensures cause { IsErrOf result WriteRefusal.Failed
            → Rose last_count self.old.faults self.new.faults }

        ensures calls { (calls : List WriteCall)
            × (C.calls self.new.system ≡ and_these (C.calls self.old.system) calls)
            × WritesPiece piece.now calls result }
        ensures appended { OnOk result
            (Appends (C.contents self.old.system) (C.contents self.new.system) piece.now) }
        ensures part { OnErr result
            (AppendsPart (C.contents self.old.system) (C.contents self.new.system) piece.now) }
        ensures count { self.new.faults ≡ writes_failed_after last_count self.old.faults result }
    {
        let outcome = write_whole(&mut self.system, piece);
        if let Err(WriteRefusal::Failed) = &outcome {
            self.faults = one_more(self.faults);
        }
        outcome
    }
}
