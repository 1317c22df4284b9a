//! A library and a sink in memory, which tell all and fail at the calls that were named.

ghost use Rattle.std.specs.Prelude.{◌≡◌, ◌+◌, ◌-◌, ◌^◌, ◌≤◌, ◌++◌, [], Some, Err, IfOk, OnErr, is_err, length, min, vec_len, vec_capacity};
ghost use Rattle.base_types.specs.Causes.{FetchCause, Writes, WriteCause};
ghost use Rattle.base_types.specs.Memory.{Shelf, Tape, texts_of, names_call, after_fetch, after_write, write_fails};
ghost use Rattle.base_types.specs.Texts.{Texts, Answers};
ghost use Rattle.std.specs.Prelude.{Ok, true, ◌↔◌};

use crate::{Fetch, FetchFault, Library, Sink, SinkFault};
use std::alloc::{AllocError, Global};
use std::marker::Model;

/// A library of texts in memory. It tells what it holds, and fails at just the calls that were named.
#[derive(Drop)]
pub struct MemoryLibrary {
    files: Vec<(String, Vec<u8>)>,
    failing: Vec<u64>,
    calls: u64,
    faults: u64,
}

impl Model for MemoryLibrary {
    ghost Value = { Shelf };

    ghost view = { λ m. record { texts = texts_of m.files.items; failing = m.failing.items; calls = m.calls; faults = m.faults } };
}

impl MemoryLibrary {
    /// A library that holds these files, of which the first of a name counts. The calls of these numbers fail, counted
    /// from 1; the number of a call stays at the greatest `u64` once it is there.
    pub fn new(files: Vec<(String, Vec<u8>)>, failing: Vec<u64>) -> MemoryLibrary
        ensures { result ≡ record {
          texts = texts_of files.items;
          failing = failing.items;
          calls =
              0;
          faults = 0;
        } }
    {
        MemoryLibrary {
            files,
            failing,
            calls: 0,
            faults: 0,
        }
    }
}

impl Library for MemoryLibrary {
    ghost holds = { λ m. Some m.texts };

    ghost faults = { λ m. m.faults };

    fn fetch(&mut self, alloc: Global, name: &str, most: usize) -> Result<Fetch, FetchFault>
        ensures keeps { Some self.new.texts ≡ Some self.old.texts }
        ensures answer { (texts : Texts) (fetch : _) → Some self.old.texts ≡ Some texts →
            result ≡ Ok fetch → Answers texts name.now most fetch }
        ensures cause { FetchCause self.old.faults self.new.faults result }

        // It fails at just the calls that were named.
        ensures exact { self.new ≡ after_fetch self.old }
        ensures failed { (result ≡ Err FetchFault.Failed)
            ↔ (names_call self.new.failing self.new.calls ≡ true) }
    {
        self.calls = self.calls.saturating_add(1);
        if self.failing.contains(&self.calls) {
            self.faults = self.faults.saturating_add(1);
            return Err(FetchFault::Failed);
        }
        Ok(find(alloc, &self.files, name, most)?)
    }
}

/// The first bytes of the first file with this name.
fn find(
    alloc: Global,
    files: &[(String, Vec<u8>)],
    name: &str,
    most: usize,
) -> Result<Fetch, AllocError>
    ensures answer { IfOk result (λ fetch. Answers (texts_of files.now) name.now most fetch) }
{
    for file in files {
        if file.0.as_str() == name {
            let end = most.min(file.1.len());
            return Ok(Fetch::Found(file.1[..end].to_vec(alloc)?));
        }
    }
    Ok(Fetch::Absent)
}

/// A sink in memory with room for so many bytes. It fails at the calls that were named, and where its room ends.
#[derive(Drop)]
pub struct MemorySink {
    got: Vec<u8>,
    room: usize,
    failing: Vec<u64>,
    calls: u64,
    faults: u64,
}

impl Model for MemorySink {
    ghost Value = { Tape };

    ghost view = { λ m. record { got = m.got.items; room = m.room; failing = m.failing.items; calls = m.calls; faults = m.faults } };

    ghost invariant = { λ m. (vec_len m.got ≤ m.room) × (m.room ≤ vec_capacity m.got) };
}

impl MemorySink {
    /// An empty sink, which takes all its room at once. The calls of these numbers, counted from 1, take the first half of
    /// their piece, rounded down, and fail. A piece past the room is cut, which is a failure too.
    pub fn new(alloc: Global, room: usize, failing: Vec<u64>) -> Result<MemorySink, AllocError>
        ensures { IfOk result (λ sink. sink ≡ record
            { got = []; room = room; failing = failing.items; calls = 0; faults = 0 }) }
    {
        Ok(MemorySink {
            got: Vec::with_capacity(alloc, room)?,
            room,
            failing,
            calls: 0,
            faults: 0,
        })
    }

    /// The bytes so far.
    pub fn got(&self) -> &[u8]
        ensures { result.now ≡ self.now.got }
    {
        &self.got
    }
}

impl Sink for MemorySink {
    ghost got = { λ m. Some m.got };

    ghost write_faults = { λ m. m.faults };

    fn write(&mut self, bytes: &[u8]) -> Result<(), SinkFault>
        ensures bytes { Writes (Some self.old.got) (Some self.new.got) result bytes.now }
        ensures cause { WriteCause self.old.faults self.new.faults result }

        // It fails at just the calls that were named, and where its room ends.
        ensures exact { self.new ≡ after_write self.old bytes.now }
        ensures failed { is_err result ≡ write_fails self.old bytes.now }
    {
        self.calls = self.calls.saturating_add(1);
        let named = self.failing.contains(&self.calls);
        let part = if named { bytes.len() / 2 } else { bytes.len() };
        let count = part.min(self.room - self.got.len());
        append(&mut self.got, &bytes[..count]);
        if named || count < part {
            self.faults = self.faults.saturating_add(1);
            return Err(SinkFault);
        }
        Ok(())
    }
}

/// Puts the piece into room that is there.
fn append(got: &mut Vec<u8>, piece: &[u8])
    requires { vec_len got.old + length piece.now ≤ vec_capacity got.old }
    ensures items { got.new.items ≡ got.old.items ++ piece.now }
    ensures length { vec_len got.new ≡ vec_len got.old + length piece.now }
    ensures capacity { vec_capacity got.old ≤ vec_capacity got.new }
{
    let taken = got.extend_from_slice(piece);
    prove!(taken.is_ok());
}
