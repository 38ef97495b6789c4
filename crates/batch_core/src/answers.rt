//! The answers to all files of a batch.

ghost use Rattle.std.specs.Prelude.{◌≡◌, ◌≢◌, ◌<◌, ◌↔◌, Some, None, length, slice_set, option_copied, IfOk, IfSome, OnOk};
ghost use Rattle.mm_frames.specs.Batches.{files_of};
ghost use Rattle.batch_core.specs.Shares.{AreFull, AreSlotsOf, FillsOnly, IsAnswerAt, IsWithinLimits, empty_slots, slot_at};

use btf_tool::{FileAnswer, answer_bytes};
use sp_ids::OutOfMemory;
use std::alloc::Global;
use std::marker::Model;
use std::thread::Threads;

/// The answers to the files of a batch: a slot for each, empty or full. A full slot has the answer
/// to its own file.
#[derive(Drop)]
pub struct Answers<'a> {
    alloc: Global,
    files: &'a [Vec<u8>],
    slots: Vec<Option<FileAnswer>>,
}

impl<'a> Model for Answers<'a> {
    ghost use Rattle.mm_frames.specs.Batches.{files_of};
    ghost use Rattle.batch_core.specs.Shares as shares;

    ghost Value = { shares.Slots };

    ghost view = { λ s. record { files = files_of s.files.now; slots = s.slots.items } };

    ghost invariant = { λ s. shares.IsWithinLimits (files_of s.files.now)
        × shares.AreSlotsOf (files_of s.files.now) s.slots.items };
}

/// What became of an answer.
#[derive(Clone, Copy, Debug, PartialEq, Eq)]
pub enum Put {
    /// The slot was empty, and has the answer now.
    Stored,
    /// The slot was full, and has what it had.
    Held,
}

impl<'a> Answers<'a> {
    /// No answers yet. There are at most 65,536 files, and each has at most 1,073,741,824 bytes.
    /// Returns `OutOfMemory` if it cannot allocate a slot for each file.
    pub fn new(alloc: Global, files: &'a [Vec<u8>]) -> Result<Answers<'a>, OutOfMemory>
        requires { IsWithinLimits (files_of files.now) }
        ensures { IfOk result (λ a. a ≡ record {
          files = files_of files.now;
          slots = empty_slots (length files.now);
        }) }
    {
        let mut slots = Vec::new(alloc);
        for _ in 0..files.len() {
            slots.push(None)?;
        }
        Ok(Answers {
            alloc,
            files,
            slots,
        })
    }

    /// The slots, one for each file and in their order.
    pub fn slots(&self) -> &[Option<FileAnswer>]
        ensures slots { result.now ≡ self.now.slots }
        ensures answers { AreSlotsOf self.now.files self.now.slots }
    {
        self.slots.as_slice()
    }

    /// Puts the answer to the file of this number, counted from 0, into its slot. It takes no
    /// memory.
    pub fn put(&mut self, file: u32, answer: FileAnswer) -> Put
        requires file { file < length self.old.files }
        requires answer { IsAnswerAt self.old.files file answer }
        ensures held { (result ≡ Put.Held) ↔ (slot_at self.old.slots file ≢ None) }
        ensures files { self.new.files ≡ self.old.files }
        ensures unchanged { result ≡ Put.Held → self.new ≡ self.old }
        ensures stored { result ≡ Put.Stored → self.new ≡ record self.old
            { slots = slice_set self.old.slots file (Some answer) } }
        ensures full { slot_at self.new.slots file ≢ None }
    {
        let slot = &mut self.slots[file as usize];
        if slot.is_some() {
            return Put::Held;
        }
        *slot = Some(answer);
        Put::Stored
    }

    /// Answers the file of each empty slot. Returns `OutOfMemory` if it cannot allocate one of
    /// them; full slots stay as they are.
    pub fn fill_rest<R: Threads + Sync>(&mut self, rt: &R) -> Result<(), OutOfMemory>
        ensures files { self.new.files ≡ self.old.files }
        ensures kept { FillsOnly self.old.slots self.new.slots }
        ensures full { OnOk result (AreFull self.new) }
    {
        for file in 0..self.files.len() {
            self.fill(rt, file)?;
        }
        Ok(())
    }

    /// Answers the file of a slot where it is empty.
    fn fill<R: Threads + Sync>(&mut self, rt: &R, file: usize) -> Result<(), OutOfMemory>
        requires { file < length self.old.files }
        ensures files { self.new.files ≡ self.old.files }
        ensures kept { FillsOnly self.old.slots self.new.slots }
        ensures full { OnOk result (slot_at self.new.slots file ≢ None) }
    {
        if self.slots[file].is_some() {
            return Ok(());
        }
        let answer = answer_bytes(rt, self.alloc, self.files[file].as_slice())?;
        self.put(file as u32, answer);
        Ok(())
    }

    /// The answer to the file of this number, counted from 0, where its slot is full.
    pub fn get(&self, file: u32) -> Option<&FileAnswer>
        requires { file < length self.now.files }
        ensures slot { option_copied result ≡ slot_at self.now.slots file }
        ensures right { IfSome result (λ answer. IsAnswerAt self.now.files file answer.now) }
    {
        self.slots[file as usize].as_ref()
    }
}
