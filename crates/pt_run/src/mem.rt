ghost use Rattle.std.specs.Prelude.{◌≡◌, ◌≤◌, ◌<◌, [], Some, IfOk, OnOk, OnErr, IsErr, IsTrue, is_err, min, length};
ghost use Rattle.std.specs.Prelude.{take};
ghost use Rattle.pt_host.specs.Promises.{HasRisen};
ghost use Rattle.pt_run.specs.Streams.{MemLeft, IsPulled, IsPushed, counted, is_failing};

use crate::streams::{Failed, Sink, Source};
use std::alloc::Global;
use std::marker::Model;

// Calls that were made, and which are to fail, counted from 1.
#[derive(Drop)]
struct PlannedCalls {
    calls: u64,
    failing: Vec<u64>,
}

impl Model for PlannedCalls {
    ghost use Rattle.pt_run.specs.Streams.{Planned};

    ghost Value = { Planned };

    ghost view = { λ planned. record { calls = planned.calls; failing = planned.failing.items } };
}

impl PlannedCalls {
    fn new(failing: Vec<u64>) -> Self
        ensures { result ≡ record { calls = 0; failing = failing.items } }
    {
        PlannedCalls { calls: 0, failing }
    }

    /// Counts a call, and answers whether it is to fail.
    fn next_fails(&mut self) -> bool
        ensures fails { result ≡ is_failing self.old }
        ensures counts { self.new ≡ counted self.old }
    {
        self.calls = self.calls.saturating_add(1);
        self.failing.contains(&self.calls)
    }
}

/// Bytes in memory as a source. Its calls, counted from 1, fail where they are listed.
#[derive(Drop)]
pub struct MemSource {
    bytes: Vec<u8>,
    place: usize,
    planned: PlannedCalls,
    faults: u64,
}

impl Model for MemSource {
    ghost use Rattle.std.specs.Prelude.{◌≤◌, drop, vec_len};
    ghost use Rattle.pt_run.specs.Streams.{MemLeft};

    ghost Value = { MemLeft };

    ghost view = { λ source. record {
      left = drop source.place source.bytes.items;
      planned = source.planned;
      faults = source.faults;
    } };

    ghost invariant = { λ source. source.place ≤ vec_len source.bytes };
}

impl MemSource {
    pub fn new(bytes: Vec<u8>, failing: Vec<u64>) -> Self
        ensures { result ≡ record {
          left = bytes.items;
          planned = record { calls = 0; failing = failing.items };
          faults = 0;
        } }
    {
        MemSource {
            bytes,
            place: 0,
            planned: PlannedCalls::new(failing),
            faults: 0,
        }
    }
}

impl Source for MemSource {
    ghost left = { λ source. Some source.left };

    ghost faults = { λ source. source.faults };

    fn pull(&mut self, buf: &mut [u8]) -> Result<usize, Failed>
        ensures fails { is_err result ≡ is_failing self.old.planned }
        ensures counts { self.new.planned ≡ counted self.old.planned }
        ensures within { IfOk result (λ count. count ≤ length buf.old) }
        ensures pulled { IfOk result (λ count. IsPulled (Some self.old.left) buf.new count (Some self.new.left)) }
        ensures kept { OnErr result (self.new.left ≡ self.old.left) }
        ensures fault { OnErr result (HasRisen self.old.faults self.new.faults) }
        ensures no_fault { OnOk result (self.new.faults ≡ self.old.faults) }
        ensures never_falls { self.old.faults ≤ self.new.faults }
    {
        if self.planned.next_fails() {
            self.faults = self.faults.saturating_add(1);
            return Err(Failed);
        }
        let count = copy_front(&self.bytes[self.place..], buf);
        self.place += count;
        Ok(count)
    }
}

fn copy_front(from: &[u8], to: &mut [u8]) -> usize
    ensures count { result ≡ min (length from.now) (length to.new) }
    ensures copied { take result to.new ≡ take result from.now }
{
    let count = from.len().min(to.len());
    to[..count].copy_from_slice(&from[..count]);
    count
}

/// Bytes in memory as a sink. Its calls, counted from 1, fail where they are listed, or where no memory is left.
#[derive(Drop)]
pub struct MemSink {
    bytes: Vec<u8>,
    planned: PlannedCalls,
    faults: u64,
}

impl Model for MemSink {
    ghost use Rattle.pt_run.specs.Streams.{MemWritten};

    ghost Value = { MemWritten };

    ghost view = { λ sink. record { written = sink.bytes.items; planned = sink.planned; faults = sink.faults } };
}

impl MemSink {
    pub fn new(alloc: Global, failing: Vec<u64>) -> Self
        ensures { result ≡ record {
          written = [];
          planned = record { calls = 0; failing = failing.items };
          faults = 0;
        } }
    {
        MemSink {
            bytes: Vec::new(alloc),
            planned: PlannedCalls::new(failing),
            faults: 0,
        }
    }

    /// What was written.
    pub fn as_slice(&self) -> &[u8]
        ensures { result.now ≡ self.now.written }
    {
        self.bytes.as_slice()
    }
}

impl Sink for MemSink {
    ghost written = { λ sink. Some sink.written };

    ghost faults = { λ sink. sink.faults };

    fn push(&mut self, piece: &[u8]) -> Result<usize, Failed>
        ensures fails { IsTrue (is_failing self.old.planned) → IsErr result }
        ensures counts { self.new.planned ≡ counted self.old.planned }
        ensures within { IfOk result (λ count. count ≤ length piece.now) }
        ensures some { 0 < length piece.now → IfOk result (λ count. 0 < count) }
        ensures pushed { IfOk result (λ count.
            IsPushed (Some self.old.written) piece.now count (Some self.new.written)) }
        ensures kept { OnErr result (self.new.written ≡ self.old.written) }
        ensures fault { OnErr result (HasRisen self.old.faults self.new.faults) }
        ensures no_fault { OnOk result (self.new.faults ≡ self.old.faults) }
        ensures never_falls { self.old.faults ≤ self.new.faults }
    {
        if self.planned.next_fails() || self.bytes.extend_from_slice(piece).is_err() {
            self.faults = self.faults.saturating_add(1);
            return Err(Failed);
        }
        Ok(piece.len())
    }
}
