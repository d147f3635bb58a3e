//! A source and a sink in memory. They tell their bytes, and fail at the calls that are listed.

ghost use Rattle.std.specs.Prelude.{◌≡◌, ◌≤◌, ◌<◌, ◌↔◌, ◌++◌, ℕ, List, [], Some, length, take, drop, Contains, IfOk, IsErr, OnErr};
ghost use Rattle.species_io.specs.Told.{Rose, before, then_bytes, AtEnd, next_number};
ghost use Rattle.species_io.specs.Memory.{given_count, taken_count, FailsAt};

use crate::sink::Sink;
use crate::source::{Failed, Source};
use species_ast::OutOfMemory;
use std::alloc::Global;
use std::marker::Model;

/// A source over bytes in memory, whose listed calls fail.
#[derive(Debug, Drop)]
pub struct MemSource {
    bytes: Vec<u8>,
    at: usize,
    per_call: usize,
    fails: Vec<u64>,
    call: u64,
    faults: u64,
}

impl Model for MemSource {
    ghost use Rattle.std.specs.Prelude.{◌≤◌, ◌<◌, length, drop};
    ghost use Rattle.species_io.specs.Memory.{Supply};

    ghost Value = { Supply };

    ghost view = { λ s. record { bytes = drop s.at s.bytes.items; per_call = s.per_call; fails = s.fails.items; call = s.call; faults = s.faults } };

    ghost invariant = { λ s. (s.at ≤ length s.bytes.items) × (0 < s.per_call) };
}

impl MemSource {
    /// A source of these bytes that gives at most `piece` of them per call. The calls whose
    /// numbers, from 0, stand in `fails` fail.
    pub fn new(bytes: Vec<u8>, piece: usize, fails: Vec<u64>) -> MemSource
        requires { 0 < piece }
        ensures { result ≡ record { bytes = bytes.items; per_call = piece; fails = fails.items; call = 0; faults = 0 } }
    {
        MemSource {
            bytes,
            at: 0,
            per_call: piece,
            fails,
            call: 0,
            faults: 0,
        }
    }
}

impl Source for MemSource {
    ghost use Rattle.std.specs.Prelude.{Some};

    ghost faults = { λ s. s.faults };

    ghost left = { λ s. Some s.bytes };

    /// Numbers of calls end at 2^64 - 1, which all calls behind that one share.
    fn read(&mut self, buf: &mut [u8]) -> Result<usize, Failed>
        ensures within { IfOk result (λ n. n ≤ length buf.old) }
        ensures took { IfOk result (λ n. Some self.old.bytes ≡ before (take n buf.new) (Some self.new.bytes)) }
        ensures ended { IfOk result (λ n. n ≡ 0 → 0 < length buf.old → AtEnd (Some self.old.bytes)) }
        ensures never_falls { self.old.faults ≤ self.new.faults }
        ensures failed { OnErr result (Rose self.old.faults self.new.faults) }
        ensures kept { OnErr result (Some self.new.bytes ≡ Some self.old.bytes) }

        // Which call fails, how many bytes the others give, and what each leaves.
        ensures exact { IsErr result ↔ Contains self.old.fails self.old.call }
        ensures count { IfOk result (λ n. n ≡ given_count self.old (length buf.old)) }
        ensures ok { IfOk result (λ n. self.new ≡ record self.old { bytes = drop n self.old.bytes; call = next_number self.old.call }) }
        ensures err { OnErr result (self.new ≡ record self.old { call = next_number self.old.call; faults = next_number self.old.faults }) }
    {
        let fails = self.fails.contains(&self.call);
        self.call = self.call.saturating_add(1);
        if fails {
            self.faults = self.faults.saturating_add(1);
            return Err(Failed);
        }
        let rest = &self.bytes[self.at..];
        let n = buf.len().min(self.per_call).min(rest.len());
        buf[..n].copy_from_slice(&rest[..n]);
        self.at += n;
        Ok(n)
    }
}

/// A sink in memory of a fixed room, whose listed calls fail.
#[derive(Debug, Drop)]
pub struct MemSink {
    bytes: Vec<u8>,
    room: usize,
    per_call: usize,
    fails: Vec<u64>,
    call: u64,
    faults: u64,
}

impl Model for MemSink {
    ghost use Rattle.std.specs.Prelude.{◌≤◌, ◌<◌, vec_capacity, length};
    ghost use Rattle.species_io.specs.Memory.{Store};

    ghost Value = { Store };

    ghost view = { λ s. record { bytes = s.bytes.items; room = s.room; per_call = s.per_call; fails = s.fails.items; call = s.call; faults = s.faults } };

    ghost invariant = { λ s. (length s.bytes.items ≤ s.room) × (s.room ≤ vec_capacity s.bytes) × (0 < s.per_call) };
}

impl MemSink {
    /// A sink that takes at most `piece` bytes per call and at most `room` bytes in all. The calls
    /// whose numbers, from 0, stand in `fails` fail, and so does a call that brings bytes once
    /// `room` bytes were taken. The memory for `room` bytes is taken here.
    pub fn new(
        alloc: Global,
        room: usize,
        piece: usize,
        fails: Vec<u64>,
    ) -> Result<MemSink, OutOfMemory>
        requires { 0 < piece }
        ensures { IfOk result (λ s. s ≡ record { bytes = []; room = room; per_call = piece; fails = fails.items; call = 0; faults = 0 }) }
    {
        Ok(MemSink {
            bytes: Vec::with_capacity(alloc, room)?,
            room,
            per_call: piece,
            fails,
            call: 0,
            faults: 0,
        })
    }

    /// The bytes that were taken, in their order.
    pub fn bytes(&self) -> &[u8]
        ensures value { result.now ≡ self.now.bytes }
        ensures within { length result.now ≤ self.now.room }
    {
        self.bytes.as_slice()
    }
}

impl Sink for MemSink {
    ghost use Rattle.std.specs.Prelude.{Some};

    ghost faults = { λ s. s.faults };

    ghost taken = { λ s. Some s.bytes };

    /// Takes no memory. Numbers of calls end at 2^64 - 1, which all calls behind that one share.
    fn write(&mut self, piece: &[u8]) -> Result<usize, Failed>
        ensures within { IfOk result (λ n. n ≤ length piece.now) }
        ensures some { IfOk result (λ n. 0 < length piece.now → 0 < n) }
        ensures took { IfOk result (λ n. Some self.new.bytes ≡ then_bytes (Some self.old.bytes) (take n piece.now)) }
        ensures never_falls { self.old.faults ≤ self.new.faults }
        ensures failed { OnErr result (Rose self.old.faults self.new.faults) }
        ensures kept { OnErr result (Some self.new.bytes ≡ Some self.old.bytes) }

        // Which call fails, how many bytes the others take, and what each leaves.
        ensures exact { IsErr result ↔ FailsAt self.old (length piece.now) }
        ensures count { IfOk result (λ n. n ≡ taken_count self.old (length piece.now)) }
        ensures ok { IfOk result (λ n. self.new ≡ record self.old { bytes = self.old.bytes ++ take n piece.now; call = next_number self.old.call }) }
        ensures err { OnErr result (self.new ≡ record self.old { call = next_number self.old.call; faults = next_number self.old.faults }) }
        ensures room { length self.new.bytes ≤ self.old.room }
    {
        let left = self.room - self.bytes.len();
        let fails = self.fails.contains(&self.call) || (!piece.is_empty() && left == 0);
        self.call = self.call.saturating_add(1);
        if fails {
            self.faults = self.faults.saturating_add(1);
            return Err(Failed);
        }
        let n = piece.len().min(self.per_call).min(left);
        self.bytes.extend_from_slice(&piece[..n]).unwrap();
        Ok(n)
    }
}
