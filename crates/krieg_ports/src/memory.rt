// A source and a sink in memory, for tests and for callers that have their bytes already. Nothing
// here takes memory.
ghost use Rattle.std.specs.Prelude.{◌≡◌, ℕ, ◌+◌, ◌-◌, ◌<◌, ◌≤◌, ◌↔◌, [], ◌++◌, length, take, drop};
ghost use Rattle.std.specs.Prelude.{min, Some, IfOk, OnOk, OnErr, IsErr, vec_len};
ghost use Rattle.std.specs.Io.{ReadsAtMost};
ghost use Rattle.std.specs.Io.KnownBytes.{ReadConsumes, WriteAppends};
ghost use Rattle.krieg_ports.specs.Bytes.{TakesSome};
ghost use Rattle.krieg_ports.specs.Faults.{Rose};
ghost use Rattle.krieg_ports.specs.Memory.{FailsNext, given_count, after_read, after_failed_read};
ghost use Rattle.krieg_ports.specs.Memory.{RefusesNext, taken_count, after_write, after_failed_write};

use crate::ports::{Failed, Sink, Source, count_fault};
use std::marker::Model;

/// A source of given bytes, some calls of which fail.
#[derive(Drop)]
pub struct MemSource {
    bytes: Vec<u8>,
    at: usize,
    piece: usize,
    fails: Vec<u64>,
    calls: u64,
    faults: u64,
}

impl Model for MemSource {
    ghost use Rattle.krieg_ports.specs.Memory.{SourceInMemory};
    ghost use Rattle.std.specs.Prelude.{◌<◌, ◌≤◌, drop, vec_len};

    ghost Value = { SourceInMemory };

    ghost view = { λ s. record {
      left = drop s.at s.bytes.items;
      piece = s.piece;
      fails = s.fails.items;
      calls = s.calls;
      faults = s.faults;
    } };

    ghost invariant = { λ s. (s.at ≤ vec_len s.bytes) × (0 < s.piece) };
}

impl MemSource {
    /// A source that gives `bytes`, at most `piece` of them a call. Exactly the calls whose numbers,
    /// from 1 on, stand in `fails` fail. After 2^64 - 1 calls every call has that last number.
    pub fn new(bytes: Vec<u8>, piece: usize, fails: Vec<u64>) -> MemSource
        requires { 0 < piece }
        ensures { result ≡ record {
          left = bytes.items;
          piece = piece;
          fails = fails.items;
          calls = 0;
          faults = 0;
        } }
    {
        MemSource {
            bytes,
            at: 0,
            piece,
            fails,
            calls: 0,
            faults: 0,
        }
    }
}

impl Source for MemSource {
    ghost left = { λ s. Some s.left };

    ghost faults = { λ s. s.faults };

    /// Gives as many bytes as one call may, the buffer has places for and there are left.
    fn read(&mut self, buf: &mut [u8]) -> Result<usize, Failed>
        ensures bound { ReadsAtMost result buf.new }
        ensures bytes { ReadConsumes (Some self.old.left) (Some self.new.left) result buf.new }
        ensures kept { OnOk result (self.new.faults ≡ self.old.faults) }
        ensures failed { OnErr result (Rose self.old.faults self.new.faults) }
        ensures later { self.old.faults ≤ self.new.faults }

        // Which calls fail, and how many bytes the others give.
        ensures fails { IsErr result ↔ FailsNext self.old }
        ensures count { IfOk result (λ n. n ≡ given_count self.old (length buf.old)) }

        // What becomes of the buffer and of the source.
        ensures given { IfOk result (λ n. buf.new ≡ take n self.old.left ++ drop n buf.old) }
        ensures ok { IfOk result (λ n. self.new ≡ after_read self.old n) }
        ensures untouched { OnErr result (buf.new ≡ buf.old) }
        ensures err { OnErr result (self.new ≡ after_failed_read self.old) }
    {
        self.calls = self.calls.saturating_add(1);
        if self.fails.contains(&self.calls) {
            return Err(count_fault(&mut self.faults));
        }
        let n = copy_front(&self.bytes[self.at..], self.piece, buf);
        self.at += n;
        Ok(n)
    }
}

/// Copies the front of `from` to the front of `to`: as many bytes as both have, but at most `most`.
fn copy_front(from: &[u8], most: usize, to: &mut [u8]) -> usize
    requires { 0 < most }
    ensures count { result ≡ min most (min (length to.old) (length from.now)) }
    ensures copied { to.new ≡ take result from.now ++ drop result to.old }
    ensures split { from.now ≡ take result to.new ++ drop result from.now }
    ensures end { result ≡ 0 → 0 < length to.new → from.now ≡ [] }
{
    let n = most.min(to.len()).min(from.len());
    to[..n].copy_from_slice(&from[..n]);
    n
}

/// A sink that writes into given places, some calls of which fail.
#[derive(Drop)]
pub struct MemSink {
    space: Vec<u8>,
    at: usize,
    piece: usize,
    fails: Vec<u64>,
    calls: u64,
    faults: u64,
}

impl Model for MemSink {
    ghost use Rattle.krieg_ports.specs.Memory.{SinkInMemory};
    ghost use Rattle.std.specs.Prelude.{◌<◌, ◌≤◌, ◌-◌, take, vec_len};

    ghost Value = { SinkInMemory };

    ghost view = { λ s. record {
      got = take s.at s.space.items;
      room = vec_len s.space - s.at;
      piece = s.piece;
      fails = s.fails.items;
      calls = s.calls;
      faults = s.faults;
    } };

    ghost invariant = { λ s. (s.at ≤ vec_len s.space) × (0 < s.piece) };
}

impl MemSink {
    /// A sink with as many places as `space` has, which takes at most `piece` bytes a call. Exactly
    /// these calls fail: those whose numbers, from 1 on, stand in `fails`, and those with a piece
    /// that is not empty once no place is free. After 2^64 - 1 calls every call has that last number.
    pub fn new(space: Vec<u8>, piece: usize, fails: Vec<u64>) -> MemSink
        requires { 0 < piece }
        ensures { result ≡ record {
          got = [];
          room = vec_len space;
          piece = piece;
          fails = fails.items;
          calls = 0;
          faults = 0;
        } }
    {
        MemSink {
            space,
            at: 0,
            piece,
            fails,
            calls: 0,
            faults: 0,
        }
    }

    /// What the sink got, in order.
    pub fn bytes(&self) -> &[u8]
        ensures { result.now ≡ self.now.got }
    {
        &self.space[..self.at]
    }
}

impl Sink for MemSink {
    ghost got = { λ s. Some s.got };

    ghost faults = { λ s. s.faults };

    /// Takes as many bytes as one call may, the piece has and there are free places for.
    fn write(&mut self, piece: &[u8]) -> Result<usize, Failed>
        ensures takes { TakesSome result piece.now }
        ensures bytes { WriteAppends (Some self.old.got) (Some self.new.got) result piece.now }
        ensures kept { OnOk result (self.new.faults ≡ self.old.faults) }
        ensures failed { OnErr result (Rose self.old.faults self.new.faults) }
        ensures later { self.old.faults ≤ self.new.faults }

        // Which calls fail, and how many bytes the others take.
        ensures fails { IsErr result ↔ RefusesNext self.old piece.now }
        ensures count { IfOk result (λ n. n ≡ taken_count self.old piece.now) }

        // What becomes of the sink.
        ensures ok { IfOk result (λ n. self.new ≡ after_write self.old piece.now n) }
        ensures err { OnErr result (self.new ≡ after_failed_write self.old) }
    {
        self.calls = self.calls.saturating_add(1);
        let is_full = !piece.is_empty() && self.at == self.space.len();
        if is_full || self.fails.contains(&self.calls) {
            return Err(count_fault(&mut self.faults));
        }
        let n = copy_to(&mut self.space, self.at, piece, self.piece);
        self.at += n;
        Ok(n)
    }
}

/// Copies the front of `piece` to the places from `at` on: as many bytes as both have, but at most
/// `most`.
fn copy_to(space: &mut [u8], at: usize, piece: &[u8], most: usize) -> usize
    requires { at ≤ length space.old }
    ensures count { result ≡ min most (min (length piece.now) (length space.old - at)) }
    ensures front { take (at + result) space.new ≡ take at space.old ++ take result piece.now }
    ensures room { length space.new ≡ length space.old }
{
    let n = most.min(piece.len()).min(space.len() - at);
    space[at..at + n].copy_from_slice(&piece[..n]);
    n
}
