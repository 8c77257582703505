// A player who follows a script, for tests and for callers that know beforehand what is to be said.
ghost use Rattle.std.specs.Prelude.{◌≡◌, ◌≢◌, ◌↔◌, IsTrue, Contains, Err, IfOk, OnOk, if◌then◌else◌};
ghost use Rattle.krieg_ports.specs.Faults.{one_more};
ghost use Rattle.krieg_seats.specs.Accounts.{new_account, Asked, Told};
ghost use Rattle.krieg_seats.specs.Scripts.{FailsNext, next_say};
ghost use Rattle.krieg_seats.specs.Scripts.{when_asked, after_asked, after_told, after_failed, after_short};

use crate::seat::{Say, Seat, SeatFault};
use krieg_board::Move;
use krieg_wordtext::Line;
use std::alloc::Global;
use std::marker::Model;

/// A seat that says the moves of a script in order and then leaves, at each further call. In contracts it is a
/// `Script`.
#[derive(Drop)]
pub struct ScriptSeat {
    script: Vec<Move>,
    /// How many moves of the script it has said.
    at: usize,
    heard: Vec<Line>,
    fails: Vec<u64>,
    calls: u64,
    asks: u64,
    faults: u64,
    leaves: u64,
}

impl Model for ScriptSeat {
    ghost use Rattle.std.specs.Prelude.{◌≤◌, take, drop, vec_len};
    ghost use Rattle.krieg_seats.specs.Scripts.{Script};

    ghost Value = { Script };

    ghost view = { λ s. record {
      account = record {
        said = take s.at s.script.items;
        heard = s.heard.items;
        asks = s.asks;
        faults = s.faults;
        leaves = s.leaves;
      };
      left = drop s.at s.script.items;
      fails = s.fails.items;
      calls = s.calls;
    } };

    ghost invariant = { λ s. s.at ≤ vec_len s.script };
}

impl ScriptSeat {
    /// A seat with this script. Its calls of `ask` and `tell` are numbered together from 1 on, and exactly those
    /// whose numbers stand in `fails` fail. After 2^64 - 1 calls every call has that last number. It takes no
    /// memory.
    pub fn new(alloc: Global, script: Vec<Move>, fails: Vec<u64>) -> ScriptSeat
        ensures { result ≡ record {
          account = new_account;
          left = script.items;
          fails = fails.items;
          calls = 0;
        } }
    {
        ScriptSeat {
            script,
            at: 0,
            heard: Vec::new(alloc),
            fails,
            calls: 0,
            asks: 0,
            faults: 0,
            leaves: 0,
        }
    }
}

/// Numbers a call, and says whether it is one of those that fail. It counts a fault then.
fn fails_now(calls: &mut u64, faults: &mut u64, fails: &[u64]) -> bool
    ensures fails { IsTrue result ↔ Contains fails.now (one_more calls.old) }
    ensures numbered { calls.new ≡ one_more calls.old }
    ensures counted { faults.new ≡ (if result then one_more faults.old else faults.old) }
{
    *calls = calls.saturating_add(1);
    let fails = fails.contains(calls);
    if fails {
        *faults = faults.saturating_add(1);
    }
    fails
}

impl Seat for ScriptSeat {
    ghost account = { λ s. s.account };

    /// Says the next move of the script, or leaves where none is left. It takes no memory.
    fn ask(&mut self) -> Result<Say, SeatFault>
        ensures asked { Asked result self.old.account self.new.account }

        // Which calls fail, and what the others say.
        ensures fails { (result ≡ Err SeatFault.Failed) ↔ FailsNext self.old }
        ensures memory { result ≢ Err SeatFault.NoMemory }
        ensures says { IfOk result (λ say. say ≡ next_say self.old.left) }

        // What becomes of the seat.
        ensures ok { OnOk result (self.new ≡ after_asked self.old) }
        ensures failed { result ≡ Err SeatFault.Failed →
            self.new ≡ after_failed (when_asked self.old) }
    {
        self.asks = self.asks.saturating_add(1);
        if fails_now(&mut self.calls, &mut self.faults, &self.fails) {
            return Err(SeatFault::Failed);
        }
        if self.at == self.script.len() {
            self.leaves = self.leaves.saturating_add(1);
            return Ok(Say::Leave);
        }
        let mv = self.script[self.at];
        self.at += 1;
        Ok(Say::Try(mv))
    }

    /// Keeps the line.
    fn tell(&mut self, line: Line) -> Result<(), SeatFault>
        ensures told { Told line result self.old.account self.new.account }

        // Which calls fail.
        ensures fails { (result ≡ Err SeatFault.Failed) ↔ FailsNext self.old }

        // What becomes of the seat.
        ensures ok { OnOk result (self.new ≡ after_told self.old line) }
        ensures failed { result ≡ Err SeatFault.Failed → self.new ≡ after_failed self.old }
        ensures short { result ≡ Err SeatFault.NoMemory → self.new ≡ after_short self.old }
    {
        if fails_now(&mut self.calls, &mut self.faults, &self.fails) {
            return Err(SeatFault::Failed);
        }
        match self.heard.push(line) {
            Ok(()) => Ok(()),
            Err(_) => Err(SeatFault::NoMemory),
        }
    }

    fn said(&self) -> &[Move]
        ensures { result.now ≡ self.now.account.said }
    {
        &self.script[..self.at]
    }

    fn heard(&self) -> &[Line]
        ensures { result.now ≡ self.now.account.heard }
    {
        &self.heard
    }
}
