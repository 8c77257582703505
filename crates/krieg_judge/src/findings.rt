ghost use Rattle.std.specs.Prelude.{◌≡◌, ◌-◌, ◌∷◌, [], List, Some, None, OnOk, if◌then◌else◌};
ghost use Rattle.krieg_theory.specs.Wins.{wins_other};
ghost use Rattle.krieg_game.specs.Chess.{chess};
ghost use Rattle.krieg_words.specs.declared.dialects.Dialect.{Dialect};
ghost use Rattle.krieg_plan.specs.Trees.{NodeTree};
ghost use Rattle.krieg_checker.specs.Needs as spec;
ghost use Rattle.krieg_checker.specs.Needs.{within};
ghost use Rattle.krieg_strategy.specs.Unfolded.{led_to};
ghost use Rattle.krieg_judge.specs.Reach.{pair_at};
ghost use Rattle.krieg_judge.specs.Demands.{Adds, held, latest};
ghost use Rattle.std.specs.Option.{option_copied};

use krieg_board::NoMemory;
use krieg_pack::Packed;
use std::alloc::Global;
use std::collections::BTreeMap;

/// What was found so far.
#[derive(Drop)]
pub(crate) struct Findings {
    /// The pairs of a node and a position that are still to be met, each with the most own moves that come before it.
    pub waiting: BTreeMap<(u32, Packed), u16>,
    /// Within how many own moves all that was met is won, or that no number is enough.
    pub need: Option<u16>,
}

/// What is needed for both.
fn worse(a: Option<u16>, b: Option<u16>) -> Option<u16>
    ensures { result ≡ spec.worse a b }
{
    match (a, b) {
        (Some(a), Some(b)) => Some(if a < b { b } else { a }),
        _ => None,
    }
}

/// So many own moves, or that no number is enough where something fails.
pub(crate) fn unless(fails: bool, moves: u16) -> Option<u16>
    ensures { result ≡ (if fails then None else Some moves) }
{
    if fails { None } else { Some(moves) }
}

/// The greater of the number that stands there, if any does, and another one.
fn most(before: Option<&u16>, done: u16) -> u16
    ensures { result ≡ latest (option_copied before.entry) done }
{
    match before {
        Some(before) if done < *before => *before,
        _ => done,
    }
}

impl Findings {
    /// Nothing waits, and nothing was met.
    pub fn new(alloc: Global) -> Findings
        ensures waiting { result.waiting.entries ≡ [] }
        ensures need { result.need ≡ Some 0 }
    {
        Findings {
            waiting: BTreeMap::new(alloc),
            need: Some(0),
        }
    }

    /// So many own moves are needed too.
    pub fn ask(&mut self, need: Option<u16>)
        ensures { (d : Dialect) (trees : List NodeTree)
            → Adds d trees self.old self.new (λ k. within need k) [] }
    {
        self.need = worse(self.need, need);
    }

    /// The position is to be won at the node, after so many own moves.
    fn put(&mut self, node: u32, position: Packed, done: u16) -> Result<(), NoMemory>
        ensures { OnOk result ((d : Dialect) (trees : List NodeTree)
            → Adds d trees self.old self.new (λ k. held d trees k ((node, position), done))
            ((node, position) ∷ [])) }
    {
        let key = (node, position);
        let latest = most(self.waiting.get(&key), done);
        self.waiting.insert(key, latest)?;
        Ok(())
    }

    /// The same at the node with the number, where there is one: no number is enough where there is none.
    pub fn lead(&mut self, to: Option<u32>, position: Packed, done: u16) -> Result<(), NoMemory>
        ensures { OnOk result ((d : Dialect) (trees : List NodeTree)
            → Adds d trees self.old self.new
            (λ k. wins_other (chess d) (led_to trees to) position (k - done))
            (pair_at (chess d) to position)) }
    {
        match to {
            Some(node) => self.put(node, position, done)?,
            None => self.ask(None),
        }
        Ok(())
    }
}
