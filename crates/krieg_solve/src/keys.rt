ghost use Rattle.std.specs.Prelude.{◌≡◌, ℕ, ◌⊎◌, [], IfOk, map};
ghost use Rattle.krieg_words.specs.declared.dialects.Dialect.{Dialect as Umpire};
ghost use Rattle.krieg_theory.specs.Sets.{In};
ghost use Rattle.krieg_costs.specs.Sums.{IsOnce};
ghost use Rattle.krieg_parting.specs.Turns.{IsOwnTurn, IsOthersTurn};
ghost use Rattle.krieg_table.specs.SetRows.{SetRows};
ghost use Rattle.krieg_search.specs.Openings.{opening_in};
ghost use Rattle.krieg_search.specs.Stretches.{IsAtWork};
ghost use Rattle.krieg_solve.specs.KeyTries.{IsKeyAnswer, IsWithinFresh, IsTaken};
ghost use Rattle.krieg_solve.specs.SetKeys.{AreSetKeys, AreKeysAt, numbers_of};

use crate::set_keys::{SetKeys, keys_of_sets};
use krieg_board::{Move, NoMemory, Side, Units};
use krieg_pack::Belief;
use krieg_search::decide::{Outlook, ask_openings, new_search};
use krieg_search::{Opening, Search, SearchStop, Way};
use krieg_words::Words;
use std::alloc::Global;

/// A key: a try with which as few moves are enough as with any.
#[derive(Clone, Copy)]
pub struct KeyTry {
    pub mv: Move,
    /// Whether it is refused in some position that is possible.
    pub may_be_refused: bool,
}

/// What may be heard before the first own turn, and the keys then.
#[derive(Drop)]
pub struct KeysAt {
    /// The opening words.
    pub opens: Words,
    /// The words of the opponent's first move, where he is to move first.
    pub heard: Option<Words>,
    /// The least number of own moves within which the side mates from there.
    pub least: u8,
    /// Each try with which that many are enough, ascending.
    pub tries: Vec<KeyTry>,
}

/// The keys of a list of positions.
#[derive(Drop)]
pub struct Keys {
    /// The greatest of the least numbers: the worst case of the best plan.
    pub worst: u8,
    /// For each thing that may be heard before the first own turn, ascending as the roots of a plan are.
    pub roots: Vec<KeysAt>,
}

/// What a search for keys finds.
#[derive(Drop)]
pub enum KeyAnswer {
    /// Some plan mates every listed position, and these are the keys.
    Found(Keys),
    /// No plan mates every listed position within the number of moves that was asked.
    None,
}

/// The numbers of the sets of openings, each once: two openings may have the same set.
fn sets_once(alloc: Global, openings: &[Opening]) -> Result<Vec<u32>, NoMemory>
    ensures once { IfOk result (λ v. IsOnce v.items) }
    ensures all { IfOk result (λ v. (s : ℕ) → In s (numbers_of openings.now) → In s v.items) }
    ensures only { IfOk result (λ v. (s : ℕ) → In s v.items → In s (numbers_of openings.now)) }
{
    let mut sets = Vec::new(alloc);
    for o in openings {
        if !sets.contains(&o.set) {
            sets.push(o.set)?;
        }
    }
    Ok(sets)
}

/// The keys of the set with that number, among those of some sets.
fn keys_for(found: &[SetKeys], set: u32) -> &SetKeys
    requires { In set (map (λ k. k.set) found.now) }
    ensures there { In result.now found.now }
    ensures set { result.now.set ≡ set }
{
    for keys in found {
        if keys.set == set {
            return keys;
        }
    }
    unreachable!()
}

fn copy_of(tries: &Vec<KeyTry>) -> Result<Vec<KeyTry>, NoMemory>
    ensures { IfOk result (λ v. v.items ≡ tries.now.items) }
{
    Ok(tries.clone()?)
}

/// The keys of each opening, by those of its set.
fn keys_at_openings(
    alloc: Global,
    openings: &[Opening],
    found: &[SetKeys],
) -> Result<Keys, NoMemory>
    requires { (s : ℕ) → In s (numbers_of openings.now) → In s (map (λ k. k.set) found.now) }
    ensures { IfOk result (λ keys. (d : Umpire) (n : ℕ) (T : SetRows)
        → AreSetKeys d n T (map (λ k. k.set) found.now) found.now
        → AreKeysAt d n (map (opening_in T) openings.now) keys) }
{
    let mut worst = 0;
    let mut roots = Vec::new(alloc);
    for o in openings {
        let keys = keys_for(found, o.set);
        worst = worst.max(keys.least);
        let tries = copy_of(&keys.tries)?;
        roots.push(KeysAt {
            opens: o.opens,
            heard: o.heard,
            least: keys.least,
            tries,
        })?;
    }
    Ok(Keys { worst, roots })
}

/// The keys by a search that has found out nothing yet.
fn keys_by(
    search: &mut Search,
    way: Way,
    who: Side,
    b: &Belief,
    moves: u8,
) -> Result<KeyAnswer, SearchStop>
    requires turn { IsOwnTurn who b.now ⊎ IsOthersTurn who b.now }
    requires empty { search.old.table ≡ [] }
    requires ready { IsAtWork way search.old }
    ensures answer { IsKeyAnswer way.d who b.now moves result }
    ensures taken { IsTaken way.d who b.now moves result search.old.units search.new.units }
{
    let asked = ask_openings(search, way, who, b, moves)?;
    let Some(Outlook { openings, all_win }) = asked else {
        return Ok(KeyAnswer::None);
    };
    if !all_win {
        return Ok(KeyAnswer::None);
    }
    search.table.know_once();
    let sets = sets_once(way.alloc, &openings)?;
    let found = keys_of_sets(search, way, &sets, moves)?;
    search.table.know_once();
    Ok(KeyAnswer::Found(keys_at_openings(way.alloc, &openings, &found)?))
}

/// All keys: for each thing that may be heard before the first own turn, the least number of own moves within which the side `who` mates,
/// and each try with which it does so, as the umpire tells games in the dialect of the way. `None` comes exactly where `find` gives none.
///
/// The first try of the best plan is the first key. Of each opening set the tries before it begin no win, as the search for the plan has
/// found; each behind it is tried with the least number of moves.
///
/// Where the way says so, tries may be cut, as by `find`: the keys are the same. An answer takes at most what is fresh, and `Spent` comes only where fewer units are left than
/// are fresh. It takes none, and neither does `NoMemory`. `Large` never comes.
///
/// No other moves, positions and sides may be asked for than by `find`.
pub fn find_keys(
    way: Way,
    who: Side,
    b: &Belief,
    moves: u8,
    units: &mut Units,
) -> Result<KeyAnswer, SearchStop>
    requires turn { IsOwnTurn who b.now ⊎ IsOthersTurn who b.now }
    ensures answer { IsKeyAnswer way.d who b.now moves result }
    ensures units { IsWithinFresh way.d who b.now moves result units.old units.new }
{
    let mut search = new_search(way, units.left());
    let answer = keys_by(&mut search, way, who, b, moves)?;
    *units = Units::new(search.units.left());
    Ok(answer)
}
