ghost use Rattle.std.specs.Prelude.{IfOk, ◌≡◌, [], true, false, ◌<◌};
ghost use Rattle.krieg_theory.specs.Split.{legal_in_some};
ghost use Rattle.krieg_costs.specs.Cost.{made};
ghost use Rattle.krieg_game.specs.Chess.{chess};
ghost use Rattle.krieg_split.specs.Units.{IsPaid};
ghost use Rattle.krieg_split.specs.Tallies.{tally_of};
ghost use Rattle.krieg_search.specs.Tries.{IsTold, move_of};
ghost use Rattle.krieg_search.specs.Remainders.{FailsAtOnce, IsRemainder, IsPaidUnlessCut};

use crate::try_list::Try;
use crate::way::Way;
use krieg_board::{Move, Units};
use krieg_game::Class;
use krieg_pack::Belief;
use krieg_parting::PartStop;
use krieg_sight::{Sight, some_flees, squares_of};
use krieg_split::{Tally, mate_by_tally, split_to_mate, split_unless_stale};
use krieg_words::Dialect;
use std::alloc::Global;

/// What a try leaves to be won: what is possible after each thing that may be heard, with one move less, and the
/// members that refuse it, with the same number.
#[derive(Drop)]
pub struct Remainder {
    pub classes: Vec<Class>,
    pub refused: Belief,
}

/// What a last move leaves that mates wherever it is legal: nothing is heard then.
fn left_of_mate(alloc: Global, refused: Belief) -> Remainder
    ensures classes { result.classes.items ≡ [] }
    ensures refused { result.refused ≡ refused }
{
    Remainder {
        classes: Vec::new(alloc),
        refused,
    }
}

/// The same where one move is left: the try must mate wherever it is legal.
fn left_by_last(
    alloc: Global,
    d: Dialect,
    b: &Belief,
    mv: Move,
    units: &mut Units,
) -> Result<Option<Remainder>, PartStop>
    ensures left { IfOk result (IsRemainder d false b.now mv 1) }
    ensures units { IsPaid result (made (chess d) b.now mv) units.old units.new }
{
    match split_to_mate(alloc, d, b, mv, units)? {
        Some(refused) => Ok(Some(left_of_mate(alloc, refused))),
        None => Ok(None),
    }
}

/// The same by the tally of the try in the set.
fn left_by_tally(
    alloc: Global,
    d: Dialect,
    b: &Belief,
    tally: &Tally,
    units: &mut Units,
) -> Result<Option<Remainder>, PartStop>
    requires { tally.now ≡ tally_of b.now tally.now.mv }
    ensures left { IfOk result (IsRemainder d false b.now tally.now.mv 1) }
    ensures units { IsPaid result (made (chess d) b.now tally.now.mv) units.old units.new }
{
    match mate_by_tally(alloc, d, b, tally, units)? {
        Some(refused) => Ok(Some(left_of_mate(alloc, refused))),
        None => Ok(None),
    }
}

/// What the try leaves to be won where it is to win within `moves`: nothing where it fails at once, since in some
/// member it stalemates or, with one move left, does not mate.
///
/// It cuts no try, whatever the way says, and takes as many units as a split, or none with an error.
#[inline(never)]
pub fn left_by(
    way: Way,
    b: &Belief,
    mv: Move,
    moves: u8,
    units: &mut Units,
) -> Result<Option<Remainder>, PartStop>
    requires { 0 < moves }
    ensures left { IfOk result (IsRemainder way.d false b.now mv moves) }
    ensures units { IsPaid result (made (chess way.d) b.now mv) units.old units.new }
{
    if moves == 1 {
        return left_by_last(way.alloc, way.d, b, mv, units);
    }
    match split_unless_stale(way.alloc, way.d, b, mv, units)? {
        Some(parted) => Ok(Some(Remainder {
            classes: parted.classes,
            refused: parted.refused,
        })),
        None => Ok(None),
    }
}

/// The squares of a king who is alone in each member of a set, where tries may be cut: a shorter way to see that a try is not.
pub(crate) fn squares_for(way: Way, b: &Belief) -> Option<u64> {
    if way.cut { squares_of(b) } else { None }
}

/// Whether the try is found to be cut: tries may be, and in some member a reply leaves a position that is no mate in time even
/// for a player who sees it. A last move is not.
#[inline(never)]
pub(crate) fn is_cut(
    way: Way,
    sight: &mut Sight,
    b: &Belief,
    squares: Option<u64>,
    tried: &Try,
    moves: u8,
) -> bool
    requires { 0 < moves }
    ensures may { result ≡ true → way.cut ≡ true }
    ensures fails { result ≡ true → FailsAtOnce way.d way.cut b.now (move_of tried.now) moves }
{
    if !way.cut {
        return false;
    }
    if moves == 1 {
        return false;
    }
    match tried {
        Try::Plain(mv) => some_flees(sight, b, squares, mv, moves - 1),
        Try::Counted(_) => false,
    }
}

/// What a try leaves that is not cut, of which all may be counted already.
#[inline(never)]
pub(crate) fn left_of(
    way: Way,
    b: &Belief,
    tried: &Try,
    moves: u8,
    units: &mut Units,
) -> Result<Option<Remainder>, PartStop>
    requires some { 0 < moves }
    requires told { IsTold b.now moves tried.now }
    ensures left { IfOk result (IsRemainder way.d way.cut b.now (move_of tried.now) moves) }
    ensures units { IsPaidUnlessCut way.cut result (made (chess way.d) b.now (move_of tried.now))
        units.old units.new }
{
    match tried {
        Try::Plain(mv) => left_by(way, b, *mv, moves, units),
        Try::Counted(tally) => left_by_tally(way.alloc, way.d, b, tally, units),
    }
}
