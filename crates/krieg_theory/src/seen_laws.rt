//! The laws of mate by a player who sees the position: each function here does nothing, and its contract is a theorem.

ghost use Rattle.krieg_theory.specs.SeenLaws.{WinsIsSeen, CanIsSeen, MoreMovesSee, EscapeFails};

use crate::game::HiddenGame;

/// What a tree wins, a player who sees the position mates within as many moves.
pub fn wins_is_seen<G: HiddenGame>()
    ensures { WinsIsSeen G.game }
{}

/// A player who sees the position mates in each member of a set that can be won, within as many moves.
pub fn can_is_seen<G: HiddenGame>()
    ensures { CanIsSeen G.game }
{}

/// A player who sees the position and mates within some number of own moves mates within one more.
pub fn more_moves_see<G: HiddenGame>()
    ensures { MoreMovesSee G.game }
{}

/// A try after which some reply escapes, even from a player who sees the position, begins no win.
pub fn escape_fails<G: HiddenGame>()
    ensures { EscapeFails G.game }
{}
