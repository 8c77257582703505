//! The games that the laws speak of.

ghost use Rattle.krieg_theory.specs.Game.{Game, IsGame};
ghost use Rattle.krieg_theory.specs.Plans.{Outset, IsOutset};

/// A game in which the player does not see the position.
///
/// The laws of this crate hold of each. A crate that has one gives its operations, what may be heard before the
/// player's first turn, and the proofs that both meet their laws.
pub trait HiddenGame {
    ghost game: { Game };

    ghost outset: { Outset game };

    ghost lawful: { IsGame game };

    ghost outset_lawful: { IsOutset game outset };
}
