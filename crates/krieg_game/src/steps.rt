ghost use Rattle.std.specs.Prelude.{◌≡◌, true, List, Some, None, IfSome, slice_set};
ghost use Rattle.krieg_board.specs.Board.{man_at};
ghost use Rattle.krieg_board.specs.Boards.{board_of};
ghost use Rattle.krieg_board.specs.Men.{no_rights};
ghost use Rattle.krieg_board.specs.Pos.{Pos};
ghost use Rattle.krieg_board.specs.declared.men.Promo.TheVariants.{Plain};
ghost use Rattle.krieg_moves.specs.Wings.{king_square};
ghost use Rattle.krieg_words.specs.declared.dialects.Dialect.{Dialect as Saying};
ghost use Rattle.krieg_words.specs.Words.{Said};
ghost use Rattle.krieg_game.specs.Chess.{outcome};
ghost use Rattle.krieg_game.specs.Outcomes.{KeyedPosition};
ghost use Rattle.krieg_game.specs.declared.steps.Before.{Before as Told};
ghost use Rattle.krieg_game.specs.Steps as spec;
ghost use Rattle.krieg_game.specs.Steps.{AreFor, AreReached};
ghost use Rattle.krieg_theory.specs.Sets.{In};

use krieg_board::{
    Kind, Man, Move, NO_RIGHTS, Position, Promo, Sets, Side, Square, has, home_rank, know_valid,
    only, square_at,
};
use krieg_words::{Dialect, SILENT, Words, words_number};

/// What was told of the move before, and in which dialect.
#[derive(Clone, Copy)]
pub(crate) struct Before {
    pub dialect: Dialect,
    pub own: Words,
}

/// The steps of a king who is alone to empty squares, as far as what comes of them is kept already. It is the same wherever he comes from:
/// so a step is made once for all members of a set that differ in his square alone.
#[derive(Clone, Copy, Drop)]
pub(crate) struct Steps {
    pub before: Before,
    /// Whose king he is, who is to move.
    pub side: Side,
    /// Where all others stand.
    pub others: Sets,
    /// Where he stands, where he is alone.
    pub king: Option<Square>,
    /// Where he stepped, in this position or in earlier ones with the same others.
    pub reached: u64,
}

/// Whether no right is held and no mark stands.
fn is_plain(p: &Position) -> bool
    ensures rights { result ≡ true → p.now.rights ≡ no_rights }
    ensures mark { result ≡ true → p.now.mark ≡ None }
{
    p.rights() == NO_RIGHTS && p.mark().is_none()
}

/// The square of the only man of the side to move, where he is alone.
fn lone_man(p: &Position) -> Option<Square> {
    let own = p.bits().men_of(p.side());
    if own & own.wrapping_sub(1) != 0 {
        return None;
    }
    Square::new((own.trailing_zeros() % 64) as u8)
}

/// Whether the king of the side to move stands there, and castling does not begin there.
fn is_king_away(p: &Position, square: Square) -> bool
    ensures stands { result ≡ true →
        man_at p.now.board square ≡ Some (spec.king_of p.now.side) }
    ensures away { result ≡ true → (square ≡ king_square p.now.side) → ⊥ }
{
    let king = Man {
        side: p.side(),
        kind: Kind::King,
    };
    p.man_at(square) == Some(king) && square.number() != square_at(4, home_rank(p.side()))
}

/// The square of the king who is to move, where he is the only man of his side and not where castling begins, no right is held and no
/// mark stands.
fn lone_king(p: &Position) -> Option<Square>
    ensures stands { IfSome result (λ king.
        man_at p.now.board king ≡ Some (spec.king_of p.now.side)) }
    ensures away { IfSome result (λ king. (king ≡ king_square p.now.side) → ⊥) }
    ensures rights { IfSome result (λ king. p.now.rights ≡ no_rights) }
    ensures mark { IfSome result (λ king. p.now.mark ≡ None) }
{
    let king = lone_man(p)?;
    if is_plain(p) && is_king_away(p, king) {
        Some(king)
    } else {
        None
    }
}

/// Where all others stand.
fn others_of(p: &Position, king: Square) -> Sets
    ensures { slice_set p.now.board king None ≡ board_of result }
{
    know_valid(p);
    *p.bits().with(king.number(), None).sets()
}

/// Whether both are the same sets.
fn is_same(a: &Sets, b: &Sets) -> bool
    ensures { result ≡ true → a.now ≡ b.now }
{
    a.white == b.white
        && a.black == b.black
        && a.pawns == b.pawns
        && a.knights == b.knights
        && a.bishops == b.bishops
        && a.rooks == b.rooks
        && a.queens == b.queens
        && a.kings == b.kings
}

/// Whether both are the same words.
#[inline]
fn are_same_words(a: &Words, b: &Words) -> bool
    ensures { result ≡ true → a.now ≡ b.now }
{
    words_number(a) == words_number(b)
}

impl Steps {
    /// No step.
    pub fn none() -> Steps
        ensures king { result.king ≡ None }
        ensures reached { (pool : List KeyedPosition) → AreReached result pool }
    {
        Steps {
            before: Before {
                dialect: Dialect::Wild16,
                own: SILENT,
            },
            side: Side::White,
            others: Sets {
                white: 0,
                black: 0,
                pawns: 0,
                knights: 0,
                bishops: 0,
                rooks: 0,
                queens: 0,
                kings: 0,
            },
            king: None,
            reached: 0,
        }
    }

    /// Whether what was reached is the same behind what is told now, with the others there.
    fn is_behind(&self, before: &Before, side: Side, others: &Sets) -> bool
        ensures dialect { result ≡ true → self.now.before.dialect ≡ before.now.dialect }
        ensures own { result ≡ true → self.now.before.own ≡ before.now.own }
        ensures side { result ≡ true → self.now.side ≡ side }
        ensures others { result ≡ true → self.now.others ≡ others.now }
    {
        self.side == side
            && self.before.dialect == before.dialect
            && are_same_words(&self.before.own, &before.own)
            && is_same(&self.others, others)
    }

    /// The steps in the position, behind what was told of the move before: with those that were reached in the earlier one, where they are
    /// the same.
    pub fn at(&self, before: &Before, p: &Position) -> Steps
        ensures are { AreFor result before.now p.now }
        ensures reached { (pool : List KeyedPosition) → AreReached self.now pool →
            AreReached result pool }
    {
        let Some(king) = lone_king(p) else {
            return Steps::none();
        };
        let others = others_of(p, king);
        let reached = if self.is_behind(before, p.side(), &others) {
            self.reached
        } else {
            0
        };
        Steps {
            before: *before,
            side: p.side(),
            others,
            king: Some(king),
            reached,
        }
    }

    /// Whether the move is one of the king to another square.
    fn is_step(&self, r: &Move) -> bool
        ensures king { result ≡ true → self.now.king ≡ Some r.now.from }
        ensures plain { result ≡ true → r.now.promo ≡ Plain }
        ensures apart { result ≡ true → (r.now.to ≡ r.now.from) → ⊥ }
    {
        match self.king {
            None => false,
            Some(king) => r.from == king && r.promo == Promo::Plain && r.to != king,
        }
    }

    /// Whether the reply is a step that was made.
    pub fn has(&self, r: &Move) -> bool
        ensures { result ≡ true →
            (d : Saying) (own : Said) (p : Pos) (pool : List KeyedPosition) →
            AreFor self.now (spec.told_before d own) p → AreReached self.now pool →
            In (outcome d own p r.now) pool }
    {
        self.is_step(r) && has(self.reached, r.to.number())
    }

    /// Notes the reply, where it is a step to an empty square.
    pub fn note(&mut self, p: &Position, r: &Move)
        ensures are { (b : Told) → AreFor self.old b p.now → AreFor self.new b p.now }
        ensures reached { (d : Saying) (own : Said) (pool : List KeyedPosition) →
            AreFor self.old (spec.told_before d own) p.now →
            In (outcome d own p.now r.now) pool →
            AreReached self.old pool → AreReached self.new pool }
    {
        if self.is_step(r) && p.man_at(r.to).is_none() {
            self.reached |= only(r.to.number());
        }
    }
}
