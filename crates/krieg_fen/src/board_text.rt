ghost use Rattle.std.specs.Prelude.{◌≡◌, ◌<◌, ◌≤◌, ◌+◌, ◌++◌, ◌∷◌, [], ℕ, length, false};
ghost use Rattle.krieg_board.specs.Board.{man_at};
ghost use Rattle.krieg_board.specs.Boards.{empty_board};
ghost use Rattle.krieg_board.specs.Sets.{has};
ghost use Rattle.krieg_fen.specs.FenText as spec;
ghost use Rattle.krieg_fen.specs.FenText.{AreRanks};

use crate::rank_text::{RankText, rank_text};
use krieg_board::Bits;
use std::marker::Model;

/// The ranks of the board that was written last, each with its text.
#[derive(Drop)]
pub struct Ranks {
    board: Bits,
    texts: [RankText; 8],
}

impl Model for Ranks {
    ghost use Rattle.krieg_board.specs.Board.{Board};

    ghost Value = { Board };

    ghost use Rattle.krieg_fen.specs.FenText.{AreRanks};

    ghost view = { λ r. r.board };

    ghost invariant = { λ r. AreRanks r.texts r.board };
}

impl Ranks {
    /// The ranks of a board without men.
    #[tactic(auto, unfolding(krieg_board::specs::Boards::empty_board))]
    pub fn new() -> Ranks
        ensures { result ≡ empty_board }
    {
        Ranks::of(&Bits::empty())
    }

    /// The ranks of this board.
    pub(crate) fn of(board: &Bits) -> Ranks
        requires { length board.now ≡ 64 }
        ensures { result ≡ board.now }
    {
        Ranks {
            board: *board,
            texts: texts_of(board),
        }
    }

    /// Makes them the ranks of this board. Only those that differ are spelled.
    pub(crate) fn renew(&mut self, board: &Bits)
        requires { length board.now ≡ 64 }
        ensures { self.new ≡ board.now }
    {
        renew_texts(&mut self.texts, &self.board, board);
        self.board = *board;
    }

    /// The text of the board: the eight ranks, from the highest to the lowest.
    #[tactic(auto, using(crate::proofs::RankWriting::ranks_end), unfolding(crate::specs::FenText::board_text))]
    pub(crate) fn text(&self) -> BoardText
        ensures { result ≡ spec.board_text self.now }
    {
        let mut text = BoardText::new();
        for rank in 0..7u8 {
            text.add_upper(&self.texts[7 - rank as usize]);
        }
        text.add(&self.texts[0]);
        text
    }
}

/// The text of each rank of the board.
fn texts_of(board: &Bits) -> [RankText; 8]
    requires { length board.now ≡ 64 }
    ensures { AreRanks result board.now }
{
    [
        rank_text(board, 0),
        rank_text(board, 1),
        rank_text(board, 2),
        rank_text(board, 3),
        rank_text(board, 4),
        rank_text(board, 5),
        rank_text(board, 6),
        rank_text(board, 7),
    ]
}

/// The squares on which something else stands. No set of kings is asked: a king is a man of no other kind.
fn changed(old: &Bits, new: &Bits) -> u64
    ensures { (k : ℕ) → k < 64 → has result k ≡ false → man_at old.now k ≡ man_at new.now k }
{
    let (old, new) = (old.sets(), new.sets());
    (old.white ^ new.white)
        | (old.black ^ new.black)
        | (old.pawns ^ new.pawns)
        | (old.knights ^ new.knights)
        | (old.bishops ^ new.bishops)
        | (old.rooks ^ new.rooks)
        | (old.queens ^ new.queens)
}

/// Makes the texts of the old board's ranks those of the new board's.
fn renew_texts(texts: &mut [RankText; 8], old: &Bits, new: &Bits)
    requires old { length old.now ≡ 64 }
    requires new { length new.now ≡ 64 }
    requires ranks { AreRanks texts.old old.now }
    ensures { AreRanks texts.new new.now }
{
    let changed = changed(old, new);
    for rank in 0..8u8 {
        if changed >> (8 * rank) & 0xFF != 0 {
            texts[rank as usize] = rank_text(new, rank);
        }
    }
}

/// The text of a board, or of its upper ranks: at most 8 bytes for each rank, and a slash between two.
#[derive(Drop)]
pub(crate) struct BoardText {
    bytes: [u8; 72],
    len: usize,
}

impl Model for BoardText {
    ghost use Rattle.std.specs.Prelude.{◌≤◌, ℕ, List, take};

    ghost Value = { List ℕ };

    ghost view = { λ t. take t.len t.bytes };

    ghost invariant = { λ t. t.len ≤ 72 };
}

impl BoardText {
    #[inline]
    fn new() -> BoardText
        ensures { result ≡ [] }
    {
        BoardText {
            bytes: [0; 72],
            len: 0,
        }
    }

    /// The text.
    #[inline]
    pub(crate) fn bytes(&self) -> &[u8]
        ensures { result.now ≡ self.now }
    {
        &self.bytes[..self.len]
    }

    /// Adds the text of a rank.
    #[inline]
    fn add(&mut self, rank: &RankText)
        requires { length self.old + 8 ≤ 72 }
        ensures text { self.new ≡ self.old ++ rank.now }
        ensures few { length rank.now ≤ 8 }
    {
        self.bytes[self.len..self.len + 8].copy_from_slice(rank.padded());
        self.len += rank.len();
    }

    /// Adds the text of a rank that is not the lowest.
    #[inline]
    fn add_upper(&mut self, rank: &RankText)
        requires { length self.old + 9 ≤ 72 }
        ensures text { self.new ≡ self.old ++ (rank.now ++ (47 ∷ [])) }
        ensures few { length rank.now ≤ 8 }
    {
        self.add(rank);
        self.bytes[self.len] = b'/';
        self.len += 1;
    }
}
