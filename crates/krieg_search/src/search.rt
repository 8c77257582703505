ghost use Rattle.std.specs.Prelude.{◌≡◌, ◌<◌, true, false, Ok, IfOk, OnOk, length};
ghost use Rattle.krieg_theory.specs.Can.{can};
ghost use Rattle.krieg_theory.specs.Split.{legal_in_some};
ghost use Rattle.krieg_costs.specs.Cost.{made};
ghost use Rattle.krieg_accounts.specs.Answers.{LostBelow};
ghost use Rattle.krieg_accounts.specs.Stretch.{CoversSet, CoversPair, CoversTry, CoversSets};
ghost use Rattle.krieg_game.specs.Chess.{chess};
ghost use Rattle.krieg_table.specs.SetRows.{set_at};
ghost use Rattle.krieg_table.specs.Entries.{entries};
ghost use Rattle.krieg_table.specs.Table.{IsNext};
ghost use Rattle.krieg_search.specs.Tries.{move_of};
ghost use Rattle.krieg_search.specs.Stretches.{IsAtWork, Searches, TellsSet, TellsTry, sets_of};
ghost use Rattle.krieg_search.specs.Blocks.{FindsBlock, IsAskedIn, IsAtHand, IsTryOf, TellsFirst};

use crate::blockers::{Blocker, Blockers};
use crate::lost_sets::LostSets;
use crate::notes::{Block, Notes, add};
use crate::number::number_of;
use crate::remainder::{Remainder, is_cut, left_of, squares_for};
use crate::stop::SearchStop;
use crate::try_list::{Try, move_of_try, tries_for};
use crate::way::Way;
use krieg_board::{Move, NoMemory, Units};
use krieg_game::Class;
use krieg_sight::{Sight, some_is_no_mate};
use krieg_split::PackedKey;
use krieg_table::{OpenSet, SetResult, Table};

/// A search goes so many levels deep at most, which take less than 6 MB of the stack.
pub(crate) const MOST_LEVELS: u16 = 5_000;

/// A search at work: what it has found out so far, and the units that are left to it.
///
/// Whoever goes on by it behind `ask_openings` may look at what it has found and ask of more tries.
pub struct Search {
    pub(crate) sight: Sight,
    /// What blocks each try of sets that cannot be won, as far as the way asks for it.
    pub notes: Notes,
    pub(crate) lost_sets: LostSets,
    /// The sets by their numbers, with what is found of each.
    pub table: Table,
    /// The units that are left.
    pub units: Units,
    pub(crate) blockers: Blockers,
}

/// Written out, so that each owner of a search lets it go by one call, and this its parts that have many.
impl Drop for Search {
    fn drop(self) {
        let Search {
            sight,
            notes,
            lost_sets: _,
            table,
            units: _,
            blockers: _,
        } = self;
        drop(sight);
        drop(notes);
        drop(table);
    }
}

/// A set while its tries are tried: it is open, and these are its tries in their order.
struct AtHand {
    pub opened: OpenSet,
    /// What `squares_for` says of the set. Nothing is claimed of it.
    pub squares: Option<u64>,
    pub tries: Vec<Try>,
}

/// Written out, so that each owner lets it go by one call.
impl Drop for AtHand {
    fn drop(self) {
        let AtHand {
            opened: _,
            squares: _,
            tries: _,
        } = self;
    }
}

/// What is asked of a set: whether it can be won within a number of moves. It is at hand meanwhile.
#[derive(Drop)]
struct Asked {
    pub set: u32,
    pub moves: u8,
    pub at_hand: AtHand,
}

impl Search {
    /// The set at hand, for its tries to be tried with so many moves.
    #[inline(always)]
    fn take_up(&self, way: Way, set: u32, moves: u8) -> Result<AtHand, NoMemory>
        requires { set < length self.now.table }
        ensures { IfOk result (IsAtHand (set_at self.now.table set) moves) }
    {
        let opened = self.table.open(way.alloc, set)?;
        let b = opened.of(&self.table, set);
        let tries = tries_for(way.alloc, b, moves, self.units.left())?;
        let squares = squares_for(way, b);
        Ok(AtHand {
            opened,
            squares,
            tries,
        })
    }

    /// Whether the set is found to be lost with so many moves: some member is no mate within them even for a player who sees the
    /// position, or a part of the set is known to be lost.
    fn is_found_lost(&mut self, way: Way, set: u32, moves: u8) -> bool
        requires some { 0 < moves }
        requires within { set < length self.old.table }
        requires ready { IsAtWork way self.old }
        ensures lost { result ≡ true → can (chess way.d) moves (set_at self.old.table set) ≡ false }
        ensures table { self.new.table ≡ self.old.table }
        ensures notes { self.new.notes ≡ self.old.notes }
        ensures blockers { self.new.blockers ≡ self.old.blockers }
        ensures units { self.new.units ≡ self.old.units }
    {
        let Ok(opened) = self.table.open(way.alloc, set) else {
            return false;
        };
        let b = opened.of(&self.table, set);
        if some_is_no_mate(&mut self.sight, b, moves) {
            return true;
        }
        self.lost_sets.has_part(way.alloc, &self.table, b, moves)
    }

    /// Notes that the set cannot be won within `moves`, where it is found to be lost. It takes no units, and is looked for only
    /// where tries may be cut.
    #[inline(never)]
    fn loses_at_once(&mut self, way: Way, set: u32, moves: u8) -> bool
        requires within { set < length self.old.table }
        requires ready { IsAtWork way self.old }
        requires next { IsNext self.old.table set moves }
        ensures lost { result ≡ true → Searches way (Ok false)
            (TellsSet way.d self.new.table (set_at self.old.table set) moves)
            (CoversPair (chess way.d) (set_at self.old.table set) moves) 0 self.old self.new }
        ensures ready { IsAtWork way self.new }
        ensures table { result ≡ false → self.new.table ≡ self.old.table }
        ensures units { self.new.units ≡ self.old.units }
        ensures most { self.new.notes.most ≡ self.old.notes.most }
    {
        if !way.cut {
            return false;
        }
        if self.is_found_lost(way, set, moves) {
            self.table.note(set, moves, SetResult::Loses);
            return true;
        }
        false
    }

    /// Whether the set can be won within `moves`: one number of moves after the other, from the first with which it is not known to be lost
    /// up to the first that is enough. It goes at most `deep` levels deeper; where more are wanted, that is want of memory.
    #[cycle(search)]
    pub(crate) fn can_win(
        &mut self,
        way: Way,
        set: u32,
        moves: u8,
        deep: u16,
    ) -> Result<bool, SearchStop>
        requires within { set < length self.old.table }
        requires ready { IsAtWork way self.old }
        ensures searched { Searches way result
            (TellsSet way.d self.new.table (set_at self.old.table set) moves)
            (CoversSet (chess way.d) (set_at self.old.table set) moves) 0 self.old self.new }
        ensures ready { OnOk result (IsAtWork way self.new) }
        ensures most { self.new.notes.most ≡ self.old.notes.most }
    {
        let Some(deeper) = deep.checked_sub(1) else {
            return Err(SearchStop::NoMemory);
        };
        for fewer in self.table.lost(set).min(moves)..moves {
            if self.can_win_in(way, set, fewer + 1, deeper)? {
                return Ok(true);
            }
        }
        Ok(false)
    }

    /// The same for a set that cannot be won within any smaller number: by the result that is stored, at once, or by its tries.
    #[cycle(search)]
    fn can_win_in(&mut self, way: Way, set: u32, moves: u8, deep: u16) -> Result<bool, SearchStop>
        requires some { 0 < moves }
        requires within { set < length self.old.table }
        requires ready { IsAtWork way self.old }
        requires below { LostBelow (chess way.d) (entries self.old.table)
            (set_at self.old.table set) moves }
        ensures searched { Searches way result
            (TellsSet way.d self.new.table (set_at self.old.table set) moves)
            (CoversPair (chess way.d) (set_at self.old.table set) moves) 0 self.old self.new }
        ensures ready { OnOk result (IsAtWork way self.new) }
        ensures most { self.new.notes.most ≡ self.old.notes.most }
    {
        match self.table.result(set, moves) {
            Some(SetResult::Wins(_)) => return Ok(true),
            Some(SetResult::Loses) => return Ok(false),
            None => {}
        }
        if self.loses_at_once(way, set, moves) {
            return Ok(false);
        }
        self.win_by_a_try(way, set, moves, deep)
    }

    /// The same where nothing is stored: by one try after the other, up to the first that begins to win. Where none does, what blocks each
    /// is noted, as far as there is room.
    #[cycle(search)]
    fn win_by_a_try(&mut self, way: Way, set: u32, moves: u8, deep: u16) -> Result<bool, SearchStop>
        requires within { set < length self.old.table }
        requires ready { IsAtWork way self.old }
        requires next { IsNext self.old.table set moves }
        ensures searched { Searches way result
            (TellsSet way.d self.new.table (set_at self.old.table set) moves)
            (CoversPair (chess way.d) (set_at self.old.table set) moves) 0 self.old self.new }
        ensures ready { OnOk result (IsAtWork way self.new) }
        ensures most { self.new.notes.most ≡ self.old.notes.most }
    {
        let at_hand = self.take_up(way, set, moves)?;
        let mut row = self.notes.row(way.alloc, moves, at_hand.tries.len())?;
        let asked = Asked {
            set,
            moves,
            at_hand,
        };
        for tried in &asked.at_hand.tries {
            match self.block_of(way, &asked, tried, deep)? {
                Some(block) => add(&mut row, move_of_try(tried), block)?,
                None => {
                    let mv = move_of_try(tried);
                    self.table.note(set, moves, SetResult::Wins(mv));
                    return Ok(true);
                }
            }
        }
        self.lost_sets
            .add(way, set, asked.at_hand.opened.of(&self.table, set));
        self.table.note(set, moves, SetResult::Loses);
        self.notes.keep(set, moves, row)?;
        Ok(false)
    }

    /// Whether the try, which is legal in some member of the set with that number, begins to win all of it within so many moves. It takes
    /// what the split of the try and the search of its parts take, or less where tries may be cut.
    pub fn begins(&mut self, way: Way, set: u32, moves: u8, mv: Move) -> Result<bool, SearchStop>
        requires some { 0 < moves }
        requires within { set < length self.old.table }
        requires ready { IsAtWork way self.old }
        requires legal { legal_in_some (chess way.d) (set_at self.old.table set) mv ≡ true }
        ensures searched { Searches way result
            (TellsTry way.d way.cut self.new.table (set_at self.old.table set) moves mv)
            (CoversTry (chess way.d) (set_at self.old.table set) moves mv)
            (made (chess way.d) (set_at self.old.table set) mv) self.old self.new }
        ensures ready { OnOk result (IsAtWork way self.new) }
    {
        let opened = self.table.open(way.alloc, set)?;
        let squares = squares_for(way, opened.of(&self.table, set));
        let at_hand = AtHand {
            opened,
            squares,
            tries: Vec::new(way.alloc),
        };
        let asked = Asked {
            set,
            moves,
            at_hand,
        };
        let block = self.block_of(way, &asked, &Try::Plain(mv), MOST_LEVELS)?;
        Ok(block.is_none())
    }

    /// What blocks the try in the set that is asked, or nothing where it begins to win all of it. Where it was split with fewer moves, the
    /// part that blocked it then is asked first: while that cannot be won it takes what a split takes, and no more is told than that it fails.
    #[cycle(search)]
    fn block_of(
        &mut self,
        way: Way,
        asked: &Asked,
        tried: &Try,
        deep: u16,
    ) -> Result<Option<Block>, SearchStop>
        requires asked { IsAskedIn self.old.table asked.now }
        requires ready { IsAtWork way self.old }
        requires tried { IsTryOf way.d self.old.table asked.now tried.now }
        ensures searched { FindsBlock way asked.now (move_of tried.now) result self.old self.new }
        ensures ready { OnOk result (IsAtWork way self.new) }
        ensures most { self.new.notes.most ≡ self.old.notes.most }
    {
        let Some(blocker) = self.blockers.of(asked.set, &move_of_try(tried)) else {
            return self.block_anew(way, asked, tried, false, deep);
        };
        let moves = blocker.moves_for(asked.moves);
        if self.can_win(way, blocker.part, moves, deep)? {
            return self.block_anew(way, asked, tried, true, deep);
        }
        match self.units.take(blocker.made as u64) {
            Ok(()) => Ok(Some(Block::AtOnce)),
            Err(_too_few) => Err(SearchStop::Spent),
        }
    }

    /// What blocks the try in the set that is asked, or nothing where it begins to win all of it: it does not fail at once,
    /// each class can be won with one move less, and then the members that refuse it with the same number. Whether it is cut is
    /// not asked where it is known not to be.
    ///
    /// The classes are let go before these are searched.
    #[cycle(search)]
    #[inline(always)]
    fn block_anew(
        &mut self,
        way: Way,
        asked: &Asked,
        tried: &Try,
        uncut: bool,
        deep: u16,
    ) -> Result<Option<Block>, SearchStop>
        requires asked { IsAskedIn self.old.table asked.now }
        requires ready { IsAtWork way self.old }
        requires tried { IsTryOf way.d self.old.table asked.now tried.now }
        ensures searched { FindsBlock way asked.now (move_of tried.now) result self.old self.new }
        ensures ready { OnOk result (IsAtWork way self.new) }
        ensures most { self.new.notes.most ≡ self.old.notes.most }
    {
        let b = asked.at_hand.opened.of(&self.table, asked.set);
        let squares = asked.at_hand.squares;
        if !uncut && is_cut(way, &mut self.sight, b, squares, tried, asked.moves) {
            return Ok(Some(Block::AtOnce));
        }
        let before = self.units.left();
        let left = left_of(way, b, tried, asked.moves, &mut self.units)?;
        let Some(Remainder { classes, refused }) = left else {
            return Ok(Some(Block::AtOnce));
        };
        let made = before - self.units.left();
        let lost = self.first_lost(way, classes, asked.moves - 1, deep)?;
        if let Some(class) = lost {
            let kept = Blocker::new(asked.set, move_of_try(tried), false, class.1, made);
            self.blockers.keep(way, kept);
            return Ok(Some(Block::Class(class.0, class.1)));
        }
        if refused.is_empty() {
            return Ok(None);
        }
        let rest = number_of(&mut self.table, refused)?;
        if self.can_win(way, rest, asked.moves, deep)? {
            return Ok(None);
        }
        let kept = Blocker::new(asked.set, move_of_try(tried), true, rest, made);
        self.blockers.keep(way, kept);
        Ok(Some(Block::Refused(rest)))
    }

    /// The first of the classes that cannot be won within `moves`. Each that is looked at is let go into the table.
    #[cycle(search)]
    #[inline(never)]
    fn first_lost(
        &mut self,
        way: Way,
        classes: Vec<Class>,
        moves: u8,
        deep: u16,
    ) -> Result<Option<(PackedKey, u32)>, SearchStop>
        requires ready { IsAtWork way self.old }
        ensures searched { Searches way result
            (TellsFirst way.d self.new.table classes.items moves)
            (CoversSets (chess way.d) (sets_of classes.items) moves) 0 self.old self.new }
        ensures ready { OnOk result (IsAtWork way self.new) }
        ensures most { self.new.notes.most ≡ self.old.notes.most }
    {
        for class in classes {
            let set = number_of(&mut self.table, class.belief)?;
            if !self.can_win(way, set, moves, deep)? {
                return Ok(Some((PackedKey::new(&class.own, &class.reply), set)));
            }
        }
        Ok(None)
    }
}
