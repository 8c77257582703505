ghost use Rattle.std.specs.Prelude.{◌≡◌, ◌+◌, ◌<◌, ◌≤◌, [], ◌∷◌, true, IfOk, IfErr, OnOk, is_some, not, length, map};
ghost use Rattle.std.specs.List.{All, filter};
ghost use Rattle.std.specs.Map.{lookup};
ghost use Rattle.krieg_moves.specs.Legal as rule;
ghost use Rattle.krieg_words.specs.ToldMoves as spoken;
ghost use Rattle.krieg_pack.specs.Members.{IsAscending};
ghost use Rattle.krieg_pack.specs.Order.{position_eq};
ghost use Rattle.krieg_belief.specs.Links as spec;
ghost use Rattle.krieg_belief.specs.Links.{AreKept, Adds, IsOver, tales_of, tale_of, kept, with_entry};
ghost use Rattle.krieg_belief.specs.Tales as tales_spec;
ghost use Rattle.krieg_belief.specs.Tales.{after_reply, begun, tales_after};

use crate::beliefs::BeliefStop;
use crate::steps::stays;
use indexmap::IndexMap;
use krieg_board::{Move, NoMemory, Position, Side};
use krieg_moves::legal_moves;
use krieg_pack::{Belief, Packed, pack, unpack};
use krieg_words::{Dialect, Words, after_told, after_told_if_legal};
use krieg_wordtext::Line;
use std::alloc::Global;

/// The last of the opponent's moves in a game, and the game before it: the number of a start, or behind them that of
/// another link.
#[derive(Drop)]
pub(crate) struct Link {
    pub(crate) before: usize,
    pub(crate) reply: Move,
}

/// What all games of a sheet have in common: how the umpire speaks, who hears it, where a game may begin, and in how many
/// positions the games may stand. The starts are numbered from 0.
#[derive(Drop)]
pub(crate) struct Setting {
    pub(crate) dialect: Dialect,
    pub(crate) who: Side,
    pub(crate) starts: Belief,
    pub(crate) limit: usize,
}

/// A game by its number, and where it stands.
#[derive(Drop)]
struct NumberedGame {
    stands: Position,
    number: usize,
}

/// The games after some lines: for each position the least one that leads to it, in the order of these games.
pub(crate) type Tales = IndexMap<Packed, usize>;

/// The games that begin in these positions, which are numbered from 0.
pub(crate) fn begin(alloc: Global, starts: &Belief) -> Result<Tales, NoMemory>
    ensures kept { IfOk result (λ t. AreKept starts.now [] t.entries) }
    ensures tales { IfOk result (λ t. tales_of starts.now [] t.entries ≡ map begun starts.now) }
    ensures ascending { IsAscending starts.now }
{
    let mut tales = IndexMap::new(alloc);
    for (i, k) in starts.members().iter().enumerate() {
        let _ = tales.insert(*k, i)?;
    }
    Ok(tales)
}

/// Adds a game where none stands in its position.
fn add(tales: &mut Tales, p: &Position, number: usize) -> Result<bool, NoMemory>
    ensures entries { OnOk result (tales.new.entries ≡ with_entry tales.old.entries p.now number) }
    ensures added { IfOk result (λ b. b ≡ not
        (is_some (lookup (position_eq p.now) tales.old.entries))) }
{
    let k = pack(p);
    if tales.contains_key(&k) {
        return Ok(false);
    }
    let _ = tales.insert(k, number)?;
    Ok(true)
}

/// Adds the games after those of the legal moves that have the words, in the order of these moves.
fn add_replies(
    setting: &Setting,
    w: &Words,
    moves: &[Move],
    game: NumberedGame,
    links: &mut Vec<Link>,
    tales: &mut Tales,
) -> Result<(), NoMemory>
    requires legal { All (λ m. rule.is_legal game.stands m ≡ true) moves.now }
    requires kept { AreKept setting.now.starts links.old.items tales.old.entries }
    requires number { game.number < length setting.now.starts + length links.old.items }
    ensures { let x = tale_of (kept (map begun setting.now.starts) links.old.items)
        (game.stands, game.number) in
        let told = spoken.are_told setting.now.dialect w.now game.stands in
        OnOk result (Adds setting.now.starts links.old.items links.new.items tales.old.entries
        tales.new.entries (map (after_reply x) (filter told moves.now))) }
{
    for mv in moves {
        if let Some(next) = after_told(setting.dialect, w, &game.stands, *mv) {
            let link = setting.starts.members().len() + links.len();
            if add(tales, &next, link)? {
                links.push(Link {
                    before: game.number,
                    reply: *mv,
                })?;
            }
        }
    }
    Ok(())
}

/// Adds the games after one line more of this game.
#[tactic(auto, using(crate::proofs::Adding::listed))]
fn add_next(
    alloc: Global,
    setting: &Setting,
    line: &Line,
    game: NumberedGame,
    links: &mut Vec<Link>,
    tales: &mut Tales,
) -> Result<(), NoMemory>
    requires kept { AreKept setting.now.starts links.old.items tales.old.entries }
    requires number { game.number < length setting.now.starts + length links.old.items }
    ensures { let x = tale_of (kept (map begun setting.now.starts) links.old.items)
        (game.stands, game.number) in
        OnOk result (Adds setting.now.starts links.old.items links.new.items tales.old.entries
        tales.new.entries (tales_after setting.now.dialect setting.now.who line.now x)) }
{
    match line {
        Line::Done(mv, w) => {
            if game.stands.side() != setting.who {
                return Ok(());
            }
            if let Some(next) = after_told_if_legal(setting.dialect, w, &game.stands, *mv) {
                let _ = add(tales, &next, game.number)?;
            }
            Ok(())
        }
        Line::Heard(w) => {
            if game.stands.side() == setting.who {
                return Ok(());
            }
            let moves = legal_moves(alloc, &game.stands)?;
            add_replies(setting, w, moves.as_slice(), game, links, tales)
        }
        _ => {
            if stays(setting.dialect, setting.who, line, &game.stands) {
                let _ = add(tales, &game.stands, game.number)?;
            }
            Ok(())
        }
    }
}

/// The games after one line more. `TooMany`, with this number of the line, where they stand in more positions than the
/// limit allows: it is told as soon as so many stand, so a map has at most as many and the replies to one position.
pub(crate) fn tell(
    alloc: Global,
    setting: &Setting,
    line: &Line,
    number: usize,
    tales: &Tales,
    links: &mut Vec<Link>,
) -> Result<Tales, BeliefStop>
    requires { AreKept setting.now.starts links.old.items tales.now.entries }
    ensures kept { IfOk result (λ t. AreKept setting.now.starts links.new.items t.entries) }
    ensures tales { IfOk result (λ t. tales_of setting.now.starts links.new.items t.entries
        ≡ tales_spec.tell setting.now.dialect setting.now.who line.now
        (tales_of setting.now.starts links.old.items tales.now.entries)) }
    ensures small { IfOk result (λ t. length t.entries ≤ setting.now.limit) }
    ensures stop { IfErr result (IsOver setting.now.limit number
        (tales_spec.tell setting.now.dialect setting.now.who line.now
        (tales_of setting.now.starts links.old.items tales.now.entries))) }
{
    let mut after = IndexMap::new(alloc);
    for i in 0..tales.len() {
        if let Some((k, at)) = tales.get_index(i) {
            let game = NumberedGame {
                stands: unpack(k),
                number: *at,
            };
            if add_next(alloc, setting, line, game, links, &mut after).is_err() {
                return Err(BeliefStop::NoMemory);
            }
            if after.len() > setting.limit {
                return Err(BeliefStop::TooMany { line: number });
            }
        }
    }
    Ok(after)
}
