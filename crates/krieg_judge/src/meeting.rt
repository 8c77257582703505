ghost use Rattle.std.specs.Prelude.{◌≡◌, ◌<◌, ◌+◌, ◌⊎◌, ◌∷◌, [], true, map, OnOk};
ghost use Rattle.krieg_moves.specs.After.{after};
ghost use Rattle.krieg_moves.specs.Guarding.{IsGuard};
ghost use Rattle.krieg_moves.specs.Legal as rule;
ghost use Rattle.krieg_moves.specs.Moves as list;
ghost use Rattle.krieg_words.specs.WordsOfMoves.{words};
ghost use Rattle.krieg_game.specs.Chess.{chess};
ghost use Rattle.krieg_game.specs.Keys.{key_lt};
ghost use Rattle.krieg_parting.specs.Charges.{Charges};
ghost use Rattle.krieg_strategy.specs.Edges.{edge_of};
ghost use Rattle.krieg_strategy.specs.Seen.{node_of};
ghost use Rattle.krieg_strategy.specs.declared.limits.TheConstants.{MOST_WORST};
ghost use Rattle.krieg_judge.specs.JudgeCost.{node_cost};
ghost use Rattle.krieg_judge.specs.Steps.{LinksAdd, NodeAdds, heard_after};

use crate::findings::{Findings, unless};
use krieg_board::{Move, NoMemory, Position, Units};
use krieg_moves::{is_stalemate_by, legal_moves_by};
use krieg_pack::pack;
use krieg_parting::{PartStop, take};
use krieg_strategy::{StrategyNode, find_edge_to};
use krieg_words::{Dialect, Made, Words, make_if_legal, make_move, told};
use std::alloc::Global;

/// A node that a position reaches after so many own moves.
#[derive(Clone, Copy)]
pub(crate) struct Stand<'a> {
    pub dialect: Dialect,
    pub node: StrategyNode<'a>,
    pub done: u16,
}

/// The words of the try at a node, as they are told, with the own moves up to it.
#[derive(Clone, Copy)]
struct TriedWords {
    own: Words,
    done: u16,
}

/// A reply in the position after the try.
fn meet_reply(
    at: &Stand<'_>,
    tried: &TriedWords,
    q: &Position,
    reply: Move,
    found: &mut Findings,
) -> Result<(), NoMemory>
    requires { rule.is_legal q.now reply ≡ true }
    ensures { OnOk result (LinksAdd at.now.dialect key_lt (map edge_of at.now.node.edges.now)
        tried.now.done found.old found.new
        (heard_after at.now.dialect tried.now.own q.now reply ∷ [])) }
{
    let made = make_move(q, reply);
    let heard = told(at.dialect, made.words);
    let to = find_edge_to(at.node.edges, &tried.own, &heard);
    found.lead(to, pack(&made.position), tried.done)?;
    Ok(())
}

/// All replies in the position after the try.
#[tactic(auto, using(krieg_moves::proofs::MoveLists::moves_legal))]
fn meet_replies(
    at: &Stand<'_>,
    tried: &TriedWords,
    q: &Position,
    replies: &[Move],
    found: &mut Findings,
) -> Result<(), NoMemory>
    requires { replies.now ≡ list.moves q.now }
    ensures { OnOk result (LinksAdd at.now.dialect key_lt (map edge_of at.now.node.edges.now)
        tried.now.done found.old found.new
        (map (heard_after at.now.dialect tried.now.own q.now) (list.moves q.now))) }
{
    for reply in replies {
        meet_reply(at, tried, q, *reply, found)?;
    }
    Ok(())
}

/// One own move more. Above what a strategy may claim the number does not matter.
fn one_more(done: u16) -> u16
    ensures { (result ≡ done + 1) ⊎ ((MOST_WORST < result) × (MOST_WORST < done + 1)) }
{
    done.saturating_add(1)
}

/// The legal try of the node in the position, where it was made.
#[tactic(auto, unfolding(krieg_game::specs::Chess::stalemates, krieg_game::specs::Chess::outcomes))]
fn meet_legal(
    alloc: Global,
    at: &Stand<'_>,
    p: &Position,
    made: &Made,
    found: &mut Findings,
    units: &mut Units,
) -> Result<(), PartStop>
    requires legal { rule.is_legal p.now at.now.node.mv ≡ true }
    requires words { made.now.words ≡ words p.now at.now.node.mv }
    requires position { made.now.position ≡ after p.now at.now.node.mv }
    requires guard { IsGuard made.now.position made.now.guard }
    ensures { Charges result (λ _. NodeAdds at.now.dialect (node_of at.now.node) at.now.done p.now
        found.old found.new) (node_cost (chess at.now.dialect) (node_of at.now.node) p.now)
        units.old units.new }
{
    let replies = legal_moves_by(alloc, &made.position, &made.guard)?;
    take(units, 1 + replies.len() as u64)?;
    let done = one_more(at.done);
    found.ask(unless(is_stalemate_by(&made.position, replies.len()), done));
    let tried = TriedWords {
        own: told(at.dialect, made.words),
        done,
    };
    meet_replies(at, &tried, &made.position, replies.as_slice(), found)?;
    Ok(())
}

/// The try of the node in the position, for one unit and one for each reply.
pub(crate) fn meet(
    alloc: Global,
    at: &Stand<'_>,
    p: &Position,
    found: &mut Findings,
    units: &mut Units,
) -> Result<(), PartStop>
    ensures { Charges result (λ _. NodeAdds at.now.dialect (node_of at.now.node) at.now.done p.now
        found.old found.new) (node_cost (chess at.now.dialect) (node_of at.now.node) p.now)
        units.old units.new }
{
    if let Some(made) = make_if_legal(p, at.node.mv) {
        return meet_legal(alloc, at, p, &made, found, units);
    }
    take(units, 1)?;
    found.lead(at.node.no, pack(p), at.done)?;
    Ok(())
}
