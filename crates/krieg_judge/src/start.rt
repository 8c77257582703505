ghost use Rattle.std.specs.Prelude.{◌≡◌, ◌∷◌, [], true, map, OnOk, Some, None};
ghost use Rattle.krieg_moves.specs.After.{after};
ghost use Rattle.krieg_moves.specs.Legal as rule;
ghost use Rattle.krieg_moves.specs.Moves as list;
ghost use Rattle.krieg_words.specs.ToldWords as spec;
ghost use Rattle.krieg_words.specs.WordsOfMoves as said;
ghost use Rattle.krieg_costs.specs.Sums.{total};
ghost use Rattle.krieg_game.specs.Keys.{root_lt};
ghost use Rattle.krieg_game.specs.Outset.{first_move};
ghost use Rattle.krieg_parting.specs.Charges.{Charges};
ghost use Rattle.krieg_judge.specs.Steps.{LinksAdd};
ghost use Rattle.krieg_judge.specs.Started.{root_links, StartAdds, AreStarted, start_cost};

use crate::findings::{Findings, unless};
use krieg_board::{Move, NoMemory, Position, Units};
use krieg_moves::legal_moves;
use krieg_pack::{Belief, pack, unpack};
use krieg_parting::{PartStop, take};
use krieg_strategy::{Strategy, find_root_to};
use krieg_words::{Words, make_move, opening, told};
use std::alloc::Global;

/// The position at the player's turn, under its opening words.
fn start_own(s: &Strategy, p: &Position, found: &mut Findings) -> Result<(), NoMemory>
    ensures { OnOk result (LinksAdd s.now.dialect root_lt (root_links s.now) 0 found.old found.new
        (((spec.told s.now.dialect (said.opening p.now), None), p.now) ∷ [])) }
{
    let opens = told(s.dialect, opening(p));
    let to = find_root_to(s.roots.as_slice(), &opens, &None);
    found.lead(to, pack(p), 0)?;
    Ok(())
}

/// The position after a first move of the opponent, under the opening words and those of the move.
fn start_move(
    s: &Strategy,
    opens: &Words,
    p: &Position,
    mv: Move,
    found: &mut Findings,
) -> Result<(), NoMemory>
    requires { rule.is_legal p.now mv ≡ true }
    ensures { OnOk result (LinksAdd s.now.dialect root_lt (root_links s.now) 0 found.old found.new
        (((opens.now, Some (spec.told s.now.dialect (said.words p.now mv))), after p.now mv)
        ∷ [])) }
{
    let made = make_move(p, mv);
    let heard = Some(told(s.dialect, made.words));
    let to = find_root_to(s.roots.as_slice(), opens, &heard);
    found.lead(to, pack(&made.position), 0)?;
    Ok(())
}

/// All first moves of the opponent.
#[tactic(auto, using(krieg_moves::proofs::MoveLists::moves_legal))]
fn start_moves(
    s: &Strategy,
    p: &Position,
    moves: &[Move],
    found: &mut Findings,
) -> Result<(), NoMemory>
    requires { moves.now ≡ list.moves p.now }
    ensures { OnOk result (LinksAdd s.now.dialect root_lt (root_links s.now) 0 found.old found.new
        (map (first_move s.now.dialect p.now) (list.moves p.now))) }
{
    let opens = told(s.dialect, opening(p));
    for mv in moves {
        start_move(s, &opens, p, *mv, found)?;
    }
    Ok(())
}

/// What comes first of a listed position, for one unit for each first move of the opponent.
fn start_at(
    alloc: Global,
    s: &Strategy,
    p: &Position,
    found: &mut Findings,
    units: &mut Units,
) -> Result<(), PartStop>
    ensures { Charges result (λ _. StartAdds s.now p.now found.old found.new)
        (start_cost s.now p.now) units.old units.new }
{
    if p.side() == s.side {
        start_own(s, p, found)?;
        return Ok(());
    }
    let moves = legal_moves(alloc, p)?;
    take(units, moves.len() as u64)?;
    found.ask(unless(moves.is_empty(), 0));
    start_moves(s, p, moves.as_slice(), found)?;
    Ok(())
}

/// What comes first of all positions of a set.
pub(crate) fn start(
    alloc: Global,
    s: &Strategy,
    set: &Belief,
    units: &mut Units,
) -> Result<Findings, PartStop>
    ensures { Charges result (AreStarted s.now set.now) (total (start_cost s.now) set.now)
        units.old units.new }
{
    let mut found = Findings::new(alloc);
    let members = set.members();
    for member in members {
        start_at(alloc, s, &unpack(member), &mut found, units)?;
    }
    Ok(found)
}
