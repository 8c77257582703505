ghost use Rattle.std.specs.Prelude.{◌≡◌, ◌∷◌, ◌++◌, [], List, map, IfOk, OnOk};
ghost use Rattle.krieg_moves.specs.Moves as list;
ghost use Rattle.krieg_words.specs.ToldWords.{silent};
ghost use Rattle.krieg_words.specs.declared.dialects.Dialect.{Dialect as Saying};
ghost use Rattle.krieg_words.specs.Words.{Said};
ghost use Rattle.krieg_game.specs.Chess as spec;
ghost use Rattle.krieg_game.specs.Outcomes.{KeyedPosition};
ghost use Rattle.krieg_game.specs.Classes.{class_pair, classes_in};
ghost use Rattle.krieg_game.specs.ClassLaws.{opened};
ghost use Rattle.krieg_game.specs.Buckets.{Holds};
ghost use Rattle.krieg_game.specs.Steps.{AreReached, AreFor, told_before};

use crate::classes::Class;
use crate::heard::Heard;
use crate::kept_outcomes::KeptOutcomes;
use crate::steps::{Before, Steps};
use krieg_board::{Move, NoMemory, Position};
use krieg_pack::pack;
use krieg_words::{Dialect, SILENT, Words, make_move, opening, told};
use std::alloc::Global;
use std::marker::Model;

/// What comes of a try. Repeats are dropped whenever they have become many, and steps of a king who is alone are made once.
///
/// In contracts it is the list of the outcomes that it keeps, by what is heard.
#[derive(Drop)]
pub struct Pool {
    alloc: Global,
    kept: KeptOutcomes,
    /// Of the member that came last.
    steps: Steps,
}

impl Model for Pool {
    ghost use Rattle.std.specs.Prelude.{List};
    ghost use Rattle.krieg_game.specs.Outcomes.{KeyedPosition};
    ghost use Rattle.krieg_game.specs.Steps.{AreReached};

    ghost Value = { List KeyedPosition };

    ghost view = { λ p. p.kept };

    ghost invariant = { λ p. AreReached p.steps p.kept };
}

/// Adds what comes of each of the replies, which are the legal moves of `p`: what the dialect tells of it, behind what it tells of the
/// move that led there, and the position after it.
#[tactic(auto, using(krieg_moves::proofs::MoveLists::moves_legal))]
fn add_replies(
    alloc: Global,
    before: &Before,
    p: &Position,
    replies: &[Move],
    steps: &mut Steps,
    kept: &mut KeptOutcomes,
) -> Result<(), NoMemory>
    requires replies { replies.now ≡ list.moves p.now }
    requires told { (d : Saying) × (own : Said) × (before.now ≡ told_before d own) }
    requires steps { AreFor steps.old before.now p.now }
    requires reached { AreReached steps.old kept.old }
    ensures added { OnOk result ((d : Saying) (own : Said) → before.now ≡ told_before d own →
        Holds kept.new (kept.old ++ map (spec.outcome d own p.now) (list.moves p.now))) }
    ensures reached { OnOk result (AreReached steps.new kept.new) }
{
    for r in replies {
        if steps.has(r) {
            continue;
        }
        let made = make_move(p, *r);
        let reply = told(before.dialect, made.words);
        kept.put(alloc, Heard::new(&before.own, &reply), pack(&made.position))?;
        steps.note(p, r);
    }
    Ok(())
}

impl Pool {
    /// No outcomes.
    pub fn new(alloc: Global) -> Pool
        ensures { result ≡ [] }
    {
        Pool::with_room(alloc, 0)
    }

    /// No outcomes. The first bucket that is begun gets room for so many positions at once, which is best where mostly the
    /// same is heard: a bucket that outgrows its room leaves a gap in the memory.
    pub fn with_room(alloc: Global, first_room: usize) -> Pool
        ensures { result ≡ [] }
    {
        Pool {
            alloc,
            kept: KeptOutcomes::with_room(alloc, first_room),
            steps: Steps::none(),
        }
    }

    /// Adds what comes of a move of those words that led to `p`, for each of the replies, which are the legal moves of
    /// `p`: what the dialect tells of both, and the position after the reply.
    pub fn add(
        &mut self,
        d: Dialect,
        own: &Words,
        p: &Position,
        replies: &[Move],
    ) -> Result<(), NoMemory>
        requires { replies.now ≡ list.moves p.now }
        ensures { OnOk result (Holds self.new
            (self.old ++ map (spec.outcome d own.now p.now) (list.moves p.now))) }
    {
        let before = Before {
            dialect: d,
            own: told(d, *own),
        };
        let mut steps = self.steps.at(&before, p);
        self.steps = Steps::none();
        add_replies(self.alloc, &before, p, replies, &mut steps, &mut self.kept)?;
        self.kept.trim();
        self.steps = steps;
        Ok(())
    }

    /// Adds a position at the player's turn: what the dialect tells of it at the start of a game, and silence in place
    /// of a reply's words.
    pub fn add_opening(&mut self, d: Dialect, p: &Position) -> Result<(), NoMemory>
        ensures { OnOk result (Holds self.new (self.old ++ opened d silent p.now ∷ [])) }
    {
        let opens = told(d, opening(p));
        self.steps = Steps::none();
        self.kept
            .put(self.alloc, Heard::new(&opens, &SILENT), pack(p))
    }

    /// The classes of the outcomes, ascending.
    pub fn into_classes(self) -> Result<Vec<Class>, NoMemory>
        ensures { IfOk result (λ v. (os : List KeyedPosition) → Holds self os →
            map class_pair v.items ≡ classes_in os) }
    {
        let Pool {
            alloc,
            kept,
            steps: _,
        } = self;
        kept.into_classes(alloc)
    }
}
