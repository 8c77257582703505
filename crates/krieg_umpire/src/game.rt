ghost use Rattle.std.specs.Prelude.{◌≡◌, ◌+◌, ◌<◌, ◌++◌, ◌∷◌, [], max, length, IfOk, OnOk, OnErr};
ghost use Rattle.krieg_moves.specs.Moves.{is_ended};
ghost use Rattle.krieg_umpire.specs.Verdicts.{verdict, next};
ghost use Rattle.krieg_umpire.specs.Games.{judge, judged, last};

use crate::verdict::{Event, Judged, Verdict};
use krieg_board::{NoMemory, Position};
use krieg_moves::has_move;
use krieg_words::make_if_legal;
use krieg_wordtext::has_ended;
use std::alloc::Global;
use std::marker::Model;

/// A game under way: where it stands, and the tries so far with their verdicts.
///
/// In contracts it is a `GameState`.
#[derive(Drop)]
pub struct Game {
    position: Position,
    /// Whether the side to move has no legal move. It is found once for each position, and not for each try.
    over: bool,
    log: Vec<Judged>,
    spare: usize,
}

impl Model for Game {
    ghost use Rattle.std.specs.Prelude.{◌≡◌, ◌+◌, ◌≤◌, vec_len, vec_capacity};
    ghost use Rattle.krieg_moves.specs.Moves.{is_ended};
    ghost use Rattle.krieg_umpire.specs.Games.{GameState};

    ghost Value = { GameState };

    ghost view = { λ g. record { position = g.position; log = g.log.items; spare = g.spare } };

    ghost invariant = { λ g. (g.over ≡ is_ended g.position) × (vec_len g.log + g.spare ≤ vec_capacity g.log) };
}

impl Game {
    /// A game that begins in this position. It takes no memory.
    pub fn start(alloc: Global, p: Position) -> Game
        ensures position { result.position ≡ p }
        ensures log { result.log ≡ [] }
        ensures spare { result.spare ≡ 0 }
    {
        Game {
            position: p,
            over: !has_move(&p),
            log: Vec::new(alloc),
            spare: 0,
        }
    }

    /// Makes places for at least `n` more tries. The position and the log stay. It takes memory only where
    /// fewer places are there.
    pub fn reserve(&mut self, n: usize) -> Result<(), NoMemory>
        ensures ok { OnOk result (self.new ≡ record self.old { spare = max self.old.spare n }) }
        ensures err { OnErr result (self.new ≡ self.old) }
        ensures full { OnErr result (self.old.spare < n) }
    {
        if n <= self.spare {
            return Ok(());
        }
        self.log.reserve_exact(n)?;
        self.spare = n;
        Ok(())
    }

    /// Judges a try, and makes its move where it is done. It is not put into the log: who tells each try at once needs none.
    #[tactic(auto, using(crate::proofs::Ends::ends), unfolding(crate::specs::Verdicts::verdict))]
    pub fn judge(&mut self, e: &Event) -> Verdict
        ensures verdict { result ≡ verdict self.old.position e.now.who e.now.mv }
        ensures state { self.new ≡ record self.old
            { position = next self.old.position e.now.who e.now.mv } }
    {
        if self.over {
            return Verdict::Over;
        }
        if e.who != self.position.side() {
            return Verdict::Early;
        }
        let made = match make_if_legal(&self.position, e.mv) {
            None => return Verdict::Illegal,
            Some(made) => made,
        };
        self.position = made.position;
        self.over = has_ended(made.words.end);
        Verdict::Done(made.words)
    }

    /// Judges one try, of which the log has a place left: it takes no memory. The position changes by a
    /// try that is done, and by no other.
    pub fn step(&mut self, e: Event) -> Verdict
        requires { 0 < self.old.spare }
        ensures verdict { result ≡ verdict self.old.position e.who e.mv }
        ensures position { self.new.position ≡ next self.old.position e.who e.mv }
        ensures log { self.new.log ≡ self.old.log ++ judged self.old.position e ∷ [] }
        ensures spare { self.new.spare + 1 ≡ self.old.spare }
    {
        let event = &e;
        let verdict = &self.judge(event);
        let _ = self.log.push(Judged {
            event: *event,
            verdict: *verdict,
        });
        self.spare -= 1;
        *verdict
    }

    /// Where the game stands.
    pub fn position(&self) -> &Position
        ensures { result.now ≡ self.now.position }
    {
        &self.position
    }

    /// The tries so far, with their verdicts, in the order in which they came.
    pub fn log(&self) -> &[Judged]
        ensures { result.now ≡ self.now.log }
    {
        &self.log
    }

    /// How many more tries have their place already.
    pub fn spare(&self) -> usize
        ensures { result ≡ self.now.spare }
    {
        self.spare
    }
}

/// The game of these tries, judged one after another. The places of all of them are taken before the first one is judged:
/// `NoMemory` comes only for want of these, and never where there is no try.
pub fn judge(alloc: Global, start: &Position, events: &[Event]) -> Result<Game, NoMemory>
    ensures value { IfOk result (λ game. game
        ≡ record {
          position = last start.now events.now;
          log = judge start.now events.now;
          spare = 0;
        }) }
    ensures no_memory { OnErr result (0 < length events.now) }
{
    let mut game = Game::start(alloc, *start);
    game.reserve(events.len())?;
    for event in events {
        let _ = game.step(*event);
    }
    Ok(game)
}
