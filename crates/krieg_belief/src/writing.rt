ghost use Rattle.std.specs.Prelude.{map};
ghost use Rattle.std.specs.List.{flat_map};
ghost use Rattle.krieg_text.specs.Writing.{PutsLines, Appends};
ghost use Rattle.krieg_belief.specs.Explained.{state_of};
ghost use Rattle.krieg_belief.specs.GamesText as spec;
ghost use Rattle.krieg_umpire.specs.SessionText.{event_line};

use crate::games::Games;
use crate::shown::Shown;
use krieg_board::NoMemory;
use krieg_fen::{Ranks, put_next};
use krieg_text::{Text, put_number};
use krieg_umpire::{Event, put_event};
use krieg_words::Dialect;
use krieg_wordtext::put_dialect_line;
use std::alloc::Global;

/// Room for so many bytes of each game is found before the first is written. A game of three moves has as many.
const GAME_ROOM: usize = 128;

/// Adds the lines of tries.
#[tactic(auto, using(krieg_text::proofs::Writings::writings))]
fn put_events(events: &[Event], text: &mut Text) -> Result<(), NoMemory>
    ensures { PutsLines result text.old text.new (map event_line events.now) }
{
    for event in events {
        put_event(event, text)?;
        text.end_line()?;
    }
    Ok(())
}

/// Adds the lines of a game. Of both positions only the ranks that differ from those of the game before are spelled.
#[tactic(auto, using(krieg_text::proofs::Writings::writings))]
fn put_game(
    game: &Shown,
    lasts: &mut Ranks,
    starts: &mut Ranks,
    text: &mut Text,
) -> Result<(), NoMemory>
    ensures { PutsLines result text.old text.new (spec.game_lines (state_of game.now)) }
{
    text.put(b"game ")?;
    put_next(&game.last, lasts, text)?;
    text.put(b"start ")?;
    put_next(&game.start, starts, text)?;
    put_events(&game.events, text)
}

/// Adds the first lines of the text of so many games.
fn put_head(d: Dialect, count: usize, text: &mut Text) -> Result<(), NoMemory>
    ensures { PutsLines result text.old text.new (spec.head_lines d count) }
{
    text.line(b"krieg games 1")?;
    put_dialect_line(d, text)?;
    text.put(b"games ")?;
    put_number(count as u64, text)?;
    text.end_line()
}

/// Adds the lines of each game, of which one is made at a time.
#[tactic(auto, using(krieg_text::proofs::Writings::writings))]
fn put_each_of(alloc: Global, games: &Games, text: &mut Text) -> Result<(), NoMemory>
    ensures { PutsLines result text.old text.new (flat_map spec.game_lines games.now) }
{
    let mut lasts = Ranks::new();
    let mut starts = Ranks::new();
    for i in 0..games.len() {
        put_game(&games.get(alloc, i)?, &mut lasts, &mut starts, text)?;
    }
    Ok(())
}

/// Adds the lines of the games, of which one is made at a time.
#[tactic(auto, using(krieg_text::proofs::Writings::writings))]
fn put_games_of(alloc: Global, d: Dialect, games: &Games, text: &mut Text) -> Result<(), NoMemory>
    ensures { PutsLines result text.old text.new (spec.games_lines d games.now) }
{
    put_head(d, games.len(), text)?;
    put_each_of(alloc, games, text)?;
    text.line(b"end")
}

/// Appends the text of the games in its one written form. One game is made at a time. Where memory runs out, nothing is
/// appended.
#[tactic(auto, unfolding(crate::specs::GamesText::games_text))]
pub fn write_games_of(
    alloc: Global,
    d: Dialect,
    games: &Games,
    text: &mut Vec<u8>,
) -> Result<(), NoMemory>
    ensures { Appends result text.old.items text.new.items (spec.games_text d games.now) }
{
    text.reserve(games.len().saturating_mul(GAME_ROOM))?;
    let mut all = Text::after(text);
    let done = put_games_of(alloc, d, games, &mut all);
    all.end(done, text)
}
