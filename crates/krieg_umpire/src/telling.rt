ghost use Rattle.std.specs.Prelude.{◌∷◌, [], IfSome, map};
ghost use Rattle.std.specs.List.{flat_map};
ghost use Rattle.krieg_text.specs.Writing.{PutsText, PutsLines, Appends};
ghost use Rattle.krieg_wordtext.specs.Line.{told_line};
ghost use Rattle.krieg_words.specs.WordsOfMoves.{opening};
ghost use Rattle.krieg_wordtext.specs.declared.line.Line.TheVariants.{Opens};
ghost use Rattle.krieg_umpire.specs.Games.{judge};
ghost use Rattle.krieg_umpire.specs.Hearing.{line_for, strip};
ghost use Rattle.krieg_sheet.specs.SheetText.{entry_line, sheet_lines};
ghost use Rattle.krieg_umpire.specs.Telling as spec;

use crate::game::Game;
use crate::hearing::line_for;
use crate::session::Session;
use crate::verdict::{Event, Judged};
use krieg_board::{NoMemory, Position, Side};
use krieg_fen::{put_listed, side_mark};
use krieg_sheet::{put_end, put_entry, put_head};
use krieg_text::Text;
use krieg_words::{Dialect, opening};
use krieg_wordtext::{Line, put_line_in, told_line};
use std::alloc::Global;

/// Adds the line as the dialect tells it.
#[tactic(auto, using(crate::proofs::Tellings::fitting))]
fn put_told(d: Dialect, line: Line, text: &mut Text) -> Result<(), NoMemory>
    ensures { PutsLines result text.old text.new (entry_line d (told_line d line) ∷ []) }
{
    put_entry(d, told_line(d, line), text)
}

/// Adds the player's line of a judged try, where he has one.
#[tactic(auto, unfolding(crate::specs::Telling::heard_lines))]
fn put_heard(d: Dialect, who: Side, judged: &Judged, text: &mut Text) -> Result<(), NoMemory>
    ensures { PutsLines result text.old text.new (spec.heard_lines d who (judged.now ∷ [])) }
{
    match line_for(who, judged) {
        None => Ok(()),
        Some(line) => put_told(d, line, text),
    }
}

/// Adds the player's lines of the tries, each of which is told once it is judged.
#[tactic(auto, using(krieg_text::proofs::Writings::writings, crate::proofs::Tellings::logs))]
fn put_tries(
    d: Dialect,
    mut game: Game,
    events: &[Event],
    who: Side,
    text: &mut Text,
) -> Result<(), NoMemory>
    ensures { PutsLines result text.old text.new
        (spec.heard_lines d who (judge game.position events.now)) }
{
    for event in events {
        let verdict = game.judge(event);
        let event = *event;
        put_heard(d, who, &Judged { event, verdict }, text)?;
    }
    Ok(())
}

/// Adds the lines of the player's sheet of a game that begins so.
#[tactic(auto, using(krieg_text::proofs::Writings::writings, crate::proofs::Tellings::logs))]
fn put_player(
    d: Dialect,
    game: Game,
    events: &[Event],
    who: Side,
    text: &mut Text,
) -> Result<(), NoMemory>
    ensures { PutsLines result text.old text.new
        (sheet_lines (spec.sheet_of d game.position events.now who)) }
{
    put_head(d, who, 1, text)?;
    put_listed(game.position(), text)?;
    put_told(d, Line::Opens(opening(game.position())), text)?;
    put_tries(d, game, events, who, text)?;
    put_end(text)
}

/// Adds the line as the dialect tells it, with the player's mark.
#[tactic(auto, using(crate::proofs::Tellings::fitting))]
fn put_marked(d: Dialect, who: Side, line: Line, text: &mut Text) -> Result<(), NoMemory>
    ensures { PutsLines result text.old text.new (spec.marked_line d (who, told_line d line) ∷ []) }
{
    text.put(side_mark(who))?;
    put_line_in(d, told_line(d, line), text)?;
    text.end_line()
}

/// Adds the player's line of a judged try with his mark, where he has one.
fn put_players(d: Dialect, who: Side, judged: &Judged, text: &mut Text) -> Result<(), NoMemory>
    ensures { PutsLines result text.old text.new
        (map (spec.marked_line d) (spec.players_line d who (line_for who judged.now))) }
{
    match line_for(who, judged) {
        None => Ok(()),
        Some(line) => put_marked(d, who, line, text),
    }
}

/// Adds White's line of a judged try and then Black's.
#[tactic(auto, using(krieg_text::proofs::Writings::writings, crate::proofs::Tellings::logs))]
fn put_both(d: Dialect, judged: &Judged, text: &mut Text) -> Result<(), NoMemory>
    ensures { PutsLines result text.old text.new
        (map (spec.marked_line d) (spec.both_lines d judged.now)) }
{
    put_players(d, Side::White, judged, text)?;
    put_players(d, Side::Black, judged, text)
}

/// Adds both players' lines of the tries, each of which is told once it is judged.
#[tactic(auto, using(krieg_text::proofs::Writings::writings, crate::proofs::Tellings::logs))]
fn put_all_tries(
    d: Dialect,
    mut game: Game,
    events: &[Event],
    text: &mut Text,
) -> Result<(), NoMemory>
    ensures { PutsLines result text.old text.new
        (map (spec.marked_line d) (flat_map (spec.both_lines d) (judge game.position events.now))) }
{
    for event in events {
        let verdict = game.judge(event);
        let event = *event;
        put_both(d, &Judged { event, verdict }, text)?;
    }
    Ok(())
}

/// Adds the lines of both players of a game that begins so.
#[tactic(auto, using(krieg_text::proofs::Writings::writings, crate::proofs::Tellings::logs), unfolding(crate::specs::Telling::marked_lines))]
fn put_all(d: Dialect, game: Game, events: &[Event], text: &mut Text) -> Result<(), NoMemory>
    ensures { PutsLines result text.old text.new
        (spec.marked_lines d game.position (judge game.position events.now)) }
{
    put_marked(d, Side::White, Line::Opens(opening(game.position())), text)?;
    put_marked(d, Side::Black, Line::Opens(opening(game.position())), text)?;
    put_all_tries(d, game, events, text)
}

/// Adds what is told of a session, try by try: no log of it is kept.
#[tactic(auto, using(krieg_text::proofs::Writings::lines_after), unfolding(krieg_sheet::specs::SheetText::sheet_text, crate::specs::Telling::all_text))]
fn put_telling(
    alloc: Global,
    s: &Session,
    who: Option<Side>,
    text: &mut Text,
) -> Result<(), NoMemory>
    ensures { PutsText result text.old text.new
        (spec.umpire_text s.now.dialect s.now.start s.now.events.items who) }
{
    let game = Game::start(alloc, s.start);
    match who {
        Some(side) => put_player(s.dialect, game, &s.events, side, text),
        None => put_all(s.dialect, game, &s.events, text),
    }
}

/// Judges the tries of a session and appends what the umpire tells of them: with a side the sheet of its
/// player, which lists the start, has the opening words and then the player's lines, and with `None` all
/// lines of both players. The session's stop is not told.
///
/// Each try is told once it is judged, so beside the text no memory is taken. Where it runs out, nothing is appended.
#[tactic(auto, using(crate::proofs::Tellings::stripping))]
pub fn umpire(
    alloc: Global,
    s: &Session,
    who: Option<Side>,
    text: &mut Vec<u8>,
) -> Result<(), NoMemory>
    ensures told { Appends result text.old.items text.new.items
        (spec.umpire_text s.now.dialect s.now.start s.now.events.items who) }
    // The other player's tries that are not done change nothing of a player's sheet.
    ensures stripped { IfSome who (λ w. Appends result text.old.items text.new.items
        (spec.umpire_text s.now.dialect s.now.start (strip s.now.start s.now.events.items w) who)) }
{
    let mut all = Text::after(text);
    let done = put_telling(alloc, s, who, &mut all);
    all.end(done, text)
}
