ghost use Rattle.std.specs.Prelude.{◌≡◌, ◌∷◌, [], IfOk, Ok, map};
ghost use Rattle.std.specs.List.{All, flat_map};
ghost use Rattle.krieg_board.specs.Validity.{IsValid};
ghost use Rattle.krieg_text.specs.Writing.{PutsLines};
ghost use Rattle.krieg_belief.specs.Possible.{HaveOneHand};
ghost use Rattle.krieg_planfile.specs.PlanFiles.{IsToldRoot};
ghost use Rattle.krieg_solve.specs.KeyTries.{told_of, IsKeyAnswer};
ghost use Rattle.krieg_outcome.specs.Parts.{Decides, AreTerms};
ghost use Rattle.krieg_outcome.specs.Keys as spec;

use crate::commands::believe::put_positions;
use crate::commands::counted::{put_count, put_counted};
use crate::commands::search::Terms;
use crate::commands::solve::none_text;
use crate::ending::Ending;
use krieg_board::{NoMemory, Side, Units};
use krieg_fen::{put_list_head, put_move};
use krieg_pack::Belief;
use krieg_planfile::put_root_line;
use krieg_search::Way;
use krieg_solve::laws::keys_are_won;
use krieg_solve::{KeyAnswer, KeyTry, Keys, KeysAt, find_keys};
use krieg_text::Text;
use krieg_words::Dialect;
use krieg_wordtext::put_dialect_line;
use std::alloc::Global;

// ---- the text

/// What stands behind a try that some position refuses.
fn refusal_text(refused: bool) -> &'static [u8]
    ensures { result.now ≡ spec.refusal_text refused }
{
    if refused { b" no" } else { b"" }
}

/// Adds the line of a try.
fn put_try(key: &KeyTry, text: &mut Text) -> Result<(), NoMemory>
    ensures { PutsLines result text.old text.new (spec.try_line key.now ∷ []) }
{
    put_move(key.mv, text)?;
    text.put(refusal_text(key.may_be_refused))?;
    text.end_line()
}

/// Adds the lines of the tries.
#[tactic(auto, using(krieg_text::proofs::Writings::writings))]
fn put_tries(tries: &[KeyTry], text: &mut Text) -> Result<(), NoMemory>
    ensures { PutsLines result text.old text.new (map spec.try_line tries.now) }
{
    for key in tries {
        put_try(key, text)?;
    }
    Ok(())
}

/// Adds the line of the least number of own moves and of how many tries are as fast.
fn put_least(least: u8, tries: usize, text: &mut Text) -> Result<(), NoMemory>
    ensures { PutsLines result text.old text.new (spec.least_line least tries ∷ []) }
{
    put_count(b"least ", usize::from(least), text)?;
    put_counted(b" tries ", tries, text)
}

/// Adds what is heard, and the keys then.
fn put_heard(d: Dialect, at: &KeysAt, text: &mut Text) -> Result<(), NoMemory>
    requires { IsToldRoot d (told_of at.now).0 }
    ensures { PutsLines result text.old text.new (spec.heard_lines d (told_of at.now)) }
{
    put_root_line(d, at.opens, &at.heard, text)?;
    put_least(at.least, at.tries.len(), text)?;
    put_tries(&at.tries, text)
}

/// Adds this for each thing that may be heard.
#[tactic(auto, using(krieg_text::proofs::Writings::writings, crate::proofs::KeyTexts::flat_last))]
fn put_roots(d: Dialect, roots: &[KeysAt], text: &mut Text) -> Result<(), NoMemory>
    requires { All (λ r. IsToldRoot d (told_of r).0) roots.now }
    ensures { PutsLines result text.old text.new
        (flat_map (spec.heard_lines d) (map told_of roots.now)) }
{
    for at in roots {
        put_heard(d, at, text)?;
    }
    Ok(())
}

/// Adds what is told of the positions.
#[tactic(auto, using(krieg_text::proofs::Writings::writings, crate::proofs::KeyTexts::roots_length))]
fn put_told(d: Dialect, keys: &Keys, text: &mut Text) -> Result<(), NoMemory>
    requires { All (λ r. IsToldRoot d (told_of r).0) keys.now.roots.items }
    ensures { PutsLines result text.old text.new
        (spec.told_lines d keys.now.worst (map told_of keys.now.roots.items)) }
{
    put_counted(b"worst ", usize::from(keys.worst), text)?;
    put_counted(b"roots ", keys.roots.len(), text)?;
    put_roots(d, &keys.roots, text)?;
    text.line(b"end")
}

/// Adds all lines.
#[tactic(auto, using(krieg_text::proofs::Writings::writings))]
fn put_keys(
    d: Dialect,
    who: Side,
    set: &Belief,
    keys: &Keys,
    text: &mut Text,
) -> Result<(), NoMemory>
    requires { All (λ r. IsToldRoot d (told_of r).0) keys.now.roots.items }
    ensures { PutsLines result text.old text.new
        (spec.keys_lines d who set.now keys.now.worst (map told_of keys.now.roots.items)) }
{
    text.line(b"krieg keys 1")?;
    put_dialect_line(d, text)?;
    put_list_head(who, set.len(), text)?;
    put_positions(set.members(), text)?;
    put_told(d, keys, text)
}

/// The text of the keys of the set.
#[tactic(auto, unfolding(crate::specs::Keys::keys_text))]
fn keys_text(
    alloc: Global,
    d: Dialect,
    who: Side,
    set: &Belief,
    keys: &Keys,
) -> Result<Vec<u8>, NoMemory>
    requires { All (λ r. IsToldRoot d (told_of r).0) keys.now.roots.items }
    ensures { IfOk result (λ text. text.items
        ≡ spec.keys_text d who set.now keys.now.worst (map told_of keys.now.roots.items)) }
{
    let mut answer = Vec::new(alloc);
    let mut text = Text::after(&mut answer);
    let done = put_keys(d, who, set, keys, &mut text);
    text.end(done, &mut answer)?;
    Ok(answer)
}

// ---- the answer

/// The text of what a search for keys found, or the line that no plan mates.
fn told(
    alloc: Global,
    d: Dialect,
    who: Side,
    set: &Belief,
    moves: u64,
    answer: KeyAnswer,
) -> Result<Vec<u8>, NoMemory>
    requires valid { All IsValid set.now }
    requires hand { HaveOneHand who set.now }
    requires answer { IsKeyAnswer d who set.now moves (Ok answer) }
    ensures { IfOk result (λ text. spec.TellsKeys d who set.now moves text.items) }
{
    keys_are_won();
    match answer {
        KeyAnswer::Found(keys) => keys_text(alloc, d, who, set, &keys),
        KeyAnswer::None => none_text(alloc, moves),
    }
}

/// What a search for the keys of the set comes to.
pub(crate) fn searched(
    alloc: Global,
    terms: Terms,
    d: Dialect,
    who: Side,
    set: &Belief,
) -> Result<Vec<u8>, Ending>
    requires terms { AreTerms terms }
    requires valid { All IsValid set.now }
    requires hand { HaveOneHand who set.now }
    ensures { let found = spec.Keyed d who set.now terms.moves terms.budget in
        Decides (λ answer. answer.items) result found }
{
    let way = Way {
        alloc,
        d,
        cut: true,
        noted: 0,
    };
    let mut units = Units::new(terms.budget);
    let answer = find_keys(way, who, set, terms.moves as u8, &mut units)?;
    Ok(told(alloc, d, who, set, terms.moves, answer)?)
}
