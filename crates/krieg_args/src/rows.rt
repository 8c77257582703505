ghost use Rattle.std.specs.Prelude.{◌≡◌, [], ◌∷◌, map, string_bytes};
ghost use Rattle.krieg_args.specs.Kinds.{made_of, Whose, Made, listed, budget, find_budget, seed, search, find_search, played, led};
ghost use Rattle.krieg_args.specs.Rows.{command_in, krieg_rows, find_rows};
ghost use Rattle.krieg_args.specs.declared.command.Command.TheVariants.{Solve, Check, Refute, Deny, Believe, Why, Umpire, Play, Lead, Find, Keys, Share, Judge, Conduct, Make, Job};
ghost use Rattle.krieg_args.specs.Command as spec;

use crate::command::Command;
use crate::words::{
    budget_of, find_budget_of, find_numbers, led_words, limit_of, made_input, no_more,
    played_words, search_numbers, seed_of, whose,
};
use krieg_text::is_name;

/// The command of a name behind which there are no words.
fn alone(command: Command, words: &[String]) -> Option<Command>
    ensures { result ≡ made_of [] command (map string_bytes words.now) }
{
    no_more(words)?;
    Some(command)
}

#[tactic(auto, unfolding(crate::specs::Kinds::read_first))]
fn umpire(words: &[String]) -> Option<Command>
    ensures { result ≡ made_of (Whose ∷ []) Umpire (map string_bytes words.now) }
{
    let (word, words) = words.split_first()?;
    let who = whose(word)?;
    no_more(words)?;
    Some(Command::Umpire { who })
}

fn believe(words: &[String]) -> Option<Command>
    ensures { result ≡ made_of (listed ∷ []) Believe (map string_bytes words.now) }
{
    let (limit, words) = limit_of(words)?;
    no_more(words)?;
    Some(Command::Believe { limit })
}

fn why(words: &[String]) -> Option<Command>
    ensures { result ≡ made_of (listed ∷ []) Why (map string_bytes words.now) }
{
    let (limit, words) = limit_of(words)?;
    no_more(words)?;
    Some(Command::Why { limit })
}

fn solve(words: &[String]) -> Option<Command>
    ensures { result ≡ made_of search Solve (map string_bytes words.now) }
{
    let (moves, budget, limit) = search_numbers(words)?;
    Some(Command::Solve {
        moves,
        budget,
        limit,
    })
}

fn check(words: &[String]) -> Option<Command>
    ensures { result ≡ made_of (budget ∷ []) Check (map string_bytes words.now) }
{
    let (budget, words) = budget_of(words)?;
    no_more(words)?;
    Some(Command::Check { budget })
}

fn refute(words: &[String]) -> Option<Command>
    ensures { result ≡ made_of search Refute (map string_bytes words.now) }
{
    let (moves, budget, limit) = search_numbers(words)?;
    Some(Command::Refute {
        moves,
        budget,
        limit,
    })
}

fn deny(words: &[String]) -> Option<Command>
    ensures { result ≡ made_of (budget ∷ []) Deny (map string_bytes words.now) }
{
    let (budget, words) = budget_of(words)?;
    no_more(words)?;
    Some(Command::Deny { budget })
}

fn play(words: &[String]) -> Option<Command>
    ensures { result ≡ made_of played (λ asks win wout bin bout. Play asks)
        (map string_bytes words.now) }
{
    let (asks, _) = played_words(words)?;
    Some(Command::Play { asks })
}

fn lead(words: &[String]) -> Option<Command>
    ensures { result ≡ made_of led (λ asks number tries told. Lead asks number)
        (map string_bytes words.now) }
{
    let (asks, number, _) = led_words(words)?;
    Some(Command::Lead { asks, number })
}

#[tactic(auto, unfolding(crate::specs::Kinds::read_first))]
fn make(words: &[String]) -> Option<Command>
    ensures { result ≡ made_of (Made ∷ seed ∷ []) Make (map string_bytes words.now) }
{
    let (word, words) = words.split_first()?;
    let what = made_input(word)?;
    let (number, words) = seed_of(words)?;
    no_more(words)?;
    Some(Command::Make { what, number })
}

fn job(words: &[String]) -> Option<Command>
    ensures { result ≡ made_of (seed ∷ []) Job (map string_bytes words.now) }
{
    let (number, words) = seed_of(words)?;
    no_more(words)?;
    Some(Command::Job { number })
}

/// The command of the row of `krieg` with that name, where these words stand behind it.
fn named(name: &[u8], words: &[String]) -> Option<Command>
    ensures { result ≡ command_in krieg_rows (name.now ∷ map string_bytes words.now) }
{
    if is_name(b"umpire", name) {
        umpire(words)
    } else if is_name(b"san", name) {
        alone(Command::San, words)
    } else if is_name(b"unsan", name) {
        alone(Command::Unsan, words)
    } else if is_name(b"believe", name) {
        believe(words)
    } else if is_name(b"why", name) {
        why(words)
    } else if is_name(b"solve", name) {
        solve(words)
    } else if is_name(b"check", name) {
        check(words)
    } else if is_name(b"refute", name) {
        refute(words)
    } else if is_name(b"deny", name) {
        deny(words)
    } else if is_name(b"play", name) {
        play(words)
    } else if is_name(b"next", name) {
        alone(Command::Next, words)
    } else if is_name(b"lead", name) {
        lead(words)
    } else if is_name(b"make", name) {
        make(words)
    } else if is_name(b"job", name) {
        job(words)
    } else {
        None
    }
}

/// The command of these words of the program `krieg`, where they are the form of one and their numbers are in their ranges.
#[tactic(auto, unfolding(crate::specs::Command::command_of))]
pub fn command_of(words: &[String]) -> Option<Command>
    ensures { result ≡ spec.command_of (map string_bytes words.now) }
{
    let (name, words) = words.split_first()?;
    named(name.as_bytes(), words)
}

fn find(words: &[String]) -> Option<Command>
    ensures { result ≡ made_of find_search Find (map string_bytes words.now) }
{
    let (moves, budget, limit) = find_numbers(words)?;
    Some(Command::Find {
        moves,
        budget,
        limit,
    })
}

fn keys(words: &[String]) -> Option<Command>
    ensures { result ≡ made_of find_search Keys (map string_bytes words.now) }
{
    let (moves, budget, limit) = find_numbers(words)?;
    Some(Command::Keys {
        moves,
        budget,
        limit,
    })
}

fn share(words: &[String]) -> Option<Command>
    ensures { result ≡ made_of find_search Share (map string_bytes words.now) }
{
    let (moves, budget, limit) = find_numbers(words)?;
    Some(Command::Share {
        moves,
        budget,
        limit,
    })
}

fn judge(words: &[String]) -> Option<Command>
    ensures { result ≡ made_of (find_budget ∷ []) Judge (map string_bytes words.now) }
{
    let (budget, words) = find_budget_of(words)?;
    no_more(words)?;
    Some(Command::Judge { budget })
}

fn conduct(words: &[String]) -> Option<Command>
    ensures { result ≡ made_of led (λ asks number tries told. Conduct asks number)
        (map string_bytes words.now) }
{
    let (asks, number, _) = led_words(words)?;
    Some(Command::Conduct { asks, number })
}

/// The command of the row of `krieg_find` with that name, where these words stand behind it.
fn find_named(name: &[u8], words: &[String]) -> Option<Command>
    ensures { result ≡ command_in find_rows (name.now ∷ map string_bytes words.now) }
{
    if is_name(b"find", name) {
        find(words)
    } else if is_name(b"keys", name) {
        keys(words)
    } else if is_name(b"share", name) {
        share(words)
    } else if is_name(b"judge", name) {
        judge(words)
    } else if is_name(b"advise", name) {
        alone(Command::Advise, words)
    } else if is_name(b"conduct", name) {
        conduct(words)
    } else {
        None
    }
}

/// The command of these words of the program `krieg_find`, where they are the form of one and their numbers are in their ranges.
#[tactic(auto, unfolding(crate::specs::Command::find_of, crate::specs::Kinds::read_first))]
pub fn find_of(words: &[String]) -> Option<Command>
    ensures { result ≡ spec.find_of (map string_bytes words.now) }
{
    let (name, behind) = words.split_first()?;
    find_named(name.as_bytes(), behind).or(find(words))
}
