ghost use Rattle.std.specs.Prelude.{◌≡◌, ◌+◌, ◌<◌, ◌∷◌, List, IfOk, IfSome, IfNone, Some, length, map, reverse, slice_get, take};
ghost use Rattle.std.specs.List.{All};
ghost use Rattle.krieg_theory.specs.Sets.{is_nil};
ghost use Rattle.krieg_pack.specs.Members.{set_of};
ghost use Rattle.krieg_belief.specs.Explained.{state_of};
ghost use Rattle.krieg_belief.specs.Links.{AreKept, Grounded, IsFound, entry_at, numbered_tale, place_of, tales_of};
ghost use Rattle.krieg_wordtext.specs.declared.line.Line.{Line as SheetLine};
ghost use Rattle.krieg_belief.specs.Retold as spec;
ghost use Rattle.krieg_belief.specs.Retold.{shown_of};

use crate::links::{Link, Tales};
use crate::shown::Shown;
use krieg_board::{Move, NoMemory, Position, Side};
use krieg_pack::{Belief, Packed, unpack};
use krieg_sheet::Sheet;
use krieg_umpire::Event;
use krieg_wordtext::Line;
use std::alloc::Global;
use std::marker::Model;

/// Where a game began, and the opponent's moves in it, of which the last stands first.
#[derive(Drop)]
struct GameTrace {
    start: Position,
    replies: Vec<Move>,
}

/// Reads the game with that number backwards, link by link, until it comes to a start. Room for `most` moves is found at
/// once.
fn trace(
    alloc: Global,
    starts: &Belief,
    links: &[Link],
    number: usize,
    most: usize,
) -> Result<GameTrace, NoMemory>
    requires grounded { Grounded (length starts.now) links.now }
    requires number { number < length starts.now + length links.now }
    ensures start { IfOk result (λ t. t.start ≡ (numbered_tale starts.now links.now number).start) }
    ensures replies { IfOk result (λ t. reverse t.replies.items
        ≡ (numbered_tale starts.now links.now number).replies) }
{
    let mut replies = Vec::with_capacity(alloc, most)?;
    let mut at = number;
    for _ in 0..links.len() {
        if at < starts.len() {
            break;
        }
        let link = &links[at - starts.len()];
        replies.push(link.reply)?;
        at = link.before;
    }
    Ok(GameTrace {
        start: starts.get(at),
        replies,
    })
}

/// The try that the entry tells, where it tells one: the player's own, or the next of the opponent's moves that are left, of
/// which the last stands first.
fn event_by(who: Side, line: &Line, left: &mut Vec<Move>) -> Option<Event>
    ensures some { IfSome result (λ e. (ls : List SheetLine) →
        spec.events_by who (line.now ∷ ls) (reverse left.old.items)
        ≡ e ∷ spec.events_by who ls (reverse left.new.items)) }
    ensures none { IfNone result ((ls : List SheetLine) →
        spec.events_by who (line.now ∷ ls) (reverse left.old.items)
        ≡ spec.events_by who ls (reverse left.new.items)) }
{
    match line {
        Line::Illegal(mv) | Line::Early(mv) | Line::Over(mv) | Line::Done(mv, _) => {
            Some(Event { who, mv: *mv })
        }
        Line::Heard(_) => match left.pop() {
            None => None,
            Some(mv) => Some(Event {
                who: who.other(),
                mv,
            }),
        },
        Line::Opens(_) => None,
    }
}

/// The tries of a game that gives these entries, with the opponent's moves, of which the last stands first. Each entry
/// has at most one try, so the places are taken at once.
fn events_by(
    alloc: Global,
    who: Side,
    entries: &[Line],
    replies: Vec<Move>,
) -> Result<Vec<Event>, NoMemory>
    ensures { IfOk result (λ v. v.items ≡ spec.events_by who entries.now (reverse replies.items)) }
{
    let mut left = replies;
    let mut events = Vec::with_capacity(alloc, entries.len())?;
    for line in entries {
        if let Some(event) = event_by(who, line, &mut left) {
            events.push(event)?;
        }
    }
    Ok(events)
}

/// The positions in which games stand.
pub(crate) fn positions(alloc: Global, tales: &Tales) -> Result<Belief, NoMemory>
    ensures { IfOk result (λ b. b ≡ set_of (map place_of tales.now.entries)) }
{
    let mut packed = Vec::with_capacity(alloc, tales.len())?;
    for i in 0..tales.len() {
        if let Some((k, _number)) = tales.get_index(i) {
            packed.push(*k)?;
        }
    }
    Ok(Belief::from_packed(packed))
}

/// The positions in their order, each with the number of the game that stands in it.
pub(crate) fn numbered(
    alloc: Global,
    tales: &Tales,
    possible: &Belief,
) -> Result<Vec<(Packed, usize)>, NoMemory>
    requires { All (IsFound tales.now.entries) possible.now }
    ensures { IfOk result (λ v. v.items ≡ map (entry_at tales.now.entries) possible.now) }
{
    let mut lasts = Vec::with_capacity(alloc, possible.len())?;
    for k in possible.members() {
        if let Some(number) = tales.get(k) {
            lasts.push((*k, *number))?;
        }
    }
    Ok(lasts)
}

/// The least hidden games of a sheet, one for each possible position, in the order of these. They are kept as links,
/// and each is made where it is asked for.
///
/// In contracts they are the list of these games.
#[derive(Drop)]
pub struct Games<'a> {
    sheet: &'a Sheet,
    starts: Belief,
    links: Vec<Link>,
    lasts: Vec<(Packed, usize)>,
}

impl<'a> Model for Games<'a> {
    ghost use Rattle.std.specs.Prelude.{List, map};
    ghost use Rattle.krieg_belief.specs.Explained.{ShownState};
    ghost use Rattle.krieg_belief.specs.Links.{AreKept, tales_of};
    ghost use Rattle.krieg_belief.specs.Retold.{shown_of};

    ghost Value = { List ShownState };

    ghost view = { λ g. map (shown_of g.sheet.now) (tales_of g.starts g.links.items g.lasts.items) };

    ghost invariant = { λ g. AreKept g.starts g.links.items g.lasts.items };
}

impl<'a> Games<'a> {
    /// The games with these numbers, each of which stands in the position beside its number.
    pub(crate) fn kept(
        sheet: &'a Sheet,
        starts: Belief,
        links: Vec<Link>,
        lasts: Vec<(Packed, usize)>,
    ) -> Games<'a>
        requires { AreKept starts links.items lasts.items }
        ensures { result ≡ map (shown_of sheet.now) (tales_of starts links.items lasts.items) }
    {
        Games {
            sheet,
            starts,
            links,
            lasts,
        }
    }

    /// How many games there are.
    pub fn len(&self) -> usize
        ensures { result ≡ length self.now }
    {
        self.lasts.len()
    }

    /// Whether there is no game: no position is possible.
    pub fn is_empty(&self) -> bool
        ensures { result ≡ is_nil self.now }
    {
        self.lasts.is_empty()
    }

    /// The game at place `i`, from 0 on.
    pub fn get(&self, alloc: Global, i: usize) -> Result<Shown, NoMemory>
        requires { i < length self.now }
        ensures { IfOk result (λ x. slice_get self.now i ≡ Some (state_of x)) }
    {
        let (last, number) = self.lasts[i];
        let entries = self.sheet.entries();
        let traced = trace(alloc, &self.starts, &self.links, number, entries.len())?;
        Ok(Shown {
            last: unpack(&last),
            start: traced.start,
            events: events_by(alloc, self.sheet.side(), entries, traced.replies)?,
        })
    }
}
