ghost use Rattle.std.specs.Prelude.{◌≡◌};
ghost use Rattle.krieg_umpire.specs.Hearing as spec;
ghost use Rattle.krieg_umpire.specs.Laws.{HearsNoMore};

use crate::verdict::{Judged, Verdict};
use krieg_board::{Move, Side};
use krieg_wordtext::Line;

fn own_line(mv: &Move, verdict: &Verdict) -> Line
    ensures { result ≡ spec.own_line mv.now verdict.now }
{
    match verdict {
        Verdict::Over => Line::Over(*mv),
        Verdict::Early => Line::Early(*mv),
        Verdict::Illegal => Line::Illegal(*mv),
        Verdict::Done(words) => Line::Done(*mv, *words),
    }
}

fn others_line(verdict: &Verdict) -> Option<Line>
    ensures { result ≡ spec.others_line verdict.now }
{
    match verdict {
        Verdict::Done(words) => Some(Line::Heard(*words)),
        Verdict::Over | Verdict::Early | Verdict::Illegal => None,
    }
}

/// What a player hears of a try that was judged, in the umpire's words: of his own try its verdict, of
/// the other player's try the words where it was done. `None` exactly where the try is the other
/// player's and was not done.
pub fn line_for(who: Side, j: &Judged) -> Option<Line>
    ensures { result ≡ spec.line_for who j.now }
{
    if j.event.who == who {
        Some(own_line(&j.event.mv, &j.verdict))
    } else {
        others_line(&j.verdict)
    }
}

/// The law that what one player hears depends on the other player's tries through the announced ones
/// alone: the same lines come without those that are not done.
#[tactic(auto, using(crate::proofs::Stripping::laws))]
pub fn hearing_law()
    ensures { HearsNoMore }
{}
