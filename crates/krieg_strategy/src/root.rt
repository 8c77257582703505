ghost use Rattle.std.specs.Prelude.{◌≡◌, Some, map};
ghost use Rattle.krieg_game.specs.Keys.{root_cmp, root_lt};
ghost use Rattle.krieg_theory.specs.Sets.{same};
ghost use Rattle.krieg_strategy.specs.Nodes.{first_to};
ghost use Rattle.krieg_strategy.specs.Roots.{root_of};

use krieg_plan::compare_heard;
use krieg_words::{Words, compare};
use std::cmp::Ordering;

/// A root of a strategy: what the player hears before his first turn, and the number of the node to begin with.
///
/// Where the opponent is to move first, `heard` has the words of his move.
#[derive(Clone, Copy)]
pub struct StrategyRoot {
    pub opens: Words,
    pub heard: Option<Words>,
    pub to: u32,
}

/// The order of roots' keys: by the opening words, then by what was heard.
fn compare_root(r: &StrategyRoot, opens: &Words, heard: &Option<Words>) -> Ordering
    ensures { result ≡ root_cmp (root_of r.now).0 (opens.now, heard.now) }
{
    compare(&r.opens, opens).then(compare_heard(&r.heard, heard))
}

/// Whether the root has these words.
fn has_root_key(r: &StrategyRoot, opens: &Words, heard: &Option<Words>) -> bool
    ensures { result ≡ same root_lt (root_of r.now).0 (opens.now, heard.now) }
{
    compare_root(r, opens, heard).is_eq()
}

/// The number of the node at the first root with these words.
pub fn find_root_to(roots: &[StrategyRoot], opens: &Words, heard: &Option<Words>) -> Option<u32>
    ensures { result ≡ first_to root_lt (map root_of roots.now) (opens.now, heard.now) }
{
    for r in roots {
        if has_root_key(r, opens, heard) {
            return Some(r.to);
        }
    }
    None
}
