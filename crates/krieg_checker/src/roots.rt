ghost use Rattle.std.specs.Prelude.{◌≡◌, map};
ghost use Rattle.krieg_game.specs.Chess.{chess};
ghost use Rattle.krieg_game.specs.Classes.{class_pair};
ghost use Rattle.krieg_plan.specs.Trees.{first_root_in};
ghost use Rattle.krieg_plan.specs.Plans.{plan_of};
ghost use Rattle.krieg_parting.specs.Charges.{Charges};
ghost use Rattle.krieg_checker.specs.Needs.{Tells, all_won_other};
ghost use Rattle.krieg_checker.specs.Starting as spec;
ghost use Rattle.krieg_checker.specs.Starting.{heard_of, roots_won, roots_cost};
ghost use Rattle.krieg_checker.specs.Walk.{other_cost};

use crate::walk::{missing, walk, worse};
use krieg_board::Units;
use krieg_game::Class;
use krieg_parting::PartStop;
use krieg_plan::{Plan, find_root};
use krieg_words::{Dialect, Words};
use std::alloc::Global;

/// What is heard before the first own turn: no move where the own turn comes first.
fn heard(own: bool, reply: Words) -> Option<Words>
    ensures { result ≡ spec.heard own reply }
{
    if own { None } else { Some(reply) }
}

/// Within how many moves the class is won at the root with its key.
fn walk_root(
    alloc: Global,
    d: Dialect,
    plan: &Plan,
    own: bool,
    class: Class,
    units: &mut Units,
) -> Result<Option<u16>, PartStop>
    ensures { Charges result (λ r. Tells r
        (all_won_other (chess d) (first_root_in (plan_of plan.now)
        (heard_of own (class_pair class)).0) class.belief))
        (other_cost (chess d) (first_root_in (plan_of plan.now) (heard_of own (class_pair class)).0)
        class.belief) units.old units.new }
{
    match find_root(plan, class.own, heard(own, class.reply)) {
        None => Ok(missing(&class.belief)),
        Some(node) => walk(alloc, d, node, class.belief, units),
    }
}

/// Within how many moves each class is won at the root with its key.
pub(crate) fn walk_roots(
    alloc: Global,
    d: Dialect,
    plan: &Plan,
    own: bool,
    classes: Vec<Class>,
    units: &mut Units,
) -> Result<Option<u16>, PartStop>
    ensures { Charges result (λ r. Tells r
        (roots_won d (plan_of plan.now) (map (heard_of own) (map class_pair classes.items))))
        (roots_cost d (plan_of plan.now) (map (heard_of own) (map class_pair classes.items)))
        units.old units.new }
{
    let mut need = Some(0);
    for class in classes {
        need = worse(need, walk_root(alloc, d, plan, own, class, units)?);
    }
    Ok(need)
}
