//! What holds of the definitions themselves. Each law is a function with an empty body, whose contract is the law.

ghost use Rattle.std.specs.Prelude.{◌≡◌, ◌↔◌, ℕ, List, Option, Some, true, int_le};
ghost use Rattle.sfc_base.specs.declared.ids.TransitionId.{TransitionId};
ghost use Rattle.sfc_expr.specs.Environment.{Environment};
ghost use Rattle.sfc_expr.specs.Meaning.{of_truth, value_of};
ghost use Rattle.sfc_expr.specs.Trees.{Expression};
ghost use Rattle.sfc_tables.specs.LeastTimes.{least_time_of};
ghost use Rattle.sfc_tables.specs.declared.least_time.LeastTime.{LeastTime};
ghost use Rattle.sfc_tables.specs.Ranks.{IsRankOrder, RanksBefore, rank_order, ranks_before};

/// There is one rank order of the transitions of a chart, and `rank_order` is it (2.6.5).
pub fn rank_order_is_the_order()
    ensures test { (priorities : List (Option ℕ)) (a b : TransitionId) →
        (ranks_before priorities a b ≡ true) ↔ RanksBefore priorities a b }
    ensures order { (priorities : List (Option ℕ)) → IsRankOrder priorities (rank_order priorities) }
    ensures only { (priorities : List (Option ℕ)) (ranked : List TransitionId) → IsRankOrder priorities ranked →
        ranked ≡ rank_order priorities }
{}

/// A condition that asks for a least time of a step, and for that alone, is TRUE where the step's time is at least that, else FALSE,
/// and has no fault (2.6.2, 2.6.3).
#[tactic(auto, using(crate::proofs::LeastTimes::asked))]
pub fn a_least_time_is_what_is_asked()
    ensures { (env : Environment) (condition : Expression) (least : LeastTime) → least_time_of condition ≡ Some least →
        value_of env condition ≡ of_truth (int_le least.micros (env.time_of least.step)) }
{}
