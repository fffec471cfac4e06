//! Laws of the plan.
ghost use Rattle.merge_plan.specs.PlanLaws.{ArePlans};

/// The plan has the worked values, and merges no segment that a merge holds.
pub fn plans_are_exact()
    ensures { ArePlans }
{}
