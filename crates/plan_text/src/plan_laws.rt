// Laws of the texts of plans: each function only carries its clause.
ghost use Rattle.plan_text.specs.PlanTextLaws.{SpellsOnePlan, HasOnePlanFault, FaultySpellsNoPlan};

/// A text spells only one plan. So `read_plan` cannot return any other one.
pub fn one_plan()
    ensures { SpellsOnePlan }
{}

/// A text has only one fault, apart from `Memory`, and a text with a fault spells no plan. So
/// `read_plan` can answer in only one way, unless memory runs out.
pub fn one_plan_fault()
    ensures one { HasOnePlanFault }
    ensures no_plan { FaultySpellsNoPlan }
{}
