ghost use Rattle.param_set.specs.Laws.{AllAreNewToNothing, NewPlansAreTouched, SlicesAreOfTheDatabase, SlicesHavePlannedNames};

/// In a sound database the plan of a name is that of the parameter of the name, where that has one.
pub fn param_slices_are_of_the_database()
    ensures { SlicesAreOfTheDatabase }
{}

/// The plans of parameters have the names that a board is made for.
pub fn param_slices_have_the_planned_names()
    ensures { SlicesHavePlannedNames }
{}

/// The plans that are new to those of another database are the plans of parameters that are touched, in their order.
pub fn new_plans_are_touched()
    ensures { NewPlansAreTouched }
{}

/// All plans are new to a base without plans.
pub fn all_plans_are_new_to_nothing()
    ensures { AllAreNewToNothing }
{}
