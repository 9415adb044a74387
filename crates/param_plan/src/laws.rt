ghost use Rattle.param_plan.specs.Laws.{SlicesAreOfPlans, SlicesHaveCurves, SoundCurvesStandApart};

/// The slice of a parameter in a database is what its plan depends on.
pub fn slices_are_of_plans()
    ensures { SlicesAreOfPlans }
{}

/// The curve that the slice of a parameter gives is that of a search through the tables.
pub fn slices_have_curves()
    ensures { SlicesHaveCurves }
{}

/// In sound tables no two points of a curve stand at one x.
pub fn sound_curves_stand_apart()
    ensures { SoundCurvesStandApart }
{}
