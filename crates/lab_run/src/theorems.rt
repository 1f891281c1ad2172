ghost use Rattle.lab_run.specs.Drawn.{OneDrawnRun};

/// From one state on, with so many steps left, a seed draws one list of events.
pub fn one_run_of_a_seed()
    ensures { OneDrawnRun }
{}
