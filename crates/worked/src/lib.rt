// Worked runs of the definitions.
#![tactic(auto)]

ghost use Rattle.worked.specs.Worked.{WorkedRuns};

// Asks for the table of worked runs.
pub fn worked_runs_hold()
    ensures { WorkedRuns }
{}
