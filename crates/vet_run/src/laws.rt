//! Laws of what a run writes, as contracts of calls that do nothing.
ghost use Rattle.vet_run.specs.Together.{ShowTogether};

/// What `--change` shows of each rule that a record breaks is together the first change of all
/// rules, each of which has to hold.
pub fn changes_together()
    ensures { ShowTogether }
{}
