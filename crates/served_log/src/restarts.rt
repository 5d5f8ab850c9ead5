//! A law of restarts.
ghost use Rattle.std.specs.Prelude.{List};
ghost use Rattle.served_log.specs.Restarts.{FollowFrom, HaveOwnNames, Run};

/// The names of replicas never repeat: over any number of runs of one file, each of which found an
/// epoch that is no smaller than the one that the run before it began, no two servers had the same
/// name, under whatever NAME they ran. It does nothing.
pub fn names_differ()
    ensures names { (runs : List Run) → FollowFrom 0 runs → HaveOwnNames runs }
{}
