//! Laws of what a server stands on, and of transactions, over any run of its steps. The functions
//! do nothing: what they ensure is proved.
ghost use Rattle.std.specs.Prelude.{◌⊎◌};
ghost use Rattle.server_rules.specs.Ground.{Ground};
ghost use Rattle.repl_core.specs.Configured.{IsConfigured};
ghost use Rattle.repl_core.specs.Starting.{HasFault};
ghost use Rattle.repl_core.specs.declared.machine.Config.{Config};
ghost use Rattle.repl_core.specs.Commits.{CommittedMetNoNewer, NewestIsTheFoldOfWhatWasCommitted};
ghost use Rattle.repl_core.specs.Points.{ReadsAreOfTheirPoint, WhatWasHeldStays};
ghost use Rattle.repl_core.specs.SharedBounds.{SharedBoundsAreFixed};
ghost use Rattle.repl_core.specs.AttemptsUnderWay.{PointsAreOfAttempts, AttemptsAreToldTheirPoint};
ghost use Rattle.repl_core.specs.HonestRuns.{HonestFormsAskAsEvaluated};
ghost use Rattle.repl_core.specs.DosyncSettings.{DosyncsAreAttempts};
ghost use Rattle.repl_core.specs.AttemptsInRuns.{AttemptsInRunsAgree};

use server_rules::laws::{exact_comparisons_exist, there_is_one_right_reading};

/// Whatever a server begins with, there is something that it can stand on, unless the text that all
/// share has a fault: what is promised of all that is right is promised of something.
pub fn every_configuration_has_a_ground()
    ensures { (config : Config) → ((g : Ground) × IsConfigured g config) ⊎ HasFault config }
{
    there_is_one_right_reading();
    exact_comparisons_exist();
}

/// Where a commit was answered as committed, the newest version of each ref that it set or ensured
/// was not newer than the read point of its attempt. That of a ref that it commuted may be newer,
/// where the ref wasn't ensured.
pub fn committed_met_no_newer()
    ensures { CommittedMetNoNewer }
{}

/// Through a run of steps the newest value of a ref is the fold of the changes of it that were
/// committed, in order: a commit that sets it puts another value in its place, and one that
/// commutes it applies its functions to the value that was there. The fold begins with the value
/// that the ref was made with or, where the run doesn't make it, with what it was. The refs of a
/// tenant that goes are gone.
pub fn newest_is_the_fold_of_what_was_committed()
    ensures { NewestIsTheFoldOfWhatWasCommitted }
{}

/// In an attempt each read is answered by what the ref held at the attempt's read point, whatever
/// its history has lost since, or the attempt is to be made again.
pub fn reads_are_of_their_point()
    ensures { ReadsAreOfTheirPoint }
{}

/// What a shared ref held at a point that the commits have come to, it has held there after any
/// steps: so two attempts with one read point are told the same of it, however long they take.
pub fn what_was_held_stays()
    ensures { WhatWasHeldStays }
{}

/// Whatever steps were made: the history of each shared ref has the bounds 0 and 10.
pub fn shared_bounds_are_fixed()
    ensures { SharedBoundsAreFixed }
{}

/// Whatever steps were made: an actor with a read point has an attempt under way, and all that
/// shared refs told it since it began is of that point, which the commits have come to.
pub fn attempts_are_told_their_point()
    ensures under_way { PointsAreOfAttempts }
    ensures told { AttemptsAreToldTheirPoint }
{}

/// Whatever others did: each ask of an honest actor's form that runs is what its evaluation asked
/// next, after the answers before it.
pub fn honest_forms_ask_as_evaluated()
    ensures { HonestFormsAskAsEvaluated }
{}

/// A `dosync` of a form, that stands in no other, is up to so many attempts at its body.
pub fn dosyncs_are_attempts()
    ensures { DosyncsAreAttempts }
{}

/// Two runs of one server, by whatever steps of whatever tenants, and in each an attempt under way
/// of an actor that was honest; both at one `dosync` with the same setting. Where their own answers
/// are equal one by one as far as both have one, and each shared ref that both name held the same
/// at the two read points, the values that one saw begin those that the other saw.
pub fn attempts_in_runs_agree()
    ensures { AttemptsInRunsAgree }
{}
