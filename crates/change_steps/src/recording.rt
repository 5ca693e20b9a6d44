//! Laws of a roll and of a record that is added.
ghost use Rattle.change_steps.specs.Recording.{RecordGoesBehind, RecordGoesBehindRoll, RollAnswers, RecordAnswers, RollKeepsFiles, RecordKeepsFiles};

/// A record that leaves a block for an end goes behind the others.
pub fn record_goes_behind()
    ensures { RecordGoesBehind }
{}

/// A record that doesn't goes behind the snapshot of a roll.
pub fn record_goes_behind_roll()
    ensures { RecordGoesBehindRoll }
{}

/// A roll is never refused.
pub fn roll_answers()
    ensures { RollAnswers }
{}

/// A record that is added is never refused.
pub fn record_answers()
    ensures { RecordAnswers }
{}

/// A roll changes neither files nor geometry.
pub fn roll_keeps_files()
    ensures { RollKeepsFiles }
{}

/// A record that is added changes neither files nor geometry.
pub fn record_keeps_files()
    ensures { RecordKeepsFiles }
{}
