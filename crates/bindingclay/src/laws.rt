//! What holds of all steps that the functions make.
ghost use Rattle.bindingclay.specs.Sayable.{AreSayable};

/// Lines of scripts can say them, so a record reads back as the steps that were made.
pub fn sayable_steps()
    ensures { AreSayable }
{}
