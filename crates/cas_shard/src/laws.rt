//! What holds of every history of a shard.

ghost use Rattle.cas_shard.specs.Laws.{AllStand};

/// Where mutations are numbered by one, those up to the last are all of them.
pub fn all_stand_up_to_the_last()
    ensures { AllStand }
{}
