//! What the touches of an edit carry.
ghost use Rattle.nested_method.specs.Laws.{TouchesStand};
ghost use Rattle.nested_method.specs.Scripted.{HistoriesMakeSound};

/// Each touch of an edit carries the version that stands behind the edit.
pub fn touches_stand()
    ensures { TouchesStand }
{}

/// In a script each cut of the pools is sound for the script's history.
pub fn histories_make_sound()
    ensures { HistoriesMakeSound }
{}
