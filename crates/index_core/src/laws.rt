//! Laws of the definitions.
ghost use Rattle.index_core.specs.WorkedHistories.{WorkedHistories};

/// What a record says of generations, of merges and of what is merged has the worked values.
pub fn worked_histories()
    ensures { WorkedHistories }
{}
