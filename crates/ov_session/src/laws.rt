//! What holds of the input of each session.
ghost use Rattle.ov_session.specs.Laws.{InputsEndOneWay};

/// The law of inputs: the same bytes are the same frames with the same kind of end behind them.
pub fn inputs_end_one_way()
    ensures { InputsEndOneWay }
{}
