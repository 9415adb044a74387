ghost use Rattle.fold_state.specs.Laws.{FinishIsAStep};

/// What a packet's record says and what is kept after it, by its tables, are those of a step of the interpreter.
pub fn finish_is_a_step()
    ensures { FinishIsAStep }
{}
