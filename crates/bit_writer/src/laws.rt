ghost use Rattle.bit_writer.specs.Laws.{WrittenIsRead};

/// A number that was written without a clash is read again from its field.
pub fn written_is_read()
    ensures { WrittenIsRead }
{}
