// Laws of the definitions of rows and lines: each is the contract of a function with an empty body.
ghost use Rattle.mib_rows.specs.Laws.{WrittenIsRead};

/// A row that a line can be is read again from its line.
pub fn written_is_read()
    ensures { WrittenIsRead }
{}
