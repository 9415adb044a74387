ghost use Rattle.std.specs.Prelude.{◌≡◌, ◌<◌, ℕ, Bool, List, length, take};
ghost use Rattle.run_model.specs.DeskLines.{request_of};
ghost use Rattle.run_model.specs.Script.{script, reaches_limit};
ghost use Rattle.desk_lines.specs.ToCome.{meets_limit, reading_start, still};

/// At the start all lines of the script are still to come.
pub fn still_at_start()
    ensures { (octets : List ℕ) → still reading_start octets ≡ script octets }
{}

/// At the start the limit is ahead where the script reaches it.
pub fn limit_at_start()
    ensures { (octets : List ℕ) → meets_limit reading_start octets ≡ reaches_limit octets }
{}

/// A line that is too long asks for what its first 4,097 octets do.
pub fn long_asks_as_front()
    ensures { (several : Bool) (line : List ℕ) → 4096 < length line → request_of several (take 4097 line) ≡ request_of several line }
{}
