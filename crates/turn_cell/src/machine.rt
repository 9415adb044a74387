//! What a state does with an entry.
ghost use Rattle.std.specs.Prelude.{◌≡◌, ℕ};

/// A state that is changed by entries alone, one after another.
pub trait Machine {
    type Entry;

    type Reply;
    /// What contracts see of a state, of an entry and of a reply. No value of these three is made.
    type State;

    type Event;

    type Answer;

    ghost state: { Self → Self.State };

    ghost event: { Self.Entry → Self.Event };

    ghost answer: { Self.Reply → Self.Answer };

    ghost reply: { Self.State → Self.Event → Self.Answer };

    ghost after: { Self.State → Self.Event → Self.State };

    // The entries that this state can take.
    ghost fits: { Self.State → Self.Entry → Type 0 };

    // What a reply is beyond its answer, by the state before and the entry: what it hands back, or hands out.
    ghost gives: { Self.State → Self.Entry → Self.Reply → Type 0 };

    // The entries that a caller's number may make.
    ghost may: { ℕ → Self.Event → Type 0 };

    /// Takes the entry in and replies.
    fn act(&mut self, entry: Self::Entry) -> Self::Reply
        requires { fits (state self.old) entry }
        ensures gives { gives (state self.old) entry result }
        ensures reply { answer result ≡ reply (state self.old) (event entry) }
        ensures after { state self.new ≡ after (state self.old) (event entry) };
}
