//! The laws of histories. Each is the contract of a function that does nothing.
ghost use Rattle.std.specs.Prelude.{◌≡◌, ◌↔◌, ◌==◌, ℕ, Bool, cond, List, [], ◌∷◌, ◌++◌};
ghost use Rattle.histories.specs.History.{IsLegal, IsOfSeatsBelow, calls_of, moves_of, state_after};
ghost use Rattle.histories.specs.Parts.{IsLegalInParts, PermitsInParts, with_move};
ghost use Rattle.histories.specs.declared.history.Move.{Move};

/// The state after two histories in a row.
pub fn state_in_parts<S, E, R>()
    ensures { (after : S → E → S) (state : S) (front rest : List (Move E R))
        → state_after after state (front ++ rest) ≡ state_after after (state_after after state front) rest }
{}

/// A history is legal where its front is, and the rest is from the state after the front.
pub fn legal_in_parts<S, E, R>()
    ensures { (reply : S → E → R) (after : S → E → S) (state : S) (front rest : List (Move E R)) → IsLegalInParts reply after state front rest }
{}

/// A legal history stays legal with one more move, whose reply is the machine's.
pub fn legal_with_a_move<S, E, R>()
    ensures { (reply : S → E → R) (after : S → E → S) (state : S) (front : List (Move E R)) (seat : ℕ) (entry : E)
        → IsLegal reply after state front → IsLegal reply after state (with_move reply after state front seat entry) }
{}

/// What a seat did in two histories in a row.
pub fn calls_in_parts<E, R>()
    ensures moves { (seat : ℕ) (front rest : List (Move E R)) → moves_of seat (front ++ rest) ≡ moves_of seat front ++ moves_of seat rest }
    ensures calls { (seat : ℕ) (front rest : List (Move E R)) → calls_of seat (front ++ rest) ≡ calls_of seat front ++ calls_of seat rest }
    ensures one { (seat : ℕ) (m : Move E R) → moves_of seat (m ∷ []) ≡ cond (m.seat == seat) (m ∷ []) [] }
{}

/// A history makes entries that its seats may make where both parts do, and so for the numbers of its seats.
pub fn permitted_in_parts<E, R>()
    ensures permits { (may : ℕ → E → Bool) (front rest : List (Move E R)) → PermitsInParts may front rest }
    ensures seats { (seats : ℕ) (front rest : List (Move E R))
        → IsOfSeatsBelow seats (front ++ rest) ↔ (IsOfSeatsBelow seats front × IsOfSeatsBelow seats rest) }
{}
