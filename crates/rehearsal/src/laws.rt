// What holds of rehearsals, each the contract of an empty function: a caller has it by the call.
ghost use Rattle.std.specs.Prelude.{ℕ, ◌≤◌};
ghost use Rattle.rehearsal.specs.Script.{IsOfScript};

/// A script of the same frames, the seal and the START is stored by the world behind scripts, line
/// for line, and its transcript has a line for each message of the rehearsal, and no other.
pub fn a_rehearsal_is_a_script()
    ensures { (n : ℕ) → 1 ≤ n → n ≤ 20000 → IsOfScript n }
{}
