// The laws, which hold of the definitions alone.

ghost use Rattle.std.specs.Prelude.{◌≡◌, ◌+◌, ◌*◌, ℕ, Bool, List, Option, length, true};
ghost use Rattle.expression_code.specs.program_logic.Placed.{Placed};
ghost use Rattle.expression_code.specs.program_logic.StraightCode.{Contents, AreFit, AreMet, after_all, are_straight};
ghost use Rattle.expression_code.specs.program_logic.StraightCode.{shown_by};
ghost use Rattle.expression_code.specs.program_logic.StraightCode.{state_at};
ghost use Rattle.expression_code.specs.Below.{MachineCode, Event, Instr, Leads};

/// The machine does what straight-line code is run to by symbols: wherever the code stands, and whatever state it
/// begins in, if each access goes to its address, which is a multiple of its size, and data is there, then as many
/// steps as there are instructions lead to that state, and show the list that is read off the code and the addresses
/// alone.
pub fn straight_code_is_run()
    ensures { (works : ℕ → Bool) (code : MachineCode) (p : ℕ) (instructions : List Instr) (places : List ℕ)
        (c : Contents)
        → are_straight works instructions ≡ true → Placed code p instructions
        → AreFit (λ (e : Option Event). Unit {0}) instructions places → AreMet instructions places c
        → Leads code (length instructions) (state_at p c) (shown_by p instructions places)
        (state_at (p + 4 * length instructions) (after_all instructions places c)) }
{}
