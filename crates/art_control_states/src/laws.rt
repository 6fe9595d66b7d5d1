// Laws of stages and of refusals: each function only carries its clause.
ghost use Rattle.std.specs.Prelude.{◌≡◌, ℕ, List, [], ◌∷◌, ◌++◌, false};
ghost use Rattle.events.specs.declared.event.Call.TheVariants.{Scan};
ghost use Rattle.art_rows.specs.Rows.{Setting, is_scan};
ghost use Rattle.art_rows.specs.Act.{act};
ghost use Rattle.art_control_states.specs.declared.stage.Stage.{Stage};
ghost use Rattle.art_control_states.specs.Stages.{rest_in};
ghost use Rattle.art_control_states.specs.Automaton.{stage_after};
ghost use Rattle.art_control_states.specs.Scans.{ScanAt, scan_in, scan_after};
ghost use Rattle.art_control_states.specs.Calls.{CallAt, rest_at, call_turn, call_after_words};
ghost use Rattle.art_rows.specs.declared.table.Shape.{Shape};
ghost use Rattle.events.specs.declared.event.Call.{Call};
ghost use Rattle.art_rows.specs.declared.variant.Variant.{Variant};
ghost use Rattle.art_rows.specs.Fits.{RefusesOnlyAtCapacity};

/// What a stage does next is what is left of the call there.
pub fn stages_ask()
    ensures { (c : Setting) (at : CallAt) → rest_at c at [] ≡ call_turn c at }
{}

/// What is left of a call on a key after a word is what is left at the next stage.
pub fn stages_go_on()
    ensures { (c : Setting) (stage : Stage) (word : ℕ) (rest : List ℕ) → is_scan c.call ≡ false
        → rest_in c (stage_after c stage word) rest ≡ rest_in c stage (word ∷ rest) }
{}

/// What is left of a scan after a word is what is left at the next stage.
pub fn scans_go_on()
    ensures { (c : Setting) (low high : ℕ) (scan : ScanAt) (word : ℕ) (rest : List ℕ) → c.call ≡ Scan low high
        → scan_in c low high (scan_after c low high scan word) rest ≡ scan_in c low high scan (word ∷ rest) }
{}

/// Every list of words got leaves every call of every variant at a stage, and what is left there is what the call does next.
pub fn calls_are_at_stages()
    ensures { (c : Setting) (got more : List ℕ) → rest_at c (call_after_words c got) more ≡ act c.shape c.variant c.call (got ++ more) }
{}

/// A call is refused only if its last claim got a number at or past its kind's capacity.
pub fn refuses_only_at_capacity()
    ensures { (shape : Shape) (variant : Variant) (call : Call) → RefusesOnlyAtCapacity shape variant call }
{}
