// Laws of the steps: each function only carries its clause.
ghost use Rattle.std.specs.Prelude.{◌≤◌};
ghost use Rattle.art_rows.specs.declared.table.Shape.{Shape};
ghost use Rattle.events.specs.declared.event.Call.{Call};
ghost use Rattle.art_rows.specs.declared.variant.Variant.{Variant};
ghost use Rattle.art_rows.specs.Act.{act};
ghost use Rattle.art_rows.specs.Fits.{AnswersFewPairs, StaysInTable};

/// Every access of every call is in the table and not on the clock, whatever words were got.
pub fn accesses_stay_in_table()
    ensures { (shape : Shape) (variant : Variant) (call : Call) → 1 ≤ shape.rows256 → StaysInTable shape (act shape variant call) }
{}

/// No reply of a call lists more pairs than a history may have, whatever words were got.
pub fn replies_list_few_pairs()
    ensures { (shape : Shape) (variant : Variant) (call : Call) → 1 ≤ shape.rows256 → AnswersFewPairs (act shape variant call) }
{}
