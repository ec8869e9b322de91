//! What follows from how texts are made. This function does nothing.
ghost use Rattle.std.specs.Prelude.{◌≡◌, ℕ, List, IsSome};
ghost use Rattle.term_shapes.specs.declared.handles.Term.{Term};
ghost use Rattle.term_table.specs.World.{World, node_at, IsTable};
ghost use Rattle.term_texts.specs.TermTexts.{Writes};

/// Each live term has a text, and only one.
pub fn one_text()
    ensures has { (w : World) (t : Term) → IsTable w → IsSome (node_at w t) → (text : List ℕ) × Writes w t text }
    ensures one { (w : World) (t : Term) (x y : List ℕ) → Writes w t x → Writes w t y → x ≡ y }
{}
