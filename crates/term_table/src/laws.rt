//! What follows from the relations of the table's calls. These functions do nothing.
ghost use Rattle.std.specs.Prelude.{◌≡◌, None};
ghost use Rattle.y_tree.specs.Tree.{Tree, Trees, node};
ghost use Rattle.term_shapes.specs.declared.handles.Term.{Term};
ghost use Rattle.term_shapes.specs.declared.handles.TypeId.{TypeId};
ghost use Rattle.term_shapes.specs.declared.shapes.Node.{Node};
ghost use Rattle.term_shapes.specs.declared.shapes.Shape.{Shape};
ghost use Rattle.term_shapes.specs.Shapes.{args_of};
ghost use Rattle.term_table.specs.World.{World, node_at, HasNode, Keeps, KeepsAll, IsTable, IsAfter, IsFreedTerm};
ghost use Rattle.shape_rules.specs.Rules.{IsOperator, operator};
ghost use Rattle.term_table.specs.Changes.{AddsTerm, IsTyped, Sweeps, IsClosed, IsMarked};
ghost use Rattle.term_table.specs.Checking.{IsShape};

/// What a handle stands for stays when a term is added, and no freed handle comes back.
#[tactic(auto, using(crate::proofs::Lasting::adding_keeps, crate::proofs::Lasting::adding_after))]
pub fn after_adding()
    ensures keeps { (old new : World) (t : Term) (n : Node) → IsTable old → AddsTerm old new t n → (u : Term) (a : Tree) → Keeps old u a → Keeps new u a }
    ensures after { (old new : World) (t : Term) (n : Node) → AddsTerm old new t n → IsAfter old new }
{}

/// After a sweep exactly the marked terms are live, and they stand for the same trees.
#[tactic(auto, using(crate::proofs::Lasting::sweeping_keeps, crate::proofs::Lasting::sweeping_only, crate::proofs::Lasting::sweeping_after))]
pub fn after_sweeping()
    ensures keeps { (old new : World) → IsTable old → IsClosed old → Sweeps old new → (t : Term) (a : Tree) → IsMarked old t → Keeps old t a → Keeps new t a }
    ensures only { (old new : World) → Sweeps old new → (t : Term) (n : Node) → HasNode new t n → HasNode old t n × IsMarked old t }
    ensures after { (old new : World) → Sweeps old new → IsAfter old new }
{}

/// A freed handle is dead, now and in all later tables.
#[tactic(auto, using(crate::proofs::Lasting::dead_for_good, crate::proofs::Lasting::freed_term_dead))]
pub fn freed_is_dead()
    ensures dead { (w : World) (t : Term) → IsFreedTerm w t → node_at w t ≡ None }
    ensures good { (old new : World) → IsAfter old new → (t : Term) → IsFreedTerm old t → IsFreedTerm new t }
{}

/// A shape that is checked is typed, with one type.
#[tactic(auto, using(crate::proofs::Standing::shape_typed, crate::proofs::Standing::shape_one))]
pub fn checked_is_typed()
    ensures typed { (w : World) (s : Shape) (of : TypeId) → IsTable w → IsShape w s of → IsTyped w s of }
    ensures one { (w : World) (s : Shape) (t u : TypeId) → IsTable w → IsShape w s t → IsShape w s u → t ≡ u }
{}

/// A term that is added stands for the operator over what its arguments stand for.
#[tactic(auto, using(crate::proofs::Standing::added_stands))]
pub fn added_stands()
    ensures { (old new : World) (t : Term) (n : Node) (trees : Trees) → IsTable old → AddsTerm old new t n → IsOperator n.shape → KeepsAll old (args_of n.shape) trees → Keeps new t (node (operator n.shape) trees) }
{}
