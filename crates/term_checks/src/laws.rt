//! What is said of formulas by their trees alone. These functions do nothing: their clauses are laws.
ghost use Rattle.term_checks.specs.Lasting.{OneTreeEach, FormulasLast, ModelsLast, CoresLast, LearnedLasts, OtherSortsLast};

/// A term stands for one tree.
pub fn one_tree_each()
    ensures { OneTreeEach }
{}

/// A formula stays one in each table where a term stands for its tree: where terms are added, and where a collection
/// leaves the term.
pub fn formulas_last()
    ensures { FormulasLast }
{}

/// A verdict speaks of the trees that the formulas and assumptions stand for, and of nothing else: what is said of one
/// table's terms is said of another's that stand for the same trees.
pub fn verdicts_last()
    ensures models { ModelsLast }
    ensures cores { CoresLast }
    ensures learned { LearnedLasts }
    ensures refused { OtherSortsLast }
{}
