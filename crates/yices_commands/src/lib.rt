//! Commands, expressions and types of the input language, as they were written, and what was read of a
//! command that isn't whole yet.
//!
//! No function stands here: the types are those of the syntax tree, each with the place of its first byte,
//! and words and literals are held as they were written. `specs/Plain.antt` says which command of the grammar
//! each of them is, by a fold over one layer, so that every contract above speaks of the commands of the
//! grammar alone; `proofs/Plain.antt` has the equation of each form. An unfinished command ([`state`]) is
//! what is due next and the stack of what stands around it, as in predictive parsing.
#![tactic(auto)]

mod command;
pub mod state;

pub use command::{
    Action, Bind, Binds, Command, Decl, Decls, Expr, ExprForm, Exprs, LitExpr, LitExprs, TypeExpr,
    TypeExprs, TypeForm,
};
pub use yices_grammar::Place;
