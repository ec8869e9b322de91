//! From the tokens of the input language to its commands: a parser that takes the tokens one by one and
//! keeps the stack of what is open in the unfinished command.
//!
//! Its one contract is [`Parser::take`]: each step is that of the machine over the rules of the grammar,
//! whose state is what is left to read. A state of the code says what is due next, and the forms that
//! stand around it; `specs/States.antt` says for each what is left. So no second machine is needed, and
//! the parser has no recursion. The method is that of predictive parsing with an explicit stack.
#![tactic(auto)]

mod commands;
mod expressions;
mod forms;
mod parser;
mod types;

pub use parser::{Parser, Taken, TokenError};
pub use yices_commands::{
    Action, Bind, Binds, Command, Decl, Decls, Expr, ExprForm, Exprs, LitExpr, LitExprs, TypeExpr,
    TypeExprs, TypeForm,
};
pub use yices_grammar::Place;
