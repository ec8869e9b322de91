//! The reader of the input language: from pieces of bytes to commands.
//!
//! Its one contract is [`Reader::next`]: the commands answered are those that the bytes fed begin with, and
//! a fault is answered exactly where the text has it behind them, however the text is cut into pieces.
//! Each byte is looked at once: it makes tokens, each token goes to the parser, and whole commands wait in
//! a queue until they are answered. It is right because the state after some bytes says what they are: the
//! pieces that are whole however the text goes on, the commands and the part of one more that the machine
//! of the grammar made of their tokens, and the bytes of the unfinished token. A text has one fault at
//! most, since what is wrong behind a state is a function of the text behind it.
#![tactic(auto)]

mod error;
mod laws;
mod queue;
mod reader;
mod scanner;

pub use error::{ReadError, SyntaxError, SyntaxKind};
pub use laws::pieces_are_alike;
pub use reader::Reader;
pub use yices_grammar::Place;
pub use yices_parser::{
    Action, Bind, Binds, Command, Decl, Decls, Expr, ExprForm, Exprs, LitExpr, LitExprs, TypeExpr,
    TypeExprs, TypeForm,
};
