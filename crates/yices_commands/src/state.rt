//! What was read of a command that isn't whole: what is due next, and what stands around it.

use crate::command::{
    Action, Bind, Binds, Command, Decls, Expr, ExprForm, Exprs, LitExpr, LitExprs, TypeExpr,
    TypeExprs,
};
use sqlite_items::Items;
use y_io::Text;
use yices_grammar::Place;

/// What the expression of a command is for.
#[derive(Drop)]
pub enum Purpose {
    /// A name and its type, to stand for it.
    Define(Text, TypeExpr),
    /// To hold.
    Assert,
    /// To be evaluated.
    Eval,
}

/// A form in which an expression is due, with what was read of it.
#[derive(Drop)]
pub enum Opened {
    /// An operator, and its arguments so far.
    Op(Text, Exprs),
    /// The bits to be extracted.
    Extract(Text, Text),
    /// The operator; a count comes behind the expression.
    Counted(Text),
    /// The function of an update is due.
    Update,
    /// The function of an update, and its arguments so far.
    Arguments(Expr, Exprs),
    /// The function of an update, and its arguments: the value is due.
    Value(Expr, Exprs),
    /// The bindings so far, and the name of the next.
    Bind(Binds, Text),
    /// All bindings: the body is due.
    Let(Binds),
    /// All declarations: the body is due.
    Forall(Decls),
    /// A function, and its arguments so far.
    Apply(Expr, Exprs),
    /// The function of an application, itself in brackets, is due.
    Head,
}

/// A form in which an expression is due, with the place of its opening bracket.
#[derive(Drop)]
pub struct Frame {
    pub place: Place,
    pub form: Opened,
}

/// What stands around an expression: the forms that are open, the innermost last, and what the whole is
/// for.
#[derive(Drop)]
pub struct Around {
    pub purpose: Purpose,
    pub frames: Items<Frame>,
}

/// A form in which a token is due, with what was read of it.
#[derive(Drop)]
pub enum Due {
    /// The width of a bit-vector.
    Width,
    /// The number of a bit-vector of that width.
    Number(Text),
    /// The highest bit to be extracted.
    High,
    /// The lowest bit to be extracted; the highest is known.
    Low(Text),
    /// The count of an operator and its argument.
    Count(Text, Expr),
    /// The bracket before the arguments of an update of that function.
    Arguments(Expr),
    /// The bracket before bindings.
    Bindings,
    /// The next binding, or the bracket behind these.
    Binding(Binds),
    /// The name of the next binding behind these.
    BindingName(Binds),
    /// The bracket behind a binding.
    BindingEnd(Binds, Bind),
    /// The bracket before declarations.
    Declarations,
    /// The next declaration, or the bracket behind these.
    Declaration(Decls),
    /// The typing mark behind the next name.
    DeclarationMark(Decls, Text),
    /// The closing bracket.
    End(ExprForm),
}

/// What an expression that was due leads to in its form.
#[derive(Drop)]
pub enum Filled {
    /// Another expression is due, or the end of a list of them.
    Opened(Opened),
    /// A token is due.
    Due(Due),
}

/// What a type is for.
#[derive(Drop)]
pub enum TypePurpose {
    /// A type name is to stand for it.
    DefineType(Text),
    /// A name is to have it.
    Define(Text),
    /// A variable is to have it: what stands around its `forall`, the place of that, the declarations so
    /// far, and the name.
    Variable(Around, Place, Decls, Text),
}

/// A function type in which a type is due: its place, and the types so far.
#[derive(Drop)]
pub struct Arrow {
    pub place: Place,
    pub types: TypeExprs,
}

/// What stands around a type: the function types that are open, the innermost last, and what the whole is
/// for.
#[derive(Drop)]
pub struct AroundType {
    pub purpose: TypePurpose,
    pub arrows: Items<Arrow>,
}

/// What is due in a command that has begun.
#[derive(Drop)]
pub enum Point {
    /// The word of the command.
    Word,
    /// The name that is to stand for a type.
    TypeName,
    /// The type that the name is to stand for, or the end.
    TypeOrEnd(Text),
    /// The name that is defined.
    Name,
    /// The typing mark behind it.
    Mark(Text),
    /// The expression that a name of a type is to stand for, or the end.
    ExprOrEnd(Text, TypeExpr),
    /// The next literal behind these, or the end.
    Literal(LitExprs),
    /// The word `not` of a literal at that place.
    LiteralNot(LitExprs, Place),
    /// The name in a literal at that place.
    LiteralName(LitExprs, Place),
    /// The closing bracket of a literal.
    LiteralEnd(LitExprs, LitExpr),
    /// The string to be written.
    Echo,
    /// The name of the file to be read.
    Include,
    /// The closing bracket of the command.
    End(Action),
    /// A type.
    Type(AroundType),
    /// The word behind the opening bracket of a type.
    TypeForm(AroundType, Place),
    /// The width in a type of bit-vectors.
    TypeWidth(AroundType, Place),
    /// The closing bracket of a type of bit-vectors of that width.
    TypeEnd(AroundType, Place, Text),
    /// An expression, or the end of a list of them.
    Expr(Around),
    /// The word behind the opening bracket of an expression.
    Form(Around, Place),
    /// A token of the form of an expression.
    Token(Around, Place, Due),
}

/// What was read of a command.
#[derive(Drop)]
pub enum State {
    /// No command has begun.
    Between,
    /// A command begins at that place.
    Inside(Place, Point),
}

/// What a token of a command leads to.
#[derive(Drop)]
pub enum Next {
    /// More is due.
    Goes(Point),
    /// The command is whole.
    Complete(Action),
}

/// What a token leads to.
#[derive(Drop)]
pub enum Step {
    /// The next state.
    Goes(State),
    /// A command is whole.
    Complete(Command),
}
