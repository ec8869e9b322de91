//! The tokens of commands: what a token leads to in each state.
ghost use Rattle.std.specs.Prelude.{◌≡◌, ◌↔◌, IsTrue, None, Ok, true, false, Option};
ghost use Rattle.yices_grammar.specs.declared.Place.{Place as AnyPlace};
ghost use Rattle.yices_grammar.specs.Commands as grammar;
ghost use Rattle.yices_grammar.specs.Machine as machine;
ghost use Rattle.yices_grammar.specs.Machine.{Left, take_token};
ghost use Rattle.yices_grammar.specs.Tokens.{word as word_token, string as string_token, open_bracket, close_bracket, typing_mark, is_content};
ghost use Rattle.yices_grammar.specs.Words.{is_bad_token};
ghost use Rattle.yices_lexer.specs.Found.{plain_lexeme, IsGoodString};
ghost use Rattle.yices_parser.specs.States.{plain_state, plain_step};
ghost use Rattle.yices_parser.specs.Steps.{Takes, TakesNext, TakesStep, token_at, step_at};
ghost use Rattle.yices_parser.specs.Taking.{depth_behind, is_too_deep as is_past_limit, IsTaken, IsBetween, moved_of, state_of, depth_of};
ghost use Rattle.yices_commands.specs.declared.state.Point.TheVariants as point;
ghost use Rattle.yices_commands.specs.declared.state.State.TheVariants as state;

use crate::commands::{
    command_point, defined_name, literal_close, literal_name, literal_not, literal_word, type_name,
};
use crate::expressions::{expr_close, expr_word, form_open, form_word};
use crate::forms::{due_close, due_mark, due_open, due_word};
use crate::types::{bitvector_close, type_close, type_form_word, type_width_word, type_word};
use sqlite_items::Items;
use std::alloc::{AllocError, Global};
use y_io::Text;
use yices_commands::state::{Around, AroundType, Next, Point, Purpose, State, Step, TypePurpose};
use yices_commands::{Action, Command, TypeExpr};
use yices_grammar::Place;
use yices_lexer::{Lexeme, content_of, is_bad_literal};

/// How many brackets may be open at once.
const MAX_DEPTH: usize = 4096;

/// No token of the kind is due there.
fn refused<T: Drop, R>(there: T) -> Option<R>
    ensures { result ≡ None }
{
    let _ = there;
    None
}

/// A word where a type name may be followed by a type.
fn type_or_end_word(
    alloc: Global,
    name: Text,
    at: Place,
    word: &str,
) -> Result<Option<Point>, AllocError>
    ensures { (p : AnyPlace) → Takes p (step_at p (point.TypeOrEnd name) (token_at at (word_token word.now))) result }
{
    let purpose = TypePurpose::DefineType(name);
    let arrows = Items::new(alloc);
    type_word(alloc, AroundType { purpose, arrows }, at, word)
}

/// A word where a name and its type may be followed by an expression.
fn expr_or_end_word(
    alloc: Global,
    name: Text,
    of: TypeExpr,
    at: Place,
    word: &str,
) -> Result<Option<Point>, AllocError>
    ensures { (p : AnyPlace) → Takes p (step_at p (point.ExprOrEnd name of) (token_at at (word_token word.now))) result }
{
    let purpose = Purpose::Define(name, of);
    let frames = Items::new(alloc);
    expr_word(alloc, Around { purpose, frames }, at, word)
}

/// A word.
#[tactic(auto, using(crate::proofs::Dispatching::no_word))]
fn word(alloc: Global, point: Point, at: Place, word: &str) -> Result<Option<Point>, AllocError>
    ensures { (p : AnyPlace) → Takes p (step_at p point (token_at at (word_token word.now))) result }
{
    match point {
        Point::Word => Ok(command_point(alloc, word)),
        Point::TypeName => type_name(alloc, word),
        Point::TypeOrEnd(name) => type_or_end_word(alloc, name, at, word),
        Point::Name => defined_name(alloc, word),
        Point::ExprOrEnd(name, of) => expr_or_end_word(alloc, name, of, at, word),
        Point::Literal(literals) => literal_word(alloc, literals, at, word),
        Point::LiteralNot(literals, place) => Ok(literal_not(literals, place, word)),
        Point::LiteralName(literals, place) => literal_name(alloc, literals, place, at, word),
        Point::Type(around) => type_word(alloc, around, at, word),
        Point::TypeForm(around, place) => type_form_word(alloc, around, place, word),
        Point::TypeWidth(around, place) => type_width_word(alloc, around, place, word),
        Point::Expr(around) => expr_word(alloc, around, at, word),
        Point::Form(around, place) => form_word(alloc, around, place, at, word),
        Point::Token(around, place, due) => due_word(alloc, around, place, due, word),
        other => Ok(refused(other)),
    }
}

/// An opening bracket.
#[tactic(auto, using(crate::proofs::Beginning::type_or_end_open, crate::proofs::Beginning::expr_or_end_open, crate::proofs::Beginning::literal_open, crate::proofs::Typing::type_open, crate::proofs::Entering::expr_open, crate::proofs::Dispatching::no_open))]
fn opened(alloc: Global, point: Point, at: Place) -> Result<Option<Point>, AllocError>
    ensures { (p : AnyPlace) → Takes p (step_at p point (token_at at open_bracket)) result }
{
    match point {
        Point::TypeOrEnd(name) => {
            let purpose = TypePurpose::DefineType(name);
            let arrows = Items::new(alloc);
            Ok(Some(Point::TypeForm(AroundType { purpose, arrows }, at)))
        }
        Point::ExprOrEnd(name, of) => {
            let purpose = Purpose::Define(name, of);
            let frames = Items::new(alloc);
            Ok(Some(Point::Form(Around { purpose, frames }, at)))
        }
        Point::Literal(literals) => Ok(Some(Point::LiteralNot(literals, at))),
        Point::Type(around) => Ok(Some(Point::TypeForm(around, at))),
        Point::Expr(around) => Ok(Some(Point::Form(around, at))),
        Point::Form(around, place) => form_open(around, place, at),
        Point::Token(around, place, due) => due_open(alloc, around, place, due),
        other => Ok(refused(other)),
    }
}

/// The command goes on.
fn goes_on(taken: Result<Option<Point>, AllocError>) -> Result<Option<Next>, AllocError>
    ensures { (p : AnyPlace) (left : Option (Left grammar.Command)) → Takes p left taken → TakesNext p left result }
{
    match taken {
        Ok(Some(point)) => Ok(Some(Next::Goes(point))),
        Ok(None) => Ok(None),
        Err(error) => Err(error),
    }
}

/// A closing bracket.
#[tactic(auto, using(crate::proofs::Dispatching::ends_type_name, crate::proofs::Dispatching::ends_name, crate::proofs::Dispatching::ends_literals, crate::proofs::Dispatching::ends_action, crate::proofs::Dispatching::no_close))]
fn closed(alloc: Global, point: Point) -> Result<Option<Next>, AllocError>
    ensures { (p t : AnyPlace) → TakesNext p (step_at p point (token_at t close_bracket)) result }
{
    match point {
        Point::TypeOrEnd(name) => Ok(Some(Next::Complete(Action::DefineType(name)))),
        Point::ExprOrEnd(name, of) => Ok(Some(Next::Complete(Action::Declare(name, of)))),
        Point::Literal(literals) => Ok(Some(Next::Complete(Action::CheckAssuming(literals)))),
        Point::End(action) => Ok(Some(Next::Complete(action))),
        Point::LiteralEnd(literals, literal) => goes_on(literal_close(literals, literal)),
        Point::Type(around) => goes_on(type_close(alloc, around)),
        Point::TypeEnd(around, place, width) => goes_on(bitvector_close(around, place, width)),
        Point::Expr(around) => goes_on(expr_close(alloc, around)),
        Point::Token(around, place, due) => goes_on(due_close(alloc, around, place, due)),
        other => Ok(refused(other)),
    }
}

/// The typing mark.
#[tactic(auto, using(crate::proofs::Beginning::name_mark, crate::proofs::Dispatching::no_mark))]
fn marked(alloc: Global, point: Point) -> Option<Point>
    ensures { (p t : AnyPlace) → Takes p (step_at p point (token_at t typing_mark)) (Ok result) }
{
    match point {
        Point::Mark(name) => {
            let purpose = TypePurpose::Define(name);
            let arrows = Items::new(alloc);
            Some(Point::Type(AroundType { purpose, arrows }))
        }
        Point::Token(around, place, due) => due_mark(alloc, around, place, due),
        other => refused(other),
    }
}

/// A string, as it stands between its quotes.
#[tactic(auto, using(crate::proofs::Dispatching::echo_string, crate::proofs::Dispatching::include_string, crate::proofs::Dispatching::no_string))]
fn quoted(alloc: Global, point: Point, content: &str) -> Result<Option<Point>, AllocError>
    requires { is_content content.now ≡ true }
    ensures { (p t : AnyPlace) → Takes p (step_at p point (token_at t (string_token content.now))) result }
{
    match point {
        Point::Echo => {
            let bytes = content_of(alloc, content)?;
            Ok(Some(Point::End(Action::Echo(bytes))))
        }
        Point::Include => {
            let name = content_of(alloc, content)?;
            Ok(Some(Point::End(Action::Include(name))))
        }
        other => Ok(refused(other)),
    }
}

/// A token inside a command.
fn inside(
    alloc: Global,
    point: Point,
    at: Place,
    lexeme: Lexeme<'_>,
) -> Result<Option<Next>, AllocError>
    requires { IsGoodString lexeme }
    ensures { (p : AnyPlace) → TakesNext p (step_at p point (token_at at (plain_lexeme lexeme.entry))) result }
{
    match lexeme {
        Lexeme::Open => goes_on(opened(alloc, point, at)),
        Lexeme::Close => closed(alloc, point),
        Lexeme::Mark => goes_on(Ok(marked(alloc, point))),
        Lexeme::Word(text) => goes_on(word(alloc, point, at, text)),
        Lexeme::Quoted(content) => goes_on(quoted(alloc, point, content)),
    }
}

/// The opening bracket of a command.
#[tactic(auto, using(crate::proofs::Dispatching::begins, crate::proofs::Dispatching::no_begin))]
fn begin(at: Place, lexeme: Lexeme<'_>) -> Option<Step>
    ensures { TakesStep (take_token machine.between (token_at at (plain_lexeme lexeme.entry))) (Ok result) }
{
    let Lexeme::Open = lexeme else {
        return None;
    };
    Some(Step::Goes(State::Inside(at, Point::Word)))
}

/// A token inside a command that begins there.
#[tactic(auto, using(crate::proofs::Dispatching::step_goes, crate::proofs::Dispatching::step_completes, crate::proofs::Dispatching::step_none))]
fn step_inside(
    alloc: Global,
    place: Place,
    point: Point,
    at: Place,
    lexeme: Lexeme<'_>,
) -> Result<Option<Step>, AllocError>
    requires { IsGoodString lexeme }
    ensures { TakesStep (take_token (plain_state (state.Inside place point)) (token_at at (plain_lexeme lexeme.entry))) result }
{
    match inside(alloc, point, at, lexeme)? {
        Some(Next::Goes(point)) => Ok(Some(Step::Goes(State::Inside(place, point)))),
        Some(Next::Complete(action)) => Ok(Some(Step::Complete(Command { place, action }))),
        None => Ok(None),
    }
}

/// A token.
fn step(
    alloc: Global,
    state: State,
    at: Place,
    lexeme: Lexeme<'_>,
) -> Result<Option<Step>, AllocError>
    requires { IsGoodString lexeme }
    ensures { TakesStep (take_token (plain_state state) (token_at at (plain_lexeme lexeme.entry))) result }
{
    match state {
        State::Between => Ok(begin(at, lexeme)),
        State::Inside(place, point) => step_inside(alloc, place, point, at, lexeme),
    }
}

fn is_bad(lexeme: Lexeme<'_>) -> bool
    ensures { result ≡ is_bad_token (plain_lexeme lexeme.entry) }
{
    match lexeme {
        Lexeme::Word(word) => is_bad_literal(word),
        Lexeme::Open | Lexeme::Close | Lexeme::Mark | Lexeme::Quoted(_) => false,
    }
}

/// Whether the token is an opening bracket past the limit, where so many are open.
fn is_too_deep(depth: usize, lexeme: Lexeme<'_>) -> bool
    ensures { result ≡ is_past_limit depth (plain_lexeme lexeme.entry) }
{
    match lexeme {
        Lexeme::Open => MAX_DEPTH <= depth,
        Lexeme::Close | Lexeme::Mark | Lexeme::Word(_) | Lexeme::Quoted(_) => false,
    }
}

/// How many brackets are open behind the token.
fn next_depth(depth: usize, lexeme: Lexeme<'_>) -> usize
    requires { is_past_limit depth (plain_lexeme lexeme) ≡ false }
    ensures { result ≡ depth_behind depth (plain_lexeme lexeme.entry) }
{
    match lexeme {
        Lexeme::Open => depth + 1,
        Lexeme::Close => depth.saturating_sub(1),
        Lexeme::Mark | Lexeme::Word(_) | Lexeme::Quoted(_) => depth,
    }
}

/// What was read of a command, with how many brackets are open.
#[derive(Drop)]
pub struct Parser {
    depth: usize,
    state: State,
}

/// Behind a token: the parser, and the command that the token ends.
#[derive(Drop)]
pub struct Taken {
    pub parser: Parser,
    pub command: Option<Command>,
}

/// Why a token isn't taken.
#[derive(Clone, Copy, Debug, PartialEq, Eq, Hash)]
pub enum TokenError {
    /// The word begins as a literal and has no form of one.
    BadLiteral,
    /// The opening bracket is past the limit of open brackets.
    Nesting,
    /// No list of commands goes on with the token.
    Unexpected,
    /// Memory ran out.
    NoMemory,
}

/// The parser and the command behind a step.
fn behind(depth: usize, step: Step) -> Taken
    ensures depth { depth_of result.parser ≡ depth }
    ensures moved { moved_of result ≡ plain_step step }
{
    match step {
        Step::Goes(state) => Taken {
            parser: Parser { depth, state },
            command: None,
        },
        Step::Complete(command) => Taken {
            parser: Parser {
                depth,
                state: State::Between,
            },
            command: Some(command),
        },
    }
}

impl Parser {
    /// Before the first token of a text.
    pub fn start() -> Parser
        ensures depth { depth_of result ≡ 0 }
        ensures state { state_of result ≡ machine.between }
    {
        Parser {
            depth: 0,
            state: State::Between,
        }
    }

    /// Whether no command has begun that isn't whole.
    pub fn is_between(&self) -> bool
        ensures { IsTrue result ↔ IsBetween (state_of self.now) }
    {
        matches!(&self.state, State::Between)
    }

    /// The next token, which is judged in this order: as a token, as a bracket, by the grammar. A parser
    /// that refused a token is gone.
    pub fn take(self, alloc: Global, at: Place, lexeme: Lexeme<'_>) -> Result<Taken, TokenError>
        requires { IsGoodString lexeme }
        ensures { IsTaken (depth_of self) (state_of self) at (plain_lexeme lexeme.entry) result }
    {
        let Parser { depth, state } = self;
        if is_bad(lexeme) {
            return Err(TokenError::BadLiteral);
        }
        if is_too_deep(depth, lexeme) {
            return Err(TokenError::Nesting);
        }
        let depth = next_depth(depth, lexeme);
        match step(alloc, state, at, lexeme) {
            Ok(Some(step)) => Ok(behind(depth, step)),
            Ok(None) => Err(TokenError::Unexpected),
            Err(_) => Err(TokenError::NoMemory),
        }
    }
}
