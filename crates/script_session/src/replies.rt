//! The texts of replies.
ghost use Rattle.std.specs.Prelude.{◌≡◌, ◌≤◌, ◌++◌, IfOk, IsErrOf, IsSome, OnOk, codes, decimal, length, string_bytes};
ghost use Rattle.term_table.specs.World.{node_at, type_shape_at};
ghost use Rattle.term_texts.specs.TermTexts.{text_limit};
ghost use Rattle.term_texts.specs.TypeTexts.{type_text};
ghost use Rattle.yices_api.specs.Printing.{IsPrintable, IsRefusalLive, IsWantedLive};
ghost use Rattle.script_session.specs.declared.replies.TextError.TheVariants as error;
ghost use Rattle.script_session.specs.Replies as replies;
ghost use Rattle.script_session.specs.Replies.{AppendsRefusal, IsLongRefusal, IsLongReply, Prints, wanted_text};

use itoa::Buffer;
use std::alloc::{AllocError, AllocFailed, Global};
use term_texts::{PrintError, write_term, write_type};
use yices_api::{CallError, Env, Reply, Status, Table, Term, TypeId, Wanted};

/// The most bytes of a reply's text.
const LIMIT: usize = 67_108_864;

/// Why a reply has no text.
#[derive(Clone, Copy, Debug, PartialEq, Eq, Drop)]
pub enum TextError {
    /// The text has more than `2^26` bytes.
    TooLong,
    /// Memory was refused.
    NoMemory,
}

impl From<AllocError> for TextError {
    ghost from_gives = { λ _ e. e ≡ error.NoMemory };

    fn from(_error: AllocError) -> TextError {
        TextError::NoMemory
    }
}

impl<T: Drop> From<AllocFailed<T>> for TextError {
    ghost from_gives = { λ _ e. e ≡ error.NoMemory };

    fn from(_error: AllocFailed<T>) -> TextError {
        TextError::NoMemory
    }
}

/// The line of a reply with that text to the line of that number.
pub(crate) fn reply_line(alloc: Global, number: u64, text: &str) -> Result<String, AllocError>
    ensures { IfOk result (λ line. string_bytes line ≡ replies.reply_line number text.now) }
{
    let mut buffer = Buffer::new();
    let mut line = String::from_str(alloc, "#")?;
    line.push_str(buffer.format(number))?;
    line.push_str(" ")?;
    line.push_str(text)?;
    line.push_str("\n")?;
    Ok(line)
}

/// The text of a reply. Want of memory has none, and is handed on.
pub(crate) fn reply_text(alloc: Global, env: &Env, reply: &Reply) -> Result<String, TextError>
    requires { IsPrintable env.now reply.now }
    ensures text { IfOk result (λ text. Prints env.now.table reply.now (string_bytes text)) }
    ensures fits { IfOk result (λ text. length (string_bytes text) ≤ text_limit) }
    ensures long { IsErrOf result error.TooLong → IsLongReply env.now.table reply.now }
{
    let text = spell(alloc, env, reply)?;
    if text.len() > LIMIT {
        return Err(TextError::TooLong);
    }
    Ok(text)
}

fn spell(alloc: Global, env: &Env, reply: &Reply) -> Result<String, TextError>
    requires { IsPrintable env.now reply.now }
    ensures text { IfOk result (λ text. Prints env.now.table reply.now (string_bytes text)) }
    ensures long { IsErrOf result error.TooLong → IsLongReply env.now.table reply.now }
{
    let mut buffer = Buffer::new();
    match reply {
        Reply::TypeId(t) => {
            let mut out = String::from_str(alloc, "type ")?;
            push_type(&mut out, alloc, env.table(), *t)?;
            Ok(out)
        }
        Reply::Term(_) => Ok(String::from_str(alloc, "term")?),
        Reply::Context(_) => Ok(String::from_str(alloc, "context")?),
        Reply::Terms(terms) => {
            let mut out = String::from_str(alloc, "list ")?;
            push_number(&mut out, terms.len())?;
            Ok(out)
        }
        Reply::Done => Ok(String::from_str(alloc, "ok")?),
        Reply::Nothing => Ok(String::from_str(alloc, "none")?),
        Reply::Flag(true) => Ok(String::from_str(alloc, "true")?),
        Reply::Flag(false) => Ok(String::from_str(alloc, "false")?),
        Reply::Number(n) => Ok(String::from_str(alloc, buffer.format(*n))?),
        Reply::Text(text) => Ok(String::from_str(alloc, text.as_str())?),
        Reply::Status(Status::Idle) => Ok(String::from_str(alloc, "idle")?),
        Reply::Status(Status::Sat) => Ok(String::from_str(alloc, "sat")?),
        Reply::Status(Status::Unsat) => Ok(String::from_str(alloc, "unsat")?),
        Reply::Status(Status::Unknown) => Ok(String::from_str(alloc, "unknown")?),
        Reply::Refused(e) => {
            let mut out = String::from_str(alloc, "refused ")?;
            push_refusal(&mut out, alloc, env.table(), e)?;
            Ok(out)
        }
        Reply::NoMemory => Err(TextError::NoMemory),
    }
}

/// The name of a refusal and its values.
fn push_refusal(
    out: &mut String,
    alloc: Global,
    table: &Table,
    e: &CallError,
) -> Result<(), TextError>
    requires { IsRefusalLive table.now e.now }
    ensures text { OnOk result (AppendsRefusal table.now e.now (string_bytes out.old) (string_bytes out.new)) }
    ensures long { IsErrOf result error.TooLong → IsLongRefusal table.now e.now }
{
    match e {
        CallError::NoResult(place) => push_value(out, "NoResult ", *place),
        CallError::WrongKind(place) => push_value(out, "WrongKind ", *place),
        CallError::DeadContext(place) => push_value(out, "DeadContext ", *place),
        CallError::DeadType(place) => push_value(out, "DeadType ", *place),
        CallError::DeadTerm(place) => push_value(out, "DeadTerm ", *place),
        CallError::BadArity(count) => push_value(out, "BadArity ", *count),
        CallError::WrongType {
            place,
            wanted,
            found,
        } => push_wrong_type(out, alloc, table, *place, *wanted, *found),
        CallError::WidthsDiffer { place, left, right } => push_widths(out, *place, *left, *right),
        CallError::BadWidth(width) => push_width(out, *width),
        CallError::BadRange => push_word(out, "BadRange"),
        CallError::CountFull => push_word(out, "CountFull"),
        CallError::CountZero => push_word(out, "CountZero"),
        CallError::NotBool(place) => push_value(out, "NotBool ", *place),
        CallError::HasVariable(variable) => push_variable(out, alloc, table, *variable),
        CallError::TooDeep => push_word(out, "TooDeep"),
        CallError::BottomLevel => push_word(out, "BottomLevel"),
        CallError::TooMany => push_word(out, "TooMany"),
        CallError::TooLong => push_word(out, "TooLong"),
        CallError::TableFull => push_word(out, "TableFull"),
        CallError::NoCore => push_word(out, "NoCore"),
        CallError::NotBuilt => push_word(out, "NotBuilt"),
    }
}

fn push_word(out: &mut String, word: &str) -> Result<(), TextError>
    ensures text { OnOk result (string_bytes out.new ≡ string_bytes out.old ++ word.now) }
    ensures short { IsErrOf result error.TooLong → ⊥ }
{
    out.push_str(word)?;
    Ok(())
}

fn push_number(out: &mut String, n: usize) -> Result<(), TextError>
    ensures text { OnOk result (string_bytes out.new ≡ string_bytes out.old ++ decimal n) }
    ensures short { IsErrOf result error.TooLong → ⊥ }
{
    let mut buffer = Buffer::new();
    out.push_str(buffer.format(n))?;
    Ok(())
}

fn push_value(out: &mut String, name: &str, n: usize) -> Result<(), TextError>
    ensures text { OnOk result (string_bytes out.new ≡ string_bytes out.old ++ (name.now ++ decimal n)) }
    ensures short { IsErrOf result error.TooLong → ⊥ }
{
    push_word(out, name)?;
    push_number(out, n)
}

fn push_width(out: &mut String, width: u128) -> Result<(), TextError>
    ensures text { OnOk result (string_bytes out.new ≡ string_bytes out.old ++ (codes "BadWidth " ++ decimal width)) }
    ensures short { IsErrOf result error.TooLong → ⊥ }
{
    let mut buffer = Buffer::new();
    out.push_str("BadWidth ")?;
    out.push_str(buffer.format(width))?;
    Ok(())
}

fn push_widths(out: &mut String, place: usize, left: u32, right: u32) -> Result<(), TextError>
    ensures text { OnOk result (string_bytes out.new ≡ string_bytes out.old ++ (codes "WidthsDiffer " ++ decimal place ++ codes " " ++ decimal left ++ codes " " ++ decimal right)) }
    ensures short { IsErrOf result error.TooLong → ⊥ }
{
    push_value(out, "WidthsDiffer ", place)?;
    push_word(out, " ")?;
    push_number(out, left as usize)?;
    push_word(out, " ")?;
    push_number(out, right as usize)
}

fn push_wrong_type(
    out: &mut String,
    alloc: Global,
    table: &Table,
    place: usize,
    wanted: Wanted,
    found: TypeId,
) -> Result<(), TextError>
    requires wanted { IsWantedLive table.now wanted }
    requires found { IsSome (type_shape_at table.now found) }
    ensures text { OnOk result (string_bytes out.new ≡ string_bytes out.old ++ (codes "WrongType " ++ decimal place ++ codes " " ++ wanted_text table.now wanted ++ codes " " ++ type_text table.now found)) }
    ensures short { IsErrOf result error.TooLong → ⊥ }
{
    push_value(out, "WrongType ", place)?;
    push_word(out, " ")?;
    push_wanted(out, alloc, table, wanted)?;
    push_word(out, " ")?;
    push_type(out, alloc, table, found)
}

fn push_wanted(
    out: &mut String,
    alloc: Global,
    table: &Table,
    wanted: Wanted,
) -> Result<(), TextError>
    requires { IsWantedLive table.now wanted }
    ensures text { OnOk result (string_bytes out.new ≡ string_bytes out.old ++ wanted_text table.now wanted) }
    ensures short { IsErrOf result error.TooLong → ⊥ }
{
    match wanted {
        Wanted::Bool => push_word(out, "bool"),
        Wanted::Real => push_word(out, "real"),
        Wanted::AnyBv => push_word(out, "bitvector"),
        Wanted::AnyFun => push_word(out, "function"),
        Wanted::Same(t) => push_type(out, alloc, table, t),
    }
}

fn push_type(out: &mut String, alloc: Global, table: &Table, t: TypeId) -> Result<(), TextError>
    requires { IsSome (type_shape_at table.now t) }
    ensures text { OnOk result (string_bytes out.new ≡ string_bytes out.old ++ type_text table.now t) }
    ensures short { IsErrOf result error.TooLong → ⊥ }
{
    match write_type(alloc, table, t) {
        Ok(text) => push_word(out, text.as_str()),
        Err(PrintError::NoMemory) => Err(TextError::NoMemory),
        Err(PrintError::DeadTerm | PrintError::TooLong) => unreachable!(),
    }
}

#[tactic(auto, using(crate::proofs::Texts::appends_variable, crate::proofs::Texts::long_variable))]
fn push_variable(
    out: &mut String,
    alloc: Global,
    table: &Table,
    variable: Term,
) -> Result<(), TextError>
    requires { IsSome (node_at table.now variable) }
    ensures text { OnOk result (AppendsRefusal table.now (CallError.HasVariable variable) (string_bytes out.old) (string_bytes out.new)) }
    ensures long { IsErrOf result error.TooLong → IsLongRefusal table.now (CallError.HasVariable variable) }
{
    match write_term(alloc, table, variable) {
        Ok(name) => {
            push_word(out, "HasVariable ")?;
            push_word(out, name.as_str())?;
            Ok(())
        }
        Err(PrintError::NoMemory) => Err(TextError::NoMemory),
        Err(PrintError::TooLong) => Err(TextError::TooLong),
        Err(PrintError::DeadTerm) => unreachable!(),
    }
}
