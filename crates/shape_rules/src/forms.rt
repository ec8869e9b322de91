//! How many bit-vectors each operator takes, and which numbers go with a width.
ghost use Rattle.std.specs.Prelude.{◌≡◌, ◌+◌, Some, [], nat_le};
ghost use Rattle.y_tree.specs.Typing.{form_of};
ghost use Rattle.y_tree.specs.Misfits.{out_in, out_of_range, too_wide, unless, bad_width, told_width};
ghost use Rattle.y_tree.specs.Tree.{bits};
ghost use Rattle.shape_rules.specs.Rules.{bv_form, NumberToldBy};

use crate::errors::ShapeError;
use y_tree::{BvAtOp, BvOp};

/// The largest width of a bit-vector.
const WIDEST: u32 = 128;

/// How many bit-vectors an operator takes.
#[derive(Clone, Copy)]
pub enum Form {
    /// One.
    One,
    /// Two of one width.
    Two,
    /// Two of one width, with a truth value as the result.
    Test,
    /// One or more, of one width.
    Some,
    /// One or more, of any widths, which are joined.
    Joined,
}

/// The form of an operator.
pub fn form_of(op: BvOp) -> Form
    ensures { bv_form result ≡ form_of op }
{
    match op {
        BvOp::Neg | BvOp::Not => Form::One,
        BvOp::Sub | BvOp::Div | BvOp::Rem | BvOp::Sdiv | BvOp::Srem | BvOp::Smod => Form::Two,
        BvOp::Shl | BvOp::Lshr | BvOp::Ashr => Form::Two,
        BvOp::Ge | BvOp::Gt | BvOp::Le | BvOp::Lt => Form::Test,
        BvOp::Sge | BvOp::Sgt | BvOp::Sle | BvOp::Slt => Form::Test,
        BvOp::Add | BvOp::Mul | BvOp::And | BvOp::Or | BvOp::Xor => Form::Some,
        BvOp::Concat => Form::Joined,
    }
}

/// What is wrong with a bit-vector of that width and those bits.
pub fn bits_refusal(width: u32, value: u128) -> Option<ShapeError>
    ensures { NumberToldBy (out_in (bits width value) []) result }
{
    if width < 1 || width > WIDEST {
        return Some(ShapeError::BadWidth(u128::from(width)));
    }
    if width < WIDEST && value >> width != 0 {
        return Some(ShapeError::BadRange);
    }
    None
}

/// What is wrong with joining bit-vectors to one of that width.
pub fn joined_refusal(form: Form, sum: u128) -> Option<ShapeError>
    ensures { NumberToldBy (too_wide (bv_form form) sum) result }
{
    match form {
        Form::Joined if sum < 1 || sum > 128 => Some(ShapeError::BadWidth(sum)),
        _ => None,
    }
}

/// What is wrong with an operator's numbers at a bit-vector of that width.
pub fn numbers_refusal(op: BvAtOp, first: u32, second: u32, width: u32) -> Option<ShapeError>
    ensures { NumberToldBy (out_of_range op first second width) result }
{
    match op {
        BvAtOp::ShiftLeft0 | BvAtOp::ShiftRight0 if first > width => Some(ShapeError::BadRange),
        BvAtOp::Extract if second > first || first >= width => Some(ShapeError::BadRange),
        BvAtOp::SignExtend | BvAtOp::ZeroExtend => extension_refusal(first, width),
        _ => None,
    }
}

/// What is wrong with so many bits more.
fn extension_refusal(more: u32, width: u32) -> Option<ShapeError>
    ensures { NumberToldBy (unless (nat_le (width + more) 128) (bad_width (told_width (width + more)))) result }
{
    let sum = u128::from(width) + u128::from(more);
    if sum > 128 {
        return Some(ShapeError::BadWidth(sum));
    }
    None
}
