// Sketches of calls with ample memory, each with its kind, its flag and its parts.
use super::*;
use std::alloc::{AllocError, Global};
use std::process::Abort;
use std::test::Fail;
use term_shapes::Term;

/// A literal over the term of that slot, negated or not.
type Part = (u32, bool);

/// A call: its constructor, whether the first argument is a truth value, the arguments, and the sketch.
type Row<'a> = (Operator, bool, &'a [Part], u8, bool, &'a [Part]);

fn literal(part: &Part) -> Literal {
    let (slot, negated) = *part;
    Literal {
        atom: Term { slot, stamp: 0 },
        negated,
    }
}

fn literals(alloc: Global, parts: &[Part]) -> Result<Vec<Literal>, AllocError> {
    let mut list = Vec::new(alloc);
    for part in parts {
        list.push(literal(part))?;
    }
    Ok(list)
}

fn plain(alloc: Global, atoms: &Atoms) -> Result<Vec<Literal>, AllocError> {
    let mut list = Vec::new(alloc);
    for atom in atoms.as_slice() {
        list.push(Literal::plain(*atom))?;
    }
    Ok(list)
}

fn copied(alloc: Global, all: &Literals) -> Result<Vec<Literal>, AllocError> {
    let mut list = Vec::new(alloc);
    for one in all.as_slice() {
        list.push(*one)?;
    }
    Ok(list)
}

/// The kind, the flag and the parts of a sketch.
fn parts(alloc: Global, sketch: &Sketch) -> Result<(u8, bool, Vec<Literal>), AllocError> {
    match sketch {
        Sketch::OneLiteral(only) => Ok((b'1', false, vec![in alloc; *only]?)),
        Sketch::AllOf(all) => Ok((b'a', false, copied(alloc, all)?)),
        Sketch::AnyOf(all) => Ok((b'o', false, copied(alloc, all)?)),
        Sketch::OddOf { negated, atoms } => Ok((b'x', *negated, plain(alloc, atoms)?)),
        Sketch::OneOf { test, yes, no } => {
            Ok((
                b'i',
                false,
                vec![in alloc; Literal::plain(*test), *yes, *no]?,
            ))
        }
        Sketch::Equal {
            negated,
            left,
            right,
        } => {
            let both = vec![in alloc; Literal::plain(*left), Literal::plain(*right)]?;
            Ok((b'=', *negated, both))
        }
        Sketch::Apart(atoms) => Ok((b'd', false, plain(alloc, atoms)?)),
    }
}

fn check_rows(rt: &impl Abort, alloc: Global, rows: &[Row]) -> Result<(), AllocError> {
    for (operator, truths, arguments, kind, flag, wanted) in rows {
        let given = literals(alloc, arguments)?;
        let sketch = make_sketch(alloc, *operator, *truths, given.as_slice())?;
        let (made, negated, list) = parts(alloc, &sketch)?;
        assert!(rt; made == *kind);
        assert!(rt; negated == *flag);
        let wanted = literals(alloc, wanted)?;
        assert!(rt; list.as_slice() == wanted.as_slice());
    }
    Ok(())
}

#[test]
fn joined_and_parities(rt: HostRuntime) -> Result<(), Fail> {
    let alloc: Global = rt.alloc();
    let rows: [Row; 10] = [
        (
            Operator::Not,
            true,
            &[(5, false)],
            b'1',
            false,
            &[(5, true)],
        ),
        (
            Operator::And,
            true,
            &[(7, true), (5, false), (7, true)],
            b'a',
            false,
            &[(5, false), (7, true)],
        ),
        (
            Operator::And,
            true,
            &[(5, true), (6, false), (5, false)],
            b'1',
            false,
            &[(0, true)],
        ),
        (
            Operator::Or,
            true,
            &[(5, true), (5, false)],
            b'1',
            false,
            &[(0, false)],
        ),
        (Operator::Or, true, &[], b'1', false, &[(0, true)]),
        (
            Operator::Xor,
            true,
            &[(5, true), (6, false), (5, false)],
            b'1',
            false,
            &[(6, true)],
        ),
        (
            Operator::Xor,
            true,
            &[(8, true), (6, false), (5, false)],
            b'x',
            true,
            &[(5, false), (6, false), (8, false)],
        ),
        (
            Operator::Implies,
            true,
            &[(5, false), (5, false)],
            b'1',
            false,
            &[(0, false)],
        ),
        (
            Operator::Iff,
            true,
            &[(6, true), (5, false)],
            b'=',
            true,
            &[(5, false), (6, false)],
        ),
        (
            Operator::Xor,
            true,
            &[(0, false), (6, false)],
            b'1',
            false,
            &[(6, true)],
        ),
    ];
    check_rows(&rt, alloc, &rows)?;
    Ok(())
}

#[test]
fn choices_and_equalities(rt: HostRuntime) -> Result<(), Fail> {
    let alloc: Global = rt.alloc();
    let rows: [Row; 9] = [
        (
            Operator::Ite,
            true,
            &[(4, false), (5, false), (5, true)],
            b'=',
            false,
            &[(4, false), (5, false)],
        ),
        (
            Operator::Ite,
            true,
            &[(4, true), (5, false), (6, false)],
            b'i',
            false,
            &[(4, false), (6, false), (5, false)],
        ),
        (
            Operator::Ite,
            true,
            &[(4, false), (5, false), (0, false)],
            b'o',
            false,
            &[(4, true), (5, false)],
        ),
        (
            Operator::Ite,
            true,
            &[(0, true), (5, false), (6, false)],
            b'1',
            false,
            &[(6, false)],
        ),
        (
            Operator::Eq,
            false,
            &[(6, false), (5, false)],
            b'=',
            false,
            &[(5, false), (6, false)],
        ),
        (
            Operator::Neq,
            false,
            &[(6, false), (6, false)],
            b'1',
            false,
            &[(0, true)],
        ),
        (
            Operator::Distinct,
            false,
            &[(7, false), (6, false), (5, false)],
            b'd',
            false,
            &[(5, false), (6, false), (7, false)],
        ),
        (
            Operator::Distinct,
            false,
            &[(7, false), (6, false), (7, false)],
            b'1',
            false,
            &[(0, true)],
        ),
        (
            Operator::Distinct,
            true,
            &[(7, false), (6, false), (5, false)],
            b'1',
            false,
            &[(0, true)],
        ),
    ];
    check_rows(&rt, alloc, &rows)?;
    Ok(())
}
