// A small graph of terms.
use super::*;
use std::alloc::{AllocError, Global};
use std::process::Abort;
use std::test::Fail;
use term_table::{Args, Shape, Table, Term, Terms};

/// The conjunction of two terms.
fn conjunction(rt: &impl Abort, alloc: Global, table: &mut Table, a: Term, b: Term) -> Term {
    let mut arguments = Args::new(alloc);
    arguments.push(a).expect(rt, "memory");
    arguments.push(b).expect(rt, "memory");
    let shape = Shape::And(arguments);
    match table.check_shape(&shape) {
        Ok(_) => table.add(shape).expect(rt, "a slot"),
        Err(_) => a,
    }
}

/// The subterms of a term; none of a dead one.
fn below(alloc: Global, table: &Table, t: Term) -> Result<Terms, AllocError> {
    if !table.is_live(t) {
        return Ok(Terms::new(alloc));
    }
    subterms(alloc, table, &[t])
}

/// The constants below a term; none below a dead one.
fn constants_below(alloc: Global, table: &Table, t: Term) -> Result<Terms, AllocError> {
    if !table.is_live(t) {
        return Ok(Terms::new(alloc));
    }
    constants_of(alloc, table, &[t])
}

/// A variable below a term; none below a dead one.
fn variable_below(alloc: Global, table: &Table, t: Term) -> Result<Option<Term>, AllocError> {
    if !table.is_live(t) {
        return Ok(None);
    }
    first_variable(alloc, table, t)
}

#[test]
fn order_of_a_small_graph(rt: HostRuntime) -> Result<(), Fail> {
    let alloc: Global = rt.alloc();
    let mut table = Table::new(alloc)?;
    let of = table.bool_type();
    let a = table.new_constant(of).expect(&rt, "a constant");
    let x = table.new_variable(of).expect(&rt, "a variable");
    let b = table.new_constant(of).expect(&rt, "a constant");
    let inner = conjunction(&rt, alloc, &mut table, x, a);
    let outer = conjunction(&rt, alloc, &mut table, inner, a);
    let top = conjunction(&rt, alloc, &mut table, b, outer);
    assert_eq!(rt;
        below(alloc, &table, top)?.as_slice(),
        [b, x, a, inner, outer, top].as_slice()
    );
    assert_eq!(rt; variable_below(alloc, &table, top)?, Some(x));
    assert_eq!(rt; variable_below(alloc, &table, b)?, None);
    assert_eq!(rt;
        constants_below(alloc, &table, top)?.as_slice(),
        [b, a].as_slice()
    );
    Ok(())
}
