// What stays of small tables, by hand.
use super::*;
use crate::roots::first_dead;
use std::alloc::Global;
use std::process::Abort;
use std::test::Fail;
use term_table::{Shape, Table, Term, TypeId};

fn live(rt: &impl Abort, table: &Table, terms: &[(Term, bool)], types: &[(TypeId, bool)]) {
    for (t, stays) in terms {
        assert_eq!(rt; table.is_live(*t), *stays);
    }
    for (t, stays) in types {
        assert_eq!(rt; table.is_live_type(*t), *stays);
    }
}

#[test]
fn what_stays(rt: HostRuntime) -> Result<(), Fail> {
    let alloc: Global = rt.alloc();
    let mut table = Table::new(alloc)?;
    let t = table.new_type().expect(&rt, "a type");
    let u = table.new_type().expect(&rt, "a type");
    let a = table.new_constant(t).expect(&rt, "a constant");
    let b = table.new_variable(u).expect(&rt, "a variable");
    let c = table.new_constant(u).expect(&rt, "a constant");
    table.incref(a).expect(&rt, "a count");
    let freed = collect(&mut table, &[b], &[], false).expect(&rt, "live roots");
    assert_eq!(rt; freed, Collected { terms: 1, types: 0 });
    live(
        &rt,
        &table,
        &[(a, true), (b, true), (c, false)],
        &[(t, true), (u, true)],
    );
    assert_eq!(rt;
        collect(&mut table, &[a, c], &[], false),
        Err(DeadRoot::Term(2))
    );
    table.decref(a).expect(&rt, "a count");
    let freed = collect(&mut table, &[], &[t], false).expect(&rt, "live roots");
    assert_eq!(rt; freed, Collected { terms: 2, types: 1 });
    live(
        &rt,
        &table,
        &[(a, false), (b, false)],
        &[(t, true), (u, false)],
    );
    assert_eq!(rt; table.count_terms(), 2);
    assert_eq!(rt; table.count_types(), 131);
    assert_eq!(rt;
        collect(&mut table, &[], &[t, u], false),
        Err(DeadRoot::TypeId(2))
    );
    Ok(())
}

/// The negation of a term.
fn negation(table: &mut Table, of: Term) -> Option<Term> {
    let shape = Shape::Not(of);
    match table.check_shape(&shape) {
        Ok(_) => table.add(shape).ok(),
        Err(_) => None,
    }
}

#[test]
fn an_argument_stays_with_its_parent(rt: HostRuntime) -> Result<(), Fail> {
    let mut table = Table::new(rt.alloc())?;
    let of = table.bool_type();
    let p = table.new_constant(of).expect(&rt, "a constant");
    let parent = negation(&mut table, p).expect(&rt, "a term");
    let freed = collect(&mut table, &[parent], &[], false).expect(&rt, "live roots");
    assert_eq!(rt; freed, Collected { terms: 0, types: 0 });
    live(&rt, &table, &[(p, true), (parent, true)], &[]);
    let freed = collect(&mut table, &[p], &[], false).expect(&rt, "live roots");
    assert_eq!(rt; freed, Collected { terms: 1, types: 0 });
    live(&rt, &table, &[(p, true), (parent, false)], &[]);
    Ok(())
}

// p means b and, hidden, a; q means b
#[test]
fn a_name_stays_and_one_goes(rt: HostRuntime) -> Result<(), Fail> {
    let mut table = Table::new(rt.alloc())?;
    let of = table.bool_type();
    let a = table.new_constant(of).expect(&rt, "a constant");
    let b = table.new_constant(of).expect(&rt, "a constant");
    for (name, term) in [("p", a), ("p", b), ("q", b)] {
        table.set_name(name, term).expect(&rt, "a name");
    }
    let freed = collect(&mut table, &[], &[], true).expect(&rt, "live roots");
    assert_eq!(rt; freed, Collected { terms: 0, types: 0 });
    assert_eq!(rt; table.by_name("p"), Some(b));
    let freed = collect(&mut table, &[a], &[], false).expect(&rt, "live roots");
    assert_eq!(rt; freed, Collected { terms: 1, types: 0 });
    assert_eq!(rt; table.by_name("p"), Some(a));
    assert_eq!(rt; table.by_name("q"), None);
    Ok(())
}

/// A collection from two lists of terms, or `None` where one of them is dead.
fn collect_in_steps(table: &mut Table, roots: &[Term], more: &[Term]) -> Option<Collected> {
    if let Some(_) = first_dead(table, roots) {
        return None;
    }
    if let Some(_) = first_dead(table, more) {
        return None;
    }
    let mut collection = Collection::start(table);
    collection.keep(roots);
    collection.keep(more);
    collection.keep_types(&[]);
    Some(collection.finish(false))
}

#[test]
fn both_lists_stay(rt: HostRuntime) -> Result<(), Fail> {
    let mut table = Table::new(rt.alloc())?;
    let of = table.bool_type();
    let a = table.new_constant(of).expect(&rt, "a constant");
    let b = table.new_constant(of).expect(&rt, "a constant");
    let c = table.new_constant(of).expect(&rt, "a constant");
    let freed = collect_in_steps(&mut table, &[a], &[c]);
    assert_eq!(rt; freed, Some(Collected { terms: 1, types: 0 }));
    live(&rt, &table, &[(a, true), (b, false), (c, true)], &[]);
    Ok(())
}
