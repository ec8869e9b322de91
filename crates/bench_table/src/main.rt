//! Adds terms to a table, each as a new shape, and then adds them again, or collects half of them, or all.
//!
//! The words of the command line are what to do, `new`, `shared`, `half` or `all`, and the number of terms. The terms are
//! conjunctions, each of the one before it and one of two constants in turn. With `new` nothing follows; with `shared` the
//! same shapes are added again, so that each is there already; with `half` a collection keeps the term in the middle, and
//! with `all` it keeps none. The program prints how many terms are live then.
#![tactic(auto)]

use std::alloc::{AllocError, Global};
use std::{env, io};
use term_collect::collect;
use term_table::{Args, Shape, Table, Term};

/// What follows the additions of new shapes.
#[derive(Clone, Copy)]
enum Work {
    /// Nothing.
    New,
    /// The same additions again.
    Shared,
    /// A collection that keeps the first half.
    Half,
    /// A collection that keeps none.
    All,
}

/// What a word of the command line asks for.
fn work_of(word: &str) -> Work {
    match word {
        "shared" => Work::Shared,
        "half" => Work::Half,
        "all" => Work::All,
        _ => Work::New,
    }
}

/// The term of a shape, where it is one.
fn put(table: &mut Table, shape: Shape) -> Option<Term> {
    match table.check_shape(&shape) {
        Ok(_) => table.add(shape).ok(),
        Err(_) => None,
    }
}

/// The conjunction of two terms.
fn conjunction(alloc: Global, left: Term, right: Term) -> Result<Shape, AllocError> {
    let mut all = Args::new(alloc);
    all.push(left)?;
    all.push(right)?;
    Ok(Shape::And(all))
}

/// Adds conjunctions of a term and one of two constants in turn, each over the one before it. The answer is the last.
fn add_chain(
    alloc: Global,
    table: &mut Table,
    constants: (Term, Term),
    from: Term,
    count: usize,
) -> Result<Term, AllocError> {
    let mut last = from;
    for place in 0..count {
        let other = if place % 2 == 0 {
            constants.1
        } else {
            constants.0
        };
        if let Some(term) = put(table, conjunction(alloc, last, other)?) {
            last = term;
        }
    }
    Ok(last)
}

/// Does the work on so many terms. The answer is how many terms are live then.
fn run(alloc: Global, work: Work, count: usize) -> Result<usize, AllocError> {
    let mut table = Table::new(alloc)?;
    let of = table.bool_type();
    let (Ok(first), Ok(second)) = (table.new_constant(of), table.new_constant(of)) else {
        return Err(AllocError);
    };
    let constants = (first, second);
    let half = count / 2;
    let middle = add_chain(alloc, &mut table, constants, first, half)?;
    add_chain(alloc, &mut table, constants, middle, count - half)?;
    match work {
        Work::New => {}
        Work::Shared => {
            add_chain(alloc, &mut table, constants, first, half)?;
            add_chain(alloc, &mut table, constants, middle, count - half)?;
        }
        Work::Half => {
            let _ = collect(&mut table, &[middle], &[], false);
        }
        Work::All => {
            let _ = collect(&mut table, &[], &[], false);
        }
    }
    Ok(table.count_terms())
}

fn main(rt: HostRuntime) -> io::Result<()> {
    let mut work = Work::New;
    let mut count = 0;
    for (place, word) in env::args(&rt)?.skip(1).enumerate() {
        if place == 0 {
            work = work_of(word.as_str());
        } else {
            count = word.as_str().parse::<usize>().unwrap_or(0);
        }
    }
    let live = run(rt.alloc(), work, count)?;
    println!(rt; "{live}")
}
