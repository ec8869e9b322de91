//! Names, pushed and removed with ample memory, as a table of what each step leaves.
ghost use Rattle.std.specs.Prelude.{◌==◌, ◌%◌};

use crate::{Keeps, Names};
use std::alloc::AllocError;

// `(define-term x 1)`, `(define-term y 2)`, `(define-term x 2)`, and then x is forgotten until it has no meaning
#[test]
fn an_older_meaning_comes_back(rt: HostRuntime) -> Result<(), AllocError> {
    let mut names = Names::new(rt.alloc());
    for (name, of) in [("x", 1u32), ("y", 2), ("x", 2)] {
        names.push(name, of)?;
    }
    for (newest, there) in [(Some(2), true), (Some(1), true), (None, false)] {
        assert_eq!(rt; names.newest("x"), newest);
        assert_eq!(rt; names.remove("x"), there);
    }
    assert_eq!(rt; names.name_of(2), Some("y"));
    assert_eq!(rt; names.meaning(0), Some(2));
    assert_eq!(rt; names.len(), 1);
    Ok(())
}

/// Handles that are even pass.
struct AreEven;

impl Keeps<u32> for AreEven {
    ghost passes = { λ t h. h % 2 == 0 };

    fn keeps(&self, of: u32) -> bool {
        of % 2 == 0
    }
}

// x means 1, 2 and 3, and y means 5, before all that is odd is forgotten
#[test]
fn what_fails_is_forgotten(rt: HostRuntime) -> Result<(), AllocError> {
    let mut names = Names::new(rt.alloc());
    for (name, of) in [("x", 1u32), ("x", 2), ("x", 3), ("y", 5)] {
        names.push(name, of)?;
    }
    names.retain(&AreEven);
    assert_eq!(rt; names.newest("x"), Some(2));
    assert_eq!(rt; names.newest("y"), None);
    assert_eq!(rt; names.len(), 1);
    Ok(())
}
