//! That a shelf drops each of its values once, which no clause says.

use crate::checks::{had, holds};
use recency::Shelf;
use std::process::Abort;
use std::rc::Rc;

/// A value is held by so many.
fn held(rt: &impl Abort, value: &Rc<char>, count: usize, about: &str) {
    holds(rt, Rc::strong_count(value) == count, about);
}

#[test]
fn a_shelf_drops_each_value_once(rt: HostRuntime) {
    let value = had(&rt, Rc::new(rt.alloc(), 'v'));
    let mut shelf = had(&rt, Shelf::new(rt.alloc(), 3));
    for site in 7..11 {
        drop(shelf.put(site, had(&rt, value.clone())));
    }
    held(&rt, &value, 4, "put");
    holds(&rt, shelf.len_of(7) == 1, "one of site 7");
    drop(shelf.take(0));
    held(&rt, &value, 3, "taken");
    drop(shelf);
    held(&rt, &value, 1, "dropped");
}
