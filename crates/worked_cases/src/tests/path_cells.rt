//! Paths in a pool, worked by hand.
ghost use Rattle.path_pool.specs.Pool.{IsLive};

use super::worlds::number;
use net_names::Asn;
use path_pool::{PathId, PathPool, PoolError};
use std::alloc::Global;
use std::process::Abort;

// The path has these numbers when it is copied out.
fn expect_path(rt: &impl Abort, alloc: Global, pool: &PathPool, id: PathId, expected: &[Asn])
    requires { IsLive pool.now id.0 }
{
    let path = pool.copy_out(alloc, id).expect(rt, "memory");
    assert!(rt; path.as_slice() == expected);
}

#[test]
fn paths_share_their_ends_and_give_them_back(rt: HostRuntime) {
    let (two, three, four) = (number(&rt, 2), number(&rt, 3), number(&rt, 4));
    let mut pool = PathPool::new(rt.alloc(), 3);
    pool.reserve(3).expect(&rt, "room");
    let a = pool.cons(four, None);
    let b = pool.cons(two, Some(a));
    let c = pool.cons(three, Some(a));
    assert!(rt; pool.live() == 3);
    expect_path(&rt, rt.alloc(), &pool, b, &[two, four]);
    assert!(rt; pool.release(a) == 0);
    assert!(rt; pool.release(b) == 1);
    assert!(rt; pool.release(c) == 2);
    assert!(rt; pool.live() == 0);
}

#[test]
fn cells_past_the_limit_are_refused(rt: HostRuntime) {
    let four = number(&rt, 4);
    let mut pool = PathPool::new(rt.alloc(), 3);
    let full = |live, asked| PoolError::Full {
        live,
        asked,
        limit: 3,
    };
    assert!(rt; pool.reserve(4) == Err(full(0, 4)));
    pool.reserve(3).expect(&rt, "room");
    let _ = pool.cons(four, None);
    assert!(rt; pool.reserve(3) == Err(full(1, 3)));
    let _ = pool.cons(four, None);
    let _ = pool.cons(four, None);
    assert!(rt; pool.reserve(1) == Err(full(3, 1)));
}

#[test]
fn a_path_is_read_from_its_head(rt: HostRuntime) {
    let (two, four) = (number(&rt, 2), number(&rt, 4));
    let mut pool = PathPool::new(rt.alloc(), 2);
    pool.reserve(2).expect(&rt, "room");
    let end = pool.cons(four, None);
    let path = pool.cons(two, Some(end));
    pool.hold(path);
    assert!(rt; pool.head(path) == two && pool.last(path) == four && pool.length(path) == 2);
    assert!(rt; pool.tail(path) == Some(end) && pool.contains(path, four));
    assert!(rt; pool.count(path) == 2);
}

#[test]
fn a_path_that_is_copied_in_goes_with_its_one_hold(rt: HostRuntime) {
    let (two, three, four) = (number(&rt, 2), number(&rt, 3), number(&rt, 4));
    let mut pool = PathPool::new(rt.alloc(), 3);
    pool.reserve(3).expect(&rt, "room");
    let path = pool.copy_in(&[two, four]);
    assert!(rt; pool.live() == 2 && pool.spare() == 1);
    expect_path(&rt, rt.alloc(), &pool, path, &[two, four]);
    let longer = pool.lengthen(three, path);
    expect_path(&rt, rt.alloc(), &pool, longer, &[three, two, four]);
    assert!(rt; pool.release(longer) == 3);
}
