ghost use Rattle.std.specs.Prelude.{◌≤◌};

use link_tree::{LinkTree, Loose};
use std::alloc::{AllocError, Global};
use std::test::Fail;

/// Where the next item is put in.
#[derive(Clone, Copy, Drop)]
enum Order {
    End,
    Front,
    Middle,
    Third,
    EachEnd,
    Anywhere,
}

// A number that seems to be any one, from the one before.
fn stirred(seed: u64) -> u64 {
    seed.wrapping_mul(6364136223846793005)
        .wrapping_add(1442695040888963407)
}

// A place from 0 to a count, where any number may be given.
fn place(order: Order, any: usize, count: usize) -> usize
    ensures { result ≤ count }
{
    match order {
        Order::End => count,
        Order::Front => 0,
        Order::Middle => count / 2,
        Order::Third => count / 3,
        Order::EachEnd => { if count % 2 == 0 { 0 } else { count } }
        Order::Anywhere => any.min(count),
    }
}

// A list of 4,096 items that are put in in an order.
fn filled(alloc: Global, order: Order) -> Result<LinkTree<usize>, AllocError> {
    let mut tree = LinkTree::new(alloc);
    let mut seed = 1;
    for item in 0..4096 {
        let count = tree.len();
        if count < 4096 {
            seed = stirred(seed);
            let any = (seed >> 33) as usize % (count + 1);
            tree.insert(
                place(order, any, count),
                Loose::new(alloc, item).map_err(|_| AllocError)?,
            );
        }
    }
    Ok(tree)
}

// Takes any item out and puts it in at any place, so many times.
fn stir(tree: &mut LinkTree<usize>, times: u32) {
    let mut seed = 7;
    for _ in 0..times {
        let count = tree.len();
        if 0 < count && count <= 4096 {
            seed = stirred(seed);
            let link = tree.take((seed >> 33) as usize % count);
            seed = stirred(seed);
            let rest = tree.len();
            if rest < 4096 {
                tree.insert(((seed >> 33) as usize % count).min(rest), link);
            }
        }
    }
}

// How many links are passed on the way to the place that is passed the latest. Each item is made the number of its place first.
fn depth(tree: &mut LinkTree<usize>) -> usize {
    for at in 0..tree.len() {
        if at < tree.len() {
            tree.change_at(at, |item| *item = at);
        }
    }
    let mut depth: usize = 0;
    for at in 0..tree.len() {
        let mut passed: usize = 0;
        let _ = tree.search(|item| {
            passed = passed.saturating_add(1);
            at <= *item
        });
        depth = depth.max(passed);
    }
    depth
}

// Whether a tree holds the items of a plain list, in the same order.
fn is_same(tree: &LinkTree<usize>, plain: &Vec<usize>) -> bool {
    tree.len() == plain.len() && tree.iter().eq(plain.iter())
}

// Takes an item out of both, and tells whether it was the same.
fn take_from_both(at: usize, tree: &mut LinkTree<usize>, plain: &mut Vec<usize>) -> bool {
    at >= tree.len() || at >= plain.len() || tree.take(at).into_item() == plain.remove(at)
}

// Puts an item in both, changes one of each or takes one out of each, at any place. The answer is whether what was taken
// out is the same, and what is left.
fn turn(
    alloc: Global,
    any: usize,
    item: usize,
    tree: &mut LinkTree<usize>,
    plain: &mut Vec<usize>,
) -> Result<bool, AllocError> {
    let count = tree.len();
    if count >= 4096 {
        return Ok(false);
    }
    let at = any / 8 % (count + 1);
    let mut same = true;
    if any % 8 < 5 && at <= plain.len() {
        tree.insert(at, Loose::new(alloc, item).map_err(|_| AllocError)?);
        plain.insert(at, item).map_err(|_| AllocError)?;
    } else if any % 8 < 6 && at < count && at < plain.len() {
        tree.change_at(at, |old| *old = item);
        plain[at] = item;
    } else {
        same = take_from_both(at, tree, plain);
    }
    Ok(same && is_same(tree, plain))
}

// Whether both have the same place for the first item that is not below a number, or no such item.
fn finds_same(low: usize, tree: &LinkTree<usize>, plain: &Vec<usize>) -> bool {
    let place = plain.iter().position(|item| low <= *item);
    let found = tree.find(|item| low <= *item);
    found.map(|(at, _)| at) == place && tree.any(|item| low <= *item) == place.is_some()
}

// Whether a number stays noted for a place where only the item there is changed.
fn keeps_note(tree: &mut LinkTree<usize>) -> bool {
    if tree.len() < 8 {
        return false;
    }
    tree.go_to(5, 9);
    let noted = tree.is_noted(9) && !tree.is_noted(8);
    tree.change_at(5, |item| *item = 1);
    let kept = tree.is_noted(9);
    tree.change_at(6, |item| *item = 1);
    noted && kept && !tree.is_noted(9)
}

// Whether it is noted no more where a link was taken out or put in.
fn loses_note(tree: &mut LinkTree<usize>) -> bool {
    if tree.len() < 8 {
        return false;
    }
    tree.go_to(5, 9);
    let link = tree.take(7);
    let taken = tree.is_noted(9);
    tree.go_to(5, 9);
    tree.insert(0, link);
    !taken && !tree.is_noted(9)
}

// A tree of 4,096 items is at most 22 links deep in each of these orders. By its balance alone it could be 26 deep.
#[test]
fn balanced_in_each_order(rt: HostRuntime) -> Result<(), Fail> {
    let orders = [
        Order::End,
        Order::Front,
        Order::Middle,
        Order::Third,
        Order::EachEnd,
        Order::Anywhere,
    ];
    for order in &orders {
        let mut tree = filled(rt.alloc(), *order)?;
        assert_eq!(rt; tree.len(), 4096);
        assert!(rt; depth(&mut tree) <= 22);
    }
    Ok(())
}

// It stays so where they are moved.
#[test]
fn balanced_after_moves(rt: HostRuntime) -> Result<(), Fail> {
    let mut tree = filled(rt.alloc(), Order::End)?;
    stir(&mut tree, 20_000);
    assert_eq!(rt; tree.len(), 4096);
    assert!(rt; depth(&mut tree) <= 22);
    Ok(())
}

// It holds what a plain list holds in which the same is put in, changed and taken out.
#[test]
fn same_as_a_plain_list(rt: HostRuntime) -> Result<(), Fail> {
    let mut tree = LinkTree::new(rt.alloc());
    let mut plain = Vec::new(rt.alloc());
    let mut seed = 3;
    for item in 0..2_000 {
        seed = stirred(seed);
        let any = (seed >> 33) as usize;
        let same = turn(rt.alloc(), any, item, &mut tree, &mut plain)?;
        assert!(rt; same);
    }
    assert!(rt; tree.len() > 400);
    for low in 0..2_001 {
        assert!(rt; finds_same(low, &tree, &plain));
    }
    Ok(())
}

// A number is noted for a place until the list changes elsewhere.
#[test]
fn notes_a_number(rt: HostRuntime) -> Result<(), Fail> {
    let mut tree = filled(rt.alloc(), Order::End)?;
    assert!(rt; keeps_note(&mut tree));
    assert!(rt; loses_note(&mut tree));
    Ok(())
}
