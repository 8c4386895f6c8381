ghost use Rattle.std.specs.Prelude.{◌≡◌, ◌+◌, ◌-◌, ◌<◌, ◌≤◌, ◌++◌, length, slice_get, Some, MatchBool, cond};
ghost use Rattle.std.specs.Iterator.{YieldsFirstRef, item_count};
ghost use Rattle.link_tree.specs.declared.tree.Tree.{Empty};
ghost use Rattle.link_tree.specs.Trees.{items, IsSized};
ghost use Rattle.link_tree.specs.Waiting.{from_link, waiting, HasLink, IsLink, IsDeep, AreLinks, IsNext};

use crate::tree::{Link, Tree};
use std::marker::Model;

// How many links may wait. A tree of 4,096 links is less deep.
const ROOM: usize = 32;

/// The items of a list that are left to visit.
///
/// These are first the item of the link that is next and those behind it in its tree. Then come the last `left` ones of a
/// tree that is deeper than there is room, and then those of each link that waits, the last one first.
#[derive(Drop)]
pub struct Iter<'a, T> {
    next: &'a Tree<T>,
    waits: [&'a Tree<T>; ROOM],
    depth: usize,
    deep: &'a Tree<T>,
    left: usize,
}

impl<'a, T> Model for Iter<'a, T> {
    ghost use Rattle.std.specs.Prelude.{List, ◌≤◌, ◌-◌, ◌++◌, drop, length};
    ghost use Rattle.std.specs.Coded.{coded_list};
    ghost use Rattle.link_tree.specs.declared.iter.TheConstants.{ROOM};
    ghost use Rattle.link_tree.specs.Trees.{items, IsSized};
    ghost use Rattle.link_tree.specs.Waiting.{from_link, waiting, AreLinks, IsNext};

    ghost Value = { List T };

    ghost coded = { coded_list T.code };

    ghost view = { λ a. from_link a.next.now ++ drop (length (items a.deep.now) - a.left) (items a.deep.now) ++ waiting a.waits a.depth };

    ghost invariant = { λ a. (a.depth ≤ ROOM) × (AreLinks a.waits a.depth × (IsSized a.deep.now × ((a.left ≤ length (items a.deep.now)) × IsNext a.next.now a.left a.depth))) };
}

// Goes to the first link of a tree that holds this one, and lets those on the way wait, behind so many others. Where there
// is no room for one, it goes to the tree that holds it, and answers so.
fn go_down<'a, T>(
    waits: &mut [&'a Tree<T>],
    depth: &mut usize,
    next: &mut &'a Tree<T>,
    tree: &'a Tree<T>,
    link: &'a Link<T>,
) -> bool
    requires room { depth.old ≤ length waits.old }
    requires links { AreLinks waits.old depth.old }
    requires sized { IsSized tree.now }
    requires same { HasLink tree.now link.now }
    ensures room { depth.new ≤ length waits.old }
    ensures links { AreLinks waits.new depth.new }
    ensures next { MatchBool result (IsLink next.new.now) (IsDeep next.new.now) }
    ensures items { cond result (from_link next.new.now) (items next.new.now) ++ waiting waits.new depth.new ≡ items tree.now ++ waiting waits.old depth.old }
{
    *next = tree;
    match &link.left {
        Tree::Empty => true,
        Tree::Filled(first) => {
            let number = *depth;
            if number < waits.len() {
                waits[number] = tree;
                *depth = number + 1;
                go_down(waits, depth, next, &link.left, first)
            } else {
                false
            }
        }
    }
}

// The last link that waits, which waits no more, or none.
fn last_waiting<'a, T>(waits: &[&'a Tree<T>], depth: &mut usize, none: &'a Tree<T>) -> &'a Tree<T>
    requires room { depth.old ≤ length waits.now }
    requires links { AreLinks waits.now depth.old }
    requires none { none.now ≡ Empty }
    ensures room { depth.new ≤ depth.old }
    ensures links { AreLinks waits.now depth.new }
    ensures next { IsNext result.now 0 depth.new }
    ensures items { from_link result.now ++ waiting waits.now depth.new ≡ waiting waits.now depth.old }
{
    let number = *depth;
    if number == 0 {
        return none;
    }
    *depth = number - 1;
    waits[number - 1]
}

// The empty tree before the first link of a tree.
#[inline(never)]
fn before_first<'a, T>(tree: &'a Tree<T>) -> &'a Tree<T>
    ensures { result.now ≡ Empty }
{
    match tree {
        Tree::Empty => tree,
        Tree::Filled(link) => before_first(&link.left),
    }
}

// The first of so many items at the end of a tree.
#[inline(never)]
fn from_end<'a, T>(tree: &'a Tree<T>, left: usize) -> &'a T
    requires sized { IsSized tree.now }
    requires some { 0 < left }
    requires few { left ≤ length (items tree.now) }
    ensures { slice_get (items tree.now) (length (items tree.now) - left) ≡ Some result.now }
{
    tree.get(tree.len() - left)
}

impl<'a, T> Iter<'a, T> {
    #[inline(never)]
    pub(crate) fn over(tree: &'a Tree<T>) -> Iter<'a, T>
        requires { IsSized tree.now }
        ensures { result ≡ items tree.now }
    {
        let mut waits = [tree; ROOM];
        let mut depth = 0;
        match tree {
            Tree::Empty => Iter {
                next: tree,
                waits,
                depth,
                deep: tree,
                left: 0,
            },
            Tree::Filled(link) => {
                let mut next = tree;
                if go_down(&mut waits[..], &mut depth, &mut next, tree, link) {
                    Iter {
                        next,
                        waits,
                        depth,
                        deep: tree,
                        left: 0,
                    }
                } else {
                    Iter {
                        next: before_first(next),
                        waits,
                        depth,
                        deep: next,
                        left: next.len(),
                    }
                }
            }
        }
    }
}

impl<'a, T> Iterator for Iter<'a, T> {
    type Item = &'a T;

    ghost next_gives = { YieldsFirstRef (λ s. s) };

    ghost remaining = { item_count (λ s. s) };

    #[inline(always)]
    fn next(&mut self) -> Option<&'a T> {
        let next = self.next;
        match next {
            Tree::Empty => {
                let left = self.left;
                if left == 0 {
                    return None;
                }
                let item = from_end(self.deep, left);
                self.left = left - 1;
                if left > 1 {
                    return Some(item);
                }
                let mut depth = self.depth;
                self.next = last_waiting(&self.waits[..], &mut depth, next);
                self.depth = depth;
                Some(item)
            }
            Tree::Filled(link) => match &link.right {
                Tree::Empty => {
                    let mut depth = self.depth;
                    self.next = last_waiting(&self.waits[..], &mut depth, &link.right);
                    self.depth = depth;
                    Some(&link.item)
                }
                Tree::Filled(first) => {
                    let mut depth = self.depth;
                    let mut next = next;
                    let waits = &mut self.waits[..];
                    if go_down(waits, &mut depth, &mut next, &link.right, first) {
                        self.next = next;
                    } else {
                        self.next = before_first(next);
                        self.deep = next;
                        self.left = next.len();
                    }
                    self.depth = depth;
                    Some(&link.item)
                }
            },
        }
    }
}
