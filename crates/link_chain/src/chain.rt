ghost use Rattle.std.specs.Prelude.{◌≡◌, ◌+◌, ◌-◌, ◌^◌, ◌<◌, ◌≤◌, ◌++◌, [], length, take, drop, slice_get, slice_set, Some, IfOk, IfErr, IfSome, IsSomeAnd};
ghost use Rattle.std.specs.List.{insert, remove};
ghost use Rattle.std.specs.Option.{option_copied};
ghost use Rattle.std.specs.Borrow.{sem};
ghost use Rattle.link_chain.specs.Lending.{LendsItem};

use crate::iter::Iter;
use std::alloc::Global;
use std::collections::LinkedList;
use std::marker::Model;
use std::mem;

/// One detached link, seen as `Some` of its item. It owns the memory that its item needs in a chain.
#[derive(Drop)]
pub struct Loose<T> {
    link: LinkedList<T>,
}

impl<T> Model for Loose<T> {
    ghost use Rattle.std.specs.Prelude.{◌≡◌, Option, length, slice_get};
    ghost use Rattle.std.specs.Coded.{coded_option};

    ghost Value = { Option T };

    ghost coded = { coded_option T.code };

    ghost view = { λ a. slice_get a.link 0 };

    ghost invariant = { λ a. length a.link ≡ 1 };
}

impl<T: Drop> Loose<T> {
    /// Takes the memory of one link. Where there is none, the item is handed back.
    pub fn new(alloc: Global, item: T) -> Result<Loose<T>, T>
        ensures ok { IfOk result (λ loose. loose ≡ Some item) }
        ensures err { IfErr result (λ back. back ≡ item) }
    {
        let mut link = LinkedList::new(alloc);
        match link.push_back(item) {
            Ok(()) => Ok(Loose { link }),
            Err(refused) => Err(refused.value),
        }
    }

    /// The item that the link held. The link's memory is given back.
    pub fn into_item(self) -> T
        ensures { self ≡ Some result }
    {
        let Loose { mut link } = self;
        link.pop_front().unwrap()
    }
}

/// A chain of links, seen as the list of its items.
///
/// The links before one place stand apart from those from there on, so that what stands there is found at once. It is
/// the place that was last changed, or gone to since. No call takes memory.
#[derive(Drop)]
pub struct Chain<T> {
    before: LinkedList<T>,
    after: LinkedList<T>,
}

impl<T> Model for Chain<T> {
    ghost use Rattle.std.specs.Prelude.{List, ◌++◌, ◌+◌, ◌<◌, ◌^◌, length};
    ghost use Rattle.std.specs.Coded.{coded_list};

    ghost Value = { List T };

    ghost coded = { coded_list T.code };

    ghost view = { λ a. a.before ++ a.after };

    ghost invariant = { λ a. length a.before + length a.after < 2 ^ 63 };
}

// Moves links between the two lists, so that `before` has `at` of them.
fn seek<T>(before: &mut LinkedList<T>, after: &mut LinkedList<T>, at: usize)
    requires place { at ≤ length before.old + length after.old }
    requires fits { length before.old + length after.old < 2 ^ 63 }
    ensures before { before.new ≡ take at (before.old ++ after.old) }
    ensures after { after.new ≡ drop at (before.old ++ after.old) }
{
    if at != before.len() {
        walk(before, after, at);
    }
}

// Moves links between the two lists, where `before` has not `at` of them yet.
#[inline(never)]
fn walk<T>(before: &mut LinkedList<T>, after: &mut LinkedList<T>, at: usize)
    requires place { at ≤ length before.old + length after.old }
    requires fits { length before.old + length after.old < 2 ^ 63 }
    ensures before { before.new ≡ take at (before.old ++ after.old) }
    ensures after { after.new ≡ drop at (before.old ++ after.old) }
{
    let here = before.len();
    if at < here {
        let mut moved = before.split_off(at).unwrap();
        moved.append(after).unwrap();
        mem::swap(after, &mut moved);
        moved.destroy_empty();
    } else {
        let mut rest = after.split_off(at - here).unwrap();
        before.append(after).unwrap();
        mem::swap(after, &mut rest);
        rest.destroy_empty();
    }
}

impl<T: Drop> Chain<T> {
    /// A chain with no links.
    pub fn new(alloc: Global) -> Chain<T>
        ensures { result ≡ [] }
    {
        Chain {
            before: LinkedList::new(alloc),
            after: LinkedList::new(alloc),
        }
    }

    /// How many items there are, below 2^63.
    pub fn len(&self) -> usize
        ensures value { result ≡ length self.now }
        ensures fits { result < 2 ^ 63 }
    {
        self.before.len() + self.after.len()
    }

    /// The item at a place below the length, found by a walk.
    pub fn get(&self, at: usize) -> &T
        requires { at < length self.now }
        ensures { slice_get self.now at ≡ Some result.now }
    {
        let before = self.before.len();
        if at < before {
            self.before.iter().nth(at).unwrap()
        } else {
            self.after.iter().nth(at - before).unwrap()
        }
    }

    /// The first item, found at once.
    pub fn first(&self) -> Option<&T>
        ensures { option_copied result ≡ slice_get self.now 0 }
    {
        match self.before.front() {
            Some(item) => Some(item),
            None => self.after.front(),
        }
    }

    /// The last item, found at once.
    pub fn last(&self) -> Option<&T>
        ensures { option_copied result ≡ slice_get self.now (length self.now - 1) }
    {
        match self.after.back() {
            Some(item) => Some(item),
            None => self.before.back(),
        }
    }

    /// The place that was last changed or gone to, and the item there, found at once; `None` behind the last item.
    pub fn here(&self) -> Option<(usize, &T)>
        ensures { IfSome result (λ found. slice_get self.now found.0 ≡ Some found.1.now) }
    {
        match self.after.front() {
            Some(item) => Some((self.before.len(), item)),
            None => None,
        }
    }

    /// Visits the items in order.
    pub fn iter(&self) -> Iter<'_, T>
        ensures { result ≡ self.now }
    {
        Iter::over(self.before.iter(), self.after.iter())
    }

    /// Goes to a place, or behind the last item where there is none. No item changes.
    pub fn go_to(&mut self, at: usize)
        ensures { self.new ≡ self.old }
    {
        let at = at.min(self.len());
        seek(&mut self.before, &mut self.after, at);
    }

    /// The item at a place below the length, to be changed where it stands.
    pub fn get_mut(&mut self, at: usize) -> &mut T
        requires { at < length self.old }
        ensures* writes_back { sem 𝓛 (LendsItem T.row self.entry at result) }
        ensures value { slice_get self.old at ≡ Some result.now }
    {
        seek(&mut self.before, &mut self.after, at);
        self.after.front_mut().unwrap()
    }

    /// Puts the link at a place from 0 to the length; the items from there on stand one place higher.
    pub fn insert(&mut self, at: usize, loose: Loose<T>)
        requires place { at ≤ length self.old }
        requires fits { length self.old + 1 < 2 ^ 63 }
        ensures { IsSomeAnd loose (λ item. self.new ≡ insert self.old at item) }
    {
        let Loose { mut link } = loose;
        seek(&mut self.before, &mut self.after, at);
        self.before.append(&mut link).unwrap();
    }

    /// Takes the link at a place below the length out; the items behind it stand one place lower.
    pub fn take(&mut self, at: usize) -> Loose<T>
        requires { at < length self.old }
        ensures item { result ≡ slice_get self.old at }
        ensures rest { self.new ≡ remove self.old at }
    {
        seek(&mut self.before, &mut self.after, at);
        let mut link = self.after.split_off(1).unwrap();
        mem::swap(&mut self.after, &mut link);
        Loose { link }
    }

    /// Exchanges the item at a place below the length and another one.
    pub fn swap_at(&mut self, at: usize, other: &mut T)
        requires { at < length self.old }
        ensures given { slice_get self.old at ≡ Some other.new }
        ensures held { self.new ≡ slice_set self.old at other.old }
    {
        seek(&mut self.before, &mut self.after, at);
        mem::swap(self.after.front_mut().unwrap(), other);
    }
}
