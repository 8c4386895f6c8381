ghost use Rattle.std.specs.Prelude.{◌≡◌, ◌+◌, ◌-◌, ◌^◌, ◌<◌, ◌≤◌, ◌++◌, [], length, slice_get, Some, IfOk, IfErr, IfSome, IsSomeAnd, MatchBool};
ghost use Rattle.std.specs.List.{insert, remove};
ghost use Rattle.std.specs.Option.{option_copied, MatchOption};
ghost use Rattle.link_tree.specs.declared.tree.Tree.{Empty};
ghost use Rattle.link_tree.specs.Trees.{items, IsSized};
ghost use Rattle.std.specs.Fn.{FnOnceTakesAtMut};
ghost use Rattle.link_tree.specs.Changing.{ChangesAt, ChangesEach, TakesEach};
ghost use Rattle.link_tree.specs.Passing.{IsFirst, NonePasses, SomePasses};

use crate::iter::Iter;
use crate::numbers::Numbers;
use crate::tree::{Link, Tree};
use std::alloc::Global;
use std::marker::Model;

/// One detached link, seen as `Some` of its item. It owns the memory that its item needs in a list.
#[derive(Drop)]
pub struct Loose<T> {
    link: Tree<T>,
}

impl<T> Model for Loose<T> {
    ghost use Rattle.std.specs.Prelude.{◌≡◌, Option, length, slice_get};
    ghost use Rattle.std.specs.Coded.{coded_option};
    ghost use Rattle.link_tree.specs.Trees.{items, IsSized};

    ghost Value = { Option T };

    ghost coded = { coded_option T.code };

    ghost view = { λ a. slice_get (items a.link) 0 };

    ghost invariant = { λ a. (length (items a.link) ≡ 1) × IsSized a.link };
}

impl<T: Drop> Loose<T> {
    /// Takes the memory of one link. Where there is none, the item is handed back.
    pub fn new(alloc: Global, item: T) -> Result<Loose<T>, T>
        ensures ok { IfOk result (λ loose. loose ≡ Some item) }
        ensures err { IfErr result (λ back. back ≡ item) }
    {
        match Box::new(alloc, Link::new(item)) {
            Ok(link) => Ok(Loose {
                link: Tree::Filled(link),
            }),
            Err(refused) => Err(refused.value.into_item()),
        }
    }

    /// The item that the link held. The link's memory is given back.
    pub fn into_item(self) -> T
        ensures { self ≡ Some result }
    {
        let Loose { link } = self;
        match link {
            Tree::Empty => unreachable!(),
            Tree::Filled(link) => Box::into_inner(link).into_item(),
        }
    }
}

/// A list of links, held as a balanced tree, so that each place is found in a logarithm of steps. No call but
/// `Loose::new` takes memory.
#[derive(Drop)]
pub struct LinkTree<T> {
    tree: Tree<T>,
    here: usize,
    note: Option<u32>,
    numbers: Numbers,
}

impl<T> Model for LinkTree<T> {
    ghost use Rattle.std.specs.Prelude.{List, ◌<◌, ◌^◌, length};
    ghost use Rattle.std.specs.Coded.{coded_list};
    ghost use Rattle.link_tree.specs.Trees.{items, IsSized};

    ghost Value = { List T };

    ghost coded = { coded_list T.code };

    ghost view = { λ a. items a.tree };

    ghost invariant = { λ a. IsSized a.tree × (length (items a.tree) < 2 ^ 63) };
}

impl<T: Drop> LinkTree<T> {
    /// A list with no links. It takes no memory.
    pub fn new(alloc: Global) -> LinkTree<T>
        ensures { result ≡ [] }
    {
        LinkTree {
            tree: Tree::Empty,
            here: 0,
            note: None,
            numbers: Numbers::new(alloc),
        }
    }

    /// How many items there are, below 2^63.
    pub fn len(&self) -> usize
        ensures value { result ≡ length self.now }
        ensures fits { result < 2 ^ 63 }
    {
        self.tree.len()
    }

    /// The item at a place below the length.
    pub fn get(&self, at: usize) -> &T
        requires { at < length self.now }
        ensures { slice_get self.now at ≡ Some result.now }
    {
        self.tree.get(at)
    }

    /// The first item.
    pub fn first(&self) -> Option<&T>
        ensures { option_copied result ≡ slice_get self.now 0 }
    {
        if self.len() == 0 {
            None
        } else {
            Some(self.get(0))
        }
    }

    /// The last item.
    pub fn last(&self) -> Option<&T>
        ensures { option_copied result ≡ slice_get self.now (length self.now - 1) }
    {
        let length = self.len();
        if length == 0 {
            None
        } else {
            Some(self.get(length - 1))
        }
    }

    /// The place that was last changed or gone to, and the item there; `None` behind the last item.
    pub fn here(&self) -> Option<(usize, &T)>
        ensures { IfSome result (λ found. slice_get self.now found.0 ≡ Some found.1.now) }
    {
        if self.here < self.len() {
            Some((self.here, self.get(self.here)))
        } else {
            None
        }
    }

    /// Goes to a place, or behind the last item where there is none, and notes a number for it. No item changes.
    pub fn go_to(&mut self, at: usize, note: u32)
        ensures { self.new ≡ self.old }
    {
        self.here = at;
        self.note = Some(note);
    }

    /// Whether this number was noted for the place that was last gone to, and since then no item at another place was
    /// changed, and no link put in or taken out.
    pub fn is_noted(&self, note: u32) -> bool {
        match self.note {
            Some(noted) => noted == note,
            None => false,
        }
    }

    /// Notes a number for each place that has none, so that `noted_place` finds it; for none, where there is no memory. Neither
    /// putting in nor taking out a link takes memory for these. No item changes.
    pub fn note_places<F: Fn(&T) -> u32>(&mut self, number: F)
        requires { F.IsAlwaysCallable number }
        ensures { self.new ≡ self.old }
    {
        let noted = self.numbers.len();
        if noted == self.tree.len() || !self.numbers.make_room(self.tree.len()) {
            return;
        }
        for item in Iter::over(&self.tree).skip(noted) {
            self.numbers.push(number(item));
        }
    }

    /// A place for which a number was noted. Where links were put in since, it may be another one, or none.
    pub fn noted_place(&self, number: u32) -> Option<usize>
        ensures { IfSome result (λ at. at < length self.now) }
    {
        let at = self.numbers.place_of(number)?;
        if at < self.len() { Some(at) } else { None }
    }

    /// Visits the items in order.
    pub fn iter(&self) -> Iter<'_, T>
        ensures { result ≡ self.now }
    {
        Iter::over(&self.tree)
    }

    /// The first item that passes a test, behind its place, where each item behind one that passes passes too. Where the
    /// items are in another order it may be another item, or none.
    pub fn search<F: FnMut(&T) -> bool>(&self, test: F) -> Option<(usize, &T)>
        requires { (state : F) (item : _) → F.pre state item }
        ensures { IfSome result (λ found. slice_get self.now found.0 ≡ Some found.1.now) }
    {
        let mut test = test;
        let at = self.tree.place(&mut test, 0);
        if at < self.len() {
            Some((at, self.get(at)))
        } else {
            None
        }
    }

    /// Whether some item passes a test.
    pub fn any<F: Fn(&T) -> bool>(&self, test: F) -> bool
        requires { F.IsAlwaysCallable test }
        ensures { MatchBool result (SomePasses F.Fn test self.now) (NonePasses F.Fn test self.now) }
    {
        self.tree.any(&test)
    }

    /// The first item that passes a test, behind its place.
    pub fn find<F: Fn(&T) -> bool>(&self, test: F) -> Option<(usize, &T)>
        requires { F.IsAlwaysCallable test }
        ensures first { MatchOption result (NonePasses F.Fn test self.now) (λ found. IsFirst F.Fn test self.now found.0) }
        ensures item { IfSome result (λ found. slice_get self.now found.0 ≡ Some found.1.now) }
    {
        let mut at = 0;
        if self.tree.count_to_first(&test, &mut at) {
            Some((at, self.get(at)))
        } else {
            None
        }
    }

    /// Changes the item at a place below the length where it stands.
    pub fn change_at<R, F: FnOnce(&mut T) -> R>(&mut self, at: usize, change: F) -> R
        requires place { at < length self.old }
        requires callable { (x : _) → slice_get self.old at ≡ Some x → FnOnceTakesAtMut F.FnOnce change x }
        ensures { ChangesAt F.FnOnce change at self.old result self.new }
    {
        if at != self.here {
            self.here = at;
            self.note = None;
        }
        let mut change = Some(change);
        let mut answer = None;
        self.tree.change_at(at, &mut change, &mut answer);
        match (change, answer) {
            (None, Some(answer)) => answer,
            _ => unreachable!(),
        }
    }

    /// Changes each item where it stands, by one call of the closure.
    pub fn change_each<F: Fn(&mut T)>(&mut self, change: F)
        requires { TakesEach F.Fn change self.old }
        ensures { ChangesEach F.Fn change self.old self.new }
    {
        self.tree.change_each(&change);
    }

    /// Puts the link at a place from 0 to the length; the items from there on stand one place higher.
    pub fn insert(&mut self, at: usize, loose: Loose<T>)
        requires place { at ≤ length self.old }
        requires fits { length self.old + 1 < 2 ^ 63 }
        ensures { IsSomeAnd loose (λ item. self.new ≡ insert self.old at item) }
    {
        let Loose { link } = loose;
        self.here = at;
        self.note = None;
        self.numbers.end_at(at);
        if let Tree::Filled(link) = link {
            self.tree.insert(at, link);
        }
    }

    /// Takes the link at a place below the length out; the items behind it stand one place lower.
    pub fn take(&mut self, at: usize) -> Loose<T>
        requires { at < length self.old }
        ensures item { result ≡ slice_get self.old at }
        ensures rest { self.new ≡ remove self.old at }
    {
        self.here = at;
        self.note = None;
        self.numbers.take(at);
        Loose {
            link: Tree::Filled(self.tree.take(at)),
        }
    }
}
