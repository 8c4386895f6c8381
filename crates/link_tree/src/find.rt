// Items that pass a test.
//
// The links on the way call themselves. The last step of each such call is the one for the links behind its own, and a link
// with no others needs none: so for `any` there is a call for about one link in four. For `count_to_first` there is none for
// up to three links either, so there is a call for about one link in eight.
ghost use Rattle.std.specs.Prelude.{◌≡◌, ◌+◌, ◌<◌, ◌^◌, length, MatchBool};
ghost use Rattle.std.specs.Fn.{FnReturnsAt};
ghost use Rattle.link_tree.specs.Trees.{items, IsSized};
ghost use Rattle.link_tree.specs.Passing.{link_items, CountsToFirst, IsSizedLink, NonePasses, SomePasses};

use crate::tree::{Link, Tree};

// Whether an item passes a test.
#[inline(always)]
fn passes<T, F: Fn(&T) -> bool>(item: &T, test: &F) -> bool
    requires { F.IsAlwaysCallable test.now }
    ensures { FnReturnsAt F.Fn test.now item.now result }
{
    test(item)
}

impl<T> Tree<T> {
    /// Whether some item passes a test.
    #[inline(always)]
    #[cycle(any)]
    pub(crate) fn any<F: Fn(&T) -> bool>(&self, test: &F) -> bool
        requires sized { IsSized self.now }
        requires callable { F.IsAlwaysCallable test.now }
        ensures { MatchBool result (SomePasses F.Fn test.now (items self.now)) (NonePasses F.Fn test.now (items self.now)) }
    {
        match self {
            Tree::Empty => false,
            Tree::Filled(link) => {
                if link.size == 1 {
                    passes(&link.item, test)
                } else {
                    link.any(test)
                }
            }
        }
    }

    /// Whether some item passes a test; the items before the first one that does, or all of them, are counted as passed.
    #[inline(always)]
    #[cycle(first)]
    pub(crate) fn count_to_first<F: Fn(&T) -> bool>(&self, test: &F, passed: &mut usize) -> bool
        requires sized { IsSized self.now }
        requires fits { passed.old + length (items self.now) < 2 ^ 64 }
        requires callable { F.IsAlwaysCallable test.now }
        ensures { CountsToFirst F.Fn test.now (items self.now) passed.old result passed.new }
    {
        match self {
            Tree::Empty => false,
            Tree::Filled(link) => {
                if link.size > 3 {
                    link.count_to_first(test, passed)
                } else {
                    link.count_few(test, passed)
                }
            }
        }
    }

    // The same, where there is hardly more than one item.
    #[inline(always)]
    #[cycle(first)]
    fn count_one<F: Fn(&T) -> bool>(&self, test: &F, passed: &mut usize) -> bool
        requires sized { IsSized self.now }
        requires fits { passed.old + length (items self.now) < 2 ^ 64 }
        requires callable { F.IsAlwaysCallable test.now }
        ensures { CountsToFirst F.Fn test.now (items self.now) passed.old result passed.new }
    {
        match self {
            Tree::Empty => false,
            Tree::Filled(link) => {
                if link.size > 1 {
                    return link.count_to_first(test, passed);
                }
                if passes(&link.item, test) {
                    return true;
                }
                *passed += 1;
                false
            }
        }
    }
}

impl<T> Link<T> {
    #[cycle(any)]
    fn any<F: Fn(&T) -> bool>(&self, test: &F) -> bool
        requires sized { IsSizedLink self.now }
        requires callable { F.IsAlwaysCallable test.now }
        ensures { MatchBool result (SomePasses F.Fn test.now (link_items self.now)) (NonePasses F.Fn test.now (link_items self.now)) }
    {
        if passes(&self.item, test) {
            return true;
        }
        if self.left.any(test) {
            return true;
        }
        match &self.right {
            Tree::Empty => false,
            Tree::Filled(right) => right.any(test),
        }
    }

    #[cycle(first)]
    fn count_to_first<F: Fn(&T) -> bool>(&self, test: &F, passed: &mut usize) -> bool
        requires sized { IsSizedLink self.now }
        requires fits { passed.old + length (link_items self.now) < 2 ^ 64 }
        requires callable { F.IsAlwaysCallable test.now }
        ensures { CountsToFirst F.Fn test.now (link_items self.now) passed.old result passed.new }
    {
        if self.left.count_to_first(test, passed) {
            return true;
        }
        if passes(&self.item, test) {
            return true;
        }
        *passed += 1;
        match &self.right {
            Tree::Empty => false,
            Tree::Filled(right) => right.count_to_first(test, passed),
        }
    }

    // The same, where there are hardly more than three items.
    #[inline(always)]
    #[cycle(first)]
    fn count_few<F: Fn(&T) -> bool>(&self, test: &F, passed: &mut usize) -> bool
        requires sized { IsSizedLink self.now }
        requires fits { passed.old + length (link_items self.now) < 2 ^ 64 }
        requires callable { F.IsAlwaysCallable test.now }
        ensures { CountsToFirst F.Fn test.now (link_items self.now) passed.old result passed.new }
    {
        if self.left.count_one(test, passed) {
            return true;
        }
        if passes(&self.item, test) {
            return true;
        }
        *passed += 1;
        self.right.count_one(test, passed)
    }
}
