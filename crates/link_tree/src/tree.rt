ghost use Rattle.std.specs.Prelude.{◌≡◌, ◌+◌, ◌<◌, ◌≤◌, ◌^◌, ◌++◌, ◌∷◌, [], length, slice_get, Some, None, IsSomeAnd};
ghost use Rattle.std.specs.List.{insert, remove};
ghost use Rattle.link_tree.specs.declared.tree.Tree.{Empty};
ghost use Rattle.std.specs.Fn.{FnOnceTakesAtMut, FnOnceReturnsAtMut};
ghost use Rattle.link_tree.specs.Trees.{before_top, items, IsAlone, IsSized};
ghost use Rattle.link_tree.specs.Changing.{ChangesAt, ChangesEach, Leaves, Takes, TakesEach};

use std::mem;

/// A tree of links. Of the two trees at a link neither has more than three times as many places for a further link as
/// the other, so that a tree of 4,096 links is at most 26 deep.
#[cycle(links)]
#[derive(Drop)]
pub(crate) enum Tree<T> {
    Empty,
    Filled(Box<Link<T>>),
}

/// A link, the links before it and those behind it, how many stand before it, and how many all of them are.
#[cycle(links)]
#[derive(Drop)]
pub(crate) struct Link<T> {
    pub(crate) item: T,
    pub(crate) left: Tree<T>,
    pub(crate) right: Tree<T>,
    pub(crate) before: usize,
    pub(crate) size: usize,
}

impl<T: Drop> Link<T> {
    /// A link with no others.
    pub(crate) fn new(item: T) -> Link<T>
        ensures item { result.item ≡ item }
        ensures left { result.left ≡ Empty }
        ensures right { result.right ≡ Empty }
        ensures before { result.before ≡ 0 }
        ensures size { result.size ≡ 1 }
    {
        Link {
            item,
            left: Tree::Empty,
            right: Tree::Empty,
            before: 0,
            size: 1,
        }
    }

    pub(crate) fn into_item(self) -> T
        ensures { self.item ≡ result }
    {
        let Link { item, .. } = self;
        item
    }
}

// Changes an item.
#[inline(always)]
fn changed<T, R, F: FnOnce(&mut T) -> R>(item: &mut T, change: F) -> R
    requires { FnOnceTakesAtMut F.FnOnce change item.old }
    ensures { FnOnceReturnsAtMut F.FnOnce change item.old result item.new }
{
    change(item)
}

// Changes an item by a closure that is used again.
#[inline(always)]
fn changed_by<T, F: Fn(&mut T)>(item: &mut T, change: &F)
    requires { Takes F.Fn change.now item.old }
    ensures { Leaves F.Fn change.now item.old item.new }
{
    change(item)
}

// Changes an item by a closure, which is taken out of its place, and puts what it gave in the place for that.
#[inline(always)]
fn change_item<T, R, F: FnOnce(&mut T) -> R>(
    item: &mut T,
    change: &mut Option<F>,
    answer: &mut Option<R>,
)
    requires open { answer.old ≡ None }
    requires callable { IsSomeAnd change.old (λ f. FnOnceTakesAtMut F.FnOnce f item.old) }
    ensures called { change.new ≡ None }
    ensures changed { IsSomeAnd change.old (λ f. IsSomeAnd answer.new (λ r. FnOnceReturnsAtMut F.FnOnce f item.old r item.new)) }
{
    match change.take() {
        None => unreachable!(),
        Some(change) => {
            let given = changed(item, change);
            match answer.replace(given) {
                None => {}
                Some(_) => unreachable!(),
            }
        }
    }
}

impl<T> Tree<T> {
    pub(crate) fn len(&self) -> usize
        requires { IsSized self.now }
        ensures { result ≡ length (items self.now) }
    {
        match self {
            Tree::Empty => 0,
            Tree::Filled(link) => link.size,
        }
    }

    /// The item at a place below the length. The links behind are compared first: their step is the longer one, and items that
    /// were put in one behind the other stand that way.
    pub(crate) fn get(&self, at: usize) -> &T
        requires sized { IsSized self.now }
        requires place { at < length (items self.now) }
        ensures { slice_get (items self.now) at ≡ Some result.now }
    {
        match self {
            Tree::Empty => unreachable!(),
            Tree::Filled(link) => {
                let before = link.before;
                if before < at {
                    link.right.get(at - before - 1)
                } else if before == at {
                    &link.item
                } else {
                    link.left.get(at)
                }
            }
        }
    }

    /// Changes the item at a place below the length where it stands. The closure is lent down to it, so that no call on the
    /// way copies what it holds.
    pub(crate) fn change_at<R, F: FnOnce(&mut T) -> R>(
        &mut self,
        at: usize,
        change: &mut Option<F>,
        answer: &mut Option<R>,
    )
        requires sized { IsSized self.old }
        requires place { at < length (items self.old) }
        requires open { answer.old ≡ None }
        requires callable { IsSomeAnd change.old (λ f. (x : _) → slice_get (items self.old) at ≡ Some x → FnOnceTakesAtMut F.FnOnce f x) }
        ensures sized { IsSized self.new }
        ensures called { change.new ≡ None }
        ensures changed { IsSomeAnd change.old (λ f. IsSomeAnd answer.new (λ r. ChangesAt F.FnOnce f at (items self.old) r (items self.new))) }
    {
        match self {
            Tree::Empty => unreachable!(),
            Tree::Filled(link) => {
                let before = link.before;
                if before < at {
                    link.right.change_at(at - before - 1, change, answer)
                } else if before == at {
                    change_item(&mut link.item, change, answer)
                } else {
                    link.left.change_at(at, change, answer)
                }
            }
        }
    }

    /// Changes each item where it stands.
    pub(crate) fn change_each<F: Fn(&mut T)>(&mut self, change: &F)
        requires sized { IsSized self.old }
        requires callable { TakesEach F.Fn change.now (items self.old) }
        ensures sized { IsSized self.new }
        ensures changed { ChangesEach F.Fn change.now (items self.old) (items self.new) }
    {
        match self {
            Tree::Empty => {}
            Tree::Filled(link) => {
                let link = &mut **link;
                link.left.change_each(change);
                changed_by(&mut link.item, change);
                link.right.change_each(change);
            }
        }
    }

    /// The place, behind so many others, of the first item that passes a test, where each item behind one that passes
    /// passes too; behind the last one where none passes.
    pub(crate) fn place<F: FnMut(&T) -> bool>(&self, test: &mut F, passed: usize) -> usize
        requires sized { IsSized self.now }
        requires fits { passed + length (items self.now) < 2 ^ 64 }
        requires callable { (state : F) (item : _) → F.pre state item }
    {
        match self {
            Tree::Empty => passed,
            Tree::Filled(link) => {
                if test(&link.item) {
                    link.left.place(test, passed)
                } else {
                    link.right.place(test, passed + link.before + 1)
                }
            }
        }
    }

    /// The tree, out of the place where it stood.
    pub(crate) fn part(&mut self) -> Tree<T>
        ensures value { result ≡ self.old }
        ensures rest { self.new ≡ Empty }
    {
        mem::replace(self, Tree::Empty)
    }
}

impl<T: Drop> Tree<T> {
    // A link between two trees.
    fn between(link: Box<Link<T>>, left: Tree<T>, right: Tree<T>) -> Tree<T>
        requires left { IsSized left }
        requires right { IsSized right }
        requires fits { length (items left) + length (items right) + 1 < 2 ^ 64 }
        ensures sized { IsSized result }
        ensures items { items result ≡ items left ++ link.value.item ∷ items right }
    {
        let mut link = link;
        link.before = left.len();
        link.size = link.before + right.len() + 1;
        link.left = left;
        link.right = right;
        Tree::Filled(link)
    }

    // Turns the tree to the right, where too many links stand before its top. The link there goes up; if its inner tree is
    // too large to stand below the old top, that tree's own top goes up in its stead.
    #[inline(never)]
    fn turn_right(&mut self)
        requires sized { IsSized self.old }
        requires fits { length (items self.old) < 2 ^ 64 }
        ensures sized { IsSized self.new }
        ensures items { items self.new ≡ items self.old }
    {
        let Tree::Filled(mut link) = self.part() else {
            return;
        };
        let Tree::Filled(mut up) = link.left.part() else {
            *self = Tree::Filled(link);
            return;
        };
        let whole = link.size;
        let outer = up.before;
        let inner = up.size - outer - 1;
        link.before = inner;
        link.size = whole - outer - 1;
        if inner - inner / 2 <= outer {
            link.left = up.right.part();
        } else if let Tree::Filled(mut top) = up.right.part() {
            link.left = top.right.part();
            link.before = inner - top.before - 1;
            link.size = whole - outer - top.before - 2;
            up.right = top.left.part();
            up.size = outer + top.before + 1;
            top.before = up.size;
            top.left = Tree::Filled(up);
            up = top;
        }
        up.right = Tree::Filled(link);
        up.size = whole;
        *self = Tree::Filled(up);
    }

    // Turns the tree to the left, where too many links stand behind its top. The link there goes up; if its inner tree is
    // too large to stand below the old top, that tree's own top goes up in its stead.
    #[inline(never)]
    fn turn_left(&mut self)
        requires sized { IsSized self.old }
        requires fits { length (items self.old) < 2 ^ 64 }
        ensures sized { IsSized self.new }
        ensures items { items self.new ≡ items self.old }
    {
        let Tree::Filled(mut link) = self.part() else {
            return;
        };
        let Tree::Filled(mut up) = link.right.part() else {
            *self = Tree::Filled(link);
            return;
        };
        let whole = link.size;
        let before = link.before;
        let inner = up.before;
        link.size = before + inner + 1;
        if inner - inner / 2 <= up.size - inner - 1 {
            link.right = up.left.part();
        } else if let Tree::Filled(mut top) = up.left.part() {
            link.right = top.left.part();
            link.size = before + top.before + 1;
            up.left = top.right.part();
            up.before = inner - top.before - 1;
            up.size = up.size - top.before - 1;
            top.right = Tree::Filled(up);
            up = top;
        }
        up.before = link.size;
        up.left = Tree::Filled(link);
        up.size = whole;
        *self = Tree::Filled(up);
    }

    /// Puts a link in at a place from 0 to the length.
    ///
    /// How many links stand on each side is known before the link is put in, so that a call on the way is the last step of
    /// the call before it, unless links have to be turned there.
    pub(crate) fn insert(&mut self, at: usize, loose: Box<Link<T>>)
        requires sized { IsSized self.old }
        requires place { at ≤ length (items self.old) }
        requires fits { length (items self.old) + 1 < 2 ^ 63 }
        requires alone { IsAlone loose.value }
        ensures sized { IsSized self.new }
        ensures items { items self.new ≡ insert (items self.old) at loose.value.item }
    {
        match self {
            Tree::Empty => *self = Tree::Filled(loose),
            Tree::Filled(link) => {
                let link = &mut **link;
                let before = link.before;
                let behind = link.size - before - 1;
                link.size += 1;
                if at <= before {
                    link.before = before + 1;
                    if (before + 1) / 3 > behind {
                        link.left.insert(at, loose);
                        self.turn_right();
                    } else {
                        link.left.insert(at, loose);
                    }
                } else if (behind + 1) / 3 > before {
                    link.right.insert(at - before - 1, loose);
                    self.turn_left();
                } else {
                    link.right.insert(at - before - 1, loose);
                }
            }
        }
    }

    // Takes the first link out.
    fn take_first(&mut self) -> Box<Link<T>>
        requires sized { IsSized self.old }
        requires some { 0 < length (items self.old) }
        requires fits { length (items self.old) < 2 ^ 64 }
        ensures sized { IsSized self.new }
        ensures items { items self.old ≡ result.value.item ∷ items self.new }
        ensures alone { IsAlone result.value }
    {
        match self {
            Tree::Empty => unreachable!(),
            Tree::Filled(link) => {
                let link = &mut **link;
                let before = link.before;
                if before == 0 {
                    return self.take_outer();
                }
                let behind = link.size - before - 1;
                link.size -= 1;
                link.before = before - 1;
                if behind / 3 > before - 1 {
                    let first = link.left.take_first();
                    self.turn_left();
                    first
                } else {
                    link.left.take_first()
                }
            }
        }
    }

    // Takes the top link out of a tree in which no link stands before it.
    fn take_outer(&mut self) -> Box<Link<T>>
        requires sized { IsSized self.old }
        requires some { 0 < length (items self.old) }
        requires first { before_top self.old ≡ 0 }
        ensures sized { IsSized self.new }
        ensures items { items self.old ≡ result.value.item ∷ items self.new }
        ensures alone { IsAlone result.value }
    {
        match self.part() {
            Tree::Empty => unreachable!(),
            Tree::Filled(mut link) => {
                *self = link.right.part();
                link.size = 1;
                link
            }
        }
    }

    // Takes the top link out; the trees before and behind it become one.
    fn take_top(&mut self) -> Box<Link<T>>
        requires sized { IsSized self.old }
        requires some { 0 < length (items self.old) }
        requires fits { length (items self.old) < 2 ^ 64 }
        ensures sized { IsSized self.new }
        ensures items { items self.new ≡ remove (items self.old) (before_top self.old) }
        ensures taken { slice_get (items self.old) (before_top self.old) ≡ Some result.value.item }
        ensures alone { IsAlone result.value }
    {
        match self.part() {
            Tree::Empty => unreachable!(),
            Tree::Filled(mut link) => {
                let (left, right) = (link.left.part(), link.right.part());
                link.before = 0;
                link.size = 1;
                *self = Tree::joined(left, right);
                link
            }
        }
    }

    // Two trees as one.
    fn joined(left: Tree<T>, right: Tree<T>) -> Tree<T>
        requires left { IsSized left }
        requires right { IsSized right }
        requires fits { length (items left) + length (items right) < 2 ^ 64 }
        ensures sized { IsSized result }
        ensures items { items result ≡ items left ++ items right }
    {
        let mut right = right;
        let (before, behind) = (left.len(), right.len());
        if behind == 0 {
            return left;
        }
        let first = right.take_first();
        let mut tree = Tree::between(first, left, right);
        if before / 3 > behind - 1 {
            tree.turn_right();
        }
        tree
    }

    /// Takes the link at a place below the length out.
    pub(crate) fn take(&mut self, at: usize) -> Box<Link<T>>
        requires sized { IsSized self.old }
        requires place { at < length (items self.old) }
        requires fits { length (items self.old) < 2 ^ 64 }
        ensures sized { IsSized self.new }
        ensures items { items self.new ≡ remove (items self.old) at }
        ensures taken { slice_get (items self.old) at ≡ Some result.value.item }
        ensures alone { IsAlone result.value }
    {
        match self {
            Tree::Empty => unreachable!(),
            Tree::Filled(link) => {
                let link = &mut **link;
                let before = link.before;
                if at == before {
                    return self.take_top();
                }
                let behind = link.size - before - 1;
                link.size -= 1;
                if at < before {
                    link.before = before - 1;
                    if behind / 3 > before - 1 {
                        let taken = link.left.take(at);
                        self.turn_left();
                        taken
                    } else {
                        link.left.take(at)
                    }
                } else if before / 3 > behind - 1 {
                    let taken = link.right.take(at - before - 1);
                    self.turn_right();
                    taken
                } else {
                    link.right.take(at - before - 1)
                }
            }
        }
    }
}
