//! Trees that are built by hand, copied out of an arena and grafted, in the heap, in an arena and in heaps of few bytes.
use super::heaps::heap_of;
use super::shown::show_tree;
use crate::assertions::given;
use crate::given::{number, place};
use bumpalo::Bump;
use linked_list_allocator::LocalHeap;
use lrc_code::Place;
use lrc_field::Gf;
use lrc_plan::{GraftRefused, Tree};
use std::alloc::{AllocError, Allocator, Global};
use std::mem;
use std::process::Abort;
use std::str::SplitWhitespace;

/// The sum of two leaves.
fn sum_of_leaves<A: Allocator + Copy>(
    rt: &impl Abort,
    alloc: A,
    left: Place,
    right: Place,
) -> Tree<A> {
    let left = given(rt, Box::new(alloc, Tree::Leaf(left)));
    let right = given(rt, Box::new(alloc, Tree::Leaf(right)));
    Tree::Sum(left, right)
}

/// 03 * (x1 + x2)
fn sample<A: Allocator + Copy>(rt: &impl Abort, alloc: A) -> Tree<A> {
    let sum = sum_of_leaves(rt, alloc, Place::X1, Place::X2);
    Tree::Scale(Gf::new(0x03), given(rt, Box::new(alloc, sum)))
}

/// The sample in the heap, copied out of an arena that then ends.
fn copied_sample(rt: &(impl Abort + AllocGlobal + Print)) -> Tree<Global> {
    let bump = Bump::new(rt.alloc());
    let inside = sample(rt, &bump);
    let outside = given(rt, inside.copy_in(rt.alloc()));
    show_tree(rt, &inside);
    outside
}

/// Shows the sample as it is copied, the copy after its arena, its coefficients, and how many bytes a tree has.
#[test]
fn copied_out_of_an_arena(rt: HostRuntime) {
    let outside = copied_sample(&rt);
    show_tree(&rt, &outside);
    let size = mem::size_of::<Tree<&LocalHeap>>();
    let _ = println!(&rt; "\n{:?} {size}", outside.coefficients());
}

/// Shows what is copied, or that the memory is refused.
fn show_copied<A: Allocator>(rt: &impl Print, copied: Result<Tree<A>, AllocError>) {
    match copied {
        Ok(copy) => show_tree(rt, &copy),
        Err(AllocError) => {
            let _ = print!(rt; " refused");
        }
    }
}

/// Shows the copy of the sample in a heap of a size that is given, and the sample after that.
pub fn show_copies(rt: &(impl Abort + AllocGlobal + Print), mut words: SplitWhitespace<'_>) {
    let source = sample(rt, rt.alloc());
    show_copied(rt, source.copy_in(&heap_of(rt, number(&mut words))));
    show_tree(rt, &source);
    let _ = print!(rt; "\n");
}

/// Shows a tree, its leaves and its coefficients.
fn show_whole<A: Allocator>(rt: &impl Print, tree: &Tree<A>) {
    show_tree(rt, tree);
    let leaves = tree.leaves();
    let _ = println!(rt;
        " {} {leaves:?} {:?}",
        tree.leaf_count(),
        tree.coefficients()
    );
}

/// Shows what is grafted, or both trees, which come back where memory is refused.
fn show_grafted<A: Allocator>(rt: &impl Print, grafted: Result<Tree<A>, GraftRefused<A>>) {
    match grafted {
        Ok(tree) => show_whole(rt, &tree),
        Err(back) => {
            let _ = print!(rt; " refused");
            show_tree(rt, &back.host);
            show_tree(rt, &back.scion);
            let _ = print!(rt; "\n");
        }
    }
}

/// Shows x1 + x1, where 02 * x2 is put in the place of these leaves. The trees are in the one memory, and the copies in the other.
fn show_graft<A: Allocator + Copy>(rt: &(impl Abort + Print), trees: A, copies: A, leaves: Place) {
    let host = sum_of_leaves(rt, trees, Place::X1, Place::X1);
    let leaf = given(rt, Box::new(trees, Tree::Leaf(Place::X2)));
    let scion = Tree::Scale(Gf::new(0x02), leaf);
    show_grafted(rt, host.graft(copies, leaves, scion));
}

/// A heap in which a graft has room.
const ROOMY: usize = 16_384;

/// Shows the grafts in the heap, in an arena, and of trees beside in a heap. Given are its size, and the place of the leaves.
pub fn show_grafts(rt: &(impl Abort + AllocGlobal + Print), mut words: SplitWhitespace<'_>) {
    let size = number(&mut words);
    let leaves = place(&mut words);
    show_graft(rt, rt.alloc(), rt.alloc(), leaves);
    let bump = Bump::new(rt.alloc());
    show_graft(rt, &bump, &bump, leaves);
    show_graft(rt, &heap_of(rt, ROOMY), &heap_of(rt, size), leaves);
}
