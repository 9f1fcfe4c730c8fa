//! Trees under another allocator.
ghost use Rattle.std.specs.Prelude.{◌≡◌, IfOk};
ghost use Rattle.lrc_plan.specs.Tree.{form_of};

use crate::tree::Tree;
use std::alloc::{AllocError, Allocator};

impl<A: Allocator> Tree<A> {
    /// A copy of the tree under another allocator. This one stays as it is.
    pub fn copy_in<B: Allocator + Clone>(&self, alloc: B) -> Result<Tree<B>, AllocError>
        ensures { IfOk result (λ t. form_of t ≡ form_of self.now) }
    {
        self.copy_by(&alloc)
    }

    /// A copy of the tree in memory of this allocator.
    pub(crate) fn copy_by<B: Allocator + Clone>(&self, alloc: &B) -> Result<Tree<B>, AllocError>
        ensures { IfOk result (λ t. form_of t ≡ form_of self.now) }
    {
        match self {
            Tree::Leaf(place) => Ok(Tree::Leaf(*place)),
            Tree::Scale(scalar, below) => Ok(Tree::Scale(*scalar, below.copy_in_box(alloc)?)),
            Tree::Sum(left, right) => {
                let first = left.copy_in_box(alloc)?;
                let second = right.copy_in_box(alloc)?;
                Ok(Tree::Sum(first, second))
            }
        }
    }

    /// A copy of the tree in a box. What is below a node is copied before the node.
    fn copy_in_box<B: Allocator + Clone>(&self, alloc: &B) -> Result<Box<Tree<B>, B>, AllocError>
        ensures { IfOk result (λ b. form_of b.value ≡ form_of self.now) }
    {
        match self {
            Tree::Leaf(place) => Tree::Leaf(*place).in_box(alloc),
            Tree::Scale(scalar, below) => {
                let copy = below.copy_in_box(alloc)?;
                Tree::Scale(*scalar, copy).in_box(alloc)
            }
            Tree::Sum(left, right) => {
                let first = left.copy_in_box(alloc)?;
                let second = right.copy_in_box(alloc)?;
                Tree::Sum(first, second).in_box(alloc)
            }
        }
    }

    /// The tree in a box of this allocator.
    pub(crate) fn in_box(self, alloc: &A) -> Result<Box<Tree<A>, A>, AllocError>
    where
        A: Clone,
        ensures { IfOk result (λ b. form_of b.value ≡ form_of self) }
    {
        Ok(Box::new(alloc.clone()?, self)?)
    }
}
