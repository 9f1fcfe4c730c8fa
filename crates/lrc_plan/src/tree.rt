//! Plan trees.
ghost use Rattle.std.specs.Prelude.{◌≡◌, ◌||◌, ℕ, min, map};
ghost use Rattle.std.specs.Int.Bits.{bit_xor};
ghost use Rattle.lrc_field.specs.Field.{times};
ghost use Rattle.lrc_code.specs.declared.places.Place.{Place};
ghost use Rattle.lrc_code.specs.Places.{all_places};
ghost use Rattle.lrc_code.specs.Sets.{is_in};
ghost use Rattle.lrc_field.specs.Sums.{combination};
ghost use Rattle.lrc_plan.specs.Form.{leaf_total, has_leaf, meaning, AreCoefficients};
ghost use Rattle.lrc_plan.specs.Tree.{form_of};

pub(crate) mod both_branches;
mod copying;
pub(crate) mod evaluation;
pub(crate) mod grafting;

use lrc_code::{Place, PlaceSet};
use lrc_field::Gf;
use std::alloc::Allocator;

/// A linear combination of fragments, as a tree whose nodes are in the allocator `A`.
#[derive(Drop)]
pub enum Tree<A: Allocator> {
    /// The fragment at a place.
    Leaf(Place),
    /// A scalar times what is below.
    Scale(Gf, Box<Tree<A>, A>),
    /// The sum of both branches.
    Sum(Box<Tree<A>, A>, Box<Tree<A>, A>),
}

impl<A: Allocator> Tree<A> {
    /// The number of leaves, or the greatest `u32` where there are more.
    pub fn leaf_count(&self) -> u32
        ensures { result ≡ min (leaf_total (form_of self.now)) u32.MAX }
    {
        match self {
            Tree::Leaf(_) => 1,
            Tree::Scale(_, below) => below.leaf_count(),
            Tree::Sum(left, right) => left.leaf_count().saturating_add(right.leaf_count()),
        }
    }

    /// The places that occur as leaves.
    pub fn leaves(&self) -> PlaceSet
        ensures { (p : Place) → is_in result p ≡ has_leaf (form_of self.now) p }
    {
        self.add_leaves(PlaceSet::empty())
    }

    /// These places and those that occur as leaves.
    fn add_leaves(&self, found: PlaceSet) -> PlaceSet
        ensures { (p : Place) → is_in result p ≡ (has_leaf (form_of self.now) p || is_in found p) }
    {
        match self {
            Tree::Leaf(place) => found.with(*place),
            Tree::Scale(_, below) => below.add_leaves(found),
            Tree::Sum(left, right) => left.add_leaves(right.add_leaves(found)),
        }
    }

    /// The coefficients of the same combination, by the places' indexes; 00 where no leaf is.
    pub fn coefficients(&self) -> [Gf; 16]
        ensures { AreCoefficients result (form_of self.now) }
    {
        let mut sums = [Gf::new(0); 16];
        self.add_coefficients(Gf::new(1), &mut sums);
        sums
    }

    /// Adds the tree's coefficients, times a factor.
    fn add_coefficients(&self, factor: Gf, sums: &mut [Gf; 16])
        ensures { (b : Place → ℕ) → combination sums.new (map b all_places)
            ≡ bit_xor (combination sums.old (map b all_places)) (times factor (meaning b (form_of self.now))) }
    {
        match self {
            Tree::Leaf(place) => {
                let i = place.index();
                sums[i] = sums[i].add(factor);
            }
            Tree::Scale(scalar, below) => below.add_coefficients(factor.mul(*scalar), sums),
            Tree::Sum(left, right) => {
                left.add_coefficients(factor, sums);
                right.add_coefficients(factor, sums);
            }
        }
    }
}
