//! Trees put in the place of leaves.
ghost use Rattle.std.specs.Prelude.{◌≡◌, ◌≤◌, ◌+◌, false, min, Ok, IfOk, IfErr, OnOk, vec_len, All};
ghost use Rattle.lrc_plan.specs.Form.{has_leaf, grafted, place_total};
ghost use Rattle.lrc_plan.specs.Tree.{form_of};

use crate::tree::Tree;
use lrc_code::Place;
use std::alloc::{AllocError, Allocator};
use std::fmt::{self, Debug, Formatter, Write};
use thiserror::Error;

/// No memory for a graft: both trees come back as they were.
#[derive(Drop, Error)]
#[error("out of memory for a graft")]
pub struct GraftRefused<A: Allocator> {
    pub host: Tree<A>,
    pub scion: Tree<A>,
}

impl<A: Allocator> Debug for GraftRefused<A> {
    /// Trees of any allocator are not written out.
    fn fmt<W: Write>(&self, f: &mut Formatter<W>) -> fmt::Result {
        f.write_str("GraftRefused")
    }
}

impl<A: Allocator> Tree<A> {
    /// The host in which each leaf of the place is a copy of the scion. It is refused only if memory is,
    /// and never where no leaf is of the place.
    pub fn graft(self, alloc: A, place: Place, scion: Tree<A>) -> Result<Tree<A>, GraftRefused<A>>
    where
        A: Clone,
        ensures grafted { IfOk result (λ t. form_of t ≡ grafted (form_of self) place (form_of scion)) }
        ensures untouched { has_leaf (form_of self) place ≡ false → result ≡ Ok self }
        ensures host_back { IfErr result (λ e. e.host ≡ self) }
        ensures scion_back { IfErr result (λ e. e.scion ≡ scion) }
    {
        let count = self.count_of(place);
        if count == 0 {
            return Ok(self);
        }
        let mut host = self;
        match host.copies_for(alloc, place, count, &scion) {
            Ok(mut copies) => {
                host.replace_leaves(place, &scion, &mut copies);
                Ok(host)
            }
            Err(AllocError) => Err(GraftRefused { host, scion }),
        }
    }

    /// The number of leaves of the place, or the greatest where there are more.
    fn count_of(&self, place: Place) -> usize
        ensures { result ≡ min (place_total (form_of self.now) place) usize.MAX }
    {
        match self {
            Tree::Leaf(at) => { if *at == place { 1 } else { 0 } }
            Tree::Scale(_, below) => below.count_of(place),
            Tree::Sum(left, right) => { left.count_of(place).saturating_add(right.count_of(place)) }
        }
    }

    /// A copy of the scion for each leaf of the place. All are made before the host changes.
    fn copies_for(
        &self,
        alloc: A,
        place: Place,
        count: usize,
        scion: &Tree<A>,
    ) -> Result<Vec<Tree<A>, A>, AllocError>
    where
        A: Clone,
        ensures enough { IfOk result (λ v. vec_len v ≡ place_total (form_of self.now) place) }
        ensures alike { IfOk result (λ v. All (λ t. form_of t ≡ form_of scion.now) v.items) }
    {
        let mut copies = Vec::with_capacity(alloc.clone()?, count)?;
        self.push_copies(&alloc, place, scion, &mut copies)?;
        Ok(copies)
    }

    /// Adds a copy of the scion for each leaf of the place in this tree.
    fn push_copies(
        &self,
        alloc: &A,
        place: Place,
        scion: &Tree<A>,
        copies: &mut Vec<Tree<A>, A>,
    ) -> Result<(), AllocError>
    where
        A: Clone,
        requires { All (λ t. form_of t ≡ form_of scion.now) copies.old.items }
        ensures enough { OnOk result (vec_len copies.new ≡ vec_len copies.old + place_total (form_of self.now) place) }
        ensures alike { OnOk result (All (λ t. form_of t ≡ form_of scion.now) copies.new.items) }
    {
        match self {
            Tree::Leaf(at) => {
                if *at == place {
                    copies.push(scion.copy_by(alloc)?)?;
                }
                Ok(())
            }
            Tree::Scale(_, below) => below.push_copies(alloc, place, scion, copies),
            Tree::Sum(left, right) => {
                left.push_copies(alloc, place, scion, copies)?;
                right.push_copies(alloc, place, scion, copies)
            }
        }
    }

    /// Takes a copy for each leaf of the place.
    fn replace_leaves(&mut self, place: Place, scion: &Tree<A>, copies: &mut Vec<Tree<A>, A>)
        requires enough { place_total (form_of self.old) place ≤ vec_len copies.old }
        requires alike { All (λ t. form_of t ≡ form_of scion.now) copies.old.items }
        ensures grafted { form_of self.new ≡ grafted (form_of self.old) place (form_of scion.now) }
        ensures left { vec_len copies.new + place_total (form_of self.old) place ≡ vec_len copies.old }
        ensures alike { All (λ t. form_of t ≡ form_of scion.now) copies.new.items }
    {
        match self {
            Tree::Leaf(at) => {
                if *at == place {
                    if let Some(copy) = copies.pop() {
                        *self = copy;
                    }
                }
            }
            Tree::Scale(_, below) => below.replace_leaves(place, scion, copies),
            Tree::Sum(left, right) => {
                left.replace_leaves(place, scion, copies);
                right.replace_leaves(place, scion, copies);
            }
        }
    }
}
