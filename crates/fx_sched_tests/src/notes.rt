//! The numbers that are to be woken.
ghost use Rattle.std.specs.Prelude.{◌≡◌, ◌≤◌, ◌<◌, IfSome};
ghost use Rattle.fx_model.specs.Origin.{main_begin_of};

use fx_term::{CodeBrand, Memory};
use std::alloc::Global;
use std::marker::PhantomData;

/// The fibers that a worker is to wake, by number, each at most once.
#[derive(Drop)]
pub struct Notes<J: CodeBrand> {
    noted: Vec<bool>,
    total: u32,
    count: u32,
    of: PhantomData<J>,
    ghost few: { total ≤ (main_begin_of J.nodes).end },
}

impl<J: CodeBrand> Notes<J> {
    /// No number, with room for those below the total.
    pub fn new(alloc: Global, total: u32) -> Result<Notes<J>, Memory>
        requires { total ≤ (main_begin_of J.nodes).end }
    {
        Ok(Notes {
            noted: vec![in alloc; false; total as usize]?,
            total,
            count: 0,
            of: PhantomData,
        })
    }

    /// Notes a number.
    pub fn note(&mut self, id: u32) {
        if let Some(noted) = self.noted.get_mut(id as usize) {
            if !*noted {
                *noted = true;
                self.count = self.count.saturating_add(1);
            }
        }
    }

    fn take_off(&mut self, id: u32) {
        if let Some(noted) = self.noted.get_mut(id as usize) {
            *noted = false;
            self.count = self.count.saturating_sub(1);
        }
    }

    /// Takes a number out.
    pub fn next(&mut self) -> Option<u32>
        ensures { IfSome result (λ id. id < (main_begin_of J.nodes).end) }
    {
        if self.count == 0 {
            return None;
        }
        for id in 0..self.total {
            if self.noted.get(id as usize).copied().unwrap_or(false) {
                self.take_off(id);
                return Some(id);
            }
        }
        None
    }
}
