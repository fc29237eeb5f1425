//! How many steps are still made.

/// So many steps.
#[derive(Drop)]
pub(crate) struct Budget {
    left: u64,
}

impl Budget {
    /// So many.
    pub fn new(left: u64) -> Budget {
        Budget { left }
    }

    /// Whether there was one left, which is taken.
    pub fn take(&mut self) -> bool {
        match self.left.checked_sub(1) {
            Some(left) => {
                self.left = left;
                true
            }
            None => false,
        }
    }
}
