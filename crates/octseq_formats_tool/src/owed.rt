//! The items that arrays, maps and tags are still owed.
use crate::fields::Unshown;
use std::alloc::Global;

/// What is owed at each level: how many items, or items up to a break.
#[derive(Drop)]
pub struct Owed {
    levels: Vec<Option<u64>>,
}

impl Owed {
    /// Returns what is owed before an item: that item.
    pub fn new(alloc: Global) -> Result<Owed, Unshown> {
        let mut levels = Vec::new(alloc);
        levels.push(Some(1)).map_err(|_| Unshown::Memory)?;
        Ok(Owed { levels })
    }

    /// Owes as many items within the last one.
    pub fn owe(&mut self, items: u64) -> Result<(), Unshown> {
        self.levels.push(Some(items)).map_err(|_| Unshown::Memory)
    }

    /// Owes items up to a break.
    pub fn open(&mut self) -> Result<(), Unshown> {
        self.levels.push(None).map_err(|_| Unshown::Memory)
    }

    /// Ends the levels at which nothing more is owed.
    fn settle(&mut self) {
        for _ in 0..self.levels.len() {
            if self.levels.last() != Some(&Some(0)) {
                break;
            }
            self.levels.pop();
        }
    }

    /// Takes an item.
    ///
    /// # Errors
    ///
    /// `Malformed` if none is owed.
    pub fn pay(&mut self) -> Result<(), Unshown> {
        self.settle();
        match self.levels.pop() {
            Some(Some(items)) => self.owe(items.saturating_sub(1)),
            Some(None) => self.open(),
            None => Err(Unshown::Malformed),
        }
    }

    /// Takes a break.
    ///
    /// # Errors
    ///
    /// `Malformed` if nothing was open.
    pub fn close(&mut self) -> Result<(), Unshown> {
        self.settle();
        match self.levels.pop() {
            Some(None) => Ok(()),
            _ => Err(Unshown::Malformed),
        }
    }

    /// Whether nothing is owed.
    ///
    /// # Errors
    ///
    /// `Malformed` if something is.
    pub fn finish(&mut self) -> Result<(), Unshown> {
        self.settle();
        if self.levels.is_empty() {
            return Ok(());
        }
        Err(Unshown::Malformed)
    }
}
