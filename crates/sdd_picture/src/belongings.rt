//! Which item each owner and each cell of a script has, how many owners each item has, and with whom it waits.

use sdd_script_text::{CellName, ItemName, OwnerName};
use std::alloc::{AllocError, Global};

/// An item.
#[derive(Clone, Copy)]
struct Belonging {
    owners: u64,
    /// The item whose owner its value holds.
    inside: Option<usize>,
    /// The participant with which it waits.
    waits_with: Option<usize>,
}

/// Owners, cells and items, each by the number in its name.
#[derive(Drop)]
pub struct Belongings {
    owners: Vec<Option<usize>>,
    cells: Vec<Option<usize>>,
    items: Vec<Belonging>,
}

impl Belongings {
    pub fn new(alloc: Global) -> Belongings {
        Belongings {
            owners: Vec::new(alloc),
            cells: Vec::new(alloc),
            items: Vec::new(alloc),
        }
    }

    /// The next item, whose value holds an owner of another one, and its owner.
    pub fn make(&mut self, inside: Option<usize>) -> Result<(), AllocError> {
        self.owners.push(Some(self.items.len()))?;
        self.items.push(Belonging {
            owners: 1,
            inside,
            waits_with: None,
        })?;
        Ok(())
    }

    /// The next owner: of this item, which it had before.
    pub fn name_owner(&mut self, item: Option<usize>) -> Result<(), AllocError> {
        self.owners.push(item)?;
        Ok(())
    }

    /// The next owner: one more of this item.
    pub fn add_owner(&mut self, item: Option<usize>) -> Result<(), AllocError> {
        self.count_owner(item);
        self.name_owner(item)
    }

    /// The next cell, with an owner of this item that it had before.
    pub fn make_cell(&mut self, item: Option<usize>) -> Result<(), AllocError> {
        self.cells.push(item)?;
        Ok(())
    }

    /// The next cell, with one owner more of what another has.
    pub fn copy_cell(&mut self, cell: CellName) -> Result<(), AllocError> {
        let item = self.in_cell(cell);
        self.count_owner(item);
        self.make_cell(item)
    }

    /// Spends the name of an owner, and tells its item.
    pub fn spend(&mut self, owner: OwnerName) -> Option<usize> {
        self.owners.get_mut(owner.0 as usize)?.take()
    }

    pub fn spend_if(&mut self, owner: Option<OwnerName>) -> Option<usize> {
        self.spend(owner?)
    }

    /// The item of an owner.
    pub fn of_owner(&self, owner: OwnerName) -> Option<usize> {
        *self.owners.get(owner.0 as usize)?
    }

    /// The item that a cell has an owner of.
    pub fn in_cell(&self, cell: CellName) -> Option<usize> {
        *self.cells.get(cell.0 as usize)?
    }

    /// Puts an owner into a cell, and tells the item of the one that was there.
    pub fn put_in_cell(&mut self, cell: CellName, item: Option<usize>) -> Option<usize> {
        match self.cells.get_mut(cell.0 as usize) {
            Some(place) => {
                let before = *place;
                *place = item;
                before
            }
            None => None,
        }
    }

    /// An owner of an item is given up. Tells whether it was the last.
    pub fn give_up(&mut self, item: usize) -> bool {
        match self.items.get_mut(item) {
            Some(item) => {
                item.owners = item.owners.saturating_sub(1);
                item.owners == 0
            }
            None => false,
        }
    }

    pub fn wait(&mut self, item: usize, with: usize) {
        if let Some(item) = self.items.get_mut(item) {
            item.waits_with = Some(with);
        }
    }

    /// What waits with one participant waits with another from now on. Tells which items these are.
    pub fn pass_on(
        &mut self,
        alloc: Global,
        from: usize,
        to: usize,
    ) -> Result<Vec<usize>, AllocError> {
        let mut passed = Vec::new(alloc);
        for (index, item) in self.items.iter_mut().enumerate() {
            if item.waits_with == Some(from) {
                item.waits_with = Some(to);
                passed.push(index)?;
            }
        }
        Ok(passed)
    }

    /// An item goes. Tells with whom it waited.
    pub fn go(&mut self, item: usize) -> Option<usize> {
        self.items.get_mut(item)?.waits_with.take()
    }

    /// The item whose owner the value of an item gives up.
    pub fn take_inside(&mut self, item: usize) -> Option<usize> {
        self.items.get_mut(item)?.inside.take()
    }

    fn count_owner(&mut self, item: Option<usize>) {
        if let Some(item) = item
            && let Some(item) = self.items.get_mut(item)
        {
            item.owners = item.owners.saturating_add(1);
        }
    }
}

/// The index of an item.
pub fn index_of(item: ItemName) -> usize {
    item.0 as usize
}
