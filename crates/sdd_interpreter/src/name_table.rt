//! Names of one letter.
ghost use Rattle.std.specs.Prelude.{◌≡◌, ℕ, ◌<◌, ◌++◌, ◌∷◌, [], Some, None, OnOk, length, option_copied, slice_index_or, slice_set, vec_capacity};

use std::alloc::{AllocError, Global};

/// What the names of one letter stand for: each is given once, in order from 0 on, and spent at most once.
#[derive(Drop)]
pub struct NameTable<T> {
    pub entries: Vec<Option<T>>,
}

impl<T> NameTable<T> {
    pub fn new(alloc: Global) -> NameTable<T>
        ensures { result.entries.items ≡ [] }
    {
        NameTable {
            entries: Vec::new(alloc),
        }
    }

    /// Room for one name more.
    pub fn make_room(&mut self) -> Result<(), AllocError>
        ensures kept { self.new.entries.items ≡ self.old.entries.items }
        ensures room { OnOk result (length self.new.entries.items < vec_capacity self.new.entries) }
    {
        self.entries.reserve(1)
    }

    /// Gives the next name.
    pub fn give(&mut self, value: T) -> u64
        requires { length self.old.entries.items < vec_capacity self.old.entries }
        ensures name { result ≡ length self.old.entries.items }
        ensures given { self.new.entries.items ≡ self.old.entries.items ++ Some value ∷ [] }
    {
        let name = self.entries.len() as u64;
        self.entries.push_reserved(Some(value));
        name
    }

    /// What a name stands for, unless it was never given or is spent.
    pub fn get(&self, name: u64) -> Option<&T>
        ensures { option_copied result ≡ slice_index_or self.now.entries.items name None }
    {
        let index = usize::try_from(name).ok()?;
        self.entries.get(index)?.as_ref()
    }

    /// Spends a name.
    pub fn take(&mut self, name: u64) -> Option<T>
        ensures taken { result ≡ slice_index_or self.old.entries.items name None }
        ensures spent { self.new.entries.items ≡ slice_set self.old.entries.items name None }
        ensures room { vec_capacity self.new.entries ≡ vec_capacity self.old.entries }
    {
        let index = usize::try_from(name).ok()?;
        self.entries.get_mut(index)?.take()
    }

    /// A name that was spent stands for this from now on.
    pub fn put_back(&mut self, name: u64, value: T)
        requires spent { (name < length self.old.entries.items) × (slice_index_or self.old.entries.items name None ≡ None) }
        ensures back { self.new.entries.items ≡ slice_set self.old.entries.items name (Some value) }
    {
        if let Some(_) = self.entries[name as usize].replace(value) {
            unreachable!()
        }
    }

    /// Lets the names go, which are all spent.
    pub fn destroy_spent(self)
        requires { (k : ℕ) → slice_index_or self.entries.items k None ≡ None }
    {
        let NameTable { mut entries } = self;
        while let Some(entry) = entries.pop() {
            if let Some(_) = entry {
                unreachable!()
            }
        }
        entries.destroy_empty();
    }
}
