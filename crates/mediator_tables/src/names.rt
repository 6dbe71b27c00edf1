//! The numbers of the live subscriptions under their subscribers' names.
ghost use Rattle.std.specs.Prelude.{◌≡◌, ℕ, List, [], Some, None, OnOk, OnErr};
ghost use Rattle.std.specs.Map.{update};
ghost use Rattle.std.specs.Str.{bytes_eq};

use std::alloc::{AllocError, Global};
use std::collections::BTreeMap;

/// Numbers of subscriptions, each under a name.
#[derive(Drop)]
pub(crate) struct Names {
    by_name: BTreeMap<String, u64>,
}

impl Names {
    ghost use Rattle.mediator_tables.specs.Naming.{number_under};

    /// No name. What comes to be kept is in memory from `alloc`.
    pub(crate) fn new(alloc: Global) -> Names
        ensures { result.by_name.entries ≡ [] }
    {
        Names {
            by_name: BTreeMap::new(alloc),
        }
    }

    /// The number under `name`, or `None`.
    pub(crate) fn get(&self, name: &str) -> Option<u64>
        ensures { result ≡ number_under self.now name.now }
    {
        self.by_name.get(name).copied()
    }

    /// Sets the number under `name`, which is copied to memory from `alloc`, to `sub`.
    ///
    /// # Errors
    /// Want of memory, and then nothing has changed.
    pub(crate) fn insert(&mut self, alloc: Global, name: &str, sub: u64) -> Result<(), AllocError>
        ensures ok { OnOk result ((n : List ℕ)
            → number_under self.new n ≡ update bytes_eq (number_under self.old) name.now (Some sub) n) }
        ensures err { OnErr result (self.new.by_name.entries ≡ self.old.by_name.entries) }
    {
        let key = String::from_str(alloc, name)?;
        self.by_name.insert(key, sub)?;
        Ok(())
    }

    /// Takes out `name` with its number, if it is there. It takes no memory.
    pub(crate) fn remove(&mut self, name: &str)
        ensures { (n : List ℕ)
            → number_under self.new n ≡ update bytes_eq (number_under self.old) name.now None n }
    {
        let _ = self.by_name.remove(name);
    }
}
