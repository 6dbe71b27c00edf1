//! The sequence numbers that the next messages are to have.
ghost use Rattle.std.specs.Prelude.{◌≡◌, ℕ, [], true, ◌==◌, if◌then◌else◌, OnOk, OnErr};
ghost use Rattle.std.specs.Ordering.{nat_cmp};
ghost use Rattle.std.specs.BTreeMap.{IsOrdered, keys};
ghost use Rattle.std.proofs.lemmas.Map.Keys.{IsStrictlySortedBy-prop};

use std::alloc::{AllocError, Global};
use std::collections::BTreeMap;

/// The number expected of each domain, where it is known. A domain may have a place in which no number stands: room is made
/// first, so that to keep a number takes no memory.
#[derive(Drop)]
pub(crate) struct Numbers {
    by_domain: BTreeMap<u32, Option<u32>>,
    ghost ordered: { IsOrdered nat_cmp by_domain } by { IsStrictlySortedBy-prop nat_cmp (keys by_domain) },
}

impl Numbers {
    ghost use Rattle.ipfix_session.specs.Expecting.{shown_numbers, domain_number, has_number};

    /// No number.
    pub(crate) fn new(alloc: Global) -> Numbers
        ensures { result.by_domain.entries ≡ [] }
    {
        Numbers {
            by_domain: BTreeMap::new(alloc),
        }
    }

    /// The number expected of a domain.
    pub(crate) fn get(&self, domain: u32) -> Option<u32>
        ensures { result ≡ domain_number self.now domain }
    {
        match self.by_domain.get(&domain) {
            Some(number) => *number,
            None => None,
        }
    }

    /// Makes a place for a domain's number, where there is none.
    ///
    /// # Errors
    /// Want of memory. No number is changed, whatever the answer.
    pub(crate) fn make_place(&mut self, domain: u32) -> Result<(), AllocError>
        ensures unchanged { shown_numbers self.new ≡ shown_numbers self.old }
        ensures made { OnOk result (has_number self.new domain ≡ true) }
    {
        if !self.by_domain.contains_key(&domain) {
            self.by_domain.insert(domain, None)?;
        }
        Ok(())
    }

    /// Sets the number of a domain, or that it isn't known.
    ///
    /// # Errors
    /// Want of memory, and then no number is changed.
    pub(crate) fn set(&mut self, domain: u32, number: Option<u32>) -> Result<(), AllocError>
        ensures ok { OnOk result ((q : ℕ)
            → domain_number self.new q ≡ (if q == domain then number else domain_number self.old q)) }
        ensures err { OnErr result (shown_numbers self.new ≡ shown_numbers self.old) }
    {
        self.by_domain.insert(domain, number)?;
        Ok(())
    }

    /// Sets the number of a domain that has a place, which takes no memory.
    pub(crate) fn fill(&mut self, domain: u32, number: Option<u32>)
        requires { has_number self.old domain ≡ true }
        ensures { (q : ℕ)
            → domain_number self.new q ≡ (if q == domain then number else domain_number self.old q) }
    {
        if let Some(place) = self.by_domain.get_mut(&domain) {
            *place = number;
        }
    }
}

impl Clone for Numbers {
    ghost use Rattle.std.specs.Prelude.{◌≡◌};

    ghost is_clone = { λ n copy. copy.by_domain.entries ≡ n.by_domain.entries };

    fn clone(&self) -> Result<Numbers, AllocError> {
        Ok(Numbers {
            by_domain: self.by_domain.clone()?,
        })
    }
}
