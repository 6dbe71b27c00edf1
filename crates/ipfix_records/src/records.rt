//! Lists of records, kept as runs.
ghost use Rattle.std.specs.Prelude.{◌≡◌, ◌==◌, ◌<◌, ◌^◌, ◌++◌, [], ◌∷◌, length, IfOk, OnOk, OnErr};
ghost use Rattle.std.specs.List.{AllByRecursion};

use crate::run::Run;
use ipfix_template::Record;
use std::alloc::{AllocError, Global};
use std::marker::Model;

/// The most records that a list may have. There is no memory for more.
const MOST_RECORDS: usize = isize::MAX as usize;

/// Runs of records, one after another. Most messages have one, for which no list is made.
#[derive(Drop)]
pub enum Runs {
    /// One run, or none.
    Few(Option<Run>),
    /// Any number.
    Many(Vec<Run>),
}

/// Data Records one after another, of any templates. Contracts see the list of them.
pub struct Records {
    alloc: Global,
    runs: Runs,
    /// How many records the runs have.
    count: usize,
}

impl Drop for Records {
    // Written out: a derived one is proved anew in each crate that drops such a value.
    fn drop(self) {
        let Records {
            alloc: _,
            runs: _,
            count: _,
        } = self;
    }
}

impl Model for Records {
    ghost use Rattle.std.specs.Prelude.{◌≡◌, ◌<◌, ◌^◌, List, length};
    ghost use Rattle.std.specs.List.{AllByRecursion};
    ghost use Rattle.ipfix_template.specs.DataRecord.{DataRecord};
    ghost use Rattle.ipfix_records.specs.Runs.{records_of_runs, IsKeptRun};
    ghost use Rattle.ipfix_records.specs.RunLists.{runs_in};

    ghost Value = { List DataRecord };

    ghost view = { λ r. records_of_runs (runs_in r.runs) };

    ghost invariant = { λ r. (r.count ≡ length (records_of_runs (runs_in r.runs)))
        × (r.count < 2 ^ 63) × AllByRecursion IsKeptRun (runs_in r.runs) };
}

impl Records {
    ghost use Rattle.ipfix_template.specs.DataRecord.{IsSound};
    ghost use Rattle.ipfix_records.specs.Runs.{run_records, records_of_runs, IsKeptRun};
    ghost use Rattle.ipfix_records.specs.RunLists.{runs_in};

    /// No record. What it comes to keep is taken from `alloc`.
    pub fn new(alloc: Global) -> Records
        ensures { result ≡ [] }
    {
        Records {
            alloc,
            runs: Runs::Few(None),
            count: 0,
        }
    }

    /// How many records there are.
    #[tactic(auto, using(crate::proofs::RunLaws::kept_runs_sound))]
    pub fn len(&self) -> usize
        ensures value { result ≡ length self.now }
        ensures few { result < 2 ^ 63 }
        ensures sound { AllByRecursion IsSound self.now }
    {
        self.count
    }

    /// Whether there is no record.
    pub fn is_empty(&self) -> bool
        ensures { result ≡ (length self.now == 0) }
    {
        self.count == 0
    }

    /// The runs, one after another.
    #[tactic(auto, using(crate::proofs::RunLaws::kept_runs_sound))]
    pub fn runs(&self) -> &[Run]
        ensures value { records_of_runs result.now ≡ self.now }
        ensures kept { AllByRecursion IsKeptRun result.now }
        ensures sound { AllByRecursion IsSound self.now }
    {
        self.runs.as_slice()
    }

    /// The runs, one after another. Nothing is copied.
    #[tactic(auto, using(crate::proofs::RunLaws::kept_runs_sound))]
    pub fn into_runs(self) -> Runs
        ensures value { records_of_runs (runs_in result) ≡ self }
        ensures kept { AllByRecursion IsKeptRun (runs_in result) }
        ensures sound { AllByRecursion IsSound self }
    {
        let Records {
            alloc: _,
            runs,
            count: _,
        } = self;
        runs
    }

    /// Puts the records of `run` behind the others, in their order. No octet is copied.
    ///
    /// # Errors
    /// Want of memory, and then nothing has changed.
    pub fn push_run(&mut self, run: Run) -> Result<(), AllocError>
        ensures ok { OnOk result (self.new ≡ self.old ++ run_records run) }
        ensures err { OnErr result (self.new ≡ self.old) }
    {
        let more = run.len();
        if more > MOST_RECORDS - self.count {
            return Err(AllocError);
        }
        self.runs.push(self.alloc, run)?;
        self.count += more;
        Ok(())
    }

    /// Puts the record `single` behind the others, as a run of its own, in memory from `alloc`.
    ///
    /// # Errors
    /// Want of memory, and then nothing has changed.
    pub fn push(&mut self, alloc: Global, single: Record) -> Result<(), AllocError>
        ensures ok { OnOk result (self.new ≡ self.old ++ single ∷ []) }
        ensures err { OnErr result (self.new ≡ self.old) }
    {
        let run = Run::of_record(alloc, single)?;
        self.push_run(run)
    }

    /// The records as a list, in memory from `alloc`. Each is cut out of its run, and not copied.
    ///
    /// # Errors
    /// Want of memory.
    pub fn to_vec(&self, alloc: Global) -> Result<Vec<Record>, AllocError>
        ensures { IfOk result (λ list. list.items ≡ self.now) }
    {
        let mut list = Vec::with_capacity(alloc, self.count)?;
        for run in self.runs.as_slice() {
            run.append_to(&mut list)?;
        }
        Ok(list)
    }
}

impl Clone for Records {
    ghost use Rattle.std.specs.Prelude.{◌≡◌};

    ghost is_clone = { λ r copy. copy ≡ r };

    /// A list of the same runs. No octet of a record is copied.
    fn clone(&self) -> Result<Records, AllocError> {
        Ok(Records {
            alloc: self.alloc,
            runs: self.runs.clone()?,
            count: self.count,
        })
    }
}

impl Runs {
    ghost use Rattle.ipfix_records.specs.RunLists.{runs_in};

    /// The runs, one after another.
    pub fn as_slice(&self) -> &[Run]
        ensures { result.now ≡ runs_in self.now }
    {
        match self {
            Runs::Few(run) => run.as_slice(),
            Runs::Many(runs) => runs,
        }
    }

    /// Puts `run` behind the others, in memory from `alloc` where there are some.
    ///
    /// # Errors
    /// Want of memory, and then nothing has changed.
    fn push(&mut self, alloc: Global, run: Run) -> Result<(), AllocError>
        ensures ok { OnOk result (runs_in self.new ≡ runs_in self.old ++ run ∷ []) }
        ensures err { OnErr result (runs_in self.new ≡ runs_in self.old) }
    {
        match self {
            Runs::Many(runs) => {
                runs.reserve(1)?;
                runs.push_reserved(run);
            }
            Runs::Few(first) => {
                if first.is_none() {
                    *first = Some(run);
                    return Ok(());
                }
                let mut runs = Vec::with_capacity(alloc, 4)?;
                if let Some(first) = first.take() {
                    runs.push_reserved(first);
                }
                runs.push_reserved(run);
                *self = Runs::Many(runs);
            }
        }
        Ok(())
    }
}

impl Clone for Runs {
    ghost use Rattle.std.specs.Prelude.{◌≡◌};
    ghost use Rattle.ipfix_records.specs.RunLists.{runs_in};

    ghost is_clone = { λ r copy. runs_in copy ≡ runs_in r };

    /// A list of the same runs. No octet of a record is copied.
    fn clone(&self) -> Result<Runs, AllocError> {
        match self {
            Runs::Few(Some(run)) => Ok(Runs::Few(Some(run.clone()?))),
            Runs::Few(None) => Ok(Runs::Few(None)),
            Runs::Many(runs) => Ok(Runs::Many(runs.clone()?)),
        }
    }
}
