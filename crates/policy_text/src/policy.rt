//! Policies: read from their texts, line by line, and written as texts.
ghost use Rattle.std.specs.Prelude.{◌≡◌, false, true, Ok, IfOk, IfErr, string_bytes};
ghost use Rattle.policy_text.specs.Grammar.{IsPolicy};
ghost use Rattle.policy_text.specs.Policies.{PolicyMeaning, without_lines};
ghost use Rattle.policy_text.specs.Spelling.{Spells};
ghost use Rattle.policy_text.specs.Printing.{policy_text};
ghost use Rattle.policy_text.specs.FirstFault.{IsFirstFault};
ghost use Rattle.policy_text.specs.Results.{Gives, Parses, fault_at, is_memory};
ghost use Rattle.policy_text.specs.Lines.{rule_line, aggregate_line, policy_after_line};
ghost use Rattle.policy_text.specs.Words.{words_of, is_skipped};
ghost use Rattle.policy_text.specs.Parsing.{numbered_version, version_of, line_step, policy_of};
ghost use Rattle.policy_text.specs.Memory.{rule_takes, aggregate_takes, line_takes, step_takes, TakesMemory};

use crate::aggregate::AggregateDef;
use crate::fault::{Fault, FaultKind};
use crate::lines::{read_aggregate, read_rule};
use crate::print::policy_to_text;
use crate::rule::Rule;
use crate::version::Version;
use crate::words::{Words, first_word};
use flow_prefix::cut_at;
use numerals::is_word;
use std::alloc::{AllocError, Global};
use std::marker::Model;

/// The most rules that a policy may have.
const MOST_RULES: usize = 4096;

/// The most aggregates that a policy may have.
const MOST_AGGREGATES: usize = 256;

/// An ordered list of rules, with the aggregates that they name, in a version of the language.
#[derive(Debug)]
pub struct Policy {
    version: Version,
    aggregates: Vec<AggregateDef>,
    rules: Vec<Rule>,
}

impl Drop for Policy {
    // Written out: a derived one is proved anew in each crate that drops such a value.
    fn drop(self) {
        let Policy {
            version: _,
            aggregates: _,
            rules: _,
        } = self;
    }
}

impl Model for Policy {
    ghost use Rattle.policy_text.specs.Policies.{PolicyMeaning};
    ghost use Rattle.policy_text.specs.Grammar.{IsPolicy};

    ghost Value = { PolicyMeaning };

    ghost view = { λ p. record { version = p.version; aggregates = p.aggregates.items; rules = p.rules.items } };

    ghost invariant = { λ p. IsPolicy
        (record { version = p.version; aggregates = p.aggregates.items; rules = p.rules.items }) };
}

impl Policy {
    /// The policy that `text` spells, in memory from `alloc`. A text has the line `policy 1` or
    /// `policy 2`, and then a line for each aggregate and each rule, each aggregate before the
    /// rules that name it. Lines without words and lines that begin with `#` are skipped.
    ///
    /// # Errors
    /// The fault of the first faulty line: its number from 1, and what is wrong with the first word
    /// in it that doesn't fit, or with its end ([`FaultKind`]). A text whose lines are all skipped
    /// has `NoHeader` in line 1. Where memory runs out before that fault, it is `OutOfMemory` in
    /// line 0.
    ///
    /// # Examples
    ///
    /// A policy is read, and printed again. A text that is no policy is refused, and the fault says why:
    ///
    /// ```rust
    /// use policy_text::{Fault, FaultKind, Policy};
    ///
    /// let text = "policy 1\n\
    ///     rule for acme in * from 192.0.2.0/24 to * pass\n\
    ///     rule for acme in * from * to * element sourceIPv4Address truncate 24\n";
    /// let policy = Policy::parse(alloc, text)?;
    /// assert!(rt; policy.rules().len() == 2);
    /// assert!(rt; policy.print(alloc)?.as_str() == text);
    /// // 192.0.2.1 has a bit past the first 24.
    /// let wrong = "policy 1\nrule for acme in * from 192.0.2.1/24 to * pass\n";
    /// let found = Policy::parse(alloc, wrong).err();
    /// let fault = Fault {
    ///     line: 2,
    ///     kind: FaultKind::BadPrefix,
    /// };
    /// assert!(rt; found == Some(fault));
    /// ```
    pub fn parse(alloc: Global, text: &str) -> Result<Policy, Fault>
        // What is read is spelled so.
        ensures found { IfOk result (λ policy. Spells text.now policy) }
        // What is spelled so is read, unless memory runs out.
        ensures only { (policy : PolicyMeaning) → Spells text.now policy
            → Parses (λ p. p) result (Ok policy) }
        // What is refused has this first fault, unless memory ran out.
        ensures first { IfErr result (λ fault. is_memory fault.kind ≡ false
            → IsFirstFault text.now fault) }
        // Which fault it is.
        ensures exact { Parses (λ p. p) result (policy_of text.now) }
        // Memory runs out only where the text takes some, up to its first fault.
        ensures memory { IfErr result (λ fault. is_memory fault.kind ≡ true
            → TakesMemory text.now) }
    {
        Policy::read(alloc, text)
    }

    /// The policy of a text, or its first fault.
    fn read(alloc: Global, text: &str) -> Result<Policy, Fault>
        ensures exact { Parses (λ policy. policy) result (policy_of text.now) }
        ensures memory { IfErr result (λ fault. is_memory fault.kind ≡ true
            → TakesMemory text.now) }
    {
        let mut policy = None;
        let mut number = 1;
        let mut rest = text.as_bytes();
        'lines: while let Some((line, after)) = cut_at(rest, b'\n') {
            policy = match read_line(alloc, policy, line) {
                Ok(policy) => policy,
                Err(kind) => return Err(fault_at(number, kind)),
            };
            number += 1;
            rest = after;
        }
        match read_line(alloc, policy, rest) {
            Ok(Some(policy)) => Ok(policy),
            Ok(None) => Err(fault_at(1, FaultKind::NoHeader)),
            Err(kind) => Err(fault_at(number, kind)),
        }
    }

    /// The policy of a header alone.
    fn new(alloc: Global, version: Version) -> Policy
        ensures { result ≡ without_lines version }
    {
        Policy {
            version,
            aggregates: Vec::new(alloc),
            rules: Vec::new(alloc),
        }
    }

    /// The version that the text's header names.
    pub fn version(&self) -> Version
        ensures { result ≡ self.now.version }
    {
        self.version
    }

    /// The aggregates, in the order of the text.
    pub fn aggregates(&self) -> &[AggregateDef]
        ensures { result.now ≡ self.now.aggregates }
    {
        self.aggregates.as_slice()
    }

    /// The rules, in the order of the text.
    pub fn rules(&self) -> &[Rule]
        ensures value { result.now ≡ self.now.rules }
        ensures sound { IsPolicy self.now }
    {
        self.rules.as_slice()
    }

    /// The one printed text of the policy, in memory from `alloc`: the header, the aggregates and
    /// the rules, each in their order, one space between words and a line feed behind each line.
    ///
    /// # Errors
    /// Want of memory for the text.
    pub fn print(&self, alloc: Global) -> Result<String, AllocError>
        ensures text { IfOk result (λ text. string_bytes text ≡ policy_text self.now) }
        ensures spelled { IfOk result (λ text. Spells (string_bytes text) self.now) }
        ensures reads_back { IfOk result (λ text. policy_of (string_bytes text) ≡ Ok self.now) }
    {
        let _for_proof = &self.rules;
        policy_to_text(alloc, self)
    }

    /// Adds the rule or the aggregate of a line.
    #[tactic(auto, unfolding(crate::specs::Lines::policy_after_line, crate::specs::Memory::line_takes))]
    fn add_line(&mut self, alloc: Global, line: &[u8]) -> Result<(), FaultKind>
        ensures value { Gives (λ _. self.new) result (policy_after_line self.old (words_of line.now)) }
        ensures memory { IfErr result (λ kind. is_memory kind ≡ true
            → line_takes self.old (words_of line.now) ≡ true) }
    {
        let mut words = Words::new(line);
        let word = words.word()?;
        if is_word(word, b"rule") {
            return self.add_rule(alloc, &mut words);
        }
        if is_word(word, b"aggregate") {
            return self.add_aggregate(alloc, &mut words);
        }
        Err(FaultKind::UnknownWord)
    }

    #[tactic(auto, unfolding(crate::specs::Lines::rule_line, crate::specs::Memory::rule_takes))]
    fn add_rule(&mut self, alloc: Global, words: &mut Words<'_>) -> Result<(), FaultKind>
        ensures value { Gives (λ _. self.new) result (rule_line self.old words.old) }
        ensures memory { IfErr result (λ kind. is_memory kind ≡ true
            → rule_takes self.old words.old ≡ true) }
    {
        if self.rules.len() >= MOST_RULES {
            return Err(FaultKind::TooMany);
        }
        let rule = read_rule(alloc, self.version, &self.aggregates, words)?;
        self.rules.push(rule)?;
        Ok(())
    }

    #[tactic(auto, unfolding(crate::specs::Lines::aggregate_line, crate::specs::Memory::aggregate_takes))]
    fn add_aggregate(&mut self, alloc: Global, words: &mut Words<'_>) -> Result<(), FaultKind>
        ensures value { Gives (λ _. self.new) result (aggregate_line self.old words.old) }
        ensures memory { IfErr result (λ kind. is_memory kind ≡ true
            → aggregate_takes self.old words.old ≡ true) }
    {
        if self.aggregates.len() >= MOST_AGGREGATES {
            return Err(FaultKind::TooMany);
        }
        let aggregate = read_aggregate(alloc, &self.aggregates, words)?;
        self.aggregates.push(aggregate)?;
        Ok(())
    }
}

/// Reads a line. Before the header there is no policy.
#[tactic(auto, unfolding(crate::specs::Parsing::line_step, crate::specs::Parsing::step, crate::specs::Memory::step_takes))]
fn read_line(
    alloc: Global,
    policy: Option<Policy>,
    line: &[u8],
) -> Result<Option<Policy>, FaultKind>
    ensures value { Gives (λ policy. policy) result (line_step policy line.now) }
    ensures memory { IfErr result (λ kind. is_memory kind ≡ true
        → step_takes policy line.now ≡ true) }
{
    if is_skipped(line) {
        return Ok(policy);
    }
    match policy {
        Some(mut policy) => {
            policy.add_line(alloc, line)?;
            Ok(Some(policy))
        }
        None => match version_of(line) {
            Some(version) => Ok(Some(Policy::new(alloc, version))),
            None => Err(FaultKind::NoHeader),
        },
    }
}

/// The fault of a line; want of memory has no line.
fn fault_at(line: usize, kind: FaultKind) -> Fault
    ensures { result ≡ fault_at line kind }
{
    let line = if kind == FaultKind::OutOfMemory {
        0
    } else {
        line
    };
    Fault { line, kind }
}

/// Whether the line has no words, or begins with `#`.
fn is_skipped(line: &[u8]) -> bool
    ensures { result ≡ is_skipped (words_of line.now) }
{
    match first_word(line) {
        Some((word, _)) => word.first() == Some(&b'#'),
        None => true,
    }
}

/// The version that the line names, if it is a header.
#[tactic(auto, unfolding(crate::specs::Parsing::version_of))]
fn version_of(line: &[u8]) -> Option<Version>
    ensures { result ≡ version_of (words_of line.now) }
{
    let mut words = Words::new(line);
    let first = words.take()?;
    let second = words.take()?;
    if words.take().is_some() || !is_word(first, b"policy") {
        return None;
    }
    numbered_version(second)
}

/// The version of this number.
fn numbered_version(word: &[u8]) -> Option<Version>
    ensures { result ≡ numbered_version word.now }
{
    if is_word(word, b"1") {
        Some(Version::One)
    } else if is_word(word, b"2") {
        Some(Version::Two)
    } else {
        None
    }
}
