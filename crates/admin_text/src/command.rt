//! The command that a line asks for.
ghost use Rattle.std.specs.Prelude.{◌≡◌, Some, IfErr, IfOk, IfSome};
ghost use Rattle.std.specs.Option.{option_map};
ghost use Rattle.admin_text.specs.Sayings.{AdminSaying, admin_saying};
ghost use Rattle.admin_text.specs.Sayings.AdminSaying.{to_tell};
ghost use Rattle.admin_text.specs.Grammar.{IsCommandLine, IsNamingLine};
ghost use Rattle.admin_text.specs.Reading.{command_of, command_alone, command_by, asks_edit, asks_subscribe, asks_unsubscribe, asks_advance, asks_status, asks_audit, NamesSubscriber};

use crate::argument::{is_one_word, read_number};
use flow_prefix::cut_at;
use numerals::is_word;
use std::alloc::{AllocError, Global};

/// The longest line, in octets before its line feed.
pub const LONGEST_LINE: usize = 1024;

/// The longest text of a policy, in octets.
pub const LONGEST_POLICY: u32 = 1_048_576;

/// The most audit entries that one line may ask for.
pub const MOST_AUDIT_ENTRIES: u32 = 10_000;

/// What an administrator may be told of, beside one subscription.
#[derive(Clone, Copy, Debug, PartialEq, Eq)]
pub enum Topic {
    /// How all subscriptions stand.
    Subscriptions,
    /// How the run stands.
    Run,
    /// The text of the policy in force.
    Policy,
    /// Which commands there are.
    Help,
}

/// What a line asks for.
#[derive(Debug, Drop)]
pub enum Command {
    /// `edit N`: a policy takes force, whose text is the next `octets` octets behind the line.
    Edit { octets: u32 },
    /// `subscribe NAME`: a subscription begins. The name is any word, so it may be none that a subscriber can have, and no
    /// UTF-8.
    Subscribe { name: Vec<u8> },
    /// `unsubscribe SUB`: a subscription ends.
    Unsubscribe { sub: u64 },
    /// `advance T`: the clock goes on to `t`, in milliseconds since 1970.
    Advance { t: u64 },
    /// `status SUB`: how does a subscription stand?
    Status { sub: u64 },
    /// `audit MAX`: the oldest audit entries are handed out, from 1 to 10,000 of them.
    Audit { most: u32 },
    /// `status`, `run`, `policy` or `help` alone: a page of lines.
    Tell { topic: Topic },
    /// `stop`: the run is to end.
    Stop,
}

/// The command that `line` asks for, which is given without its line feed. `None` where it asks for nothing, as a line of more
/// than [`LONGEST_LINE`] octets does.
///
/// # Errors
/// Want of memory for the name behind `subscribe`, which is taken from `alloc`. The other commands take none.
pub fn read_command(alloc: Global, line: &[u8]) -> Result<Option<Command>, AllocError>
    // What is read stands there.
    ensures found { IfOk result (λ command.
        IfSome command (λ command. IsCommandLine (admin_saying command) line.now)) }
    // What stands there is read, unless memory runs out.
    ensures only { (said : AdminSaying) → IsCommandLine said line.now
        → IfOk result (λ command. option_map admin_saying command ≡ Some said) }
    // Memory is wanted for a name alone.
    ensures memory { IfErr result (λ _. IsNamingLine line.now) }
    // Which command it is.
    ensures exact { IfOk result (λ command. option_map admin_saying command ≡ command_of line.now) }
{
    read_line(alloc, line)
}

/// Reads a line that may be too long.
#[tactic(auto, unfolding(crate::specs::Reading::command_of))]
fn read_line(alloc: Global, line: &[u8]) -> Result<Option<Command>, AllocError>
    ensures value { IfOk result (λ command. option_map admin_saying command ≡ command_of line.now) }
    ensures memory { IfErr result (λ _. NamesSubscriber (command_of line.now)) }
{
    if line.len() > LONGEST_LINE {
        return Ok(None);
    }
    let Some((word, argument)) = cut_at(line, b' ') else {
        return Ok(read_alone(line));
    };
    read_by(alloc, word, argument)
}

/// The command that a line of one word is.
#[tactic(auto, unfolding(crate::specs::Reading::command_alone))]
fn read_alone(word: &[u8]) -> Option<Command>
    ensures { option_map admin_saying result ≡ command_alone word.now }
{
    if is_word(word, b"status") {
        tell(Topic::Subscriptions)
    } else if is_word(word, b"run") {
        tell(Topic::Run)
    } else if is_word(word, b"policy") {
        tell(Topic::Policy)
    } else if is_word(word, b"help") {
        tell(Topic::Help)
    } else if is_word(word, b"stop") {
        Some(Command::Stop)
    } else {
        None
    }
}

/// The command that asks for the page on `topic`.
const fn tell(topic: Topic) -> Option<Command>
    ensures { option_map admin_saying result ≡ Some (to_tell topic) }
{
    Some(Command::Tell { topic })
}

/// The command that the first word names, with the argument behind it.
#[tactic(auto, unfolding(crate::specs::Reading::command_by))]
fn read_by(alloc: Global, word: &[u8], argument: &[u8]) -> Result<Option<Command>, AllocError>
    ensures value { IfOk result (λ command. option_map admin_saying command
        ≡ command_by word.now argument.now) }
    ensures memory { IfErr result (λ _. NamesSubscriber (command_by word.now argument.now)) }
{
    if is_word(word, b"edit") {
        Ok(read_edit(argument))
    } else if is_word(word, b"subscribe") {
        read_subscribe(alloc, argument)
    } else if is_word(word, b"unsubscribe") {
        Ok(read_unsubscribe(argument))
    } else if is_word(word, b"advance") {
        Ok(read_advance(argument))
    } else if is_word(word, b"status") {
        Ok(read_status(argument))
    } else if is_word(word, b"audit") {
        Ok(read_audit(argument))
    } else {
        Ok(None)
    }
}

/// Behind `edit`: how many octets the policy has.
#[tactic(auto, unfolding(crate::specs::Reading::asks_edit))]
fn read_edit(argument: &[u8]) -> Option<Command>
    ensures { option_map admin_saying result ≡ asks_edit argument.now }
{
    let octets = read_number(argument, u64::from(LONGEST_POLICY))?;
    Some(Command::Edit {
        octets: octets as u32,
    })
}

/// Behind `subscribe`: the name, one word.
#[tactic(auto, unfolding(crate::specs::Reading::asks_subscribe))]
fn read_subscribe(alloc: Global, argument: &[u8]) -> Result<Option<Command>, AllocError>
    ensures value { IfOk result (λ command. option_map admin_saying command ≡ asks_subscribe argument.now) }
    ensures memory { IfErr result (λ _. NamesSubscriber (asks_subscribe argument.now)) }
{
    if !is_one_word(argument) {
        return Ok(None);
    }
    let name = Vec::from_slice(alloc, argument)?;
    Ok(Some(Command::Subscribe { name }))
}

/// Behind `unsubscribe`: the subscription.
#[tactic(auto, unfolding(crate::specs::Reading::asks_unsubscribe))]
fn read_unsubscribe(argument: &[u8]) -> Option<Command>
    ensures { option_map admin_saying result ≡ asks_unsubscribe argument.now }
{
    let sub = read_number(argument, u64::MAX)?;
    Some(Command::Unsubscribe { sub })
}

/// Behind `advance`: the time, in milliseconds since 1970.
#[tactic(auto, unfolding(crate::specs::Reading::asks_advance))]
fn read_advance(argument: &[u8]) -> Option<Command>
    ensures { option_map admin_saying result ≡ asks_advance argument.now }
{
    let t = read_number(argument, u64::MAX)?;
    Some(Command::Advance { t })
}

/// Behind `status`: the subscription.
#[tactic(auto, unfolding(crate::specs::Reading::asks_status))]
fn read_status(argument: &[u8]) -> Option<Command>
    ensures { option_map admin_saying result ≡ asks_status argument.now }
{
    let sub = read_number(argument, u64::MAX)?;
    Some(Command::Status { sub })
}

/// Behind `audit`: how many entries are asked for, at least one.
#[tactic(auto, unfolding(crate::specs::Reading::asks_audit))]
fn read_audit(argument: &[u8]) -> Option<Command>
    ensures { option_map admin_saying result ≡ asks_audit argument.now }
{
    let most = read_number(argument, u64::from(MOST_AUDIT_ENTRIES))?;
    if most == 0 {
        return None;
    }
    Some(Command::Audit { most: most as u32 })
}
