//! Reads the words of a command line: the commands with their options, and the task that words ask for.
ghost use Rattle.std.specs.Prelude.{◌≡◌, ℕ, Option, codes, false, map, option_map, IfErr, IfOk, IfSome, IsSome};
ghost use Rattle.ipmd_command_line.specs.declared.task.OfflineOptions.{OfflineOptions};
ghost use Rattle.ipmd_command_line.specs.declared.task.ReplayOptions.{ReplayOptions};
ghost use Rattle.ipmd_command_line.specs.declared.task.VerifyOptions.{VerifyOptions};
ghost use Rattle.ipmd_command_line.specs.declared.task.ExplainOptions.{ExplainOptions};
ghost use Rattle.ipmd_command_line.specs.declared.task.Task.{Task};
ghost use Rattle.ipmd_command_line.specs.declared.task.PolicySource.{PolicySource};
ghost use Rattle.clap.specs.Words.{app_of, first_of, found_of, rows_of, rule_of, subcommand_rows_of};
ghost use Rattle.ipmd_command_line.specs.CommandLine.{AreExplainOptions, AreOptions, AreReplayOptions, AreVerifyOptions, AsksForTask, IsCommandIn, IsMaybeNumber, IsSource, RefusesWords, check_policy_command, explain_command, ipmd_command, offline_command, replay_command, serve_command, valued_option, verify_command, with_policy};

use crate::fault::Fault;
use crate::help;
use crate::task::{
    ExplainOptions, OfflineOptions, PolicySource, ReplayOptions, Task, VerifyOptions,
};
use clap::error::ErrorKind;
use clap::{Arg, ArgAction, ArgMatches, Command, value_parser};
use std::alloc::{AllocError, Global};
use std::convert::AsStr;

/// The version of this program, the newest of CHANGELOG.md.
pub const VERSION: &str = "0.2.0";

/// The kit with which this version was proved, as `rt version` names it.
pub const KIT: &str = "rattle-kit-13f logic dac8208d650f15bf";

/// The names of the commands.
const OFFLINE: &str = "offline";

const CHECK_POLICY: &str = "check-policy";

const REPLAY: &str = "replay";

const SERVE: &str = "serve";

const VERIFY: &str = "verify";

const EXPLAIN: &str = "explain";

/// The names of the options.
const POLICY: &str = "policy";

const POLICY_TEXT: &str = "policy-text";

const SUBSCRIBER: &str = "subscriber";

const NOW: &str = "now";

const TARGET: &str = "target";

const AUDIT: &str = "audit";

const HEX: &str = "hex";

const CALLS: &str = "calls";

const SETTINGS: &str = "settings";

const JOURNAL: &str = "journal";

const QUIET: &str = "quiet";

const SUB: &str = "sub";

const POSITION: &str = "position";

const INDEX: &str = "index";

/// The task that `words` ask for: the words behind the program's name. Texts of the answer are those words. What the parser makes
/// takes memory from `alloc`.
///
/// # Errors
/// `Refused` where they ask for nothing that there is, with the text for the standard error; or `OutOfMemory`.
pub fn read_command_line<'a, S: AsStr>(alloc: Global, words: &'a [S]) -> Result<Task<'a>, Fault>
    ensures asked { IfOk result (AsksForTask (map S.text words.entry.now)) }
    ensures refused { IfErr result (RefusesWords (map S.text words.entry.now)) }
{
    let mut command = whole_command(alloc)?;
    let matches = match command.try_get_matches_from_mut(words) {
        Ok(matches) => matches,
        Err(error) if error.use_stderr() => return Err(Fault::from(error)),
        Err(error) => return Ok(Task::Show(error)),
    };
    match task_of(&matches) {
        Some(task) => Ok(task),
        // The parser has seen to all but the two options of which one names the policy.
        None => {
            let mut named = named_command(alloc, &matches)?;
            Err(Fault::from(named.error(
                ErrorKind::MissingRequiredArgument,
                "exactly one of '--policy <FILE>' and '--policy-text <TEXT>' must be given",
            )?))
        }
    }
}

/// The command that was named, whose usage an error shows.
fn named_command<'a>(alloc: Global, matches: &ArgMatches<'_>) -> Result<Command<'a>, AllocError> {
    match matches.subcommand_name() {
        Some(CHECK_POLICY) => check_policy_command(alloc),
        _ => offline_command(alloc),
    }
}

/// The task of a command line that the parser has accepted.
fn task_of<'a>(matches: &ArgMatches<'a>) -> Option<Task<'a>>
    ensures found { IfSome result (λ task. IsCommandIn task (subcommand_rows_of matches.now)) }
    ensures only { (task : Task) → IsCommandIn task (subcommand_rows_of matches.now)
        → IsSome result }
{
    match matches.subcommand()? {
        (OFFLINE, chosen) => Some(Task::Offline(offline_options(chosen)?)),
        (CHECK_POLICY, chosen) => Some(Task::CheckPolicy(policy_source(chosen)?)),
        (REPLAY, chosen) => Some(Task::Replay(replay_options(chosen)?)),
        (SERVE, chosen) => Some(Task::Serve(value_of(chosen, SETTINGS)?)),
        (VERIFY, chosen) => Some(Task::Verify(verify_options(chosen)?)),
        (EXPLAIN, chosen) => Some(Task::Explain(explain_options(chosen)?)),
        _ => None,
    }
}

/// The options of `ipmd offline`.
fn offline_options<'a>(chosen: &ArgMatches<'a>) -> Option<OfflineOptions<'a>>
    ensures found { IfSome result (λ options. AreOptions options (rows_of (found_of chosen.now))) }
    ensures only { (options : OfflineOptions) → AreOptions options (rows_of (found_of chosen.now))
        → IsSome result }
{
    Some(OfflineOptions {
        policy: policy_source(chosen)?,
        subscriber: chosen.get_str(SUBSCRIBER)?,
        now: chosen.get_one::<u32>(NOW)?,
        target: chosen.get_one::<u16>(TARGET)?,
        audit: chosen.get_str(AUDIT),
        hex: chosen.get_flag(HEX),
    })
}

/// The options of `ipmd replay`.
fn replay_options<'a>(chosen: &ArgMatches<'a>) -> Option<ReplayOptions<'a>>
    ensures found { IfSome result
        (λ options. AreReplayOptions options (rows_of (found_of chosen.now))) }
    ensures only { (options : ReplayOptions)
        → AreReplayOptions options (rows_of (found_of chosen.now)) → IsSome result }
{
    Some(ReplayOptions {
        calls: chosen.get_str(CALLS)?,
        journal: chosen.get_str(JOURNAL),
    })
}

/// The options of `ipmd verify`.
fn verify_options<'a>(chosen: &ArgMatches<'a>) -> Option<VerifyOptions<'a>>
    ensures found { IfSome result
        (λ options. AreVerifyOptions options (rows_of (found_of chosen.now))) }
    ensures only { (options : VerifyOptions)
        → AreVerifyOptions options (rows_of (found_of chosen.now)) → IsSome result }
{
    Some(VerifyOptions {
        journal: chosen.get_str(JOURNAL)?,
        quiet: chosen.get_flag(QUIET),
    })
}

/// The options of `ipmd explain`.
fn explain_options<'a>(chosen: &ArgMatches<'a>) -> Option<ExplainOptions<'a>>
    ensures found { IfSome result
        (λ options. AreExplainOptions options (rows_of (found_of chosen.now))) }
    ensures only { (options : ExplainOptions)
        → AreExplainOptions options (rows_of (found_of chosen.now)) → IsSome result }
{
    Some(ExplainOptions {
        journal: chosen.get_str(JOURNAL)?,
        sub: chosen.get_one::<u64>(SUB)?,
        position: position_of(chosen)?,
        index: index_of(chosen)?,
    })
}

/// The position of the one message that is to be explained, if there is one.
fn position_of(chosen: &ArgMatches<'_>) -> Option<Option<u64>>
    ensures found { IfSome result (λ position.
        IsMaybeNumber 64 (codes "position") (rows_of (found_of chosen.now)) position) }
    ensures only { (position : Option ℕ)
        → IsMaybeNumber 64 (codes "position") (rows_of (found_of chosen.now)) position
        → IsSome result }
{
    match chosen.get_str(POSITION) {
        Some(_) => Some(Some(chosen.get_one::<u64>(POSITION)?)),
        None => Some(None),
    }
}

/// The place in its message of the one record that is to be explained, if there is one.
fn index_of(chosen: &ArgMatches<'_>) -> Option<Option<u32>>
    ensures found { IfSome result (λ index.
        IsMaybeNumber 32 (codes "index") (rows_of (found_of chosen.now)) index) }
    ensures only { (index : Option ℕ)
        → IsMaybeNumber 32 (codes "index") (rows_of (found_of chosen.now)) index → IsSome result }
{
    match chosen.get_str(INDEX) {
        Some(_) => Some(Some(chosen.get_one::<u32>(INDEX)?)),
        None => Some(None),
    }
}

/// Where the policy comes from, where exactly one option names it.
fn policy_source<'a>(chosen: &ArgMatches<'a>) -> Option<PolicySource<'a>>
    ensures found { IfSome result (λ source. IsSource source (rows_of (found_of chosen.now))) }
    ensures only { (source : PolicySource) → IsSource source (rows_of (found_of chosen.now))
        → IsSome result }
{
    match (chosen.get_str(POLICY), chosen.get_str(POLICY_TEXT)) {
        (Some(path), None) => Some(PolicySource::File(path)),
        (None, Some(text)) => Some(PolicySource::Text(text)),
        (Some(_), Some(_)) => None,
        (None, None) => None,
    }
}

/// The value of the option with this name.
fn value_of<'a>(chosen: &ArgMatches<'a>, name: &str) -> Option<&'a str>
    ensures { first_of name.now (rows_of (found_of chosen.now))
        ≡ option_map (λ value. value.now) result }
{
    chosen.get_str(name)
}

/// The command with its subcommands. The words begin after the program's name.
fn whole_command<'a>(alloc: Global) -> Result<Command<'a>, AllocError>
    ensures { IfOk result (λ command. app_of command ≡ ipmd_command) }
{
    Command::new(alloc, "ipmd")
        .bin_name("ipmd")?
        .no_binary_name(true)
        .version(VERSION)
        .about("Passes on the IPFIX flow records that a written policy discloses")
        .after_help(help::COMMANDS)
        .subcommand_required(true)
        .subcommand(offline_command(alloc)?)?
        .subcommand(check_policy_command(alloc)?)?
        .subcommand(replay_command(alloc)?)?
        .subcommand(serve_command(alloc)?)?
        .subcommand(verify_command(alloc)?)?
        .subcommand(explain_command(alloc)?)
}

/// The command `offline` with its options.
fn offline_command<'a>(alloc: Global) -> Result<Command<'a>, AllocError>
    ensures { IfOk result (λ command. app_of command ≡ offline_command) }
{
    with_policy(alloc, Command::new(alloc, OFFLINE))?
        .override_usage(
            "ipmd offline (--policy <FILE> | --policy-text <TEXT>) --subscriber <NAME> [OPTIONS]",
        )
        .about("Filters IPFIX messages from standard input to standard output for one subscriber")
        .after_help(help::OFFLINE)
        .arg(
            option(alloc, SUBSCRIBER, "NAME")
                .required(true)
                .help("The subscriber's name, as rules name it"),
        )?
        .arg(
            option(alloc, NOW, "SECONDS")
                .default_value("0")
                .value_parser(value_parser!(u32))
                .help("The Export Time of each written message, in seconds since 1970"),
        )?
        .arg(
            option(alloc, TARGET, "OCTETS")
                .default_value("1400")
                .value_parser(value_parser!(u16))
                .help("How long a written message may be"),
        )?
        .arg(option(alloc, AUDIT, "FILE").help(
            "Where to name each record that was withheld or cut down",
        ))?
        .arg(
            Arg::new(alloc, HEX)
                .long(HEX)
                .action(ArgAction::SetTrue)
                .help("Read hexadecimal text, and write each message as a line of it"),
        )
}

/// The command `check-policy` with its options.
fn check_policy_command<'a>(alloc: Global) -> Result<Command<'a>, AllocError>
    ensures { IfOk result (λ command. app_of command ≡ check_policy_command) }
{
    Ok(
        with_policy(alloc, Command::new(alloc, CHECK_POLICY))?
            .override_usage("ipmd check-policy (--policy <FILE> | --policy-text <TEXT>)")
            .about("Says whether a text is a policy, and how many rules and aggregates it has")
            .after_help(help::CHECK_POLICY),
    )
}

/// The command `replay` with its options.
fn replay_command<'a>(alloc: Global) -> Result<Command<'a>, AllocError>
    ensures { IfOk result (λ command. app_of command ≡ replay_command) }
{
    Command::new(alloc, REPLAY)
        .override_usage("ipmd replay --calls <FILE> [--journal <FILE>]")
        .about("Makes a list of calls on a new mediator, and says what each is answered")
        .after_help(help::REPLAY)
        .arg(
            option(alloc, CALLS, "FILE")
                .required(true)
                .help("The file with the calls, one a line"),
        )?
        .arg(option(alloc, JOURNAL, "FILE").help(
            "Where to keep the journal of what was accepted, for ipmd verify",
        ))
}

/// The command `serve` with its option.
fn serve_command<'a>(alloc: Global) -> Result<Command<'a>, AllocError>
    ensures { IfOk result (λ command. app_of command ≡ serve_command) }
{
    Command::new(alloc, SERVE)
        .override_usage("ipmd serve --settings <FILE>")
        .about(
            "Takes messages from exporters, and sends each collector what the policy discloses to it",
        )
        .after_help(help::SERVE)
        .arg(
            option(alloc, SETTINGS, "FILE")
                .required(true)
                .help("The file with the settings, in TOML"),
        )
}

/// The command `verify` with its options.
fn verify_command<'a>(alloc: Global) -> Result<Command<'a>, AllocError>
    ensures { IfOk result (λ command. app_of command ≡ verify_command) }
{
    Command::new(alloc, VERIFY)
        .override_usage("ipmd verify --journal <FILE> [--quiet]")
        .about("Says whether a journal's history is legal, and what it discloses to whom")
        .after_help(help::VERIFY)
        .arg(
            option(alloc, JOURNAL, "FILE")
                .required(true)
                .help("The journal's file"),
        )?
        .arg(
            Arg::new(alloc, QUIET)
                .long(QUIET)
                .action(ArgAction::SetTrue)
                .help("Leave out the audit, and say nothing of how far the file was read"),
        )
}

/// The command `explain` with its options.
fn explain_command<'a>(alloc: Global) -> Result<Command<'a>, AllocError>
    ensures { IfOk result (λ command. app_of command ≡ explain_command) }
{
    Command::new(alloc, EXPLAIN)
        .override_usage("ipmd explain --journal <FILE> --sub <N> [--position <P>] [--index <I>]")
        .about(
            "Says what a subscription saw of each record of a journal's file, and by which rules",
        )
        .after_help(help::EXPLAIN)
        .arg(
            option(alloc, JOURNAL, "FILE")
                .required(true)
                .help("The journal's file"),
        )?
        .arg(
            option(alloc, SUB, "N")
                .required(true)
                .value_parser(value_parser!(u64))
                .help("The number of the subscription"),
        )?
        .arg(
            option(alloc, POSITION, "P")
                .value_parser(value_parser!(u64))
                .help("Explain the message at this position alone, from 0"),
        )?
        .arg(
            option(alloc, INDEX, "I")
                .value_parser(value_parser!(u32))
                .help("Explain the record at this place in its message alone, from 0"),
        )
}

/// The command with the two options of which one names the policy.
fn with_policy<'a>(alloc: Global, command: Command<'a>) -> Result<Command<'a>, AllocError>
    ensures { IfOk result (λ given. app_of given ≡ with_policy (app_of command.entry)) }
{
    command
        .arg(option(alloc, POLICY, "FILE").help("The file with the policy"))?
        .arg(option(alloc, POLICY_TEXT, "TEXT").help(
            "The policy itself, with `;` for each line end",
        ))
}

/// An option with a value, under its long name.
fn option<'a>(alloc: Global, name: &'a str, value_name: &'a str) -> Arg<'a>
    ensures rule { rule_of result ≡ valued_option name.entry.now }
    ensures local { result.global ≡ false }
{
    Arg::new(alloc, name).long(name).value_name(value_name)
}
