//! Why a run ends without having done what was asked, with the text and the exit status of each fault.
ghost use Rattle.std.specs.Prelude.{◌≡◌};
ghost use Rattle.octet_io.specs.Device.{device_failed, device_inner};
ghost use Rattle.ipmd_commands.specs.declared.failure.Place.TheVariants as placed;
ghost use Rattle.ipmd_commands.specs.Status.{NamesFailure};

use crate::failure::{Failure, Place};
use ipmd_command_line::Fault as CommandLineFault;
use ipmd_settings::Fault as SettingsFault;
use journal_files::Fault as JournalFault;
use mediator_offline::FramingFault;
use mediator_state::Fault as MediatorFault;
use octet_io::{Device, write_all};
use policy_text::{Fault as PolicyFault, FaultKind};
use replay_text::Fault as CallsFault;
use std::alloc::{AllocError, AllocFailed, Global};
use std::error::Error;
use std::fmt::{self, Display, Formatter};
use std::io::{self, ErrorKind, Write};

/// The exit status where the input is refused, or memory runs out.
const REFUSED: u8 = 1;

/// The exit status of a refused command line.
const BAD_COMMAND_LINE: u8 = 2;

/// The exit status where a file or a stream fails.
const DEVICE_FAILED: u8 = 3;

/// What a journal was asked for, and doesn't have. Its text is its name, with the numbers that were asked for.
#[derive(Clone, Copy, Debug, PartialEq, Eq)]
pub enum Absent {
    /// A subscription with this number never began.
    Subscription(u64),
    /// No message stands at this position.
    Message(u64),
    /// The message at this position has no record at this place.
    Record { position: u64, index: u32 },
}

impl Error for Absent {}

impl Display for Absent {
    ghost use Rattle.std.specs.Prelude.{Some};
    ghost use Rattle.ipmd_commands.specs.Absent.{text_of_absent};

    ghost output = { λ absent. Some (text_of_absent absent) };

    fn fmt<W: fmt::Write>(&self, f: &mut Formatter<W>) -> fmt::Result {
        match self {
            Absent::Subscription(sub) => write!(f, "NoSubscription {sub}"),
            Absent::Message(position) => write!(f, "NoMessage {position}"),
            Absent::Record { position, index } => write!(f, "NoRecord {position} {index}"),
        }
    }
}

/// Why a run ends without having done what was asked. Its text is what the program says of it.
#[derive(Debug, Drop)]
pub enum Fault {
    /// The command line asks for nothing that there is. The text is the parser's, with its line feeds.
    CommandLine(clap::Error),
    /// The text gives no settings.
    Settings(SettingsFault),
    /// The text is no policy.
    Policy(PolicyFault),
    /// The input is not hexadecimal.
    Hex,
    /// The input is no stream of messages.
    Framing(FramingFault),
    /// The mediator refused a call, or limits, and not for its policy or for want of memory, which have variants of their own.
    Mediator(MediatorFault),
    /// The subscription was cut.
    Cut,
    /// The line of this number is no call.
    Calls(usize),
    /// The octets are no journal's file, and this is the first fault of it: never `Read`, `Write` or `OutOfMemory`, which are
    /// `Device` and `OutOfMemory` here.
    Journal(JournalFault),
    /// A journal's entry at this position is none that a mediator may have accepted there. All entries before it are.
    History(u64),
    /// A journal doesn't have what was to be explained.
    Absent(Absent),
    /// What was served isn't given back: a receipt doesn't stand in the journal.
    Close,
    /// Want of memory.
    OutOfMemory,
    /// A file can't be opened, read or written, is not text where text is read, or a stream failed; an address can't be
    /// listened on or connected to, or a thread was refused. None: which it was isn't known here, or a note has said it.
    Device(Option<Failure>),
}

impl Error for Fault {}

impl Display for Fault {
    ghost use Rattle.ipmd_commands.specs.Status.{text_of};

    ghost output = { text_of };

    fn fmt<W: fmt::Write>(&self, f: &mut Formatter<W>) -> fmt::Result {
        match self {
            Fault::CommandLine(why) => write!(f, "{why}"),
            Fault::Settings(why) => write!(f, "ipmd: settings: {why}"),
            Fault::Policy(PolicyFault { line, kind }) => {
                write!(f, "ipmd: policy line {line}: {kind}")
            }
            Fault::Hex => f.write_str("ipmd: hex"),
            Fault::Framing(why) => write!(f, "ipmd: framing {why}"),
            Fault::Mediator(why) => write!(f, "ipmd: {why}"),
            Fault::Cut => f.write_str("ipmd: Cut"),
            Fault::Calls(line) => write!(f, "ipmd: calls line {line}"),
            Fault::Journal(why) => write!(f, "ipmd: journal {why}"),
            Fault::History(position) => { write!(f, "ipmd: journal BadHistory {position}") }
            Fault::Absent(what) => write!(f, "ipmd: journal {what}"),
            Fault::Close => f.write_str("ipmd: close"),
            Fault::OutOfMemory => f.write_str("ipmd: OutOfMemory"),
            Fault::Device(_) => f.write_str("ipmd: device"),
        }
    }
}

impl Fault {
    ghost use Rattle.octet_io.specs.Device.{device_failed, device_inner};
    ghost use Rattle.ipmd_commands.specs.Status.{Blames, status_of};

    #[tactic(auto, using(crate::proofs::Telling::blames))]
    /// Says the fault on `errors`, and answers the exit status. Where what failed is known, and `alloc` has memory for it, a line
    /// that names it stands before. What can't be written is dropped.
    pub fn report<E: Write>(self, alloc: Global, errors: &mut Device<E>) -> u8
        ensures status { result ≡ status_of self }
        ensures told { Blames self (device_failed errors.new)
            (E.contents (device_inner errors.old)) (E.contents (device_inner errors.new)) }
    {
        self.name_device(alloc, errors);
        self.say(errors);
        self.status()
    }

    ghost use Rattle.std.specs.Prelude.{false};
    ghost use Rattle.ipmd_commands.specs.Status.{line_of_fault, TellsLine};

    /// Says the fault.
    fn say<E: Write>(&self, errors: &mut Device<E>)
        ensures told { TellsLine (line_of_fault self.now) (device_failed errors.new)
            (E.contents (device_inner errors.old)) (E.contents (device_inner errors.new)) }
        ensures stays { device_failed errors.new ≡ false → device_failed errors.old ≡ false }
    {
        let _ = match self {
            Fault::CommandLine(_) => write!(errors, "{self}"),
            _ => writeln!(errors, "{self}"),
        };
    }

    ghost use Rattle.ipmd_commands.specs.Status.{NamesDevice};

    /// Says what failed, where that is known and memory is left for it.
    fn name_device<E: Write>(&self, alloc: Global, errors: &mut Device<E>)
        ensures { NamesDevice self.now (device_failed errors.new)
            (E.contents (device_inner errors.old)) (E.contents (device_inner errors.new)) }
    {
        match self {
            Fault::Device(Some(failure)) => tell_failure(failure, alloc, errors),
            _ => {}
        }
    }

    /// The exit status of a run that ends with this fault.
    fn status(&self) -> u8
        ensures { result ≡ status_of self.now }
    {
        match self {
            Fault::CommandLine(_) => BAD_COMMAND_LINE,
            Fault::Settings(_)
            | Fault::Policy(_)
            | Fault::Hex
            | Fault::Framing(_)
            | Fault::Mediator(_)
            | Fault::Cut
            | Fault::Calls(_)
            | Fault::Journal(_)
            | Fault::History(_)
            | Fault::Absent(_)
            | Fault::Close
            | Fault::OutOfMemory => REFUSED,
            Fault::Device(_) => DEVICE_FAILED,
        }
    }

    ghost use Rattle.std.specs.Prelude.{◌≢◌, ◌⊎◌};
    ghost use Rattle.std.specs.IoError.{error_kind};
    ghost use Rattle.std.specs.declared.io.ErrorKind.TheVariants as io_error;
    ghost use Rattle.ipmd_commands.specs.declared.fault.Fault.TheVariants.{OutOfMemory};
    ghost use Rattle.ipmd_commands.specs.Failures.{FailedAt, IsFileFault, NamesFile, failed_at};

    /// The fault of `place`, which has failed with the error `why`.
    pub fn failed(place: Place, why: io::Error) -> Fault
        ensures { result ≡ failed_at place why }
    {
        Fault::Device(Some(Failure { place, why }))
    }

    /// What the program makes of the error `why` at `place`: `OutOfMemory` where it is want of memory, else `Device`.
    pub fn at(place: Place, why: io::Error) -> Fault
        ensures kind { ((error_kind why ≡ io_error.OutOfMemory) × (result ≡ OutOfMemory))
            ⊎ ((error_kind why ≢ io_error.OutOfMemory) × (result ≡ failed_at place why)) }
        ensures either { (result ≡ OutOfMemory) ⊎ FailedAt place result }
    {
        match why.kind() {
            ErrorKind::OutOfMemory => Fault::OutOfMemory,
            _ => Fault::failed(place, why),
        }
    }

    /// What the program makes of the error `why` at the file whose path is `path`: `OutOfMemory` where it is want of memory, or
    /// `alloc` has none for the path; else `Device`.
    pub fn at_file(alloc: Global, path: &str, why: io::Error) -> Fault
        ensures { IsFileFault path.now result }
    {
        match String::from_str(alloc, path) {
            Ok(path) => Fault::at(Place::File(path), why),
            Err(AllocError) => Fault::OutOfMemory,
        }
    }

    /// What the program makes of standard output, `output`, that has failed: `Device`, with why it failed first.
    pub fn at_output<O>(output: &Device<O>) -> Fault
        ensures { FailedAt placed.Output result }
    {
        Fault::failed(Place::Output, output.why())
    }

    /// This fault, where it isn't `Device` of something unknown. Else the fault of the file whose path is `path`, which failed
    /// with the error `why`.
    pub fn named(self, alloc: Global, path: &str, why: io::Error) -> Fault
        ensures { NamesFile path.now self result }
    {
        match self {
            Fault::Device(None) => Fault::at_file(alloc, path, why),
            fault => fault,
        }
    }
}

/// Says what failed, unless no memory is left for it.
fn tell_failure<E: Write>(failure: &Failure, alloc: Global, errors: &mut Device<E>)
    ensures { NamesFailure failure.now (device_failed errors.new)
        (E.contents (device_inner errors.old)) (E.contents (device_inner errors.new)) }
{
    if let Ok(line) = failure.line(alloc) {
        let _ = write_all(errors, line.as_bytes());
    }
}

impl From<AllocError> for Fault {
    ghost use Rattle.std.specs.Prelude.{◌≡◌};
    ghost use Rattle.ipmd_commands.specs.declared.fault.Fault.TheVariants.{OutOfMemory};

    ghost from_gives = { λ _ e. e ≡ OutOfMemory };

    fn from(_e: AllocError) -> Fault {
        Fault::OutOfMemory
    }
}

impl<T: Drop> From<AllocFailed<T>> for Fault {
    ghost use Rattle.std.specs.Prelude.{◌≡◌};
    ghost use Rattle.ipmd_commands.specs.declared.fault.Fault.TheVariants.{OutOfMemory};

    ghost from_gives = { λ _ e. e ≡ OutOfMemory };

    fn from(_e: AllocFailed<T>) -> Fault {
        Fault::OutOfMemory
    }
}

impl From<CommandLineFault> for Fault {
    ghost use Rattle.std.specs.Prelude.{◌≡◌};
    ghost use Rattle.ipmd_commands.specs.Status.{command_line_fault_of};

    ghost from_gives = { λ f e. e ≡ command_line_fault_of f };

    fn from(fault: CommandLineFault) -> Fault {
        match fault {
            CommandLineFault::Refused(why) => Fault::CommandLine(why),
            CommandLineFault::OutOfMemory => Fault::OutOfMemory,
        }
    }
}

impl From<SettingsFault> for Fault {
    ghost use Rattle.std.specs.Prelude.{◌≡◌};
    ghost use Rattle.ipmd_commands.specs.Status.{settings_fault_of};

    ghost from_gives = { λ f e. e ≡ settings_fault_of f };

    fn from(fault: SettingsFault) -> Fault {
        match fault {
            SettingsFault::OutOfMemory => Fault::OutOfMemory,
            SettingsFault::TooLong => Fault::Settings(SettingsFault::TooLong),
            SettingsFault::Toml => Fault::Settings(SettingsFault::Toml),
            SettingsFault::Key(key) => Fault::Settings(SettingsFault::Key(key)),
        }
    }
}

impl From<PolicyFault> for Fault {
    ghost use Rattle.std.specs.Prelude.{◌≡◌};
    ghost use Rattle.ipmd_commands.specs.Status.{policy_fault_of};

    ghost from_gives = { λ f e. e ≡ policy_fault_of f f.kind };

    fn from(fault: PolicyFault) -> Fault {
        match fault.kind {
            FaultKind::OutOfMemory => Fault::OutOfMemory,
            _ => Fault::Policy(fault),
        }
    }
}

impl From<MediatorFault> for Fault {
    ghost use Rattle.std.specs.Prelude.{◌≡◌};
    ghost use Rattle.ipmd_commands.specs.Status.{mediator_fault_of};

    ghost from_gives = { λ f e. e ≡ mediator_fault_of f };

    fn from(fault: MediatorFault) -> Fault {
        match fault {
            MediatorFault::Policy(why) => Fault::from(why),
            MediatorFault::OutOfMemory => Fault::OutOfMemory,
            why => Fault::Mediator(why),
        }
    }
}

impl From<CallsFault> for Fault {
    ghost use Rattle.std.specs.Prelude.{◌≡◌};
    ghost use Rattle.ipmd_commands.specs.Status.{calls_fault_of};

    ghost from_gives = { λ f e. e ≡ calls_fault_of f };

    fn from(fault: CallsFault) -> Fault {
        match fault {
            CallsFault::Line(line) => Fault::Calls(line),
            CallsFault::OutOfMemory => Fault::OutOfMemory,
        }
    }
}

impl From<JournalFault> for Fault {
    ghost use Rattle.std.specs.Prelude.{◌≡◌};
    ghost use Rattle.ipmd_commands.specs.Status.{read_fault_of};

    ghost from_gives = { λ f e. e ≡ read_fault_of f };

    fn from(fault: JournalFault) -> Fault {
        match fault {
            JournalFault::Read | JournalFault::Write { .. } => Fault::Device(None),
            JournalFault::OutOfMemory => Fault::OutOfMemory,
            why => Fault::Journal(why),
        }
    }
}
