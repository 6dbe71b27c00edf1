//! Which device a fault names.
use ipmd_commands::{Failure, Fault as ProgramFault, Place};

/// Whether it is this one.
pub(crate) fn is_at(fault: &ProgramFault, place: &Place) -> bool {
    match fault {
        ProgramFault::Device(Some(failure)) => failure.place == *place,
        _ => false,
    }
}

/// Whether it is the file at a path.
pub(crate) fn is_at_file(fault: &ProgramFault, path: &str) -> bool {
    match fault {
        ProgramFault::Device(
            Some(
                Failure {
                    place: Place::File(name),
                    why: _,
                },
            ),
        ) => name.as_str() == path,
        _ => false,
    }
}
