//! What the sets of a message say.

use ipfix_template::{Refused, Template};

/// What one record of a Template or Options Template Set says, or what one other set is (RFC 7011,
/// sections 3.3.2, 3.4 and 8.1).
#[derive(Debug, Drop)]
pub enum Item {
    /// A template is defined under an ID.
    Define { id: u16, template: Template },
    /// The template of an ID is withdrawn, of whichever kind it is.
    Withdraw { id: u16 },
    /// All templates of the domain are withdrawn, or all its options templates.
    WithdrawAll { options: bool },
    /// A definition is refused, and its ID then counts as withdrawn.
    Refused { id: u16, why: Refused },
    /// A Data Set for the template of an ID. Its content starts at the place `start` of the
    /// message, behind the set header, and has `len` octets.
    DataSet { id: u16, start: usize, len: usize },
    /// A set of an ID that RFC 7011 reserves: 0, 1 or 4 to 255.
    Skipped { set: u16 },
}
