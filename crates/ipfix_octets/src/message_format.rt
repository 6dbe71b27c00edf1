//! The numbers of the message format (RFC 7011, section 3).

/// The Version Number of IPFIX (RFC 7011, section 3.1).
pub const IPFIX_VERSION: u16 = 10;

/// The most octets of a message: its Length stands in two octets (RFC 7011, section 3.1).
pub const LONGEST_MESSAGE: usize = 65535;

/// The octets of a message header (RFC 7011, section 3.1).
pub const HEADER_OCTETS: usize = 16;

/// The octets of a set header (RFC 7011, section 3.3.2).
pub const SET_HEADER_OCTETS: usize = 4;

/// The octets of a template record's header: ID and Field Count (RFC 7011, section 3.4.1).
pub const RECORD_HEADER_OCTETS: usize = 4;

/// The octets of an options template record's header, which has a Scope Field Count too (RFC 7011, section 3.4.2.2).
pub const OPTIONS_RECORD_HEADER_OCTETS: usize = 6;

/// The Set ID of a Template Set, which as a record's ID withdraws all templates (RFC 7011, sections 3.3.2 and 8.1).
pub const TEMPLATE_SET: u16 = 2;

/// The Set ID of an Options Template Set, which as a record's ID withdraws all options templates (RFC 7011,
/// sections 3.3.2 and 8.1).
pub const OPTIONS_TEMPLATE_SET: u16 = 3;

/// The least ID of a template, and so of a Data Set (RFC 7011, sections 3.3.2 and 3.4.1).
pub const LEAST_TEMPLATE_ID: u16 = 256;

/// The bit of an element number that says that an enterprise number follows (RFC 7011, section 3.2).
pub const ENTERPRISE_BIT: u16 = 0x8000;

/// The length octet that says that the length follows in two octets (RFC 7011, section 7).
pub const LONG_FORM: u8 = 255;

/// How many milliseconds a second has, which the times of some elements count (RFC 7011, section 6.1.8).
pub const MILLISECONDS: u64 = 1000;
