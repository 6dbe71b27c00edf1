//! The octets of the record that announces a template.
ghost use Rattle.std.specs.Prelude.{◌≡◌, ◌≤◌, length, Option, Some, None, if◌then◌else◌};
ghost use Rattle.ipfix_octets.specs.MessageFormat.{least_template_id};
ghost use Rattle.ipfix_template.specs.Template.{is_options, template_record};
ghost use Rattle.ipfix_template.specs.declared.data_record.TheConstants.{RECORD_ROOM};

use ipfix_template::{Template, template_octets};

/// The octets of the template's record, where it is new and so is to be announced.
pub(crate) fn announced_octets(shape: &Template, is_new: bool) -> Option<u16>
    requires { length (template_record least_template_id (is_options shape.now) shape.now)
        ≤ RECORD_ROOM }
    ensures { result ≡ (if is_new then Some
        (length (template_record least_template_id (is_options shape.now) shape.now)) else None) }
{
    if is_new {
        Some(template_octets(shape) as u16)
    } else {
        None
    }
}
