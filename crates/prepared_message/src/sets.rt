//! Whether a message has a set of templates, found by the headers of its sets.
ghost use Rattle.std.specs.Prelude.{◌≡◌, ◌+◌, ◌≤◌, ◌<◌, [], ◌∷◌, length, IsOk, IfSome};
ghost use Rattle.ipfix_octets.specs.MessageFormat.{header_octets};
ghost use Rattle.ipfix_octets.specs.Octets.{number_at};
ghost use Rattle.prepared_message.specs.SetIds.{ShowsSet, id_front, set_ids, is_of_templates, has_template_set};

use ipfix_octets::be_number;
use ipfix_octets::message_format::{
    HEADER_OCTETS, OPTIONS_TEMPLATE_SET, SET_HEADER_OCTETS, TEMPLATE_SET,
};

/// Whether `message`, whose header and sets are whole, has a Template Set or an Options Template Set, also one without
/// a template: a set with the ID 2 or 3 (RFC 7011, section 3.3.2).
pub(crate) fn has_template_set(message: &[u8]) -> bool
    requires header { header_octets ≤ length message.now }
    requires sets { IsOk (set_ids message.now) }
    ensures { result ≡ has_template_set message.now }
{
    let mut rest = message.split_at(HEADER_OCTETS).1;
    'sets: while let Some((id, after)) = first_set(rest) {
        if is_of_templates(id) {
            return true;
        }
        rest = after;
    }
    false
}

/// Whether a set with the ID `id` is a Template Set or an Options Template Set.
fn is_of_templates(id: u16) -> bool
    ensures { result ≡ is_of_templates id }
{
    id == TEMPLATE_SET || id == OPTIONS_TEMPLATE_SET
}

/// The ID of the set at the front of `octets`, and the octets after the set; or `None` where no whole set stands there.
#[tactic(auto, unfolding(crate::specs::SetIds::id_front))]
fn first_set(octets: &[u8]) -> Option<(u16, &[u8])>
    ensures { ShowsSet result (id_front octets.now) }
{
    if octets.len() < SET_HEADER_OCTETS {
        return None;
    }
    let size = usize::from(u16_at(octets, 2));
    if size < SET_HEADER_OCTETS || octets.len() < size {
        return None;
    }
    Some((u16_at(octets, 0), octets.split_at(size).1))
}

/// The number in the two of `octets` at `place`, in network byte order.
fn u16_at(octets: &[u8], place: usize) -> u16
    requires { place + 2 ≤ length octets.now }
    ensures { result ≡ number_at place 2 octets.now }
{
    be_number(&octets[place..place + 2]) as u16
}
