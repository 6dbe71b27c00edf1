//! A generator of numbers, and messages of templates and flows.
ghost use Rattle.std.specs.Prelude.{◌<◌};

/// Template 256 of start, source, destination port, octets and packets.
pub(crate) const SOURCES: &[u8] =
    b"\x00\x0a\x00\x2c\x65\x53\xf1\x00\x00\x00\x00\x00\x00\x00\x00\x07\
\x00\x02\x00\x1c\x01\x00\x00\x05\x00\x98\x00\x08\x00\x08\x00\x04\x00\x0b\x00\x02\x00\x01\x00\x08\x00\x02\x00\x04";

/// Template 256 of start, destination, destination port, octets and packets.
pub(crate) const DESTINATIONS: &[u8] =
    b"\x00\x0a\x00\x2c\x65\x53\xf1\x00\x00\x00\x00\x00\x00\x00\x00\x07\
\x00\x02\x00\x1c\x01\x00\x00\x05\x00\x98\x00\x08\x00\x0c\x00\x04\x00\x0b\x00\x02\x00\x01\x00\x08\x00\x02\x00\x04";

/// The template 256 is withdrawn.
pub(crate) const WITHDRAWAL: &[u8] =
    b"\x00\x0a\x00\x18\x65\x53\xf1\x00\x00\x00\x00\x00\x00\x00\x00\x07\
\x00\x02\x00\x08\x01\x00\x00\x00";

/// Template 257 of source port.
pub(crate) const ANOTHER_ID: &[u8] =
    b"\x00\x0a\x00\x1c\x65\x53\xf1\x00\x00\x00\x00\x00\x00\x00\x00\x07\
\x00\x02\x00\x0c\x01\x01\x00\x01\x00\x07\x00\x02";

/// Two flows of the template 256, of 100 octets and 1 packet and of 200 octets and 2 packets.
const FLOWS: &[u8; 72] = b"\x00\x0a\x00\x48\x65\x53\xf1\x00\x00\x00\x00\x00\x00\x00\x00\x07\
\x01\x00\x00\x38\x00\x00\x00\x00\x00\x00\x00\x00\xc0\x00\x02\x00\x01\xbb\x00\x00\x00\x00\x00\x00\x00\x64\x00\x00\x00\x01\
\x00\x00\x00\x00\x00\x00\x00\x00\xc6\x33\x64\x00\x00\x35\x00\x00\x00\x00\x00\x00\x00\xc8\x00\x00\x00\x02";

/// A linear congruential generator (Knuth's MMIX).
#[derive(Drop)]
pub(crate) struct Random {
    pub(crate) state: u64,
}

impl Random {
    /// A number below `n`.
    pub(crate) fn below(&mut self, n: u64) -> u64
        requires { 0 < n }
        ensures { result < n }
    {
        self.state = self
            .state
            .wrapping_mul(6_364_136_223_846_793_005)
            .wrapping_add(1_442_695_040_888_963_407);
        (self.state >> 33) % n
    }

    /// One of the words.
    pub(crate) fn pick(&mut self, words: &[&'static str]) -> &'static str {
        let count = words.len() as u64;
        if count == 0 {
            return "";
        }
        words.get(self.below(count) as usize).copied().unwrap_or("")
    }
}

/// A start in the quarter of an hour before the clock.
fn start(random: &mut Random, clock: u64) -> [u8; 8] {
    clock.saturating_sub(random.below(900_000)).to_be_bytes()
}

/// A message of two flows, with a small Sequence Number.
pub(crate) fn flows(random: &mut Random, clock: u64) -> [u8; 72] {
    let mut message = *FLOWS;
    message[11] = random.below(4) as u8;
    message[20..28].copy_from_slice(&start(random, clock));
    message[31] = random.below(256) as u8;
    message[46..54].copy_from_slice(&start(random, clock));
    message[57] = random.below(256) as u8;
    message
}
