//! Where the packets of a client's stream end (MQTT 5.0, 2.1).
ghost use Rattle.std.specs.Prelude.{◌<◌, ◌≤◌, length};

/// The type of a PUBLISH.
const PUBLISH: u8 = 3;

/// What the fourth byte of a length counts.
const LAST_UNIT: u32 = 2_097_152;

/// How far a packet has come.
#[derive(Clone, Copy, Debug)]
enum Place {
    /// Nothing of it.
    Front,
    /// Its length isn't whole: so much was told, and the next byte counts so much.
    Length { told: u32, unit: u32 },
    /// So many bytes are still to come.
    Body { left: u32 },
    /// Its length is none. What comes isn't looked at any more.
    Lost,
}

/// How far the packets of a stream have come.
#[derive(Clone, Copy, Debug)]
pub(crate) struct Packets {
    place: Place,
    /// Whether the packet that has begun is a PUBLISH.
    publish: bool,
}

/// A length goes on by a byte.
fn lengthened(told: u32, unit: u32, byte: u8) -> Place {
    let more = u32::from(byte & 0x7f).saturating_mul(unit);
    let told = told.saturating_add(more);
    if byte & 0x80 == 0 {
        if told == 0 {
            Place::Front
        } else {
            Place::Body { left: told }
        }
    } else if unit >= LAST_UNIT {
        Place::Lost
    } else {
        let unit = unit.saturating_mul(128);
        Place::Length { told, unit }
    }
}

impl Packets {
    /// Nothing has come.
    pub(crate) fn new() -> Packets {
        Packets {
            place: Place::Front,
            publish: false,
        }
    }

    /// How many bytes of the packet that has begun are still to come, as far as that is known.
    pub(crate) fn left(&self) -> u32 {
        match self.place {
            Place::Body { left } => left,
            _ => 0,
        }
    }

    /// The next byte comes, which isn't one of a body. It answers whether a PUBLISH ends there.
    fn take_byte(&mut self, byte: u8) -> bool {
        match self.place {
            Place::Length { told, unit } => {
                self.place = lengthened(told, unit, byte);
                match self.place {
                    Place::Front => self.publish,
                    _ => false,
                }
            }
            Place::Lost => false,
            _ => {
                self.publish = byte >> 4 == PUBLISH;
                self.place = Place::Length { told: 0, unit: 1 };
                false
            }
        }
    }

    /// The next bytes come. It answers how many of them it took, and whether a PUBLISH ends there.
    fn advance(&mut self, bytes: &[u8]) -> (usize, bool)
        requires { 0 < length bytes.now }
        ensures some { 0 < result.0 }
        ensures within { result.0 ≤ length bytes.now }
    {
        let left = self.left();
        if left == 0 {
            return (1, self.take_byte(bytes[0]));
        }
        if bytes.len() < left as usize {
            self.place = Place::Body {
                left: left - bytes.len() as u32,
            };
            return (bytes.len(), false);
        }
        self.place = Place::Front;
        (left as usize, self.publish)
    }

    /// Bytes come. It answers whether a PUBLISH ends in them.
    pub(crate) fn take(&mut self, bytes: &[u8]) -> bool {
        let mut ended = false;
        let mut at = 0;
        'packets: while at < bytes.len() {
            let (taken, publish) = self.advance(&bytes[at..]);
            ended = ended || publish;
            at += taken;
        }
        ended
    }
}
