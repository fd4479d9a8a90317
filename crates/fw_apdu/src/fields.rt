//! Fields that several services have.

ghost use Rattle.std.specs.Prelude.{◌≡◌};
ghost use Rattle.fw_apdu.specs.Request.{invoke_id, is_confirmed};

/// The byte of the invoke-id and the priority (IEC 62056-5-3, Invoke-Id-And-Priority). A response
/// repeats that of its request, so that a client can match the two.
#[derive(Clone, Copy, Debug)]
pub struct Invoke(pub u8);

/// How many invoke-ids there are.
pub const INVOKE_IDS: u8 = 16;

/// The bit of the service class.
const CONFIRMED: u8 = 0x40;

impl Invoke {
    /// The invoke-id, 0 to 15, which distinguishes the outstanding requests of a client.
    pub fn id(self) -> u8
        ensures { result ≡ invoke_id self.0 }
    {
        self.0 % INVOKE_IDS
    }

    /// The service class: whether the sender waits for a response.
    pub fn confirmed(self) -> bool
        ensures { result ≡ is_confirmed self.0 }
    {
        self.0 / CONFIRMED % 2 == 1
    }
}

/// The logical name of a COSEM object: the six value groups A to F of its OBIS code
/// (IEC 62056-6-1).
#[derive(Clone, Copy, Debug, PartialEq, Eq)]
pub struct LogicalName(pub [u8; 6]);
