//! The header of a store, and its bytes.

ghost use Rattle.std.specs.Prelude.{
  ◌≡◌,
  ◌≢◌,
  ◌+◌,
  ◌≤◌,
  ◌<◌,
  ◌^◌,
  ◌++◌,
  ◌↔◌,
  ℕ,
  Bool,
  List,
  Some,
  false,
  length,
  take,
  drop,
  slice_range,
  IsTrue,
  IfSome,
  IfNone,
};
ghost use Rattle.std.specs.Int.{w32, from_be_bytes, to_be_bytes};
ghost use Rattle.fw_axdr.specs.Bits.{packed};
ghost use Rattle.fw_blocks.specs.Cuts.{max_blocks};
ghost use Rattle.fw_blocks.specs.Members.{has, all_marks};
ghost use Rattle.fw_names.specs.Name.{Name, IsName};
ghost use Rattle.fw_store.specs.declared.header.Goal.{Goal};
ghost use Rattle.fw_store.specs.declared.header.Header.{Header};
ghost use Rattle.fw_store.specs.declared.header.StoredStatus.{StoredStatus};
ghost use Rattle.fw_store.specs.declared.slot.Slot.{Slot};
ghost use Rattle.fw_store.specs.Versions.{block_limit, bytes_of, first_limit, header_size, version_of};
ghost use Rattle.fw_store.specs.Layout.{
  status_number,
  slot_number,
  stored_name_bytes,
  goal_bytes,
  goal_release,
  header_bytes,
};
ghost use Rattle.fw_store.specs.Fronts.{front_of};
ghost use Rattle.fw_store.specs.Header.{
  GoalFieldsFit,
  FieldsFit,
  IsGoal,
  IsHeader,
  fresh_header,
  with_all_marks,
  goal_count,
  has_goal,
  is_verified,
  migrated,
};

use crate::slot::Slot;
use crate::version::{HeaderBytes, HeaderVersion, VERSION_ONE_SIZE, VERSION_TWO_SIZE};
use fw_blocks::{Geometry, MARKS_SIZE, MAX_BLOCK_SIZE, Pages};
use fw_cuts::FRONT_SIZE;
use fw_names::{ImageName, NameBytes, is_risen};

/// Where the marks of the first 4,096 blocks stand, and the releases after them.
const MARKS_AT: usize = 102;

const RELEASES_AT: usize = FRONT_SIZE;

/// The bytes of these marks.
const FIRST_MARKS_SIZE: usize = 512;

/// The bytes of the marks of the other blocks, and the page that they begin with.
const LAST_MARKS_SIZE: usize = MARKS_SIZE - FIRST_MARKS_SIZE;

const LAST_MARKS_PAGE: usize = 64;

/// The bytes of a name in a header, which has its release elsewhere.
const STORED_NAME_SIZE: usize = 41;

/// The bytes of a goal: its size and its name.
const GOAL_SIZE: usize = 4 + STORED_NAME_SIZE;

/// How far a transfer is, as a header keeps it: these of the values of image_transfer_status (IEC 62056-6-2, Image
/// transfer).
#[derive(Clone, Copy, PartialEq, Eq)]
pub enum StoredStatus {
    /// Nothing was initiated since the meter was made.
    NotInitiated = 0,
    /// Blocks are being received.
    Initiated = 1,
    /// The image is there and has its name's digest.
    VerificationSuccessful = 3,
    /// The image is there and has another digest.
    VerificationFailed = 4,
    /// The image was activated, and runs.
    ActivationSuccessful = 6,
}

/// The image that is to be received.
#[derive(Clone, Copy, PartialEq, Eq)]
pub struct Goal {
    /// The image's name.
    pub name: ImageName,
    /// The image's bytes.
    pub size: u32,
}

impl Goal {
    /// Whether a store of this capacity, in bytes a slot, whose header has marks for `limit` blocks and whose running image has
    /// this release can receive it in blocks of this size: a campaign offers it, its release may follow that one, it fits a slot,
    /// and its blocks are within their limits and no more than those.
    pub fn fits(&self, limit: u32, capacity: u32, block_size: u32, release: u32) -> bool
        ensures { IsTrue result ↔ IsGoal limit capacity block_size release self.now }
    {
        !self.name.campaign.is_factory()
            && self.size <= capacity
            && is_risen(release, self.name.release)
            && Geometry::new(block_size, self.size).is_some()
            && self.size.div_ceil(block_size) <= limit
    }
}

/// What a store keeps beside its two slots: the state of Image transfer, and which image runs.
#[derive(Clone, Copy, PartialEq, Eq)]
pub struct Header {
    /// Which of the two forms its bytes have.
    pub version: HeaderVersion,
    /// Whether image transfer is enabled (image_transfer_enabled).
    pub enabled: bool,
    /// The slot of the image that runs. The other is the spare one.
    pub running_slot: Slot,
    /// How far the transfer is.
    pub status: StoredStatus,
    /// The bytes of a block (image_block_size).
    pub block_size: u32,
    /// The bytes of the image that runs.
    pub running_size: u32,
    /// The name of the image that runs.
    pub running_name: ImageName,
    /// The image that is to be received, or was received and is not yet activated.
    pub goal: Option<Goal>,
    /// Which blocks of the goal are there (image_transferred_blocks_status). Those of a store's header count as many
    /// numbers as its version has marks for.
    pub marks: Pages,
}

impl StoredStatus {
    /// The standard's number.
    pub fn number(self) -> u8
        ensures { result ≡ status_number self }
    {
        self as u8
    }

    /// The status with this number, if there is one.
    fn from_number(number: u8) -> Option<StoredStatus>
        ensures { (status : StoredStatus) → status_number status ≡ number → result ≡ Some status }
    {
        match number {
            0 => Some(StoredStatus::NotInitiated),
            1 => Some(StoredStatus::Initiated),
            3 => Some(StoredStatus::VerificationSuccessful),
            4 => Some(StoredStatus::VerificationFailed),
            6 => Some(StoredStatus::ActivationSuccessful),
            _ => None,
        }
    }

    /// Whether there is a goal in this status.
    fn has_goal(self) -> bool
        ensures { result ≡ has_goal self }
    {
        match self {
            StoredStatus::NotInitiated | StoredStatus::ActivationSuccessful => false,
            StoredStatus::Initiated
            | StoredStatus::VerificationSuccessful
            | StoredStatus::VerificationFailed => true,
        }
    }

    /// Whether the goal was verified, with either result.
    fn is_verified(self) -> bool
        ensures { result ≡ is_verified self }
    {
        match self {
            StoredStatus::VerificationSuccessful | StoredStatus::VerificationFailed => true,
            StoredStatus::NotInitiated
            | StoredStatus::Initiated
            | StoredStatus::ActivationSuccessful => false,
        }
    }
}

impl Header {
    /// The header of this version of a new store of this block size, in bytes, with an image of this size and name in its first
    /// slot: image transfer is disabled, and nothing was initiated.
    pub fn fresh(
        version: HeaderVersion,
        block_size: u32,
        running_size: u32,
        running_name: ImageName,
    ) -> Header
        ensures { result ≡ fresh_header version block_size running_size running_name }
    {
        Header {
            version,
            enabled: false,
            running_slot: Slot::First,
            status: StoredStatus::NotInitiated,
            block_size,
            running_size,
            running_name,
            goal: None,
            marks: version.no_marks(),
        }
    }

    /// The header in version 2, with all else kept: no further block is there.
    pub fn migrated(self) -> Header
        ensures { result ≡ migrated self }
    {
        Header {
            version: HeaderVersion::Two,
            marks: self.marks.resized(HeaderVersion::Two.block_limit()),
            ..self
        }
    }

    /// The header's bytes in its version, whether a store can have it or not. They have a mark for each block that the version has
    /// one for: those that the header's marks don't count aren't marked.
    pub fn to_bytes(&self) -> HeaderBytes
        ensures value { bytes_of result ≡ header_bytes (with_all_marks self.now) }
        ensures version { version_of result ≡ self.now.version }
        ensures size { length (bytes_of result) ≡ header_size self.now.version }
        ensures fields { FieldsFit (with_all_marks self.now) }

        // If the header's marks count all these numbers, it is the header itself.
        ensures whole { length self.now.marks ≡ block_limit self.now.version → with_all_marks self.now ≡ self.now }
    {
        let mut bytes = HeaderBytes::zeros(self.version);
        match &mut bytes {
            HeaderBytes::One(bytes) => self.put_front(bytes),
            HeaderBytes::Two(bytes) => {
                self.put_front(bytes);
                put_last_marks(bytes, VERSION_ONE_SIZE, &self.marks);
            }
        }
        bytes
    }

    /// Writes the first 622 bytes.
    #[tactic(auto, unfolding(crate::specs::Fronts::front_of))]
    fn put_front(&self, bytes: &mut [u8])
        requires { VERSION_ONE_SIZE ≤ length bytes.old }
        ensures value { take VERSION_ONE_SIZE bytes.new ≡ front_of (record self.now { marks = all_marks self.now.marks }) }
        ensures fields { FieldsFit (with_all_marks self.now) }
        ensures size { length (all_marks self.now.marks) ≡ max_blocks }
    {
        let at = put(bytes, 0, &self.version.form());
        let flags = [
            u8::from(self.enabled),
            slot_number(self.running_slot),
            self.status.number(),
            u8::from(self.goal.is_some()),
        ];
        let at = put(bytes, at, &flags);
        let at = put(bytes, at, &number_bytes(self.block_size));
        let at = put(bytes, at, &number_bytes(self.running_size));
        let at = put(bytes, at, stored_name(self.running_name).as_slice());
        let at = put(bytes, at, &goal_to_bytes(self.goal));
        let at = put_first_marks(bytes, at, &self.marks);
        let at = put(bytes, at, &self.running_name.release.to_be_bytes());
        put(bytes, at, &goal_release(self.goal).to_be_bytes());
    }

    /// The header that has these bytes, and `None` if there is none that a store with this capacity, in bytes a
    /// slot, can have: so there is none if the form is that of the other version.
    pub fn from_bytes(capacity: u32, bytes: &HeaderBytes) -> Option<Header>
        ensures some { IfSome result (λ header.
            IsHeader capacity header × (header_bytes header ≡ bytes_of bytes.now)) }
        ensures none { IfNone result ((header : Header) →
            IsHeader capacity header → header_bytes header ≢ bytes_of bytes.now) }
        ensures version { IfSome result (λ header. header.version ≡ version_of bytes.now) }
    {
        let header = read(bytes)?;
        if header.to_bytes().as_slice() == bytes.as_slice() && header.is_for(capacity) {
            Some(header)
        } else {
            None
        }
    }

    /// Whether a store of this capacity can have the header.
    fn is_for(&self, capacity: u32) -> bool
        requires { FieldsFit self.now }
        ensures { IsTrue result ↔ IsHeader capacity self.now }
    {
        if self.block_size == 0 || MAX_BLOCK_SIZE < self.block_size {
            return false;
        }
        if self.running_size == 0 || capacity < self.running_size {
            return false;
        }
        if self.goal.is_some() != self.status.has_goal() {
            return false;
        }
        let release = self.running_name.release;
        let limit = self.version.block_limit();
        if !goal_fits(&self.goal, limit, capacity, self.block_size, release) {
            return false;
        }
        let count = goal_count(self.goal, self.block_size);
        if !is_unmarked_from(&self.marks, count) {
            return false;
        }
        !self.status.is_verified() || count <= self.marks.first_missing()
    }
}

/// Whether the goal, if there is one, fits a store of this capacity whose header has marks for `limit` blocks and whose running image
/// has this release.
fn goal_fits(goal: &Option<Goal>, limit: u32, capacity: u32, block_size: u32, release: u32) -> bool
    ensures { IsTrue result ↔ IfSome goal.now (IsGoal limit capacity block_size release) }
{
    match goal {
        None => true,
        Some(goal) => goal.fits(limit, capacity, block_size, release),
    }
}

/// How many blocks the goal has, 0 if there is none.
fn goal_count(goal: Option<Goal>, block_size: u32) -> u32
    requires { 1 ≤ block_size }
    ensures { result ≡ goal_count block_size goal }
{
    match goal {
        None => 0,
        Some(goal) => goal.size.div_ceil(block_size),
    }
}

/// Whether no number from this one on is marked. In a header whose marks are torn one may be.
fn is_unmarked_from(marks: &Pages, first: u32) -> bool
    ensures { IsTrue result ↔ ((i : ℕ) → first ≤ i → has marks.now i ≡ false) }
{
    (first..marks.count()).all(|number| !marks.has(number))
}

/// The byte of a slot.
fn slot_number(slot: Slot) -> u8
    ensures { result ≡ slot_number slot }
{
    match slot {
        Slot::First => 0,
        Slot::Second => 1,
    }
}

/// The bytes of a number, high byte first.
fn number_bytes(number: u32) -> [u8; 4]
    ensures value { result ≡ to_be_bytes w32 number }
    ensures fits { number < 2 ^ 32 }
{
    number.to_be_bytes()
}

/// The bytes of a name in a header, whatever its release.
fn stored_name(name: ImageName) -> NameBytes
    ensures value { result ≡ stored_name_bytes name }
    ensures size { length result ≡ STORED_NAME_SIZE }
    ensures is_name { IsName name }
{
    name.without_release().to_bytes()
}

/// The release of a goal, 0 if there is none.
fn goal_release(goal: Option<Goal>) -> u32
    ensures { result ≡ goal_release goal }
{
    goal.map_or(0, |goal| goal.name.release)
}

/// The bytes of a goal, zeros if there is none.
fn goal_to_bytes(goal: Option<Goal>) -> [u8; GOAL_SIZE]
    ensures value { result ≡ goal_bytes goal }
    ensures fields { IfSome goal GoalFieldsFit }
{
    let mut bytes = [0; GOAL_SIZE];
    if let Some(goal) = goal {
        bytes[..4].copy_from_slice(&goal.size.to_be_bytes());
        bytes[4..].copy_from_slice(stored_name(goal.name).as_slice());
    }
    bytes
}

/// Writes the marks of the first 4,096 blocks after the parts that are there, and returns where they end.
fn put_first_marks(bytes: &mut [u8], at: usize, marks: &Pages) -> usize
    requires { at + FIRST_MARKS_SIZE ≤ length bytes.old }
    ensures next { result ≡ at + FIRST_MARKS_SIZE }
    ensures front { take result bytes.new ≡ take at bytes.old ++ packed (take first_limit (all_marks marks.now)) }
    ensures size { length (all_marks marks.now) ≡ max_blocks }
{
    let end = at + FIRST_MARKS_SIZE;
    fill_first_marks(&mut bytes[at..end], marks);
    end
}

/// Those of the other blocks.
fn put_last_marks(bytes: &mut [u8], at: usize, marks: &Pages)
    requires { at + LAST_MARKS_SIZE ≤ length bytes.old }
    ensures { take (at + LAST_MARKS_SIZE) bytes.new ≡ take at bytes.old ++ packed (drop first_limit (all_marks marks.now)) }
{
    let end = at + LAST_MARKS_SIZE;
    fill_last_marks(&mut bytes[at..end], marks);
}

/// Fills `out` with the bytes of the marks of the first 4,096 blocks.
fn fill_first_marks(out: &mut [u8], marks: &Pages)
    requires { length out.old ≡ FIRST_MARKS_SIZE }
    ensures value { out.new ≡ packed (take first_limit (all_marks marks.now)) }
    ensures size { length (all_marks marks.now) ≡ max_blocks }
{
    marks.put_bytes(0, out);
}

/// Fills `out` with those of the marks of the others.
fn fill_last_marks(out: &mut [u8], marks: &Pages)
    requires { length out.old ≡ LAST_MARKS_SIZE }
    ensures { out.new ≡ packed (drop first_limit (all_marks marks.now)) }
{
    marks.put_bytes(LAST_MARKS_PAGE, out);
}

/// Writes a part after those that are there, and returns where it ends.
fn put(bytes: &mut [u8], at: usize, part: &[u8]) -> usize
    requires { at + length part.now ≤ length bytes.old }
    ensures next { result ≡ at + length part.now }
    ensures front { take result bytes.new ≡ take at bytes.old ++ part.now }
{
    let end = at + part.len();
    bytes[at..end].copy_from_slice(part);
    end
}

/// What the bytes are read as. A header's bytes are read as that header; others may be read as some header too, which
/// has other bytes.
fn read(bytes: &HeaderBytes) -> Option<Header>
    ensures unique { (header : Header) → FieldsFit header →
        header_bytes header ≡ bytes_of bytes.now → result ≡ Some header }
    ensures marks { IfSome result (λ header. length header.marks ≡ block_limit header.version) }
    ensures version { IfSome result (λ header. header.version ≡ version_of bytes.now) }
{
    fw_axdr::laws::bits_packed();
    let front = bytes.front();
    let goal = if front[7] == 1 {
        Some(read_goal(&front[57..102], number_at(&front[618..622]))?)
    } else {
        None
    };
    Some(Header {
        version: bytes.version(),
        enabled: front[4] == 1,
        running_slot: slot_at(front[5]),
        status: StoredStatus::from_number(front[6])?,
        block_size: number_at(&front[8..12]),
        running_size: number_at(&front[12..16]),
        running_name: read_name(&front[16..57], number_at(&front[614..618]))?,
        goal,
        marks: read_marks(bytes),
    })
}

/// The marks that a header's bytes are read as: those of the first 4,096 blocks, and in version 2 of the others.
fn read_marks(bytes: &HeaderBytes) -> Pages
    ensures unique { (marks : List Bool) → length marks ≡ block_limit (version_of bytes.now) →
        packed (take first_limit marks) ≡ slice_range (take VERSION_ONE_SIZE (bytes_of bytes.now)) MARKS_AT RELEASES_AT →
        packed (drop first_limit marks) ≡ drop VERSION_ONE_SIZE (bytes_of bytes.now) → result ≡ marks }
    ensures size { length result ≡ block_limit (version_of bytes.now) }
{
    fw_axdr::laws::bits_packed();
    Pages::from_bytes(&mark_bytes(bytes)).resized(bytes.version().block_limit())
}

/// The bytes of the marks, and zeros after them.
fn mark_bytes(bytes: &HeaderBytes) -> [u8; MARKS_SIZE]
    ensures { take (FIRST_MARKS_SIZE + length (drop VERSION_ONE_SIZE (bytes_of bytes.now))) result
        ≡ slice_range (take VERSION_ONE_SIZE (bytes_of bytes.now)) MARKS_AT RELEASES_AT
        ++ drop VERSION_ONE_SIZE (bytes_of bytes.now) }
{
    let mut marks = [0; MARKS_SIZE];
    let at = put(&mut marks, 0, &bytes.front()[MARKS_AT..RELEASES_AT]);
    put(&mut marks, at, bytes.rest());
    marks
}

/// The name that the bytes and a release are read as.
fn read_name(bytes: &[u8], release: u32) -> Option<ImageName>
    ensures { (name : Name) → IsName name → stored_name_bytes name ≡ bytes.now →
        name.release ≡ release → result ≡ Some name }
{
    ImageName::from_bytes(bytes)?.with_release(release)
}

/// The goal that the bytes and a release are read as.
fn read_goal(bytes: &[u8], release: u32) -> Option<Goal>
    requires { length bytes.now ≡ GOAL_SIZE }
    ensures { (goal : Goal) → GoalFieldsFit goal → goal_bytes (Some goal) ≡ bytes.now →
        goal.name.release ≡ release → result ≡ Some goal }
{
    let (size, name) = bytes.split_at(4);
    Some(Goal {
        name: read_name(name, release)?,
        size: number_at(size),
    })
}

/// The number in four bytes.
fn number_at(bytes: &[u8]) -> u32
    requires { length bytes.now ≡ 4 }
    ensures { result ≡ from_be_bytes w32 bytes.now }
{
    u32::from_be_bytes([bytes[0], bytes[1], bytes[2], bytes[3]])
}

/// The slot that a byte is read as.
fn slot_at(byte: u8) -> Slot
    ensures { (slot : Slot) → slot_number slot ≡ byte → result ≡ slot }
{
    if byte == 0 { Slot::First } else { Slot::Second }
}
