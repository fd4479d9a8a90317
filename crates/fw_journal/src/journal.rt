//! A journal: records after gates. A block is a gate, and after it a length, a record and its digest; it counts if its gate is open (1). A
//! shut gate (0) stands after the last block, and is synced before anything is written after it.

ghost use Rattle.std.specs.Prelude.{
  ◌≡◌,
  ◌≢◌,
  ◌⊎◌,
  ◌≤◌,
  ◌<◌,
  ◌^◌,
  ◌+◌,
  ◌++◌,
  [],
  ◌∷◌,
  List,
  ℕ,
  length,
  drop,
  IsTrue,
  false,
  IfOk,
  IfErr,
  OnOk,
  OnErr,
  IsOk,
  IsErrOf,
};
ghost use Rattle.fw_journal.specs.Device.{IsSynced, LeavesOnly, Keeps};
ghost use Rattle.fw_journal.specs.Book.{blocks, book_front, book_bytes, contents_of, AreRecords, Stands, IsBadBook, HasBlocks, Drops};
ghost use Rattle.fw_journal.specs.Group.{Takes, EndsAt};
ghost use Rattle.fw_journal.specs.Keeping.{KeepsFirst};
ghost use Rattle.fw_journal.specs.Making.{LeavesMaking};
ghost use Rattle.fw_journal.specs.Refusals.{IsMakingRefusal, IsOpeningRefusal, IsCommitRefusal};

use crate::device::JournalDevice;
use crate::error::{DeviceError, JournalError, ReplaceError, RewriteError};
use crate::keeping::Keeper;
use crate::reading::{count_blocks, read_book};
use crate::replacing::Replacer;
use crate::steps::{read_synced, shorten_synced, write_synced};
use sha2::{Digest, Sha256};
use std::alloc::Global;

/// A journal, and what waits in it, is never made longer from this size on.
const MAX_SIZE: u64 = 1 << 60;

const MAX_RECORD: usize = 1 << 32;

/// An open journal: records of 0 to 4,294,967,295 bytes on a device. A record that is appended waits in memory; a commit puts all that
/// waits on the device, in one group.
pub struct Journal<D: JournalDevice> {
    device: D,
    /// Where the shut gate stands.
    end: u64,
    /// The blocks that wait for the next commit.
    waiting: Vec<u8>,
    /// A commit has failed.
    broken: bool,
}

// Written out, so that letting go of it is one call in a proof. A derived `Drop` is unfolded there field by field, which takes minutes.
impl<D: JournalDevice + Drop> Drop for Journal<D> {
    fn drop(self) {
        let Journal {
            device: _,
            end: _,
            waiting: _,
            broken: _,
        } = self;
    }
}

impl<D: JournalDevice> Journal<D> {
    ghost use Rattle.fw_journal.specs.Journal.{device_of, end_of, waiting_of, is_broken, Has, MayCommit};

    /// Makes a journal without records on a device without bytes, and syncs it. A power cut in the call leaves up to five bytes of any value,
    /// so that a file is made beside, and renamed then.
    ///
    /// # Errors
    ///
    /// `NotEmpty` if there are bytes, which are left as they are and reported before memory is taken; else `BookFault` and
    /// `OutOfMemory`. The device is returned.
    pub fn create(alloc: Global, device: D) -> Result<Self, (JournalError, D)>
        ensures made { IsTrue (D.honest device) → IfOk result (λ journal. Has D.honest D.contents D.may_leave journal [] []) }
        ensures empty { IsTrue (D.honest device) → OnOk result (D.contents device ≡ []) }
        ensures not_empty { IsTrue (D.honest device) → IfErr result (λ e. e.0 ≡ JournalError.NotEmpty
            → (D.contents device ≢ []) × (D.contents e.1 ≡ D.contents device)) }
        ensures memory { IsTrue (D.honest device) → IfErr result (λ e. e.0 ≡ JournalError.OutOfMemory → D.contents device ≡ []) }

        // A cut at any moment of the call leaves what one before it might have left, with any bytes for its first five.
        ensures any_moment { IsTrue (D.honest device) → IfOk result (λ journal. LeavesMaking D.JournalDevice device (device_of journal)) }
        ensures any_moment_err { IsTrue (D.honest device) → IfErr result (λ e. LeavesMaking D.JournalDevice device e.1) }
        ensures never { IsTrue (D.sound device) → IfErr result (λ e. e.0 ≢ JournalError.BookFault) }
        ensures refusals { IfErr result (λ e. IsMakingRefusal e.0) }
        ensures kept { IfOk result (λ journal. Keeps D.honest D.sound device (device_of journal)) }
    {
        let mut device = device;
        match lay_out(&mut device) {
            Ok(end) => Ok(Journal {
                device,
                end,
                waiting: Vec::new(alloc),
                broken: false,
            }),
            Err(e) => Err((e, device)),
        }
    }

    /// Opens a journal that a power cut, or a process that was killed, may have left. It syncs first, and gives all records that the device
    /// holds, in their order. What stands from a shut gate on is cut off. Where a whole record stands there, the keeper has it first. A
    /// journal as a commit left it isn't written to.
    ///
    /// # Errors
    ///
    /// `BadBook` if the bytes aren't a journal's: with the offset of the open gate after which no whole record stands, or with 0 if
    /// they don't begin as one. Nothing is written then. Else `BookFault` and `OutOfMemory`, of the device or of the keeper, which may come
    /// in place of `BadBook`, since the bytes and the records before that offset are read first. If the keeper refused, nothing was
    /// written. The device is returned.
    pub fn open<K: Keeper>(
        alloc: Global,
        device: D,
        keeper: &mut K,
    ) -> Result<(Self, Vec<Vec<u8>>), (JournalError, D)>
        ensures records { IsTrue (D.honest device) → IfOk result (λ r. Stands (D.contents device) (contents_of r.1.items)) }
        ensures opened { IsTrue (D.honest device)
            → IfOk result (λ r. Has D.honest D.contents D.may_leave r.0 (contents_of r.1.items) []) }
        ensures bad { IsTrue (D.honest device) → IfErr result (λ e. (offset : ℕ) → e.0 ≡ JournalError.BadBook offset
            → IsBadBook (D.contents device) offset × (D.contents e.1 ≡ D.contents device)) }

        // A cut at any moment of the call leaves what one before it might have left, or a journal of the same records.
        ensures any_moment { IsTrue (D.honest device) → IfOk result (λ r. LeavesOnly D.moment D.left_since device (device_of r.0)
            (λ left. D.may_leave device left ⊎ ((records : List (List ℕ)) → Stands (D.contents device) records → Stands left records))) }
        ensures any_moment_err { IsTrue (D.honest device) → IfErr result (λ e. LeavesOnly D.moment D.left_since device e.1
            (λ left. D.may_leave device left ⊎ ((records : List (List ℕ)) → Stands (D.contents device) records → Stands left records))) }

        // What reads as records is cut off only once the keeper holds it.
        ensures dropped { IsTrue (D.honest device) → (rest : List ℕ) (count : ℕ) → Drops (D.contents device) rest count → 1 ≤ count
            → OnOk result (K.holds keeper.new rest) }
        ensures kept_first { IsTrue (D.honest device)
            → IfOk result (λ r. KeepsFirst D.JournalDevice K.Keeper device (device_of r.0) keeper.old keeper.new) }
        ensures kept_first_err { IsTrue (D.honest device)
            → IfErr result (λ e. KeepsFirst D.JournalDevice K.Keeper device e.1 keeper.old keeper.new) }
        ensures never { IsTrue (D.honest device) → IsTrue (D.sound device) → IsTrue (K.sound keeper.old)
            → IfErr result (λ e. e.0 ≢ JournalError.BookFault) }
        ensures refusals { IfErr result (λ e. IsOpeningRefusal e.0) }
        ensures kept { IfOk result (λ r. Keeps D.honest D.sound device (device_of r.0)) }
    {
        let mut device = device;
        match recover(alloc, &mut device, keeper) {
            Ok((records, end)) => Ok((
                Journal {
                    device,
                    end,
                    waiting: Vec::new(alloc),
                    broken: false,
                },
                records,
            )),
            Err(e) => Err((e, device)),
        }
    }

    /// The device.
    pub fn device(&self) -> &D
        ensures { result.now ≡ device_of self.now }
    {
        &self.device
    }

    /// The device, without what waits.
    pub fn into_device(self) -> D
        ensures { result ≡ device_of self }
    {
        let Journal {
            device,
            end: _,
            waiting: _,
            broken: _,
        } = self;
        device
    }

    /// Whether a commit has failed, so that nothing more is committed.
    pub fn is_broken(&self) -> bool
        ensures { result ≡ is_broken self.now }
    {
        self.broken
    }

    /// How many bytes the journal has on the device, up to its shut gate.
    pub fn size(&self) -> u64
        ensures { result ≡ end_of self.now }
    {
        self.end
    }

    /// Adds a record to those that wait for the next commit. The device isn't touched.
    ///
    /// # Errors
    ///
    /// `TooLong` if it has 4,294,967,296 bytes or more, which is reported before memory is taken; else `OutOfMemory`. The journal is
    /// then as before.
    pub fn append(&mut self, alloc: Global, entry: &[u8]) -> Result<(), JournalError>
        ensures waits { (done waiting : List (List ℕ)) → Has D.honest D.contents D.may_leave self.old done waiting
            → OnOk result (Has D.honest D.contents D.may_leave self.new done (waiting ++ entry.now ∷ [])) }
        ensures unchanged { (done waiting : List (List ℕ)) → Has D.honest D.contents D.may_leave self.old done waiting
            → OnErr result (Has D.honest D.contents D.may_leave self.new done waiting) }
        ensures device { device_of self.new ≡ device_of self.old }
        ensures works { is_broken self.new ≡ is_broken self.old }
        ensures end { end_of self.new ≡ end_of self.old }
        ensures added { OnOk result (waiting_of self.new ≡ waiting_of self.old ++ blocks (entry.now ∷ [])) }
        ensures too_long { IsErrOf result JournalError.TooLong → 2 ^ 32 ≤ length entry.now }
        ensures fits { OnOk result (length entry.now < 2 ^ 32) }
        ensures memory { IsErrOf result JournalError.OutOfMemory → length entry.now < 2 ^ 32 }
        ensures refusals { IfErr result (λ e. (e ≡ JournalError.TooLong) ⊎ (e ≡ JournalError.OutOfMemory)) }
    {
        if entry.len() >= MAX_RECORD {
            return Err(JournalError::TooLong);
        }
        let block = block_of(alloc, entry)?;
        self.waiting.extend_from_slice(&block)?;
        Ok(())
    }

    /// Puts all that waits on the device, in one group, with two syncs. From `Ok` on every power cut leaves it; a cut in the call leaves all
    /// of it or nothing. If nothing waits there is no call of the device, and no memory is taken.
    ///
    /// # Errors
    ///
    /// `Full` if the journal or what waits has 2^60 bytes or more, else `OutOfMemory`: the journal is as before, or it is broken as with
    /// `BookFault`, if the device failed. Of a broken journal nothing more is reported: each later commit is `BookFault`, and what is
    /// read in the file before the machine has started again may be lost with a power cut.
    pub fn commit(&mut self) -> Result<(), JournalError>
        ensures acknowledged { (done waiting : List (List ℕ)) → Has D.honest D.contents D.may_leave self.old done waiting
            → OnOk result (Has D.honest D.contents D.may_leave self.new (done ++ waiting) []) }
        ensures each_cut { (done waiting : List (List ℕ)) → Has D.honest D.contents D.may_leave self.old done waiting
            → OnOk result ((left : List ℕ) → D.may_leave (device_of self.new) left → Stands left (done ++ waiting)) }
        ensures unchanged { (done waiting : List (List ℕ)) → Has D.honest D.contents D.may_leave self.old done waiting
            → OnErr result (Has D.honest D.contents D.may_leave self.new done waiting ⊎ IsTrue (is_broken self.new)) }

        // A cut at any moment of the call leaves the records from before it, with all that waited or with none of it.
        ensures any_moment { (done waiting : List (List ℕ)) → Has D.honest D.contents D.may_leave self.old done waiting
            → LeavesOnly D.moment D.left_since (device_of self.old) (device_of self.new)
            (λ left. Stands left done ⊎ Stands left (done ++ waiting)) }

        // What failed once stays failed.
        ensures breaks { IsErrOf result JournalError.BookFault → IsTrue (is_broken self.new) }
        ensures broken { IsTrue (is_broken self.old) → IsErrOf result JournalError.BookFault × (self.new ≡ self.old) }

        // A sound device gives no `BookFault`, unless the journal was broken before.
        ensures never { IsTrue (D.sound (device_of self.old)) → IsErrOf result JournalError.BookFault → IsTrue (is_broken self.old) }
        ensures full { IsErrOf result JournalError.Full → 2 ^ 60 ≤ end_of self.old ⊎ 2 ^ 60 ≤ length (waiting_of self.old) }

        // A commit of nothing takes no memory, and what is refused is reported before memory is taken.
        ensures nothing { is_broken self.old ≡ false → waiting_of self.old ≡ [] → IsOk result × (self.new ≡ self.old) }
        ensures memory { IsErrOf result JournalError.OutOfMemory → MayCommit self.old }
        ensures refusals { IfErr result IsCommitRefusal }
        ensures kept { Keeps D.honest D.sound (device_of self.old) (device_of self.new) }
    {
        if self.broken {
            return Err(JournalError::BookFault);
        }
        if self.waiting.is_empty() {
            return Ok(());
        }
        if self.end >= MAX_SIZE || self.waiting.len() as u64 >= MAX_SIZE {
            return Err(JournalError::Full);
        }
        self.waiting.push(0)?;
        self.broken = true;
        write_group(&mut self.device, self.end, &self.waiting)?;
        self.end += self.waiting.len() as u64 - 1;
        self.waiting.clear();
        self.broken = false;
        Ok(())
    }

    /// Puts this record on the device after all that waits, in one group. From `Ok` on every power cut leaves it and them; a cut in the call
    /// leaves all of it or nothing.
    ///
    /// # Errors
    ///
    /// `BookFault` if the journal is broken; else `TooLong`, as `append`, and then those of `commit`. The record doesn't wait then: the
    /// journal is as before, or broken.
    pub fn commit_with(&mut self, alloc: Global, entry: &[u8]) -> Result<(), JournalError>
        ensures acknowledged { (done waiting : List (List ℕ)) → Has D.honest D.contents D.may_leave self.old done waiting
            → OnOk result (Has D.honest D.contents D.may_leave self.new (done ++ (waiting ++ entry.now ∷ [])) []) }
        ensures unchanged { (done waiting : List (List ℕ)) → Has D.honest D.contents D.may_leave self.old done waiting
            → OnErr result (Has D.honest D.contents D.may_leave self.new done waiting ⊎ IsTrue (is_broken self.new)) }

        // A cut at any moment of the call leaves the records from before it, with all that waited and this one, or with none of it.
        ensures any_moment { (done waiting : List (List ℕ)) → Has D.honest D.contents D.may_leave self.old done waiting
            → LeavesOnly D.moment D.left_since (device_of self.old) (device_of self.new)
            (λ left. Stands left done ⊎ Stands left (done ++ (waiting ++ entry.now ∷ []))) }

        // What failed once stays failed.
        ensures breaks { IsErrOf result JournalError.BookFault → IsTrue (is_broken self.new) }
        ensures broken { IsTrue (is_broken self.old) → IsErrOf result JournalError.BookFault × (self.new ≡ self.old) }

        // A sound device gives no `BookFault`, unless the journal was broken before.
        ensures never { IsTrue (D.sound (device_of self.old)) → IsErrOf result JournalError.BookFault → IsTrue (is_broken self.old) }
        ensures too_long { IsErrOf result JournalError.TooLong → 2 ^ 32 ≤ length entry.now }
        ensures full { IsErrOf result JournalError.Full
            → 2 ^ 60 ≤ end_of self.old ⊎ 2 ^ 60 ≤ length (waiting_of self.old) + (length entry.now + 37) }
        ensures refusals { IfErr result (λ e. IsCommitRefusal e ⊎ (e ≡ JournalError.TooLong)) }
        ensures kept { Keeps D.honest D.sound (device_of self.old) (device_of self.new) }
    {
        if self.broken {
            return Err(JournalError::BookFault);
        }
        let size = self.waiting.len();
        self.append(alloc, entry)?;
        if let Err(refusal) = self.commit() {
            self.take_back(size);
            return Err(refusal);
        }
        Ok(())
    }

    /// Puts these two records on the device after all that waits, in one group, as `commit_with` puts one.
    ///
    /// # Errors
    ///
    /// Those of `commit_with`, of either record. Neither of them waits then: the journal is as before, or broken.
    pub fn commit_both(
        &mut self,
        alloc: Global,
        first: &[u8],
        second: &[u8],
    ) -> Result<(), JournalError>
        ensures acknowledged { (done waiting : List (List ℕ)) → Has D.honest D.contents D.may_leave self.old done waiting
            → OnOk result (Has D.honest D.contents D.may_leave self.new (done ++ ((waiting ++ first.now ∷ []) ++ second.now ∷ [])) []) }
        ensures unchanged { (done waiting : List (List ℕ)) → Has D.honest D.contents D.may_leave self.old done waiting
            → OnErr result (Has D.honest D.contents D.may_leave self.new done waiting ⊎ IsTrue (is_broken self.new)) }

        // A cut at any moment of the call leaves the records from before it, with all that waited and these two, or with none of it.
        ensures any_moment { (done waiting : List (List ℕ)) → Has D.honest D.contents D.may_leave self.old done waiting
            → LeavesOnly D.moment D.left_since (device_of self.old) (device_of self.new)
            (λ left. Stands left done ⊎ Stands left (done ++ ((waiting ++ first.now ∷ []) ++ second.now ∷ []))) }

        // What failed once stays failed.
        ensures breaks { IsErrOf result JournalError.BookFault → IsTrue (is_broken self.new) }
        ensures broken { IsTrue (is_broken self.old) → IsErrOf result JournalError.BookFault × (self.new ≡ self.old) }

        // A sound device gives no `BookFault`, unless the journal was broken before.
        ensures never { IsTrue (D.sound (device_of self.old)) → IsErrOf result JournalError.BookFault → IsTrue (is_broken self.old) }
        ensures too_long { IsErrOf result JournalError.TooLong → 2 ^ 32 ≤ length first.now ⊎ 2 ^ 32 ≤ length second.now }
        ensures full { IsErrOf result JournalError.Full → 2 ^ 60 ≤ end_of self.old
            ⊎ 2 ^ 60 ≤ length (waiting_of self.old) + ((length first.now + 37) + (length second.now + 37)) }
        ensures refusals { IfErr result (λ e. IsCommitRefusal e ⊎ (e ≡ JournalError.TooLong)) }
        ensures kept { Keeps D.honest D.sound (device_of self.old) (device_of self.new) }
    {
        if self.broken {
            return Err(JournalError::BookFault);
        }
        let before = self.waiting.len();
        self.append(alloc, first)?;
        if let Err(refusal) = self.commit_with(alloc, second) {
            self.take_back(before);
            return Err(refusal);
        }
        Ok(())
    }

    /// Puts other records in the place of all that the device has and of all that wait: the bytes of the journal are made anew beside the
    /// old ones. From `Ok` on every power cut leaves these records alone; a cut in the call leaves those from before it or these.
    ///
    /// # Errors
    ///
    /// `BookFault` if the journal is broken; else `NotReplaced`, if the new bytes couldn't be made beside the old ones, or
    /// `OutOfMemory`: the journal is as before, and what waited waits. Or it is broken, as after a commit: with `BookFault`, if the
    /// device failed, and with `OutOfMemory`, if the device is one in memory and refused in the middle.
    pub fn rewrite<R: Replacer<D>>(
        &mut self,
        alloc: Global,
        replacer: &mut R,
        records: &[Vec<u8>],
    ) -> Result<(), RewriteError>
        requires fit { AreRecords (contents_of records.now) }
        ensures acknowledged { IsTrue (D.honest (device_of self.old))
            → OnOk result (Has D.honest D.contents D.may_leave self.new (contents_of records.now) []) }
        ensures each_cut { IsTrue (D.honest (device_of self.old))
            → OnOk result ((left : List ℕ) → D.may_leave (device_of self.new) left → Stands left (contents_of records.now)) }
        ensures anew { OnOk result (R.made replacer.new (device_of self.new)) }
        ensures unchanged { (done waiting : List (List ℕ)) → Has D.honest D.contents D.may_leave self.old done waiting
            → OnErr result (Has D.honest D.contents D.may_leave self.new done waiting ⊎ IsTrue (is_broken self.new)) }

        // A cut at any moment of the call leaves the records from before it, without what waited, or these.
        ensures any_moment { (done waiting : List (List ℕ)) → Has D.honest D.contents D.may_leave self.old done waiting
            → LeavesOnly D.moment D.left_since (device_of self.old) (device_of self.new)
            (λ left. Stands left done ⊎ Stands left (contents_of records.now)) }
        ensures breaks { IsErrOf result RewriteError.BookFault → IsTrue (is_broken self.new) }
        ensures broken { IsTrue (is_broken self.old) → IsErrOf result RewriteError.BookFault × (self.new ≡ self.old) }
        ensures goes_on { IsErrOf result RewriteError.NotReplaced → is_broken self.new ≡ false }

        // A sound device gives no `BookFault`, unless the journal was broken before, and no `NotReplaced`.
        ensures never { IsTrue (D.sound (device_of self.old)) → IsErrOf result RewriteError.BookFault → IsTrue (is_broken self.old) }
        ensures replaced { IsTrue (D.sound (device_of self.old)) → ¬ IsErrOf result RewriteError.NotReplaced }
        ensures kept { Keeps D.honest D.sound (device_of self.old) (device_of self.new) }
    {
        if self.broken {
            return Err(RewriteError::BookFault);
        }
        let Ok(bytes) = bytes_of(alloc, records) else {
            return Err(RewriteError::OutOfMemory);
        };
        if let Err(refusal) = replacer.replace(&mut self.device, &bytes) {
            self.broken = refusal != ReplaceError::NotReplaced;
            return Err(RewriteError::from(refusal));
        }
        self.end = bytes.len() as u64 - 1;
        self.waiting.clear();
        Ok(())
    }

    /// Takes back what was added after the first `size` bytes that wait.
    fn take_back(&mut self, size: usize)
        ensures back { (done waiting added : List (List ℕ)) → Has D.honest D.contents D.may_leave self.old done (waiting ++ added)
            → size ≡ length (blocks waiting) → Has D.honest D.contents D.may_leave self.new done waiting }
        ensures broken { is_broken self.new ≡ is_broken self.old }
        ensures device { device_of self.new ≡ device_of self.old }
    {
        self.waiting.truncate(size);
    }
}

/// What each journal begins with.
pub(crate) const MARK: [u8; 4] = [0x46, 0x57, 0x4A, 0x31];

/// The bytes of a new journal.
pub(crate) const NEW_BOOK: [u8; 5] = [0x46, 0x57, 0x4A, 0x31, 0];

/// Makes a journal without records on a device without bytes, and says where its gate stands.
fn lay_out<D: JournalDevice>(device: &mut D) -> Result<u64, JournalError>
    ensures bytes { IsTrue (D.honest device.old) → OnOk result (D.contents device.new ≡ book_bytes []) }
    ensures end { IfOk result (λ end. end ≡ length (book_front [])) }
    ensures synced { IsTrue (D.honest device.old) → OnOk result (IsSynced D.contents D.may_leave device.new) }
    ensures empty { IsTrue (D.honest device.old) → OnOk result (D.contents device.old ≡ []) }
    ensures not_empty { IsTrue (D.honest device.old) → IsErrOf result JournalError.NotEmpty
        → (D.contents device.old ≢ []) × (D.contents device.new ≡ D.contents device.old) }
    ensures memory { IsTrue (D.honest device.old) → IsErrOf result JournalError.OutOfMemory → D.contents device.old ≡ [] }
    ensures any_moment { IsTrue (D.honest device.old) → LeavesMaking D.JournalDevice device.old device.new }
    ensures never { IsTrue (D.sound device.old) → ¬ IsErrOf result JournalError.BookFault }
    ensures refusals { IfErr result IsMakingRefusal }
    ensures kept { Keeps D.honest D.sound device.old device.new }
{
    if device.len()? > 0 {
        return Err(JournalError::NotEmpty);
    }
    write_synced(device, 0, &NEW_BOOK)?;
    Ok(4)
}

/// A record after an open gate.
fn block_of(alloc: Global, entry: &[u8]) -> Result<Vec<u8>, JournalError>
    requires { length entry.now < 2 ^ 32 }
    ensures block { IfOk result (λ block. block.items ≡ blocks (entry.now ∷ [])) }
    ensures memory { IfErr result (λ e. e ≡ JournalError.OutOfMemory) }
{
    let mut block = Vec::new(alloc);
    block.push(1)?;
    block.extend_from_slice(&(entry.len() as u32).to_be_bytes())?;
    block.extend_from_slice(entry)?;
    block.extend_from_slice(&Sha256::digest(entry))?;
    Ok(block)
}

/// The bytes of a journal of these records, between two calls.
fn bytes_of(alloc: Global, records: &[Vec<u8>]) -> Result<Vec<u8>, JournalError>
    requires { AreRecords (contents_of records.now) }
    ensures { IfOk result (λ bytes. bytes.items ≡ book_bytes (contents_of records.now)) }
{
    let mut bytes = MARK.to_vec(alloc)?;
    let mut rest = records;
    while let Some((record, others)) = rest.split_first() {
        let block = block_of(alloc, record.as_slice())?;
        bytes.extend_from_slice(&block)?;
        rest = others;
    }
    bytes.push(0)?;
    Ok(bytes)
}

/// Puts a group after the shut gate at `end`: all of it except its first byte, and a shut gate after it. Once that is synced the gate
/// before it is opened.
fn write_group<D: JournalDevice>(device: &mut D, end: u64, group: &[u8]) -> Result<(), DeviceError>
    requires within { end < 2 ^ 60 }
    requires some { 1 ≤ length group.now }
    ensures done { (done waiting : List (List ℕ)) → Takes D.honest D.contents D.may_leave device.old end group.now done waiting
        → OnOk result (D.contents device.new ≡ book_bytes (done ++ waiting)) }
    ensures synced { IsTrue (D.honest device.old) → OnOk result (IsSynced D.contents D.may_leave device.new) }
    ensures any_moment { (done waiting : List (List ℕ)) → Takes D.honest D.contents D.may_leave device.old end group.now done waiting
        → LeavesOnly D.moment D.left_since device.old device.new (λ left. Stands left done ⊎ Stands left (done ++ waiting)) }
    ensures kept { Keeps D.honest D.sound device.old device.new }
    ensures never { IsTrue (D.sound device.old) → ¬ IsErrOf result DeviceError.Fault }
{
    write_synced(device, end + 1, &group[1..])?;
    write_synced(device, end, &[1])
}

/// Reads the records of a journal, and makes its end a shut gate where it isn't one. What a killed process wrote and didn't sync is read,
/// though a power cut needn't leave it: so it is synced first. What reads as records behind the shut gate is kept first. Bytes that aren't
/// a journal's are not written to.
fn recover<D: JournalDevice, K: Keeper>(
    alloc: Global,
    device: &mut D,
    keeper: &mut K,
) -> Result<(Vec<Vec<u8>>, u64), JournalError>
    ensures records { IsTrue (D.honest device.old) → IfOk result (λ r. Stands (D.contents device.old) (contents_of r.0.items)) }
    ensures bytes { IsTrue (D.honest device.old) → IfOk result (λ r. D.contents device.new ≡ book_bytes (contents_of r.0.items)) }
    ensures end { IfOk result (λ r. r.1 ≡ length (book_front (contents_of r.0.items))) }
    ensures synced { IsTrue (D.honest device.old) → OnOk result (IsSynced D.contents D.may_leave device.new) }
    ensures bad { IsTrue (D.honest device.old) → (offset : ℕ) → IsErrOf result (JournalError.BadBook offset)
        → IsBadBook (D.contents device.old) offset × (D.contents device.new ≡ D.contents device.old) }

    // A cut at any moment leaves what one before the call might have left, or the same records.
    ensures any_moment { IsTrue (D.honest device.old) → LeavesOnly D.moment D.left_since device.old device.new
        (λ left. D.may_leave device.old left ⊎ ((records : List (List ℕ)) → Stands (D.contents device.old) records → Stands left records)) }
    ensures dropped { IsTrue (D.honest device.old) → (rest : List ℕ) (count : ℕ) → Drops (D.contents device.old) rest count → 1 ≤ count
        → OnOk result (K.holds keeper.new rest) }
    ensures kept_first { IsTrue (D.honest device.old)
        → KeepsFirst D.JournalDevice K.Keeper device.old device.new keeper.old keeper.new }
    ensures never { IsTrue (D.honest device.old) → IsTrue (D.sound device.old) → IsTrue (K.sound keeper.old)
        → ¬ IsErrOf result JournalError.BookFault }
    ensures refusals { IfErr result IsOpeningRefusal }
    ensures kept { Keeps D.honest D.sound device.old device.new }
{
    let bytes = read_synced(alloc, device)?;
    let bytes = bytes.as_slice();
    let (records, end) = read_book(alloc, bytes)?;
    if is_whole(bytes, end) {
        return Ok((records, end));
    }
    keep_rest(keeper, bytes, end)?;
    shut(device, end)?;
    Ok((records, end))
}

/// Has what stands behind the records of a journal kept, where a whole record is among it.
fn keep_rest<K: Keeper>(keeper: &mut K, bytes: &[u8], end: u64) -> Result<(), DeviceError>
    requires { end ≤ length bytes.now }
    ensures held { (count : ℕ) → HasBlocks count (drop end bytes.now) → 1 ≤ count → OnOk result (K.holds keeper.new (drop end bytes.now)) }
    ensures idle { HasBlocks 0 (drop end bytes.now) → IsOk result × (keeper.new ≡ keeper.old) }
    ensures never { IsTrue (K.sound keeper.old) → ¬ IsErrOf result DeviceError.Fault }
{
    let (_, rest) = bytes.split_at(end as usize);
    let count = count_blocks(rest);
    if count == 0 {
        return Ok(());
    }
    keeper.keep(count, rest)
}

/// Whether a journal whose records end there is as it is between two calls: one shut gate follows, and nothing after it.
fn is_whole(bytes: &[u8], end: u64) -> bool
    requires { end ≤ length bytes.now }
    ensures { IsTrue result → drop end bytes.now ≡ 0 ∷ [] }
{
    let (_, behind) = bytes.split_at(end as usize);
    matches!(behind, [0])
}

/// Cuts off what stands from the end of the records on, and writes a shut gate there.
fn shut<D: JournalDevice>(device: &mut D, end: u64) -> Result<(), DeviceError>
    ensures done { (records : List (List ℕ)) → EndsAt D.honest D.contents D.may_leave device.old end records
        → OnOk result (D.contents device.new ≡ book_bytes records) }
    ensures synced { IsTrue (D.honest device.old) → OnOk result (IsSynced D.contents D.may_leave device.new) }
    ensures any_moment { (records : List (List ℕ)) → EndsAt D.honest D.contents D.may_leave device.old end records
        → LeavesOnly D.moment D.left_since device.old device.new (λ left. Stands left records) }
    ensures kept { Keeps D.honest D.sound device.old device.new }
    ensures never { IsTrue (D.sound device.old) → ¬ IsErrOf result DeviceError.Fault }
{
    // The cut has to be synced first: what was there after a gate that a power cut opens would count.
    shorten_synced(device, end)?;
    write_synced(device, end, &[0])
}
