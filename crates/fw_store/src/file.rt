//! Stores in files of the operating system.

ghost use Rattle.std.specs.Prelude.{
  ◌≡◌,
  ◌≤◌,
  ℕ,
  IsTrue,
  length,
  IfOk,
  IfErr,
  IfSome,
  OnOk,
  IsErrOf,
};
ghost use Rattle.fw_disk.specs.Disk.{absent, Goes};
ghost use Rattle.fw_disk.specs.Calls.{Stays};
ghost use Rattle.fw_disk.specs.Ours.{MayTake};
ghost use Rattle.fw_store.specs.Beside.{IsBegunStore, IsUndoFile};
ghost use Rattle.fw_store.specs.Making.{IsInTheWay};
ghost use Rattle.fw_store.specs.Refusals.{IsCreateRefusal, IsReopenRefusal};
ghost use Rattle.fw_store.specs.Setup.{IsCapacity, IsSetup};

use crate::beside::{UndoFile, begin_store, check_absent};
use crate::device::{ByteDevice, DeviceFault};
use crate::device_store::{DeviceStore, is_store, number, write_behind};
use crate::error::{FileFault, FileStoreError};
use crate::open_files::{OpenFile, OpenFiles};
use crate::setup::{fresh_bytes, is_setup};
use crate::store::ImageStore;
use crate::tail::store_size;
use crate::version::{HeaderBytes, HeaderVersion};
use fw_cuts::{
    FilesFault, Part, Scratch, StoreFiles, recover, replace, settle, take_back, write_slot,
};
use fw_disk::{
    Because, Cause, Folder, Name, Reason, SystemFolder, abandon, begin, finish, open,
    open_companion,
};
use std::fs::File;
use std::path::AsPath;
use std::rt::Files;

/// The bytes of an open file, which no other store has open: it is under an exclusive lock. Before a header write they stand in a
/// journal beside it. Nothing is known of what a file holds or gives, so it is neither honest nor sound.
#[derive(Drop)]
pub struct FileDevice {
    files: OpenFiles,
    due: Due,
    scratch: Scratch,
}

/// What is to be done before the next header write.
#[derive(Clone, Copy)]
enum Due {
    Nothing,
    /// The opening couldn't write all of FILE again, so an earlier sync may have lost some of what is read.
    Settling,
    /// A header write failed, so FILE may have a part of it, or a sync may have lost some of its bytes.
    TakingBack,
}

/// A store in a file.
pub type FileStore = DeviceStore<FileDevice>;

impl FileDevice {
    /// Makes a store in a new file with this header, and the image in the first slot.
    fn make<R: Files<File = File>>(
        folder: &mut SystemFolder<'_, R>,
        capacity: u32,
        head: &HeaderBytes,
        image: &[u8],
    ) -> Result<FileDevice, FileFault>
        requires { length image.now ≤ capacity }
    {
        let mut device = FileDevice::begin(folder, capacity)?;
        match device.settle(folder, capacity, head, image) {
            Ok(()) => Ok(device),
            Err(fault) => {
                device.abandon(folder);
                Err(fault)
            }
        }
    }

    /// Begins a store under the name FILE.new if nothing is FILE, with room for all of it, and its journal, which is empty.
    fn begin<R: Files<File = File>>(
        folder: &mut SystemFolder<'_, R>,
        capacity: u32,
    ) -> Result<FileDevice, Reason> {
        let store = begin_store(folder, capacity)?;
        match begin(folder, Name::Journal, &UndoFile) {
            Ok(journal) => {
                let size = store_size(HeaderVersion::Two, capacity);
                Ok(FileDevice::of(OpenFile::of(store, size), OpenFile::of(journal, 0)))
            }
            Err(cause) => {
                abandon(folder, Name::New, &store);
                Err(cause.at(Name::Journal))
            }
        }
    }

    /// Writes a store that was begun, and gives it its name.
    fn settle<R: Files<File = File>>(
        &mut self,
        folder: &mut SystemFolder<'_, R>,
        capacity: u32,
        head: &HeaderBytes,
        image: &[u8],
    ) -> Result<(), FileFault>
        requires { length image.now ≤ capacity }
    {
        write_behind(self, capacity, head, image)?;
        match finish(folder, self.files.store()) {
            Ok(()) => Ok(()),
            Err(error) => Err(FileFault::from(error.cause().at(Name::Main))),
        }
    }

    /// Takes away what was made of a store, under whichever name it is.
    fn abandon<R: Files<File = File>>(&self, folder: &mut SystemFolder<'_, R>) {
        abandon(folder, Name::New, self.files.store());
        abandon(folder, Name::Main, self.files.store());
        abandon(folder, Name::Journal, self.files.journal());
    }

    /// Opens a file that is there, if it is a store. A store that has no journal gets an empty one. What a power cut left of a header
    /// write is put right by the journal, and what a failed sync may have lost is written again; if the disk takes no write now, that is due
    /// before the next header write. The names of both are where a power cut leaves them.
    fn open<R: Files<File = File>>(
        folder: &mut SystemFolder<'_, R>,
    ) -> Result<Option<FileDevice>, FileFault> {
        let store = opened_store(folder)?;
        let journal = opened_journal(folder)?;
        if !holds_store(&store)? {
            return Ok(None);
        }
        let journal = match journal {
            Some(journal) => journal,
            None => new_journal(folder)?,
        };
        let mut device = FileDevice::of(store, journal);
        recover(&mut device.files)?;
        if settle(&mut device.files).is_err() {
            device.due = Due::Settling;
        }
        Ok(Some(device))
    }

    /// The bytes of a file, with the journal beside it.
    fn of(store: OpenFile, journal: OpenFile) -> FileDevice {
        FileDevice {
            files: OpenFiles::of(store, journal),
            due: Due::Nothing,
            scratch: Scratch::new(),
        }
    }

    /// Takes back a header write that failed, if one did, and writes all of FILE again.
    fn mend(&mut self) -> Result<(), DeviceFault> {
        take_back(&mut self.files, &mut self.scratch)?;
        self.due = Due::Nothing;
        Ok(())
    }
}

/// Whether the bytes of FILE are a store, in whichever version, or what a cut header write left of one.
fn holds_store(store: &OpenFile) -> Result<bool, FilesFault> {
    let mut bytes = [0; 4];
    if store.size() < bytes.len() as u64 {
        return Ok(false);
    }
    store.read_at(0, &mut bytes)?;
    Ok(is_store(number(bytes), store.size()))
}

/// FILE, opened.
fn opened_store<R: Files<File = File>>(folder: &mut SystemFolder<'_, R>) -> Result<OpenFile, Reason>
    ensures { IfErr result (λ r. r.name ≡ Name.Main) }
{
    match open(folder) {
        Ok(file) => measured(folder, Name::Main, file),
        Err(cause) => Err(cause.at(Name::Main)),
    }
}

/// FILE.journal, opened, if it is there.
fn opened_journal<R: Files<File = File>>(
    folder: &mut SystemFolder<'_, R>,
) -> Result<Option<OpenFile>, Reason>
    ensures { IfErr result (λ r. r.name ≡ Name.Journal) }
{
    match open_companion(folder, Name::Journal, &UndoFile) {
        Ok(Some(file)) => Ok(Some(measured(folder, Name::Journal, file)?)),
        Ok(None) => Ok(None),
        Err(cause) => Err(cause.at(Name::Journal)),
    }
}

/// FILE.journal, made beside a store that has none.
fn new_journal<R: Files<File = File>>(folder: &mut SystemFolder<'_, R>) -> Result<OpenFile, Reason>
    ensures { IfErr result (λ r. r.name ≡ Name.Journal) }
{
    match synced_journal(folder) {
        Ok(file) => Ok(OpenFile::of(file, 0)),
        Err(cause) => Err(cause.at(Name::Journal)),
    }
}

/// An empty FILE.journal, whose name is where a power cut leaves it.
fn synced_journal<R: Files<File = File>>(folder: &mut SystemFolder<'_, R>) -> Result<File, Cause> {
    let file = begin(folder, Name::Journal, &UndoFile)?;
    folder.sync_folder()?;
    Ok(file)
}

/// A file that was opened under this name, with its length.
fn measured<R: Files<File = File>>(
    folder: &mut SystemFolder<'_, R>,
    name: Name,
    file: File,
) -> Result<OpenFile, Reason>
    ensures { IfErr result (λ r. r.name ≡ name) }
{
    match folder.len(&file) {
        Ok(size) => Ok(OpenFile::of(file, size)),
        Err(cause) => Err(cause.at(name)),
    }
}

impl DeviceStore<FileDevice> {
    /// A new store in a new file, with a header of version 2: the factory image is in its first slot, with zeros after it and in the
    /// other one. `capacity` is the size of a slot in bytes, 1 to 16,777,216, and `block_size` that of a block, 1 to 1,024. The image
    /// has 1 to `capacity` bytes. The store is made under another name, and renamed when it is whole on the disk.
    ///
    /// # Errors
    ///
    /// `BadSetup` if one of these doesn't hold, and no file is made. Otherwise `StoreFault` alone: a file is there already, or the file
    /// can't be made, locked or written, or a file of another program is FILE.new or FILE.journal. Each of these is left as it is, and
    /// nothing that was made is left.
    pub fn create<R: Files<File = File>, P: AsPath>(
        rt: &R,
        path: P,
        capacity: u32,
        block_size: u32,
        factory: &[u8],
    ) -> Result<FileStore, FileStoreError>
        ensures size { IfOk result (λ store. (⟦<DeviceStore<FileDevice> as ImageStore>⟧.known store).capacity ≡ capacity) }
        ensures faultless { IfOk result (λ store. (⟦<DeviceStore<FileDevice> as ImageStore>⟧.known store).faults ≡ 0) }
        ensures setup { OnOk result (IsSetup HeaderVersion.Two block_size capacity factory.now) }
        ensures bad_setup { IsErrOf result FileStoreError.BadSetup → ¬ IsSetup HeaderVersion.Two block_size capacity factory.now }
        ensures fault { IsErrOf result FileStoreError.StoreFault → IsSetup HeaderVersion.Two block_size capacity factory.now }
        ensures refusals { IfErr result IsCreateRefusal }
    {
        if !is_setup(HeaderVersion::Two, capacity, block_size, factory) {
            return Err(FileStoreError::BadSetup);
        }
        let Ok(mut folder) = SystemFolder::of(rt, path.path_text()) else {
            return Err(FileStoreError::StoreFault);
        };
        match FileStore::create_in(&mut folder, capacity, block_size, factory) {
            Ok(store) => Ok(store),
            Err(because) => Err(because.error),
        }
    }

    /// The same in the folder of the file, with the reason of a refusal.
    ///
    /// # Errors
    ///
    /// As above. A `StoreFault` has its reason, if that is known: `Exists` if a file is there already, `NotAlone` or `Foreign` if another
    /// program's is FILE.new or FILE.journal.
    pub fn create_in<R: Files<File = File>>(
        folder: &mut SystemFolder<'_, R>,
        capacity: u32,
        block_size: u32,
        factory: &[u8],
    ) -> Result<FileStore, Because<FileStoreError>>
        ensures size { IfOk result (λ store. (⟦<DeviceStore<FileDevice> as ImageStore>⟧.known store).capacity ≡ capacity) }
        ensures faultless { IfOk result (λ store. (⟦<DeviceStore<FileDevice> as ImageStore>⟧.known store).faults ≡ 0) }
        ensures setup { OnOk result (IsSetup HeaderVersion.Two block_size capacity factory.now) }
        ensures bad_setup { IfErr result (λ b. b.error ≡ FileStoreError.BadSetup
            → ¬ IsSetup HeaderVersion.Two block_size capacity factory.now) }
        ensures fault { IfErr result (λ b. b.error ≡ FileStoreError.StoreFault
            → IsSetup HeaderVersion.Two block_size capacity factory.now) }
        ensures refusals { IfErr result (λ b. IsCreateRefusal b.error) }
    {
        if !is_setup(HeaderVersion::Two, capacity, block_size, factory) {
            return Err(Because::from(FileStoreError::BadSetup));
        }
        let head = fresh_bytes(HeaderVersion::Two, block_size, factory);
        let device = FileDevice::make(folder, capacity, &head, factory)?;
        Ok(DeviceStore::laid_on(device, capacity))
    }

    /// Checks that a store can be made: nothing is FILE, and FILE.new and FILE.journal are what a making may take, or nothing. Nothing is
    /// changed.
    ///
    /// # Errors
    ///
    /// `StoreFault` with its reason, as that of a making.
    pub fn check_absent_in<F: Folder>(folder: &mut F) -> Result<(), Because<FileStoreError>>
        ensures absent { IsTrue (F.seen folder.old).honest → OnOk result ((F.seen folder.old).disk.entry Name.Main ≡ absent) }
        ensures store { IsTrue (F.seen folder.old).honest
            → OnOk result ((n : ℕ) × MayTake IsBegunStore (F.seen folder.old).disk Name.New n) }
        ensures journal { IsTrue (F.seen folder.old).honest
            → OnOk result ((n : ℕ) × MayTake IsUndoFile (F.seen folder.old).disk Name.Journal n) }
        ensures goes { Goes Stays (F.seen folder.old) (F.seen folder.new) }
        ensures refusals { IfErr result (λ b. b.error ≡ FileStoreError.StoreFault) }
        ensures reason { IsTrue (F.seen folder.old).honest
            → IfErr result (λ b. IfSome b.reason (IsInTheWay (F.seen folder.old).disk)) }
    {
        match check_absent(folder) {
            Ok(()) => Ok(()),
            Err(reason) => Err(Because::of(FileStoreError::StoreFault, reason)),
        }
    }

    /// The store in a file that is there, with a header of either version, or of version 1 without releases: they are 0. The next
    /// header write gives the file the length of the version that it writes. What a power cut left of a header write is first put right
    /// by the journal beside the file.
    ///
    /// # Errors
    ///
    /// `StoreFault` if the file can't be opened, read or put right, another store has it open, it is a link or has another name as well,
    /// FILE.journal is another program's file, or there is none and none can be made; and `BadFile` if its bytes don't begin with a
    /// capacity of 1 to 16,777,216, or aren't as many as those of a store of that capacity.
    pub fn reopen<R: Files<File = File>, P: AsPath>(
        rt: &R,
        path: P,
    ) -> Result<FileStore, FileStoreError>
        ensures size { IfOk result (λ store. IsCapacity (⟦<DeviceStore<FileDevice> as ImageStore>⟧.known store).capacity) }
        ensures faultless { IfOk result (λ store. (⟦<DeviceStore<FileDevice> as ImageStore>⟧.known store).faults ≡ 0) }
        ensures refusals { IfErr result IsReopenRefusal }
    {
        let Ok(mut folder) = SystemFolder::of(rt, path.path_text()) else {
            return Err(FileStoreError::StoreFault);
        };
        match FileStore::reopen_in(&mut folder) {
            Ok(store) => Ok(store),
            Err(because) => Err(because.error),
        }
    }

    /// The same in the folder of the file, with the reason of a refusal.
    ///
    /// # Errors
    ///
    /// As above. A `StoreFault` has its reason, if that is known: `Missing` if there is no file, `Locked` if another store has it open,
    /// `NotAlone` or `Foreign` if it, or FILE.journal, isn't this store's alone.
    pub fn reopen_in<R: Files<File = File>>(
        folder: &mut SystemFolder<'_, R>,
    ) -> Result<FileStore, Because<FileStoreError>>
        ensures size { IfOk result (λ store. IsCapacity (⟦<DeviceStore<FileDevice> as ImageStore>⟧.known store).capacity) }
        ensures faultless { IfOk result (λ store. (⟦<DeviceStore<FileDevice> as ImageStore>⟧.known store).faults ≡ 0) }
        ensures refusals { IfErr result (λ b. IsReopenRefusal b.error) }
    {
        let Some(device) = FileDevice::open(folder)? else {
            return Err(Because::from(FileStoreError::BadFile));
        };
        match DeviceStore::reopen_on(device) {
            Ok(store) => Ok(store),
            Err(error) => Err(Because::from(error)),
        }
    }
}

// Of a file nothing is known, so each clause of a device holds of these. What is kept of its length is known.
impl ByteDevice for FileDevice {
    ghost use Rattle.std.specs.Prelude.{false, []};

    ghost honest = { λ _. false };

    ghost sound = { λ _. false };

    ghost room = { λ _. 0 };

    ghost contents = { λ _. [] };

    fn len(&mut self) -> Result<u64, DeviceFault> {
        Ok(self.files.len(Part::Store)?)
    }

    fn set_len(&mut self, len: u64) -> Result<(), DeviceFault> {
        Ok(self.files.set_len(Part::Store, len)?)
    }

    fn read_at(&mut self, at: u64, out: &mut [u8]) -> Result<(), DeviceFault> {
        if let Due::TakingBack = self.due {
            self.mend()?;
        }
        Ok(self.files.read_at(Part::Store, at, out)?)
    }

    fn write_at(&mut self, at: u64, bytes: &[u8]) -> Result<(), DeviceFault> {
        Ok(write_slot(&mut self.files, at, bytes)?)
    }

    /// The disk has all that was written before these bytes when they are written, and has them when the call ends.
    fn replace_at(&mut self, at: u64, bytes: &[u8]) -> Result<(), DeviceFault> {
        self.files.sync(Part::Store)?;
        self.files.write_at(Part::Store, at, bytes)?;
        Ok(self.files.sync(Part::Store)?)
    }

    /// By the journal, as `fw_cuts` says: a cut at any moment leaves the bytes of before or these, whole. The disk has them when the call
    /// ends.
    fn replace_both(
        &mut self,
        at: u64,
        bytes: &[u8],
        last_at: u64,
        last: &[u8],
    ) -> Result<(), DeviceFault> {
        match self.due {
            Due::Nothing => (),
            Due::Settling | Due::TakingBack => self.mend()?,
        }
        let replaced = replace(&mut self.files, &mut self.scratch, at, bytes, last_at, last);
        if replaced.is_err() {
            self.due = Due::TakingBack;
        }
        Ok(replaced?)
    }
}
