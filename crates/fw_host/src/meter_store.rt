//! The store of the command `meter`: the one in a file that is there, or a new one, which is made once all is judged.

ghost use Rattle.std.specs.Prelude.{◌≡◌, ◌≢◌, None, IfOk, IfErr, IfNone, IfSome, OnSome};
ghost use Rattle.fw_store.specs.Refusals.{IsReopenRefusal};
ghost use Rattle.fw_store.specs.Setup.{IsSetup};
ghost use Rattle.fw_store.specs.declared.version.HeaderVersion.TheVariants.{Two};
ghost use Rattle.fw_image.specs.Meter.{restarted};
ghost use Rattle.fw_image.specs.Stored.{Opens, Refused};
ghost use Rattle.fw_image.specs.declared.error.OpenError.{OpenError};
ghost use Rattle.fw_host.specs.Errors.{store_error};
ghost use Rattle.fw_host.specs.Meters.{default_factory};

use crate::error::{NewStoreError, StoreFileError};
use crate::files::{folder_of, is_missing};
use fw_disk::{Because, Folder};
use fw_faults::{InputError, Reads, read_input};
use fw_meter::MeterCore;
use fw_store::{FileStore, FileStoreError, HeaderVersion, ImageStore, is_setup};
use std::alloc::Global;
use std::fs::File;
use std::rt::Files;

/// The image that a new meter runs if none is given.
const DEFAULT_FACTORY: &[u8] = b"abc";

/// What a new meter is made with.
#[derive(Clone, Copy)]
pub struct NewMeter<'a> {
    /// Bytes per block of an image transfer, 1 to 1,024.
    pub block_size: u32,
    /// Bytes of the longest image, 1 to 16,777,216.
    pub capacity: u32,
    /// The path of the file whose bytes are the image that it runs, 1 byte to the capacity. Without one it runs `abc`.
    pub factory_file: Option<&'a str>,
}

/// What the store of a new meter is made with, which one can be made with.
#[derive(Drop)]
pub struct NewStore {
    block_size: u32,
    capacity: u32,
    factory: Vec<u8>,
    ghost fits: { IsSetup Two block_size capacity factory.items },
}

impl NewStore {
    /// What these options describe, with the image in the file that they name. No file is made.
    ///
    /// # Errors
    ///
    /// - `FactoryFault`: the file of the factory image can't be read.
    /// - `BadSetup`: the options describe no meter.
    /// - `OutOfMemory`.
    pub fn judged<F: Files<File = File>>(
        rt: &F,
        alloc: Global,
        fresh: &NewMeter<'_>,
    ) -> Result<NewStore, NewStoreError>
        ensures numbers { IfOk result (λ new. (new.block_size ≡ fresh.now.block_size) × (new.capacity ≡ fresh.now.capacity)) }
        ensures factory { fresh.now.factory_file ≡ None → IfOk result (λ new. new.factory.items ≡ default_factory) }
        ensures bad_setup { fresh.now.factory_file ≡ None → result ≡ Err NewStoreError.BadSetup
            → ¬ IsSetup Two fresh.now.block_size fresh.now.capacity default_factory }
        ensures factory_fault { fresh.now.factory_file ≡ None → result ≢ Err NewStoreError.FactoryFault }
    {
        let factory = factory_of(rt, alloc, fresh)?;
        match NewStore::of(fresh.block_size, fresh.capacity, factory) {
            Some(new) => Ok(new),
            None => Err(NewStoreError::BadSetup),
        }
    }

    /// What a store is made with, if one can be made with these. No file is made.
    pub fn of(block_size: u32, capacity: u32, factory: Vec<u8>) -> Option<NewStore>
        ensures numbers { IfSome result (λ new. (new.block_size ≡ block_size) × (new.capacity ≡ capacity)) }
        ensures factory { IfSome result (λ new. new.factory.items ≡ factory.items) }
        ensures some { OnSome result (IsSetup Two block_size capacity factory.items) }
        ensures none { IfNone result (¬ IsSetup Two block_size capacity factory.items) }
    {
        if !is_setup(HeaderVersion::Two, capacity, block_size, &factory) {
            return None;
        }
        Some(NewStore {
            block_size,
            capacity,
            factory,
        })
    }

    /// A new meter in a new file.
    ///
    /// # Errors
    ///
    /// - `StoreFault`, with its reason if that is known: the file can't be made, or one is there, or another program's is FILE.new or
    ///   FILE.journal.
    /// - `Device`, `BadHeader` or `BadImage`: what was made can't be read, or holds no meter.
    pub fn meter<F: Files<File = File>>(
        &self,
        rt: &F,
        path: &str,
    ) -> Result<MeterCore<FileStore>, Because<StoreFileError>>
        ensures begins { IfOk result (λ meter. restarted meter.meter ≡ meter.meter) }
        ensures faultless { IfOk result (λ meter. meter.faults ≡ 0) }
        ensures whole { IfErr result (λ b. b.error ≢ StoreFileError.BadFile) }
    {
        let mut folder = folder_of(rt, path, StoreFileError::StoreFault)?;
        let made = FileStore::create_in(&mut folder, self.capacity, self.block_size, &self.factory);
        match made {
            Ok(store) => match opened(store) {
                Ok(meter) => Ok(meter),
                Err(error) => Err(Because::from(error)),
            },
            Err(because) => match because.error {
                FileStoreError::StoreFault => Err(refused(because)),
                // It can be made with these, and nothing is read of what is made.
                FileStoreError::BadSetup | FileStoreError::OutOfMemory | FileStoreError::BadFile =>
                    unreachable!(),
            },
        }
    }
}

/// The meter that the file holds, and `None` if no file is there and one can be made.
///
/// # Errors
///
/// - `StoreFault`, with its reason if that is known: the file can't be opened, or another store has it open; or it isn't there, and another
///   program's file is FILE.new or FILE.journal.
/// - `Device`, which prints `Fault`: the file can't be read, or its header not be written in version 2.
/// - `BadFile`, `BadHeader` or `BadImage`: the file holds no meter. It is left as it is.
pub fn found_meter<F: Files<File = File>>(
    rt: &F,
    path: &str,
) -> Result<Option<MeterCore<FileStore>>, Because<StoreFileError>>
    ensures begins { IfOk result (λ found. IfSome found (λ meter. restarted meter.meter ≡ meter.meter)) }
    ensures faultless { IfOk result (λ found. IfSome found (λ meter. meter.faults ≡ 0)) }
{
    let mut folder = folder_of(rt, path, StoreFileError::StoreFault)?;
    match FileStore::reopen_in(&mut folder) {
        Ok(store) => match opened(store) {
            Ok(meter) => Ok(Some(meter)),
            Err(error) => Err(Because::from(error)),
        },
        Err(because) if is_missing(because.reason) => {
            check_new(&mut folder)?;
            Ok(None)
        }
        Err(because) => Err(refused(because)),
    }
}

/// Checks that a store can be made.
fn check_new<F: Folder>(folder: &mut F) -> Result<(), Because<StoreFileError>>
    ensures { IfErr result (λ b. b.error ≡ StoreFileError.StoreFault) }
{
    match FileStore::check_absent_in(folder) {
        Ok(()) => Ok(()),
        Err(because) => Err(refused(because)),
    }
}

/// What a refusal of a store's files is, with its reason.
fn refused(because: Because<FileStoreError>) -> Because<StoreFileError>
    requires { IsReopenRefusal because.error }
    ensures fault { because.error ≡ FileStoreError.StoreFault → result.error ≡ StoreFileError.StoreFault }
    ensures file { because.error ≡ FileStoreError.BadFile → result.error ≡ StoreFileError.BadFile }
    ensures reason { result.reason ≡ because.reason }
{
    let error = match because.error {
        FileStoreError::StoreFault => StoreFileError::StoreFault,
        FileStoreError::BadFile => StoreFileError::BadFile,
        FileStoreError::BadSetup | FileStoreError::OutOfMemory => unreachable!(),
    };
    Because {
        error,
        reason: because.reason,
    }
}

/// The meter that a store holds, whose header is one of version 2 from then on.
///
/// # Errors
///
/// - `Device`: the store failed.
/// - `BadHeader` or `BadImage`: it holds no meter.
fn opened<S: ImageStore + Drop>(store: S) -> Result<MeterCore<S>, StoreFileError>
    ensures opened { IfOk result (λ meter. Opens (S.known store) meter) }
    ensures begins { IfOk result (λ meter. restarted meter.meter ≡ meter.meter) }
    ensures faultless { IfOk result (λ meter. meter.faults ≡ (S.known store).faults) }
    ensures refused { IfErr result (λ e. (error : OpenError) × (e ≡ store_error error) × (back : S)
        × Refused (S.known store) error (S.known back)) }
{
    match MeterCore::open_store(store) {
        Ok(meter) => Ok(meter),
        Err((error, _store)) => Err(StoreFileError::from(error)),
    }
}

/// The factory image of a new meter.
fn factory_of<F: Files<File = File>>(
    rt: &F,
    alloc: Global,
    fresh: &NewMeter<'_>,
) -> Result<Vec<u8>, NewStoreError>
    ensures default { fresh.now.factory_file ≡ None → IfOk result (λ factory. factory.items ≡ default_factory) }
    ensures bad_setup { fresh.now.factory_file ≡ None → result ≢ Err NewStoreError.BadSetup }
    ensures factory_fault { fresh.now.factory_file ≡ None → result ≢ Err NewStoreError.FactoryFault }
{
    match fresh.factory_file {
        None => Ok(Vec::from_slice(alloc, DEFAULT_FACTORY)?),
        Some(file) => bytes_of_file(rt, alloc, file),
    }
}

/// All bytes of the file of a factory image.
fn bytes_of_file<F: Files<File = File>>(
    rt: &F,
    alloc: Global,
    path: &str,
) -> Result<Vec<u8>, NewStoreError> {
    let mut file = File::open(rt, path).map_err(|_| NewStoreError::FactoryFault)?;
    let mut reads = Reads::none();
    match read_input(alloc, &mut file, &mut reads) {
        Ok(bytes) => Ok(bytes),
        // No meter takes an image of more than 64 MiB.
        Err(InputError::TooMuchInput) => Err(NewStoreError::BadSetup),
        Err(InputError::OutOfMemory) => Err(NewStoreError::OutOfMemory),
        Err(InputError::Input) => Err(NewStoreError::FactoryFault),
    }
}
