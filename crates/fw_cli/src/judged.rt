//! Meters before their files are made. Each is judged first, so that inputs that refuse one leave no file of another.

ghost use Rattle.std.specs.Prelude.{◌≡◌, None, Err, IfErr};
ghost use Rattle.fw_store.specs.Setup.{IsSetup};
ghost use Rattle.fw_store.specs.declared.version.HeaderVersion.TheVariants.{Two};
ghost use Rattle.fw_host.specs.Meters.{default_factory};
ghost use Rattle.fw_cli.specs.MeterErrors.{IsOfSetup};

use crate::meter_error::MeterFailure;
use fw_disk::Because;
use fw_host::{NewMeter, NewStore, NewStoreError, StoreFileError, found_meter};
use fw_meter::MeterCore;
use fw_store::FileStore;
use std::alloc::Global;
use std::fs::File;
use std::rc::Rc;
use std::rt::Files;

/// A meter that was judged.
pub(crate) enum Judged {
    /// Its file is there, and has it.
    Found(MeterCore<FileStore>),
    /// No file is there. Its store is made with this.
    New(Rc<NewStore>),
}

// Written out, so that letting go of it is one call in a proof. A derived `Drop` is unfolded there field by field, which takes minutes.
impl Drop for Judged {
    fn drop(self) {
        match self {
            Judged::Found(_) => {}
            Judged::New(_) => {}
        }
    }
}

impl Judged {
    /// The meter, whose file is made where it isn't there.
    pub(crate) fn made<F: Files<File = File>>(
        self,
        rt: &F,
        path: &str,
    ) -> Result<MeterCore<FileStore>, Because<StoreFileError>> {
        match self {
            Judged::Found(meter) => Ok(meter),
            Judged::New(new) => new.meter(rt, path),
        }
    }
}

/// What judges meters: what new ones are made with, read once the first of them is met.
#[derive(Drop)]
pub(crate) struct Judge<'a> {
    fresh: NewMeter<'a>,
    store: Option<Rc<NewStore>>,
}

impl<'a> Judge<'a> {
    /// New meters are made with these.
    pub(crate) fn of(fresh: NewMeter<'a>) -> Judge<'a>
        ensures { result.fresh ≡ fresh.entry }
    {
        Judge { fresh, store: None }
    }

    /// The meter in a file, or what it is made with if no file is there. No file is made.
    pub(crate) fn meter<F: Files<File = File>>(
        &mut self,
        rt: &F,
        alloc: Global,
        path: &str,
    ) -> Result<Judged, MeterFailure>
        ensures fresh { self.new.fresh ≡ self.old.fresh }
        ensures number { IfErr result (λ e. e.number ≡ None) }
        ensures asked { IfErr result (λ e. IsOfSetup self.old.fresh e.error) }
    {
        match found_meter(rt, path) {
            Ok(Some(meter)) => Ok(Judged::Found(meter)),
            Ok(None) => self.new_meter(rt, alloc),
            Err(because) => Err(MeterFailure::from(because)),
        }
    }

    /// What a meter is made with.
    fn new_meter<F: Files<File = File>>(
        &mut self,
        rt: &F,
        alloc: Global,
    ) -> Result<Judged, MeterFailure>
        ensures fresh { self.new.fresh ≡ self.old.fresh }
        ensures number { IfErr result (λ e. e.number ≡ None) }
        ensures asked { IfErr result (λ e. IsOfSetup self.old.fresh e.error) }
    {
        let new = self.new_store(rt, alloc)?;
        Ok(Judged::New(new))
    }

    /// What new meters are made with.
    fn new_store<F: Files<File = File>>(
        &mut self,
        rt: &F,
        alloc: Global,
    ) -> Result<Rc<NewStore>, NewStoreError>
        ensures fresh { self.new.fresh ≡ self.old.fresh }
        ensures bad_setup { self.old.fresh.factory_file ≡ None → result ≡ Err NewStoreError.BadSetup
            → ¬ IsSetup Two self.old.fresh.block_size self.old.fresh.capacity default_factory }
    {
        if let Some(store) = &self.store {
            return Ok(store.clone()?);
        }
        let new = NewStore::judged(rt, alloc, &self.fresh)?;
        let new = Rc::new(alloc, new)?;
        self.store = Some(new.clone()?);
        Ok(new)
    }
}
