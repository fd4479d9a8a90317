//! What a daemon seals with, if its options give keys: the links of the file of its keys, and the counters of these, in the file beside it.

ghost use Rattle.std.specs.Prelude.{◌≡◌, IfErr, IfOk, IsTrue, OnErr, Option, is_some};
ghost use Rattle.fw_host.specs.declared.sealing.SealingOptions.{SealingOptions as Options};
ghost use Rattle.fw_cli.specs.Faults.{FindsCounter, MakesCounter};
ghost use Rattle.fw_cli.specs.Sealing.{
  AreMade,
  IsHeadSealing,
  IsKeyed,
  IsMeterSealing,
  links_in,
  links_judged,
  links_of,
  options_of,
  sealing_of_new,
  sealing_of_old,
};

use crate::error::SealingError;
use fw_counter::KeptCounters;
use fw_disk::Because;
use fw_host::{
    CounterFileError, HeadKeysError, MeterKeysError, NewCounterError, Sealing, SealingOptions,
    check_no_counter, head_links, make_counters, meter_links, open_counters,
};
use fw_journal::FileDevice;
use fw_names::HeadId;
use fw_rollout::Listed;
use fw_sealport::Links;
use std::alloc::Global;
use std::fs::File;
use std::net::SocketAddr;
use std::rt::Files;

/// The links of a daemon, as the file of its keys has them.
#[derive(Drop)]
pub(crate) struct Keyed<'a> {
    options: SealingOptions<'a>,
    links: Links,
}

/// The links of a meter that listens at `own`, if its options give keys.
pub(crate) fn keyed_meter<'a, F: Files<File = File>>(
    rt: &F,
    alloc: Global,
    own: SocketAddr,
    sealing: Option<SealingOptions<'a>>,
) -> Result<Option<Keyed<'a>>, Because<MeterKeysError>>
    ensures options { IfOk result (λ keyed. options_of keyed ≡ sealing.entry) }
    ensures links { IfOk result (λ keyed. IsMeterSealing own sealing.entry (links_of keyed)) }
    ensures keyed { OnErr result (IsTrue (is_some sealing.entry)) }
{
    let Some(options) = sealing else {
        return Ok(None);
    };
    let links = meter_links(rt, alloc, &options, own)?;
    Ok(Some(Keyed { options, links }))
}

/// The links of a head end with the meters of its list, if its options give keys.
pub(crate) fn keyed_head<'a, F: Files<File = File>>(
    rt: &F,
    alloc: Global,
    sealing: Option<SealingOptions<'a>>,
    head: HeadId,
    list: &[Listed],
) -> Result<Option<Keyed<'a>>, Because<HeadKeysError>>
    ensures options { IfOk result (λ keyed. options_of keyed ≡ sealing.entry) }
    ensures links { IfOk result (λ keyed. IsHeadSealing sealing.entry head list.now (links_of keyed)) }
    ensures keyed { OnErr result (IsTrue (is_some sealing.entry)) }
{
    let Some(options) = sealing else {
        return Ok(None);
    };
    let links = head_links(rt, alloc, &options, head, list)?;
    Ok(Some(Keyed { options, links }))
}

/// What a daemon seals with, once it was judged.
pub(crate) enum JudgedSealing<'a> {
    /// It has no keys.
    Plain,
    /// The file of its counters is there, and has them.
    Found(Sealing),
    /// No such file is there. It is made for these links.
    New(Keyed<'a>),
}

// Written out, so that letting go of it is one call in a proof. A derived `Drop` is unfolded there field by field, which takes minutes.
impl Drop for JudgedSealing<'_> {
    fn drop(self) {
        match self {
            JudgedSealing::Plain => {}
            JudgedSealing::Found(_) => {}
            JudgedSealing::New(_) => {}
        }
    }
}

impl<'a> JudgedSealing<'a> {
    /// With these links, and the counters of their keys. No file is made.
    pub(crate) fn of<F: Files<File = File>>(
        rt: &F,
        alloc: Global,
        keyed: Option<Keyed<'a>>,
    ) -> Result<JudgedSealing<'a>, Because<SealingError>>
        ensures links { IfOk result (λ judged. links_judged judged ≡ links_of keyed.entry) }
        ensures makes { IfOk result (λ judged. AreMade judged → MakesCounter (options_of keyed.entry)) }
        ensures keyed { IfErr result (λ b. IsKeyed (options_of keyed.entry) b.error) }
    {
        let Some(Keyed { options, links }) = keyed else {
            return Ok(JudgedSealing::Plain);
        };
        if options.makes_counter {
            check_new(rt, alloc, options.keys)?;
            return Ok(JudgedSealing::New(Keyed { options, links }));
        }
        let counters = found_counters(rt, alloc, options.keys)?;
        Ok(JudgedSealing::Found(Sealing { links, counters }))
    }

    /// With its counters, whose file is made where it isn't there.
    pub(crate) fn made<F: Files<File = File>>(
        self,
        rt: &F,
        alloc: Global,
    ) -> Result<Option<Sealing>, Because<NewCounterError>>
        ensures links { IfOk result (λ sealing. links_in sealing ≡ links_judged self.entry) }
        ensures made { OnErr result (AreMade self.entry) }
    {
        match self {
            JudgedSealing::Plain => Ok(None),
            JudgedSealing::Found(sealing) => Ok(Some(sealing)),
            JudgedSealing::New(Keyed { options, links }) => {
                let counters = make_counters(rt, alloc, options.keys)?;
                Ok(Some(Sealing { links, counters }))
            }
        }
    }
}

/// Checks that counters can be made beside this key file.
fn check_new<F: Files<File = File>>(
    rt: &F,
    alloc: Global,
    keys: &str,
) -> Result<(), Because<SealingError>>
    ensures { (options : Option Options) → MakesCounter options → IfErr result (λ b. IsKeyed options b.error) }
{
    match check_no_counter(rt, alloc, keys) {
        Ok(()) => Ok(()),
        Err(because) => Err(not_new(because)),
    }
}

/// The counters beside this key file.
fn found_counters<F: Files<File = File>>(
    rt: &F,
    alloc: Global,
    keys: &str,
) -> Result<KeptCounters<FileDevice>, Because<SealingError>>
    ensures { (options : Option Options) → FindsCounter options → IfErr result (λ b. IsKeyed options b.error) }
{
    match open_counters(rt, alloc, keys) {
        Ok(counters) => Ok(counters),
        Err(because) => Err(not_found(because)),
    }
}

/// Why new counters can't be made, with its reason.
fn not_new(because: Because<NewCounterError>) -> Because<SealingError>
    ensures error { result.error ≡ sealing_of_new because.error }
    ensures reason { result.reason ≡ because.reason }
{
    Because {
        error: SealingError::from(because.error),
        reason: because.reason,
    }
}

/// Why counters aren't gone on with, with its reason.
fn not_found(because: Because<CounterFileError>) -> Because<SealingError>
    ensures error { result.error ≡ sealing_of_old because.error }
    ensures reason { result.reason ≡ because.reason }
{
    Because {
        error: SealingError::from(because.error),
        reason: because.reason,
    }
}
