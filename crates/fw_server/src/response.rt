//! The response that carries the outcome of a request.

ghost use Rattle.std.specs.Prelude.{◌≡◌, ◌+◌, ◌<◌, ◌≤◌, ◌^◌, length, IfOk, IfErr, OnOk};
ghost use Rattle.fw_wrapper.specs.Wrapper.{max_apdu};
ghost use Rattle.fw_blocks.specs.Cuts.{max_blocks};
ghost use Rattle.fw_axdr.specs.Value.{octet_string, array};
ghost use Rattle.fw_axdr.specs.Bits.{bytes_for};
ghost use Rattle.fw_axdr.specs.View.{value_of};
ghost use Rattle.fw_axdr.specs.declared.error.AxdrError.TheVariants.{BadLength};
ghost use Rattle.fw_apdu.specs.Response.{SpellsResponse, response_bytes};
ghost use Rattle.fw_apdu.specs.View.{response_content, response_invoke};
ghost use Rattle.fw_apdu.specs.declared.error.ApduError.TheVariants as error;
ghost use Rattle.fw_names.specs.Name.{IsName};
ghost use Rattle.fw_server.specs.Answer.{value_of_answer, HasSizes, HasAnswerSizes, info_of, infos, response_of, bits_in};
ghost use Rattle.fw_server.specs.declared.outcome.Answer.TheVariants as answer;

use crate::outcome::{Answer, ImageInfo, Outcome};
use fw_apdu::{ApduError, GetDataResult, Invoke, Response, write_response};
use fw_axdr::{AxdrError, Bits, Data, Items, Octets};
use std::alloc::{AllocError, Global};

/// The APDU that answers a request with this invoke byte, in the short spelling.
///
/// # Errors
///
/// `BadData(BadLength)` for 2^32 bits or more, which have no spelling, and otherwise `OutOfMemory` alone. The bits of an
/// image's blocks are fewer.
pub fn answer(alloc: Global, invoke: &Invoke, outcome: &Outcome) -> Result<Vec<u8>, ApduError>
    ensures written { IfOk result (λ apdu. apdu.items ≡ response_bytes invoke.now.0 (response_of outcome.now)) }
    ensures spelled { IfOk result (λ apdu. SpellsResponse apdu.items invoke.now.0 (response_of outcome.now)) }
    ensures sizes { OnOk result (HasAnswerSizes outcome.now) }
    // The size in bytes, beside the bits.
    ensures size { IfOk result (λ apdu. length apdu.items ≤ 94 + bytes_for (bits_in outcome.now)) }
    // So the bits of the most blocks fit one APDU.
    ensures fits { bits_in outcome.now ≤ max_blocks → IfOk result (λ apdu. length apdu.items ≤ max_apdu) }

    ensures memory { bits_in outcome.now < 2 ^ 32 → IfErr result (λ e. e ≡ error.OutOfMemory) }
    ensures too_long { 2 ^ 32 ≤ bits_in outcome.now → result ≡ Err (error.BadData BadLength) }
{
    if bit_count(outcome) > u32::MAX as usize {
        return Err(ApduError::BadData(AxdrError::BadLength));
    }
    let response = response(alloc, *invoke, outcome)?;
    write_response(alloc, &response)
}

/// How many bits an outcome carries.
fn bit_count(outcome: &Outcome) -> usize
    ensures { result ≡ bits_in outcome.now }
{
    match outcome {
        Outcome::Got(Answer::TransferredBlocks(blocks)) => blocks.len(),
        _ => 0,
    }
}

/// The response with this invoke byte.
fn response(alloc: Global, invoke: Invoke, outcome: &Outcome) -> Result<Response, AllocError>
    ensures invoke { IfOk result (λ r. response_invoke r ≡ invoke.0) }
    ensures content { IfOk result (λ r. response_content r ≡ response_of outcome.now) }
    ensures sizes { OnOk result (HasAnswerSizes outcome.now) }
{
    Ok(match outcome {
        Outcome::Got(answer) => Response::Get {
            invoke,
            result: GetDataResult::Data(value(alloc, answer)?),
        },
        Outcome::GetCode(code) => Response::Get {
            invoke,
            result: GetDataResult::Code(*code),
        },
        Outcome::SetCode(code) => Response::Set {
            invoke,
            code: *code,
        },
        Outcome::ActionCode(code) => Response::Action {
            invoke,
            code: *code,
            returned: None,
        },
    })
}

/// The value that a GET has for an answer.
fn value(alloc: Global, answer: &Answer) -> Result<Data, AllocError>
    ensures value { IfOk result (λ found. value_of found ≡ value_of_answer answer.now) }
    ensures sizes { OnOk result (HasSizes answer.now) }
{
    match answer {
        Answer::LogicalName(name) => octets(alloc, &name.0),
        Answer::BlockSize(size) => Ok(Data::DoubleLongUnsigned(*size)),
        Answer::TransferredBlocks(blocks) => Ok(Data::BitString(copied(alloc, blocks)?)),
        Answer::FirstNotTransferred(number) => Ok(Data::DoubleLongUnsigned(*number)),
        Answer::TransferEnabled(enabled) => Ok(Data::Boolean(*enabled)),
        Answer::TransferStatus(status) => Ok(Data::Enumerated(*status)),
        Answer::ToActivate(info) => infos(alloc, *info),
        Answer::ActiveName(name) => octets(alloc, name.to_bytes().as_slice()),
        Answer::ActiveDigest(digest) => octets(alloc, digest),
    }
}

/// The octet-string of these bytes.
fn octets(alloc: Global, bytes: &[u8]) -> Result<Data, AllocError>
    ensures { IfOk result (λ found. value_of found ≡ octet_string bytes.now) }
{
    Ok(Data::OctetString(Octets::from_vec(bytes.to_vec(alloc)?)))
}

/// A copy of bits.
fn copied(alloc: Global, bits: &Bits) -> Result<Bits, AllocError>
    ensures { IfOk result (λ copy. copy ≡ bits.now) }
{
    fw_axdr::laws::short_spells();
    Ok(Bits::from_vec(bits.as_bytes().to_vec(alloc)?, bits.len()))
}

/// image_to_activate_info: one element, or none.
fn infos(alloc: Global, info: Option<ImageInfo>) -> Result<Data, AllocError>
    ensures value { IfOk result (λ found. value_of found ≡ array (infos info)) }
    ensures sizes { OnOk result (HasSizes (answer.ToActivate info)) }
{
    let items = match info {
        None => Vec::new(alloc),
        Some(info) => vec![in alloc; element(alloc, info)?]?,
    };
    Ok(Data::Array(Items::from_vec(items)))
}

/// The element of image_to_activate_info.
fn element(alloc: Global, info: ImageInfo) -> Result<Data, AllocError>
    ensures value { IfOk result (λ found. value_of found ≡ info_of info) }
    ensures sizes { OnOk result (IsName info.name) }
{
    let size = Data::DoubleLongUnsigned(info.size);
    let name = octets(alloc, info.name.to_bytes().as_slice())?;
    let digest = octets(alloc, &info.name.digest)?;
    let fields = vec![in alloc; size, name, digest]?;
    Ok(Data::Structure(Items::from_vec(fields)))
}
