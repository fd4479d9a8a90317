//! What a tick sends.

ghost use Rattle.std.specs.Prelude.{◌≡◌, ◌<◌, ◌≤◌, [], ◌∷◌, map, length, None, IfOk, OnOk};
ghost use Rattle.std.specs.FinMap.{empty, get};
ghost use Rattle.fw_blocks.specs.Width.{max_width};
ghost use Rattle.fw_apdu.specs.Request.{invoke_ids, request_bytes};
ghost use Rattle.fw_wrapper.specs.Wrapper.{wrapped, wport};
ghost use Rattle.fw_blocks.specs.Cuts.{cut, max_block_size};
ghost use Rattle.fw_client.specs.Ask.{Fits, request_of, kind_of, CarriesRequest};
ghost use Rattle.fw_client.specs.State.{asking, invoke_byte};
ghost use Rattle.fw_client.specs.View.{ask_of};
ghost use Rattle.fw_head.specs.Phase.{block_ask};
ghost use Rattle.fw_head.specs.Row.{bytes_of, datagrams, asking_all};
ghost use Rattle.fw_head.specs.Private.{Carry};

use fw_blocks::Geometry;
use fw_client::{Ask, AskError, Client, OutOfMemory};
use std::alloc::Global;

/// Asks one thing.
pub(crate) fn ask_one(
    alloc: Global,
    client: &mut Client,
    ask: &Ask<'_>,
) -> Result<Vec<Vec<u8>>, OutOfMemory>
    requires idle { client.old.asks ≡ empty }
    requires fits { Fits (ask_of ask.now) }
    ensures sent { IfOk result (λ sent. bytes_of sent.items ≡ datagrams client.old (ask_of ask.now ∷ [])) }
    ensures carry { IfOk result (λ sent. Carry client.old (ask_of ask.now ∷ []) (bytes_of sent.items)) }
    ensures most { IfOk result (λ sent. length sent.items ≤ max_width) }
    ensures asked { OnOk result (client.new ≡ asking_all client.old (ask_of ask.now ∷ [])) }
{
    let datagram = datagram(alloc, client, ask)?;
    Ok(vec![in alloc; datagram]?)
}

/// Asks two things, in this order.
pub(crate) fn ask_two(
    alloc: Global,
    client: &mut Client,
    first: &Ask<'_>,
    second: &Ask<'_>,
) -> Result<Vec<Vec<u8>>, OutOfMemory>
    requires idle { client.old.asks ≡ empty }
    requires first_fits { Fits (ask_of first.now) }
    requires second_fits { Fits (ask_of second.now) }
    ensures sent { IfOk result (λ sent. bytes_of sent.items ≡ datagrams client.old (ask_of first.now ∷ ask_of second.now ∷ [])) }
    ensures carry { IfOk result (λ sent. Carry client.old (ask_of first.now ∷ ask_of second.now ∷ []) (bytes_of sent.items)) }
    ensures most { IfOk result (λ sent. length sent.items ≤ max_width) }
    ensures asked { OnOk result (client.new ≡ asking_all client.old (ask_of first.now ∷ ask_of second.now ∷ [])) }
{
    let former = datagram(alloc, client, first)?;
    let latter = datagram(alloc, client, second)?;
    Ok(vec![in alloc; former, latter]?)
}

/// Transfers the blocks of these numbers, in this order.
pub(crate) fn ask_blocks(
    alloc: Global,
    client: &mut Client,
    image: &[u8],
    geometry: Geometry,
    numbers: &[u32],
) -> Result<Vec<Vec<u8>>, OutOfMemory>
    requires idle { client.old.asks ≡ empty }
    requires most { length numbers.now ≤ max_width }
    ensures sent { IfOk result (λ sent. bytes_of sent.items ≡ datagrams client.old (map (block_ask image.now geometry) numbers.now)) }
    ensures carry { IfOk result (λ sent. Carry client.old (map (block_ask image.now geometry) numbers.now) (bytes_of sent.items)) }
    ensures most { IfOk result (λ sent. length sent.items ≤ max_width) }
    ensures asked { OnOk result (client.new ≡ asking_all client.old (map (block_ask image.now geometry) numbers.now)) }
{
    let mut sent = Vec::with_capacity(alloc, numbers.len())?;
    let mut rest = numbers;
    while let Some((number, others)) = rest.split_first() {
        let value = block(image, geometry, *number);
        let ask = Ask::Block {
            number: *number,
            value,
        };
        sent.push(datagram(alloc, client, &ask)?)?;
        rest = others;
    }
    Ok(sent)
}

/// The datagram of an ask whose id isn't outstanding.
fn datagram(alloc: Global, client: &mut Client, ask: &Ask<'_>) -> Result<Vec<u8>, OutOfMemory>
    requires free { get client.old.asks client.old.next ≡ None }
    requires fits { Fits (ask_of ask.now) }
    ensures written { IfOk result (λ datagram. datagram.items
        ≡ wrapped wport wport (request_bytes (invoke_byte client.old.next) (request_of (ask_of ask.now)))) }
    ensures carries { IfOk result (λ datagram.
        CarriesRequest datagram.items (invoke_byte client.old.next) (request_of (ask_of ask.now))) }
    ensures id { client.old.next < invoke_ids }
    ensures asked { OnOk result (client.new ≡ asking client.old (kind_of (ask_of ask.now))) }
{
    match client.ask(alloc, ask) {
        Ok(datagram) => Ok(datagram),
        Err(AskError::OutOfMemory) => Err(OutOfMemory),
        Err(AskError::AllBusy) => unreachable!(),
    }
}

/// The bytes of a block of the image, none if there is no such block.
fn block(image: &[u8], geometry: Geometry, number: u32) -> &[u8]
    ensures cut { result.now ≡ cut geometry.block_size image.now number }
    ensures fits { length result.now ≤ max_block_size }
{
    match geometry.cut(image, number) {
        Some(bytes) => bytes,
        None => &[],
    }
}
