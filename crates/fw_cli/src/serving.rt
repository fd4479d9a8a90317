//! A meter answers datagrams, one a line, over any store.

ghost use Rattle.std.specs.Prelude.{◌≡◌, ◌+◌, ◌*◌, ◌^◌, ◌<◌, ◌≤◌, ◌++◌, ℕ, None, Some, length, codes, IfOk, IfErr, IfSome, OnOk, OnErr};
ghost use Rattle.hex.specs.Hex.{encode_lower};
ghost use Rattle.std.specs.Io.KnownBytes.{Keeps};
ghost use Rattle.fw_meter.specs.Handling.{reply_bytes};
ghost use Rattle.fw_cli.specs.Session.{AnswersLineOver, BeginsWell, Session, line_for};
ghost use Rattle.fw_faults.specs.Reading.{Gives, ReadsUntil, max_input};
ghost use Rattle.fw_cli.specs.Faults.{ComesBeforeInput, ComesBeforeOutput};
ghost use Rattle.fw_cli.specs.Answering.{WritesSession, fault_of_answer};

use crate::answer::AnswerError;
use fw_faults::{InputError, Reads, read_input};
use fw_meter::{MeterCore, OutOfMemory};
use fw_store::ImageStore;
use fw_text::first_line;
use fw_text::hexadecimal::{put_bytes, put_digits};
use std::alloc::{AllocError, Global};
use std::io::{Read, Write};

/// What the meter answers to its input, and the number of the line that ended that, if one did.
#[derive(Drop)]
struct Transcript {
    text: Vec<u8>,
    bad_line: Option<u64>,
}

/// The meter answers what the reader has.
pub(crate) fn serve<S: ImageStore + Drop, R: Read, W: Write>(
    alloc: Global,
    meter: MeterCore<S>,
    reader: &mut R,
    writer: &mut W,
) -> Result<(), AnswerError>
    ensures ok { OnOk result (WritesSession AnswersLineOver meter None (R.remaining reader.old) (R.remaining reader.new)
        (W.contents writer.old) (W.contents writer.new)) }
    ensures bad_line { (number : ℕ) → result ≡ Err (AnswerError.BadLine number)
        → WritesSession AnswersLineOver meter (Some number) (R.remaining reader.old) (R.remaining reader.new)
        (W.contents writer.old) (W.contents writer.new) }
    ensures later { IfErr result (λ e. ComesBeforeInput (fault_of_answer e) → ⊥) }
    ensures reading { IfErr result (λ e. ReadsUntil (fault_of_answer e) (R.remaining reader.old) (R.remaining reader.new)) }
    ensures memory { result ≡ Err AnswerError.OutOfMemory
        → Gives (R.remaining reader.old) (R.remaining reader.new) (λ count. (1 ≤ count) × (count ≤ max_input)) }
    ensures silent { IfErr result (λ e. ComesBeforeOutput (fault_of_answer e) → Keeps (W.contents writer.old) (W.contents writer.new)) }
{
    let mut reads = Reads::none();
    let input = match read_input(alloc, reader, &mut reads) {
        Ok(input) => input,
        Err(InputError::Input) => return Err(AnswerError::Input),
        Err(InputError::TooMuchInput) => return Err(AnswerError::TooMuchInput),
        Err(InputError::OutOfMemory) => return Err(AnswerError::OutOfMemory),
    };
    let transcript = match answer_lines(alloc, meter, &input) {
        Ok(transcript) => transcript,
        Err(_) => return Err(AnswerError::OutOfMemory),
    };
    writer
        .write_all(&transcript.text)
        .map_err(|_| AnswerError::Output)?;
    writer.flush().map_err(|_| AnswerError::Output)?;
    match transcript.bad_line {
        None => Ok(()),
        Some(number) => Err(AnswerError::BadLine(number)),
    }
}

/// What the meter answers to the lines of the input, up to the first that is no datagram in hexadecimal.
fn answer_lines<S: ImageStore + Drop>(
    alloc: Global,
    mut meter: MeterCore<S>,
    input: &[u8],
) -> Result<Transcript, OutOfMemory>
    requires size { length input.now ≤ max_input }
    ensures ok { IfOk result (λ t. Session AnswersLineOver meter input.now t.text.items t.bad_line) }
    // Nothing is answered where the first line is a bad one.
    ensures memory { OnErr result (BeginsWell input.now) }
{
    let mut text = Vec::new(alloc);
    let mut datagram = Vec::new(alloc);
    let mut rest = input;
    let mut number = 1u64;
    while let Some((line, after)) = first_line(rest) {
        if !put_bytes(&mut datagram, line)? {
            return Ok(Transcript {
                text,
                bad_line: Some(number),
            });
        }
        let handled = meter.handle(alloc, &datagram)?;
        append_line(&mut text, &handled.reply)?;
        rest = after;
        number += 1;
    }
    Ok(Transcript {
        text,
        bad_line: None,
    })
}

/// Appends the line of a reply.
fn append_line(text: &mut Vec<u8>, reply: &Option<Vec<u8>>) -> Result<(), AllocError>
    ensures { OnOk result (text.new.items ≡ text.old.items ++ line_for (reply_bytes reply.now)) }
{
    match reply {
        None => text.extend_from_slice(b"-\n"),
        Some(reply) => append_digits(text, reply),
    }
}

/// Appends the digits of these bytes and a line feed. The text grows once, and each digit is written where it stays.
fn append_digits(text: &mut Vec<u8>, bytes: &[u8]) -> Result<(), AllocError>
    ensures { OnOk result (text.new.items ≡ text.old.items ++ (encode_lower bytes.now ++ codes "\n")) }
{
    let start = text.len();
    let Some(end) = end_of_digits(start, bytes.len()) else {
        return Err(AllocError);
    };
    text.resize(end + 1, b'\n')?;
    put_digits(bytes, &mut text[start..end]);
    Ok(())
}

/// Where the digits of `count` bytes end that begin here, if a line feed has room there.
fn end_of_digits(start: usize, count: usize) -> Option<usize>
    ensures { IfSome result (λ end. (end ≡ start + 2 * count) × (end + 1 < 2 ^ 64)) }
{
    let size = count.checked_mul(2)?;
    let end = start.checked_add(size)?;
    end.checked_add(1)?;
    Some(end)
}
