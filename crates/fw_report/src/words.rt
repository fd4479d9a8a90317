//! What a datagram says, in words.

ghost use Rattle.std.specs.Prelude.{◌≡◌, ◌++◌, codes, OnOk, string_bytes};
ghost use Rattle.fw_report.specs.Trace.{addressed_words, apdu_words, attribute_name, axdr_name, member_word, member_words, message_words, obis_text, object_words, release_words, service_word, shown_words, title_words, unread_words, wrap_name};
ghost use Rattle.fw_report.specs.declared.message.Message.{Message};

use crate::message::{Addressed, Message, Service, ShownValue, Title, Unread};
use fw_apdu::ApduError;
use fw_axdr::AxdrError;
use fw_rows::head_number;
use fw_server::Reading;
use fw_wrapper::WrapError;
use std::alloc::AllocError;

/// Appends what a datagram says.
pub fn append_message(text: &mut String, message: Message) -> Result<(), AllocError>
    ensures { OnOk result (string_bytes text.new ≡ string_bytes text.old ++ message_words message) }
{
    match message {
        Message::Get(attribute) => append_attribute(text, attribute),
        Message::Enable(true) => text.push_str("enable"),
        Message::Enable(false) => text.push_str("disable"),
        Message::Initiate { title, size } => append_initiate(text, title, size),
        Message::InitiateUnnamed(size) => write!(text, "initiate ? ({size} bytes)"),
        Message::Block { number, size } => write!(text, "block {number} ({size} bytes)"),
        Message::Verify => text.push_str("verify"),
        Message::Activate => text.push_str("activate"),
        Message::Foreign(addressed) => append_addressed(text, addressed),
        Message::Got(shown) => append_got(text, shown),
        Message::GotCode(code) => write!(text, "get code {code}"),
        Message::SetCode(code) => write!(text, "set {code}"),
        Message::ActionCode(code) => write!(text, "action {code}"),
        Message::Unread { size, why } => append_unread(text, size, why),
    }
}

/// Appends that an attribute is asked for.
fn append_attribute(text: &mut String, attribute: Reading) -> Result<(), AllocError>
    ensures { OnOk result (string_bytes text.new ≡ string_bytes text.old ++ message_words (Message.Get attribute)) }
{
    let name = attribute_name(attribute);
    write!(text, "get {name}")
}

/// The name of an attribute.
fn attribute_name(attribute: Reading) -> &'static str
    ensures { result.now ≡ attribute_name attribute }
{
    match attribute {
        Reading::LogicalName(_) => "logical name",
        Reading::BlockSize => "block size",
        Reading::TransferredBlocks => "transferred blocks",
        Reading::FirstNotTransferred => "first not transferred block",
        Reading::TransferEnabled => "transfer enabled",
        Reading::TransferStatus => "transfer status",
        Reading::ToActivate => "image to activate",
        Reading::ActiveName => "active firmware identifier",
        Reading::ActiveDigest => "active firmware signature",
    }
}

/// Appends which image is initiated.
fn append_initiate(text: &mut String, title: Title, size: u32) -> Result<(), AllocError>
    ensures { OnOk result (string_bytes text.new ≡ string_bytes text.old ++ message_words (Message.Initiate title size)) }
{
    text.push_str("initiate ")?;
    append_title(text, title)?;
    write!(text, " ({size} bytes)")
}

/// Appends the numbers of a campaign, and the release, if there is one.
fn append_title(text: &mut String, title: Title) -> Result<(), AllocError>
    ensures { OnOk result (string_bytes text.new ≡ string_bytes text.old ++ title_words title) }
{
    let (head, serial) = (head_number(title.campaign), title.campaign.serial());
    write!(text, "campaign {head} {serial}")?;
    append_release(text, title.release)
}

/// Appends a release, and nothing for 0, which is none.
fn append_release(text: &mut String, release: u32) -> Result<(), AllocError>
    ensures { OnOk result (string_bytes text.new ≡ string_bytes text.old ++ release_words release) }
{
    if release == 0 {
        return Ok(());
    }
    write!(text, " release {release}")
}

/// Appends the answer to a GET.
fn append_got(text: &mut String, shown: ShownValue) -> Result<(), AllocError>
    ensures { OnOk result (string_bytes text.new ≡ string_bytes text.old ++ message_words (Message.Got shown)) }
{
    text.push_str("get ")?;
    append_shown(text, shown)
}

/// Appends a value in short.
fn append_shown(text: &mut String, shown: ShownValue) -> Result<(), AllocError>
    ensures { OnOk result (string_bytes text.new ≡ string_bytes text.old ++ shown_words shown) }
{
    match shown {
        ShownValue::Number(number) => write!(text, "{number}"),
        ShownValue::Flag(true) => text.push_str("true"),
        ShownValue::Flag(false) => text.push_str("false"),
        ShownValue::Status(status) => write!(text, "status {status}"),
        ShownValue::Bits(count) => write!(text, "bits {count}"),
        ShownValue::Name(title) => append_title(text, title),
        ShownValue::Octets(size) => write!(text, "? ({size} bytes)"),
        ShownValue::Images(count) => write!(text, "images {count}"),
        ShownValue::Other => text.push_str("?"),
    }
}

/// Appends what a request is about that no meter has here.
fn append_addressed(text: &mut String, addressed: Addressed) -> Result<(), AllocError>
    ensures { OnOk result (string_bytes text.new ≡ string_bytes text.old ++ addressed_words addressed) }
{
    append_object(text, addressed)?;
    append_member(text, addressed)
}

/// Appends the class and the instance of an object.
fn append_object(text: &mut String, addressed: Addressed) -> Result<(), AllocError>
    ensures { OnOk result (string_bytes text.new ≡ string_bytes text.old ++ object_words addressed) }
{
    let (word, class) = (service_word(addressed.service), addressed.class);
    write!(text, "{word} class {class} ")?;
    append_obis(text, addressed.instance)
}

/// Appends the attribute or the method.
fn append_member(text: &mut String, addressed: Addressed) -> Result<(), AllocError>
    ensures { OnOk result (string_bytes text.new ≡ string_bytes text.old ++ member_words addressed) }
{
    let (member, number) = (member_word(addressed.service), addressed.number);
    write!(text, " {member} {number}")
}

/// Appends an OBIS code.
#[tactic(auto, unfolding(crate::specs::Trace::obis_text))]
fn append_obis(text: &mut String, name: [u8; 6]) -> Result<(), AllocError>
    ensures { OnOk result (string_bytes text.new ≡ string_bytes text.old ++ obis_text name) }
{
    let [a, b, c, d, e, f] = name;
    write!(text, "{a}-{b}:{c}.{d}.{e}.{f}")
}

/// The word of a service.
fn service_word(service: Service) -> &'static str
    ensures { result.now ≡ service_word service }
{
    match service {
        Service::Get => "get",
        Service::Set => "set",
        Service::Action => "action",
    }
}

/// What a service addresses of an object.
fn member_word(service: Service) -> &'static str
    ensures { result.now ≡ member_word service }
{
    match service {
        Service::Get | Service::Set => "attribute",
        Service::Action => "method",
    }
}

/// Appends that so many bytes can't be read, and why.
fn append_unread(text: &mut String, size: usize, why: Unread) -> Result<(), AllocError>
    ensures { OnOk result (string_bytes text.new ≡ string_bytes text.old ++ message_words (Message.Unread size why)) }
{
    write!(text, "? ({size} bytes), ")?;
    append_unread_cause(text, why)
}

/// Appends why bytes can't be read.
fn append_unread_cause(text: &mut String, why: Unread) -> Result<(), AllocError>
    ensures { OnOk result (string_bytes text.new ≡ string_bytes text.old ++ unread_words why) }
{
    match why {
        Unread::Wrapper(fault) => append_wrap(text, fault),
        Unread::Apdu(fault) => append_apdu(text, fault),
    }
}

/// Appends the fault of a wrapper.
fn append_wrap(text: &mut String, fault: WrapError) -> Result<(), AllocError>
    ensures { OnOk result (string_bytes text.new ≡ string_bytes text.old ++ (codes "wrapper " ++ wrap_name fault)) }
{
    let name = wrap_name(fault);
    write!(text, "wrapper {name}")
}

/// The name of a wrapper's fault.
fn wrap_name(fault: WrapError) -> &'static str
    ensures { result.now ≡ wrap_name fault }
{
    match fault {
        WrapError::Short => "Short",
        WrapError::Version => "Version",
        WrapError::Length => "Length",
        WrapError::TooLong => "TooLong",
        WrapError::OutOfMemory => "OutOfMemory",
    }
}

/// Appends the fault of an APDU, or of the Data in it.
fn append_apdu(text: &mut String, fault: ApduError) -> Result<(), AllocError>
    ensures { OnOk result (string_bytes text.new ≡ string_bytes text.old ++ apdu_words fault) }
{
    match fault {
        ApduError::Truncated => text.push_str("APDU Truncated"),
        ApduError::UnknownService => text.push_str("APDU UnknownService"),
        ApduError::UnsupportedForm => text.push_str("APDU UnsupportedForm"),
        ApduError::BadData(fault) => append_data(text, fault),
        ApduError::Trailing => text.push_str("APDU Trailing"),
        ApduError::OutOfMemory => text.push_str("APDU OutOfMemory"),
    }
}

/// Appends the fault of a Data.
fn append_data(text: &mut String, fault: AxdrError) -> Result<(), AllocError>
    ensures { OnOk result (string_bytes text.new ≡ string_bytes text.old ++ (codes "Data " ++ axdr_name fault)) }
{
    let name = axdr_name(fault);
    write!(text, "Data {name}")
}

/// The name of a Data's fault.
fn axdr_name(fault: AxdrError) -> &'static str
    ensures { result.now ≡ axdr_name fault }
{
    match fault {
        AxdrError::Truncated => "Truncated",
        AxdrError::UnknownTag => "UnknownTag",
        AxdrError::BadLength => "BadLength",
        AxdrError::TooDeep => "TooDeep",
        AxdrError::OutOfMemory => "OutOfMemory",
    }
}
