//! The options of the command.

use crate::lines::AuditForm;
use crate::list::{address_of, path_in};
use fw_names::HeadId;
use fw_sealport::Order;
use std::net::SocketAddr;

/// The options of the command.
#[derive(Drop)]
pub struct AuditOptions<'a> {
    /// The path of the list of what is audited.
    pub audited: &'a str,
    /// The paths of the files of books, if meters are audited with them.
    pub books: Vec<&'a str>,
    /// The head ends that are audited, each with its book. Meters are audited with these books too.
    pub head_logs: Vec<HeadLog<'a>>,
    /// The addresses that may ask each meter, and any if none is given.
    pub heads: Vec<SocketAddr>,
    /// The key files of head ends whose links with meters are sealed.
    pub keys: Vec<KeyOption<'a>>,
    /// The order in which meters took the counters of what came on these.
    pub order: Order,
    /// What meters that began new were made with.
    pub fresh: FreshMeter<'a>,
    /// The form of what is printed.
    pub report: AuditForm,
}

/// What a meter that began new was made with.
#[derive(Clone, Copy)]
pub struct FreshMeter<'a> {
    /// Bytes per block of an image transfer, 1 to 1,024.
    pub block_size: u32,
    /// Bytes of the longest image, 1 to 16,777,216.
    pub capacity: u32,
    /// The path of the file whose bytes are the image that it ran. Without one it ran `abc`.
    pub factory_file: Option<&'a str>,
}

/// The key file of a head end.
#[derive(Clone, Copy)]
pub struct KeyOption<'a> {
    /// The address of the head end, as captures of meters have it.
    pub address: SocketAddr,
    /// Its number.
    pub head: HeadId,
    /// The path of the file.
    pub path: &'a str,
}

impl<'a> KeyOption<'a> {
    /// The key file of a text: the address of the head end, its number and the path, with commas between them and none in the path.
    pub fn from_text(text: &'a str) -> Option<KeyOption<'a>> {
        let (address, rest) = text.split_once(',')?;
        let (number, path) = rest.split_once(',')?;
        Some(KeyOption {
            address: address_of(address).ok()?,
            head: HeadId::new(number.parse::<u32>().ok()?)?,
            path: path_in(path).ok()?,
        })
    }
}

/// A head end that is audited.
#[derive(Clone, Copy)]
pub struct HeadLog<'a> {
    /// Its address, as its capture and those of meters have it.
    pub address: SocketAddr,
    /// The path of its capture.
    pub capture: &'a str,
    /// The path of its book.
    pub book: &'a str,
}

impl<'a> HeadLog<'a> {
    /// The head end of a text: its address, the path of its capture and that of its book, with commas between them and none in a path.
    pub fn from_text(text: &'a str) -> Option<HeadLog<'a>> {
        let (address, rest) = text.split_once(',')?;
        let (capture, book) = rest.split_once(',')?;
        Some(HeadLog {
            address: address_of(address).ok()?,
            capture: path_in(capture).ok()?,
            book: path_in(book).ok()?,
        })
    }
}
