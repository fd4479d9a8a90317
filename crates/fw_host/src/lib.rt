//! What the commands `meter`, `head` and `status` stand on: the files of stores, books, lists and captures, the lines that they print, their
//! ports, and the terminal of a head end.
#![tactic(auto)]

mod busy;
mod capture_file;
mod capture_making;
mod capture_port;
mod capture_port_calls;
mod capture_start;
mod counter_file;
mod datagram_port;
mod dating;
mod error;
mod event_file;
mod event_making;
mod files;
mod head_book;
mod head_dropped;
mod head_lines;
mod head_new_book;
mod head_opening;
mod head_port;
mod head_port_calls;
mod head_progress;
mod head_reach;
mod lines;
mod list_cause;
mod meter_lines;
mod meter_list;
mod meter_store;
mod metrics_file;
mod port_below;
mod port_clock;
mod recorder;
mod sealed_port_calls;
mod sealing;
mod strangers;
mod synced_sink;
mod wave_list;

pub use busy::{BusyMeter, busy_meter};
pub use capture_file::open_capture;
pub use capture_port::CapturePort;
pub use capture_start::{Started, put_start};
pub use counter_file::{check_no_counter, make_counters, open_counters};
pub use datagram_port::{ClosedBy, DatagramPort};
pub use dating::date;
pub use error::{
    BookFileError, CancelsError, CaptureFileError, CounterFileError, HeadKeysError, ListError,
    MeterKeysError, NewBookError, NewCounterError, NewStoreError, StoreFileError,
};
pub use event_file::EventFile;
pub use head_book::{BookOptions, open_book};
pub use head_lines::untaken_line;
pub use head_new_book::{check_absent, make_book};
pub use head_opening::{Opening, cancels_of, check_cancel, check_parts, listed_meters, parts_of};
pub use head_port::UdpHeadPort;
pub use head_progress::{HeadProgress, ProgressOutput, Unwritten};
pub use lines::Lines;
pub use list_cause::{ListCause, line_cause};
pub use meter_lines::listening_line;
pub use meter_list::read_list;
pub use meter_store::{NewMeter, NewStore, found_meter};
pub use metrics_file::MetricsFile;
pub use sealing::{Sealing, SealingOptions, head_links, meter_links};
pub use strangers::Strangers;
pub use synced_sink::SyncedSink;
pub use wave_list::{Planned, WaveList};
