//! The lines of Prometheus' text format (exposition format 0.0.4): what a metric is, and its samples.

ghost use Rattle.std.specs.Prelude.{◌≡◌, ◌++◌, OnOk, string_bytes};
ghost use Rattle.fw_events.specs.Metrics.{book_label, book_sample, escaped, escaped_char, heading, row_sample, sample};

use std::alloc::AllocError;

/// Appends what a metric is, and of which type. The help has no backslash and no line feed.
pub(crate) fn append_heading(
    text: &mut String,
    name: &str,
    help: &str,
    kind: &str,
) -> Result<(), AllocError>
    ensures { OnOk result (string_bytes text.new ≡ string_bytes text.old ++ heading name.now help.now kind.now) }
{
    write!(text, "# HELP {name} {help}\n# TYPE {name} {kind}\n")
}

/// Appends a sample of a head end, which has these labels besides.
pub(crate) fn append_sample(
    text: &mut String,
    name: &str,
    head: u32,
    labels: &str,
    value: u64,
) -> Result<(), AllocError>
    ensures { OnOk result (string_bytes text.new ≡ string_bytes text.old ++ sample name.now head labels.now value) }
{
    write!(text, "{name}{{head=\"{head}\"{labels}}} {value}\n")
}

/// Appends how many rows of a campaign are in this state.
pub(crate) fn append_row_sample(
    text: &mut String,
    head: u32,
    serial: u32,
    state: &str,
    value: usize,
) -> Result<(), AllocError>
    ensures { OnOk result (string_bytes text.new ≡ string_bytes text.old ++ row_sample head serial state.now value) }
{
    write!(
        text,
        "dlmsfw_rows{{head=\"{head}\",campaign=\"{serial}\",state=\"{state}\"}} {value}\n"
    )
}

/// Appends that a head end has this book.
pub(crate) fn append_book_sample(text: &mut String, head: u32, book: &str) -> Result<(), AllocError>
    ensures { OnOk result (string_bytes text.new ≡ string_bytes text.old ++ book_sample head book.now) }
{
    append_book_label(text, head)?;
    append_escaped(text, book)?;
    put(text, "\"} 1\n")
}

/// Appends all that stands before the path of a book.
fn append_book_label(text: &mut String, head: u32) -> Result<(), AllocError>
    ensures { OnOk result (string_bytes text.new ≡ string_bytes text.old ++ book_label head) }
{
    write!(text, "dlmsfw_book_info{{head=\"{head}\",book=\"")
}

/// Appends words.
fn put(text: &mut String, words: &str) -> Result<(), AllocError>
    ensures { OnOk result (string_bytes text.new ≡ string_bytes text.old ++ words.now) }
{
    text.push_str(words)
}

/// Appends the value of a label.
fn append_escaped(text: &mut String, value: &str) -> Result<(), AllocError>
    ensures { OnOk result (string_bytes text.new ≡ string_bytes text.old ++ escaped value.now) }
{
    for character in value.chars() {
        append_character(text, character)?;
    }
    Ok(())
}

/// Appends a character of the value of a label.
fn append_character(text: &mut String, character: char) -> Result<(), AllocError>
    ensures { OnOk result (string_bytes text.new ≡ string_bytes text.old ++ escaped_char character) }
{
    match character {
        '\\' => text.push_str("\\\\"),
        '"' => text.push_str("\\\""),
        '\n' => text.push_str("\\n"),
        other => text.push(other),
    }
}
