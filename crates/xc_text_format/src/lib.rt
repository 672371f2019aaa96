//! What `printf` prints: formats with the conversions `d`, `i` and `u`, alone or with the lengths `l` and `ll`, and `%%`.
#![tactic(auto)]

ghost use Rattle.std.specs.Prelude.{◌≡◌, ◌++◌, ◌≤◌, ◌^◌, ◌<◌, length, IsSome, OnOk};
ghost use Rattle.std.specs.Option.{option_map};
ghost use Rattle.xc_text_format.specs.Pieces.{step_of, pieces_of, conversions_of, value_text, text_of};

use itoa::Buffer;
use std::alloc::AllocError;

/// A part of a format: a byte that is printed as it is, or a conversion of the next value.
#[derive(Clone, Copy, PartialEq, Eq)]
pub enum Piece {
    Byte(u8),
    /// The value as a signed number.
    Signed,
    /// The value as an unsigned number.
    Unsigned,
}

/// How much of a conversion has been read.
#[derive(Clone, Copy, PartialEq, Eq)]
pub enum Reading {
    Text,
    Percent,
    Long,
    LongLong,
}

/// What one more byte of a format makes.
#[derive(Clone, Copy, PartialEq, Eq)]
pub enum Step {
    Gives(Piece),
    Reads(Reading),
    Wrong,
}

fn after_byte(reading: Reading, byte: u8) -> Step
    ensures { result ≡ step_of reading byte }
{
    match (reading, byte) {
        (Reading::Text, b'%') => Step::Reads(Reading::Percent),
        (Reading::Text, byte) => Step::Gives(Piece::Byte(byte)),
        (Reading::Percent, b'%') => Step::Gives(Piece::Byte(b'%')),
        (Reading::Percent, b'l') => Step::Reads(Reading::Long),
        (Reading::Long, b'l') => Step::Reads(Reading::LongLong),
        (_, b'd' | b'i') => Step::Gives(Piece::Signed),
        (_, b'u') => Step::Gives(Piece::Unsigned),
        (_, _) => Step::Wrong,
    }
}

/// How many values a format prints. None where it is no format.
pub fn conversions(format: &[u8]) -> Option<usize>
    ensures { result ≡ option_map conversions_of (pieces_of format.now) }
{
    let mut reading = Reading::Text;
    let mut count = 0;
    for byte in format {
        match after_byte(reading, *byte) {
            Step::Gives(Piece::Byte(_)) => reading = Reading::Text,
            Step::Gives(Piece::Signed | Piece::Unsigned) => {
                reading = Reading::Text;
                count += 1;
            }
            Step::Reads(next) => reading = next,
            Step::Wrong => return None,
        }
    }
    if reading == Reading::Text {
        Some(count)
    } else {
        None
    }
}

/// Appends what a conversion prints of the next value.
fn print_value(out: &mut Vec<u8>, value: u64, signed: bool) -> Result<(), AllocError>
    ensures ok { OnOk result (out.new.items ≡ out.old.items ++ value_text signed value) }
{
    let mut buffer = Buffer::new();
    if signed {
        out.extend_from_slice(buffer.format(value.cast_signed()).as_bytes())
    } else {
        out.extend_from_slice(buffer.format(value).as_bytes())
    }
}

/// Appends what a format prints of these values, each conversion of the next one; what is no format prints nothing. After an
/// `Err` a part may be there.
pub fn print(out: &mut Vec<u8>, format: &[u8], values: &[u64]) -> Result<(), AllocError>
    ensures { OnOk result (out.new.items ≡ out.old.items ++ text_of format.now values.now) }
{
    if conversions(format).is_none() {
        return Ok(());
    }
    print_pieces(out, format, values)
}

fn print_pieces(out: &mut Vec<u8>, format: &[u8], values: &[u64]) -> Result<(), AllocError>
    requires { IsSome (pieces_of format.now) }
    ensures { OnOk result (out.new.items ≡ out.old.items ++ text_of format.now values.now) }
{
    let mut reading = Reading::Text;
    let mut values = values;
    for byte in format {
        match after_byte(reading, *byte) {
            Step::Gives(Piece::Byte(byte)) => {
                out.push(byte)?;
                reading = Reading::Text;
            }
            Step::Gives(piece) => {
                if let Some((value, others)) = values.split_first() {
                    print_value(out, *value, piece == Piece::Signed)?;
                    values = others;
                }
                reading = Reading::Text;
            }
            Step::Reads(next) => reading = next,
            Step::Wrong => unreachable!(),
        }
    }
    Ok(())
}
