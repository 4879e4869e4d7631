//! One value of a packed row, read where it stands.

ghost use Rattle.std.specs.Prelude.{◌≡◌, ℤ, negsuc, length};
ghost use Rattle.std.specs.Int.{w16, from_be_bytes};
ghost use Rattle.row_codec.specs.Cells.{cell_width, cell_value, value_of, text_of, IsSound};
ghost use Rattle.row_codec.specs.Seen.{seen};

use crate::cell::Cell;
use volt_value::ColType;

/// An integer, or NULL for the one that stands for it.
fn integer_or_null(n: i64, null: i64) -> Cell<'static>
    ensures { seen result ≡ value_of null n }
{
    if n == null { Cell::Null } else { Cell::Int(n) }
}

/// The text behind a length, of at most so many bytes.
fn text_or_null(most: u16, len: u16, bytes: &[u8]) -> Cell<'_>
    requires length { length bytes.now ≡ most }
    requires sound { IsSound (text_of most len bytes.now) }
    ensures { seen result ≡ text_of most len bytes.now }
{
    if len > most {
        return Cell::Null;
    }
    let text = &bytes[..len as usize];
    // The text was UTF-8 when it was packed.
    Cell::Text(unsafe { str::from_utf8_unchecked(text) })
}

/// The value of the bytes of a column.
pub(crate) fn read(kind: ColType, bytes: &[u8]) -> Cell<'_>
    requires length { length bytes.now ≡ cell_width kind }
    requires sound { IsSound (cell_value kind bytes.now) }
    ensures { seen result ≡ cell_value kind bytes.now }
{
    match kind {
        ColType::Tiny => {
            integer_or_null(i64::from(i8::from_be_bytes([bytes[0]])), i64::from(i8::MIN))
        }
        ColType::Small => {
            let n = i16::from_be_bytes([bytes[0], bytes[1]]);
            integer_or_null(i64::from(n), i64::from(i16::MIN))
        }
        ColType::Integer => {
            let n = i32::from_be_bytes([bytes[0], bytes[1], bytes[2], bytes[3]]);
            integer_or_null(i64::from(n), i64::from(i32::MIN))
        }
        ColType::Big => {
            let n = i64::from_be_bytes([
                bytes[0], bytes[1], bytes[2], bytes[3], bytes[4], bytes[5], bytes[6], bytes[7],
            ]);
            integer_or_null(n, i64::MIN)
        }
        ColType::Varchar(most) => {
            text_or_null(most, u16::from_be_bytes([bytes[0], bytes[1]]), &bytes[2..])
        }
    }
}
