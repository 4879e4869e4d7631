//! How much a table may have.

ghost use Rattle.std.specs.Prelude.{◌≡◌, ◌≤◌, length};
ghost use Rattle.std.specs.List.{list_all};
ghost use Rattle.volt_catalog.specs.Rules as rules;

use crate::column::Column;
use volt_value::ColType;

/// How many tables there may be.
pub(crate) const MOST_TABLES: usize = 32;

/// How many indexes there may be.
pub(crate) const MOST_INDEXES: usize = 64;

/// How many columns a table may have.
const MOST_COLUMNS: usize = 32;

/// The greatest length of a VARCHAR, in bytes.
const MOST_TEXT: u16 = 2048;

/// The greatest width of a row, in bytes.
const MOST_ROW: u32 = 8192;

/// Whether a VARCHAR has a length that it may have. A type of integers has none, and is right.
fn has_length(kind: ColType) -> bool
    ensures { result ≡ rules.has_length kind }
{
    match kind {
        ColType::Varchar(most) => 1 <= most && most <= MOST_TEXT,
        _ => true,
    }
}

/// Whether each VARCHAR has a length that it may have.
fn have_lengths(columns: &[Column]) -> bool
    ensures { result ≡ list_all (λ column. rules.has_length column.kind) columns.now }
{
    columns.iter().all(|column| has_length(column.kind))
}

/// The bytes that a column counts in a row: 9 for an integer, and 5 more than its length for a text.
fn width_of(kind: ColType) -> u32
    ensures exact { result ≡ rules.width_of kind }
    ensures within { result ≤ 65540 }
{
    match kind {
        ColType::Varchar(most) => most as u32 + 5,
        _ => 9,
    }
}

/// The width of a row of few columns.
fn row_width(columns: &[Column]) -> u32
    requires { length columns.now ≤ MOST_COLUMNS }
    ensures { result ≡ rules.row_width columns.now }
{
    let mut width = 0;
    for column in columns {
        width += width_of(column.kind);
    }
    width
}

/// Whether a table may have these columns: at most 32, of VARCHAR lengths from 1 to 2,048, in a row
/// of at most 8,192 bytes.
pub(crate) fn within_limits(columns: &[Column]) -> bool
    ensures { result ≡ rules.within_limits columns.now }
{
    if columns.len() > MOST_COLUMNS {
        return false;
    }
    have_lengths(columns) && row_width(columns) <= MOST_ROW
}
