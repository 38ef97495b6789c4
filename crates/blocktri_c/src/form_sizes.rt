//! The sizes of a form, as C is told them.

ghost use Rattle.std.specs.Prelude.{◌≡◌, pos};
ghost use Rattle.blocktri_c.specs.FormSizes.{AreFormSizes, known_or};

use blocktri::{ComponentCounts, Sizes, Wants};

/// The sizes of a form. -1 stands for what is not known, since it was not wanted.
#[repr(C)]
#[derive(Clone, Copy, Debug, PartialEq, Eq)]
pub struct FormSizes {
    pub rank: i64,
    pub horizontal_rows: i64,
    pub horizontal_columns: i64,
    pub square: i64,
    pub vertical_rows: i64,
    pub vertical_columns: i64,
    pub blocks: i64,
    pub horizontal_components: i64,
    pub vertical_components: i64,
}

/// What a call is to find.
pub fn wants(blocks: bool, components: bool) -> Wants
    ensures { result ≡ record { blocks = blocks; components = components } }
{
    Wants { blocks, components }
}

/// The sizes, for C.
pub fn form_sizes(sizes: Sizes) -> FormSizes
    ensures { AreFormSizes sizes result }
{
    let (horizontal, vertical) = match sizes.components {
        Some(
            ComponentCounts {
                horizontal,
                vertical,
            },
        ) => (horizontal as i64, vertical as i64),
        None => (-1, -1),
    };
    FormSizes {
        rank: sizes.rank as i64,
        horizontal_rows: sizes.horizontal_rows as i64,
        horizontal_columns: sizes.horizontal_columns as i64,
        square: sizes.square as i64,
        vertical_rows: sizes.vertical_rows as i64,
        vertical_columns: sizes.vertical_columns as i64,
        blocks: number_or(sizes.blocks),
        horizontal_components: horizontal,
        vertical_components: vertical,
    }
}

// A number, or -1 where it is not known.
fn number_or(number: Option<u32>) -> i64
    ensures { result ≡ known_or number }
{
    match number {
        Some(number) => number as i64,
        None => -1,
    }
}
