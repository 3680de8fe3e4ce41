//! Rows under names.
ghost use Rattle.std.specs.Prelude.{◌≡◌, List, ℕ, OnOk, cond, None, Some};
ghost use Rattle.std.specs.Option.{option_map};
ghost use Rattle.service_client.specs.Mirrors.{row_named};
ghost use Rattle.service_client.specs.Replies.{is_word};

use std::alloc::AllocError;

/// A row and its name.
#[derive(Drop)]
pub struct NamedRow {
    pub name: Vec<u8>,
    pub line: Vec<u8>,
}

/// Removes the rows of this name.
pub(crate) fn remove_row(rows: &mut Vec<NamedRow>, name: &[u8])
    ensures { (other : List ℕ) → row_named rows.new.items other ≡ cond (is_word name.now other) None (row_named rows.old.items other) }
{
    rows.retain(|row| row.name.as_slice() != name);
}

/// Sets the row of this name. After an error the name may have no row.
pub(crate) fn set_row(rows: &mut Vec<NamedRow>, name: &[u8], line: &[u8]) -> Result<(), AllocError>
    ensures { OnOk result ((other : List ℕ) → row_named rows.new.items other ≡ cond (is_word name.now other) (Some line.now) (row_named rows.old.items other)) }
{
    let alloc = *rows.allocator();
    let row = NamedRow {
        name: Vec::from_slice(alloc, name)?,
        line: Vec::from_slice(alloc, line)?,
    };
    remove_row(rows, name);
    rows.insert(0, row)?;
    Ok(())
}

/// Returns the row of this name.
pub(crate) fn row_named<'a>(rows: &'a [NamedRow], name: &[u8]) -> Option<&'a [u8]>
    ensures { option_map (λ row. row.now) result ≡ row_named rows.now name.now }
{
    for row in rows {
        if row.name.as_slice() == name {
            return Some(row.line.as_slice());
        }
    }
    None
}
