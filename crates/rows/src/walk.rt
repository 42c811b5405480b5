// Refusal 20 over rows, one after another: what stands before a row, what the row leads to, and the whole walk.
ghost use Rattle.std.specs.Prelude.{◌≡◌, false, ◌≤◌, ltb};
ghost use Rattle.base.specs.Pick.{pick};
ghost use Rattle.paper.specs.Accounts.{account};
ghost use Rattle.paper.specs.Batch.{a_file, a_group, most14};
ghost use Rattle.paper.specs.Proper.{file_due, group_due, item_due, may_stop, at_top, batch_proper};
ghost use Rattle.paper.specs.Rows.{rows_in, things_in};
ghost use Rattle.rows.specs.read.Told.{told, told_item};
ghost use Rattle.rows.specs.walk.Walks.{stage_of, before_of, Walks, verdict_of};

use crate::field::{Field, Wrong};
use crate::read::{ItemRow, Row};

// What may come next: an account file, a group, an item, or any of them.
#[derive(Clone, Copy)]
pub enum Stage {
    NeedFile,
    NeedGroup,
    NeedItem,
    Any,
}

// Before a row: what may come next, account files, items of the last one, whether the last group is single, and its sum.
#[derive(Clone, Copy)]
pub struct Before {
    pub stage: Stage,
    pub files: u64,
    pub items: u64,
    pub single: bool,
    pub sum: u64,
}

// Before the first row.
pub fn top() -> Before
    ensures { before_of result ≡ at_top }
{
    Before {
        stage: Stage::NeedFile,
        files: 0,
        items: 0,
        single: false,
        sum: 0,
    }
}

// May an account file come here? A batch has at most 1,000.
fn file_due(stage: Stage, files: u64) -> bool
    ensures { result ≡ pick (file_due (stage_of stage)) (ltb files 1000) false }
{
    match stage {
        Stage::NeedFile | Stage::Any => files < 1000,
        Stage::NeedGroup | Stage::NeedItem => false,
    }
}

// May a group?
fn group_due(stage: Stage) -> bool
    ensures { result ≡ group_due (stage_of stage) }
{
    matches!(stage, Stage::NeedGroup | Stage::Any)
}

// May an item? An account file has at most 99,999.
fn item_due(stage: Stage, items: u64) -> bool
    ensures { result ≡ pick (item_due (stage_of stage)) (ltb items 99999) false }
{
    match stage {
        Stage::NeedItem | Stage::Any => items < 99999,
        Stage::NeedFile | Stage::NeedGroup => false,
    }
}

// May the rows end here?
pub fn may_stop(stage: Stage) -> bool
    ensures { result ≡ may_stop (stage_of stage) }
{
    matches!(stage, Stage::Any)
}

// An account file's row: what stands before the next one, or the field that is not as "The batch" says.
pub fn file_proper(before: Before, kind: u64, number: u64) -> Result<Before, Field>
    ensures { Walks before (a_file kind number) result }
{
    let stage = before.stage;
    if !file_due(stage, before.files) {
        return Err(Field::Row);
    }
    crate::proper::file_check(kind, number)?;
    Ok(Before {
        stage: Stage::NeedGroup,
        files: before.files + 1,
        items: 0,
        single: false,
        sum: 0,
    })
}

// A group's row.
pub fn group_proper(before: Before, date: u64, prefix: u64, base: u64) -> Result<Before, Field>
    ensures { Walks before (a_group date (account prefix base)) result }
{
    let stage = before.stage;
    if !group_due(stage) {
        return Err(Field::Row);
    }
    crate::proper::group_check(date, prefix, base)?;
    Ok(Before {
        stage: Stage::NeedItem,
        files: before.files,
        items: before.items,
        single: account::is_nobody(prefix, base),
        sum: 0,
    })
}

// An item's row.
pub fn item_proper(texts: &[u8], before: Before, x: ItemRow) -> Result<Before, Field>
    requires { before.sum ≤ most14 }
    ensures { Walks before (told_item texts.now x) result }
{
    let stage = before.stage;
    if !item_due(stage, before.items) {
        return Err(Field::Row);
    }
    crate::proper::item_check(texts, x, before.single, before.sum)?;
    Ok(Before {
        stage: Stage::Any,
        files: before.files,
        items: before.items + 1,
        single: before.single,
        sum: before.sum + x.amount,
    })
}

// Any row; one of no known kind is none of a batch.
pub fn row_proper(texts: &[u8], before: Before, row: Option<Row>) -> Result<Before, Field>
    requires { before.sum ≤ most14 }
    ensures { Walks before (told texts.now row) result }
{
    let Some(row) = row else {
        return Err(Field::Row);
    };
    match row {
        Row::Item(x) => item_proper(texts, before, x),
        Row::Group { date, prefix, base } => group_proper(before, date, prefix, base),
        Row::File { kind, number } => file_proper(before, kind, number),
    }
}

// All lent rows: nothing is wrong, or what is wrong first. Bytes that are left over are a row of no known kind.
pub fn proper_rows(rows: &[u8], texts: &[u8]) -> Result<(), Wrong>
    ensures { verdict_of result ≡ batch_proper (things_in texts.now (rows_in rows.now)) }
{
    let count = rows.len() / 192;
    let mut before = top();
    for i in 0..count {
        let row = crate::read::read_row(rows, i * 192);
        before = match row_proper(texts, before, row) {
            Ok(next) => next,
            Err(field) => {
                return Err(Wrong {
                    row: i as u64 + 1,
                    field,
                });
            }
        };
    }
    if rows.len() == count * 192 && may_stop(before.stage) {
        return Ok(());
    }
    Err(Wrong {
        row: count as u64 + 1,
        field: Field::Row,
    })
}
